//! What the laws of the crates below say, once for all laws of this crate.
ghost use Rattle.book_model.specs.Below.{PlaceLaws, LedgerLaws, BlockLaws, FlushLaws, WriteLaws, StopLaws};

use file_model::flush_laws::{
    a_flush_leaves_each_key_its_old_or_its_new_objects, after_a_flush_each_key_has_its_new_objects,
};
use file_model::laws::{
    a_block_stands_as_it_is_read, a_file_with_a_header_is_sound_or_needs_repair,
    a_free_run_meets_no_block_and_has_no_open_gate, a_header_is_located_where_it_is_read,
    a_key_has_the_objects_of_its_one_block, gates_and_units_do_not_meet,
    open_gates_stand_at_taken_units_alone_where_nothing_is_rejected,
    what_is_seen_depends_on_gates_and_on_what_stands_behind_open_ones,
};
use file_model::packing_laws::the_block_of_objects_stands;
use file_model::write_laws::{
    torn_bodies_in_free_runs_are_not_seen, torn_gates_open_or_close_some,
    what_lies_outside_the_segments_that_count_is_not_seen, written_bodies_stand,
    written_gates_are_open_or_closed,
};
use space_model::ledger_laws::{
    a_payload_has_room_in_the_least_block, segments_are_added_as_long_as_there_is_no_place,
};
use space_model::run_laws::{a_place_depends_on_the_held_runs_alone, a_place_is_a_free_run};
use write_cache::laws::{a_key_keeps_its_place_and_has_its_last_state, the_ledger_goes_along};

/// How a run is placed, and how a key gets another state.
pub(crate) fn places_and_states()
    ensures { PlaceLaws }
{
    a_place_is_a_free_run();
    segments_are_added_as_long_as_there_is_no_place();
    a_key_keeps_its_place_and_has_its_last_state();
}

/// How the ledger goes along with the runs and the states.
pub(crate) fn the_ledger_below()
    ensures { LedgerLaws }
{
    a_place_depends_on_the_held_runs_alone();
    the_ledger_goes_along();
}

/// What stands behind open gates, and where a header is.
pub(crate) fn blocks_below()
    ensures { BlockLaws }
{
    a_block_stands_as_it_is_read();
    open_gates_stand_at_taken_units_alone_where_nothing_is_rejected();
    a_header_is_located_where_it_is_read();
}

/// Where a new block lies, and that it stands once it is written.
pub(crate) fn new_blocks_below()
    ensures { FlushLaws }
{
    a_payload_has_room_in_the_least_block();
    gates_and_units_do_not_meet();
    a_free_run_meets_no_block_and_has_no_open_gate();
    the_block_of_objects_stands();
}

/// What the writes of a flush leave of a file.
pub(crate) fn writes_below()
    ensures { WriteLaws }
{
    torn_bodies_in_free_runs_are_not_seen();
    written_bodies_stand();
    what_is_seen_depends_on_gates_and_on_what_stands_behind_open_ones();
    torn_gates_open_or_close_some();
    written_gates_are_open_or_closed();
    after_a_flush_each_key_has_its_new_objects();
    a_key_has_the_objects_of_its_one_block();
}

/// What a stop within a flush leaves of a file.
pub(crate) fn stops_below()
    ensures { StopLaws }
{
    a_file_with_a_header_is_sound_or_needs_repair();
    what_lies_outside_the_segments_that_count_is_not_seen();
    a_flush_leaves_each_key_its_old_or_its_new_objects();
}
