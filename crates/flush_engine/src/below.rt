//! What the laws of the crates below say of a flush, once for its functions.
ghost use Rattle.flush_engine.specs.Below.{StopLaws};

use book_model::file_laws::the_runs_of_a_book_meet_no_block_of_its_file;
use book_model::flush_laws::{
    a_book_of_a_file_may_be_flushed, after_a_flush_each_key_that_waited_has_its_new_objects,
    after_a_flush_the_book_has_the_flushed_ledger, after_a_flush_the_book_is_that_of_the_new_file,
};
use book_model::stop_laws::{
    a_file_may_be_left_as_it_is_or_flushed, a_flush_of_a_prepared_file_is_one_of_the_file,
    a_prepared_file_has_its_book, while_a_file_is_prepared_nothing_is_lost,
    while_blocks_are_written_each_key_has_its_old_or_its_new_objects,
};
use flush_steps::laws::a_file_that_may_be_flushed_has_whole_segments;

/// What a flush leaves of the file of a book, at any moment and when all is written.
pub(crate) fn what_a_flush_leaves()
    ensures { StopLaws }
{
    the_runs_of_a_book_meet_no_block_of_its_file();
    while_a_file_is_prepared_nothing_is_lost();
    a_prepared_file_has_its_book();
    a_flush_of_a_prepared_file_is_one_of_the_file();
    a_book_of_a_file_may_be_flushed();
    a_file_that_may_be_flushed_has_whole_segments();
    while_blocks_are_written_each_key_has_its_old_or_its_new_objects();
    a_file_may_be_left_as_it_is_or_flushed();
    after_a_flush_the_book_is_that_of_the_new_file();
    after_a_flush_each_key_that_waited_has_its_new_objects();
    after_a_flush_the_book_has_the_flushed_ledger();
}
