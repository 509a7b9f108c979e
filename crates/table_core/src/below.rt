//! What the laws of the crates below say of a repair, once for its functions.
ghost use Rattle.table_core.specs.Below.{RepairLaws};

use file_model::laws::{
    a_file_with_a_header_is_sound_or_needs_repair, a_header_is_located_where_it_is_read,
};
use file_model::write_laws::what_lies_outside_the_segments_that_count_is_not_seen;

/// What is seen of a file whose header changes, and that it is fit.
pub(crate) fn what_a_repair_leaves()
    ensures { RepairLaws }
{
    a_file_with_a_header_is_sound_or_needs_repair();
    a_header_is_located_where_it_is_read();
    what_lies_outside_the_segments_that_count_is_not_seen();
}
