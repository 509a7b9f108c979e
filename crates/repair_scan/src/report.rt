//! What a check tells of a file.
ghost use Rattle.std.specs.Prelude.{◌≡◌, ◌≤◌, ◌<◌, ◌*◌, ◌^◌, ◌||◌, not, ℕ, List, length, sum_by, Ok};
ghost use Rattle.space_model.specs.Sizes.{segment_units};
ghost use Rattle.file_model.specs.Header.{most_segments, located};
ghost use Rattle.file_model.specs.View.{view_of};
ghost use Rattle.file_model.specs.Taken.{rejects as rejects_of};
ghost use Rattle.file_model.specs.Fit.{is_dirty, index_named, needs_repair};
ghost use Rattle.repair_scan.specs.Reports.{index_state};
ghost use Rattle.repair_scan.specs.Filling.{is_in_order, report_with};

use crate::{Entries, Found, Located, Rejects};
use block_disk::FileState;
use file_model::laws::a_header_is_located_where_it_is_read;
use slot_table::Entry;

/// Whether a file has an index, and whether it lists exactly the taken blocks.
#[derive(Clone, Copy, Debug, PartialEq, Eq)]
pub enum IndexState {
    /// The header names none.
    Absent,
    /// It lists exactly the taken blocks. No index is read yet, so this does not come.
    Agrees,
    /// It is no well-formed chain, or lists others.
    Differs,
}

/// What a check tells of a file.
#[derive(Drop)]
pub struct Report {
    pub located: Located,
    /// How many keys the file's table has, and how many objects.
    pub keys: u32,
    pub objects: u64,
    pub rejects: Rejects,
    pub index: IndexState,
    pub sound: bool,
    pub needs_repair: bool,
}

/// The report by the header and by what a scan found.
pub(crate) fn report_with(place: Located, found: Found) -> Report
    requires { length found.entries ≤ segment_units * most_segments }
    ensures { result ≡ report_with place found }
{
    let needs_repair = is_out_of_order(&place, &found.rejects);
    Report {
        located: place,
        keys: found.entries.len() as u32,
        objects: count_objects(&found.entries),
        sound: is_dirty(place.head.state) || is_in_order(&place, &found.rejects),
        rejects: found.rejects,
        index: index_state(place.head.index),
        needs_repair,
    }
}

/// Whether a file needs repair, by its header and by the rejects that a scan found.
pub fn needs_repair(place: &Located, rejects: &Rejects) -> bool
    ensures { (f : List ℕ) → located f ≡ Ok place.now → rejects.now ≡ rejects_of (view_of place.now.head f)
        → result ≡ needs_repair place.now.head f }
{
    a_header_is_located_where_it_is_read();
    is_out_of_order(place, rejects)
}

/// Whether the header is dirty, or not all is in order.
fn is_out_of_order(place: &Located, rejects: &Rejects) -> bool
    ensures { result ≡ (is_dirty place.now.head.state || not (is_in_order place.now rejects.now)) }
{
    is_dirty(place.head.state) || !is_in_order(place, rejects)
}

fn is_dirty(state: FileState) -> bool
    ensures { result ≡ is_dirty state }
{
    match state {
        FileState::Closed => false,
        FileState::Dirty => true,
    }
}

/// Whether all segments are there, open gates stand at taken units alone, and no index is named.
fn is_in_order(place: &Located, rejects: &Rejects) -> bool
    ensures { result ≡ is_in_order place.now rejects.now }
{
    place.whole == place.head.segments && rejects.len() == 0 && place.head.index.is_none()
}

fn index_state(index: Option<u32>) -> IndexState
    ensures { result ≡ index_state (index_named index) }
{
    match index {
        Some(_) => IndexState::Differs,
        None => IndexState::Absent,
    }
}

/// How many objects all blocks have.
fn count_objects(entries: &Entries) -> u64
    requires { length entries.now ≤ segment_units * most_segments }
    ensures { result ≡ sum_by (λ e. e.count) entries.now }
{
    let mut total = 0;
    for place in 0..entries.len() {
        if let Some(entry) = entries.get(place) {
            total += objects_of(entry);
        }
    }
    total
}

/// How many objects a block has.
fn objects_of(entry: &Entry) -> u64
    ensures value { result ≡ entry.now.count }
    ensures fits { result < 2 ^ 32 }
{
    u64::from(entry.count)
}
