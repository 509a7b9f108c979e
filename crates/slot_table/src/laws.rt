//! Laws of the entries by slot, as contracts of functions that do nothing.
ghost use Rattle.std.specs.Prelude.{◌≡◌, ◌≢◌, ◌≤◌, ◌<◌, ◌+◌, ◌⊎◌, ℕ, List, ◌∷◌, length, sum_by};
ghost use Rattle.space_model.specs.Apart.{In, SameMembers};
ghost use Rattle.space_model.specs.Slots.{slot_of};
ghost use Rattle.file_model.specs.declared.entry.Entry.{Entry};
ghost use Rattle.slot_table.specs.BySlot.{BySlot, Slot, spare_at, entries_at, entries_in, objects_in, HasRoomFor, with_entry, without, parted, LacksUnit, IsDirectory, IsSlotOf};

/// A slot among more tells the slot among fewer.
#[tactic(auto, using(crate::proofs::Fewer::own_slot, crate::proofs::Fewer::fewer))]
pub fn a_slot_among_more_tells_the_slot_among_fewer()
    ensures own { (slot slots : ℕ) → slot < slots → slot_of slot slots ≡ slot }
    ensures fewer { (hash fewer more : ℕ) → 1 ≤ fewer → fewer ≤ more → slot_of (slot_of hash more) fewer ≡ slot_of hash fewer }
{}

/// What a directory keeps: entries of one unit are one, and a slot has the entries whose slot it is.
pub fn each_entry_stands_once_in_its_slot()
    ensures one { (b : BySlot) (x y : Entry) → IsDirectory b → In x (entries_in b) → In y (entries_in b) → x.unit ≡ y.unit → x ≡ y }
    ensures slot { (b : BySlot) (k : ℕ) → IsDirectory b → IsSlotOf b k (entries_at b k) }
{}

/// An entry is there after one was added exactly where it was there or is that one.
pub fn an_added_entry_joins_the_others()
    ensures new { (b : BySlot) (e : Entry) → 1 ≤ length b → In e (entries_in (with_entry b e)) }
    ensures old { (b : BySlot) (e x : Entry) → In x (entries_in b) → In x (entries_in (with_entry b e)) }
    ensures none_else { (b : BySlot) (e x : Entry) → In x (entries_in (with_entry b e)) → (e ≡ x) ⊎ In x (entries_in b) }
    ensures slots { (b : BySlot) (e : Entry) → length (with_entry b e) ≡ length b }
    ensures keys { (b : BySlot) (e : Entry) → 1 ≤ length b → length (entries_in (with_entry b e)) ≡ length (entries_in b) + 1 }
    ensures objects { (b : BySlot) (e : Entry) → 1 ≤ length b → objects_in (with_entry b e) ≡ objects_in b + e.count }
    ensures directory { (b : BySlot) (e : Entry) → IsDirectory b → LacksUnit b e.unit → IsDirectory (with_entry b e) }
{}

/// An entry is there after one was removed exactly where it was there and is not that one, whose unit may be used again.
pub fn a_removed_entry_alone_goes()
    ensures others { (b : BySlot) (e x : Entry) → IsDirectory b → In e (entries_in b) → In x (entries_in b) → x ≢ e → In x (entries_in (without b e.hash e.unit)) }
    ensures none_else { (b : BySlot) (e x : Entry) → In x (entries_in (without b e.hash e.unit)) → In x (entries_in b) × (x ≢ e) }
    ensures unit { (b : BySlot) (e : Entry) → IsDirectory b → In e (entries_in b) → LacksUnit (without b e.hash e.unit) e.unit }
    ensures slots { (b : BySlot) (hash unit : ℕ) → length (without b hash unit) ≡ length b }
    ensures keys { (b : BySlot) (e : Entry) → IsDirectory b → In e (entries_in b) → length (entries_in (without b e.hash e.unit)) + 1 ≡ length (entries_in b) }
    ensures objects { (b : BySlot) (e : Entry) → IsDirectory b → In e (entries_in b) → objects_in (without b e.hash e.unit) + e.count ≡ objects_in b }
    ensures directory { (b : BySlot) (hash unit : ℕ) → IsDirectory b → IsDirectory (without b hash unit) }
{}

/// Where room was made for entries there is room for the first, for the others after it was added, and for all after an
/// entry was removed.
pub fn room_that_was_made_lasts()
    ensures first { (slots : List Slot) (e : Entry) (es : List Entry) → 1 ≤ length slots → HasRoomFor slots (e ∷ es) → 1 ≤ spare_at slots (slot_of e.hash (length slots)) }
    ensures rest { (old new : List Slot) (e : Entry) (es : List Entry) → length new ≡ length old → HasRoomFor old (e ∷ es)
        → spare_at old (slot_of e.hash (length old)) ≤ spare_at new (slot_of e.hash (length old)) + 1
        → ((k : ℕ) → k ≢ slot_of e.hash (length old) → spare_at new k ≡ spare_at old k) → HasRoomFor new es }
    ensures more { (old new : List Slot) (es : List Entry) → length new ≡ length old → HasRoomFor old es → ((k : ℕ) → spare_at old k ≤ spare_at new k) → HasRoomFor new es }
{}

/// Growing keeps every entry, and leaves a slot as it was unless some of its entries have another slot.
pub fn growing_keeps_every_entry()
    ensures entries { (slots : ℕ) (es : List Entry) → 1 ≤ slots → SameMembers es (entries_in (parted slots es)) }
    ensures slots { (slots : ℕ) (es : List Entry) → length (parted slots es) ≡ slots }
    ensures keys { (slots : ℕ) (es : List Entry) → 1 ≤ slots → length (entries_in (parted slots es)) ≡ length es }
    ensures objects { (slots : ℕ) (es : List Entry) → 1 ≤ slots → objects_in (parted slots es) ≡ sum_by (λ e. e.count) es }
    ensures unsplit { (b : BySlot) (slots k : ℕ) → IsDirectory b → length b ≤ slots → k < length b
        → ((e : Entry) → In e (entries_at b k) → slot_of e.hash slots ≡ k) → entries_at (parted slots (entries_in b)) k ≡ entries_at b k }
    ensures directory { (b : BySlot) (slots : ℕ) → IsDirectory b → length b ≤ slots → IsDirectory (parted slots (entries_in b)) }
{}
