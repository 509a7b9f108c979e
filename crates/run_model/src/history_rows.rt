//! Worked rows of a history and of what a stop may leave, as contracts of functions that do nothing.
ghost use Rattle.std.specs.Prelude.{◌≡◌, [], ◌∷◌};
ghost use Rattle.term_model.specs.Written.{number, pair, list_of};
ghost use Rattle.run_model.specs.Reply.{ok, ok_table, error};
ghost use Rattle.run_model.specs.State.{closed, refused, empty, objects_in};
ghost use Rattle.file_model.specs.declared.head.Unreadable.TheVariants.{NotDets};
ghost use Rattle.run_model.specs.History.{history_from, replies, state_at, last_sync};
ghost use Rattle.run_model.specs.Good.{MayBeFound};
ghost use Rattle.run_model.specs.Written.{opens, inserts, looks_up, syncs, closes};
ghost use Rattle.run_model.specs.Rows.{small_set, replacing, old_table, both_gates, new_table, no_gates};

/// The replies, up to the first command that is not built.
pub fn a_history_has_a_reply_for_each_command()
    ensures replaced { replies replacing ≡ ok_table ∷ ok ∷ ok ∷ [] }
    ensures not_built { replies (history_from (closed small_set) (opens ∷ opens ∷ syncs ∷ [])) ≡ ok_table ∷ [] }
    ensures refused { replies (history_from (closed (refused NotDets)) (opens ∷ opens ∷ [])) ≡ error "not_a_dets_file" ∷ error "not_a_dets_file" ∷ [] }
    ensures opened_again { replies (history_from (closed small_set) (opens ∷ closes ∷ opens ∷ looks_up (number 1) ∷ []))
        ≡ ok_table ∷ ok ∷ ok_table ∷ list_of (pair (number 1) (number 1) ∷ []) ∷ [] }
    ensures empty { replies (history_from (closed empty) []) ≡ [] }
{}

/// What a key has at each moment, also before its file was made and behind the last command.
pub fn a_history_has_the_objects_of_each_moment()
    ensures first { objects_in (state_at replacing 0) (number 1) ≡ pair (number 1) (number 1) ∷ [] }
    ensures opened { objects_in (state_at replacing 1) (number 1) ≡ pair (number 1) (number 1) ∷ [] }
    ensures inserted { objects_in (state_at replacing 2) (number 1) ≡ pair (number 1) (number 2) ∷ [] }
    ensures behind { objects_in (state_at replacing 9) (number 1) ≡ pair (number 1) (number 2) ∷ [] }
    ensures no_file { objects_in (state_at (history_from (closed empty) (opens ∷ [])) 0) (number 1) ≡ [] }
{}

/// The last sync point at or before each place: the start, a sync that is answered, and a close that closes the table.
pub fn a_sync_and_a_close_are_sync_points()
    ensures start { last_sync replacing 0 ≡ 0 }
    ensures opened { last_sync replacing 1 ≡ 0 }
    ensures inserted { last_sync replacing 2 ≡ 0 }
    ensures synced { last_sync replacing 3 ≡ 3 }
    ensures looked_up { last_sync (history_from (closed small_set) (opens ∷ syncs ∷ looks_up (number 1) ∷ [])) 3 ≡ 2 }
    ensures closed { last_sync (history_from (closed small_set) (opens ∷ inserts (pair (number 1) (number 2)) ∷ closes ∷ opens ∷ [])) 4 ≡ 3 }
{}

/// `{1,2}` takes the place of `{1,1}`. Before the reply of the sync a stop may leave either; where both gates are open it is
/// the one in the lower unit.
pub fn a_replaced_key_is_old_or_new_before_the_reply_of_its_sync()
    ensures old_before_the_insertion { MayBeFound replacing 1 old_table }
    ensures new_before_its_reply { MayBeFound replacing 1 new_table }
    ensures old { MayBeFound replacing 2 old_table }
    ensures both { MayBeFound replacing 2 both_gates }
    ensures new { MayBeFound replacing 2 new_table }
{}

/// After the reply of the sync it is the new one alone. It is never gone, and not new before the insertion was read.
pub fn a_replaced_key_is_new_after_the_reply_of_its_sync()
    ensures new { MayBeFound replacing 3 new_table }
    ensures old { MayBeFound replacing 3 old_table → ⊥ }
    ensures both { MayBeFound replacing 3 both_gates → ⊥ }
    ensures none { MayBeFound replacing 2 no_gates → ⊥ }
    ensures too_early { MayBeFound replacing 0 new_table → ⊥ }
{}
