//! Worked rows of the step, as contracts of functions that do nothing.
ghost use Rattle.std.specs.Prelude.{◌≡◌, [], ◌∷◌, Some, None, codes, true, false, replicate};
ghost use Rattle.term_model.specs.TermValue.{nil, atom, bits};
ghost use Rattle.term_model.specs.Written.{word, number, tuple_of, list_of, pair};
ghost use Rattle.term_model.specs.declared.kind.Kind.TheVariants.{Set, Bag, DuplicateBag};
ghost use Rattle.table_model.specs.Table.{empty_table};
ghost use Rattle.table_model.specs.Filled.{filled};
ghost use Rattle.etf_model.specs.Canonical.{spelled};
ghost use Rattle.space_model.specs.Runs.{run};
ghost use Rattle.space_model.specs.Ledger.{made as made_ledger, opened as opened_ledger, pending_at};
ghost use Rattle.file_model.specs.declared.head.Unreadable.TheVariants.{NotDets, Version};
ghost use Rattle.run_model.specs.declared.options.Access.TheVariants.{Read};
ghost use Rattle.run_model.specs.declared.options.Repair.TheVariants.{No, Force};
ghost use Rattle.run_model.specs.Reply.{ok, ok_table, error};
ghost use Rattle.run_model.specs.State.{empty, refused, kept, closed, opened, objects_in};
ghost use Rattle.run_model.specs.History.{history_from, last_state};
ghost use Rattle.run_model.specs.Opening.{default_options, refusal, opening};
ghost use Rattle.run_model.specs.Changing.{inserted};
ghost use Rattle.run_model.specs.Closing.{after_close, after_exit};
ghost use Rattle.run_model.specs.Step.{step};
ghost use Rattle.run_model.specs.Written.{command, opens, inserts, looks_up, syncs, closes};
ghost use Rattle.run_model.specs.Rows.{stands, small_kept, small_set, small_bag, open_table_of, open_set, open_units, waits_with, open_small, four_insertions};

/// What is opened over an empty file, which is made, and over one that was kept.
pub fn an_opening_has_the_table_of_its_file()
    ensures made { step (closed empty) opens ≡ Some (ok_table, opened (open_table_of (empty_table Set 1) 4096 (made_ledger 8000))) }
    ensures kept { step (closed small_set) opens ≡ Some (ok_table, opened open_set) }
    ensures repaired { step (closed (kept (record (small_kept Set 1) { needs_repair = true }))) opens ≡ Some (ok_table, opened open_set) }
    ensures with_options { step (closed empty) (command "c" "open" (list_of (pair (word "type") (word "bag") ∷ []))) ≡ None }
    ensures twice { step (opened open_set) opens ≡ None }
{}

/// The first refusal of an opening that holds. After a refusal the file is as before.
pub fn an_opening_is_refused_for_its_file()
    ensures not_a_dets_file { step (closed (refused NotDets)) opens ≡ Some (error "not_a_dets_file", closed (refused NotDets)) }
    ensures version { step (closed (refused (Version 2))) opens ≡ Some (error "version", closed (refused (Version 2))) }
    ensures type_first { step (closed small_bag) opens ≡ Some (error "type_mismatch", closed small_bag) }
    ensures keypos { step (closed (kept (small_kept Set 2))) opens ≡ Some (error "keypos_mismatch", closed (kept (small_kept Set 2))) }
    ensures keypos_before_repair { refusal (record default_options { repair = No }) (kept (record (small_kept Set 2) { needs_repair = true }))
        ≡ Some (error "keypos_mismatch") }
    ensures repair { refusal (record default_options { repair = No }) (kept (record (small_kept Set 1) { needs_repair = true })) ≡ Some (error "needs_repair") }
    ensures reading { refusal (record default_options { access = Read }) (kept (record (small_kept Set 1) { needs_repair = true }))
        ≡ Some (error "needs_repair") }
    ensures forced { refusal (record default_options { repair = Force }) (kept (record (small_kept Set 1) { needs_repair = true })) ≡ None }
    ensures reading_none { refusal (record default_options { access = Read }) empty ≡ Some (error "no_file") }
    ensures reading_what_is_none { refusal (record default_options { access = Read }) (refused NotDets) ≡ Some (error "not_a_dets_file") }
    ensures reading_a_closed_file { refusal (record default_options { access = Read; repair = No }) small_set ≡ None }
    ensures repair_of_none { refusal (record default_options { repair = No }) empty ≡ None }
{}

/// An object that replaces another one gets a block of its own, beside the standing one. The same object touches nothing.
pub fn an_insertion_waits_for_the_flush()
    ensures replaced { step (opened open_set) (inserts (pair (number 1) (number 2))) ≡ Some (
      ok,
      opened (record open_set {
        table = filled Set 1 (pair (number 1) (number 2) ∷ []);
        ledger = record open_set.ledger { pending = pending_at (spelled (number 1)) 13 (run 1 0) ∷ [] };
      }),
    ) }
    ensures same { step (opened open_set) (inserts (pair (number 1) (number 1))) ≡ Some (ok, opened open_set) }
    ensures no_tuple { step (opened open_set) (inserts (number 1)) ≡ None }
    ensures empty_tuple { step (opened open_set) (inserts (tuple_of [])) ≡ None }
    ensures not_open { step (closed small_set) (inserts (pair (number 1) (number 2))) ≡ None }
{}

/// What refuses an insertion, in order: the object, the access, the room of a segment, and the room of the file.
pub fn an_insertion_is_refused()
    ensures no_key { inserted (record open_set { table = empty_table Set 3; access = Read }) (pair (number 1) (number 1) ∷ [])
        ≡ (error "badarg", opened (record open_set { table = empty_table Set 3; access = Read })) }
    ensures access { inserted (record open_set { access = Read }) (pair (number 1) (number 2) ∷ [])
        ≡ (error "access_mode", opened (record open_set { access = Read })) }
    ensures too_large { inserted (open_units (opened_ledger 1 1 (stands (number 3) (run 0 0) ∷ []))) (pair (number 1) (atom (replicate 60 97)) ∷ [])
        ≡ (error "too_large", opened (open_units (opened_ledger 1 1 (stands (number 3) (run 0 0) ∷ [])))) }
    ensures full { inserted (open_units (opened_ledger 1 1 (stands (number 3) (run 0 0) ∷ []))) (pair (number 1) (number 1) ∷ [])
        ≡ (error "full", opened (open_units (opened_ledger 1 1 (stands (number 3) (run 0 0) ∷ [])))) }
    ensures full_with_all_segments { inserted (open_units (opened_ledger 2 1 (stands (number 3) (run 0 0) ∷ [])))
        (pair (number 1) (number 1) ∷ pair (number 4) (number 1) ∷ [])
        ≡ (error "full", opened (open_units (record (opened_ledger 2 1 (stands (number 3) (run 0 0) ∷ [])) { segments = 2 }))) }
{}

/// A cache at its limit is flushed first, also where the command is then refused; one byte less is not flushed.
pub fn a_cache_at_its_limit_is_flushed_before_a_change()
    ensures flushed { inserted (open_units (waits_with 1048568)) (pair (number 1) (number 1) ∷ [])
        ≡ (error "full", opened (open_units (opened_ledger 1 1 (stands (number 9) (run 0 0) ∷ [])))) }
    ensures below { inserted (open_units (waits_with 1048567)) (pair (number 1) (number 1) ∷ []) ≡ (error "full", opened (open_units (waits_with 1048567))) }
{}

/// A lookup gives the key's objects, and a table that is not open is not read.
pub fn a_lookup_leaves_the_table()
    ensures found { step (opened open_set) (looks_up (number 1)) ≡ Some (list_of (pair (number 1) (number 1) ∷ []), opened open_set) }
    ensures none { step (opened open_set) (looks_up (number 2)) ≡ Some (nil, opened open_set) }
    ensures other_client { step (opened open_set) (command "d" "lookup" (number 1)) ≡ Some (list_of (pair (number 1) (number 1) ∷ []), opened open_set) }
    ensures closed { step (closed small_set) (looks_up (number 1)) ≡ None }
{}

/// A sync flushes what is pending, and a close does where no client has the table open any more.
pub fn a_sync_and_a_close_flush()
    ensures sync { step (opened (open_units (waits_with 14))) syncs ≡ Some (ok, opened (open_units (opened_ledger 1 1 (stands (number 9) (run 0 0) ∷ [])))) }
    ensures sync_of_none { step (opened open_set) syncs ≡ Some (ok, opened open_set) }
    ensures close { step (opened open_set) closes ≡ Some (ok, closed small_set) }
    ensures close_by_another { step (opened open_set) (pair (word "d") (word "close")) ≡ None }
    ensures close_of_a_closed_one { step (closed small_set) closes ≡ None }
    ensures one_of_two { after_close (codes "c") (record open_set { openings = codes "c" ∷ codes "d" ∷ codes "c" ∷ []; fixes = codes "c" ∷ [] })
        ≡ opened (record open_set { openings = codes "d" ∷ codes "c" ∷ []; fixes = codes "c" ∷ [] }) }
    ensures last_of_a_client { after_close (codes "c") (record open_set { openings = codes "d" ∷ codes "c" ∷ []; fixes = codes "c" ∷ codes "d" ∷ codes "c" ∷ [] })
        ≡ opened (record open_set { openings = codes "d" ∷ []; fixes = codes "d" ∷ [] }) }
    ensures exit { after_exit (opened open_set) ≡ closed small_set }
    ensures exit_of_none { after_exit (closed (refused NotDets)) ≡ closed (refused NotDets) }
{}

/// `{1,1}`, `{1,1}`, `{3,1}` and `{1,2}` one after the other: what a set, a bag and a duplicate bag have then of the key 1.
pub fn a_kind_says_what_insertions_leave()
    ensures set { objects_in (last_state (history_from (opened (open_small Set)) four_insertions)) (number 1) ≡ pair (number 1) (number 2) ∷ [] }
    ensures bag { objects_in (last_state (history_from (opened (open_small Bag)) four_insertions)) (number 1)
        ≡ pair (number 1) (number 1) ∷ pair (number 1) (number 2) ∷ [] }
    ensures duplicate_bag { objects_in (last_state (history_from (opened (open_small DuplicateBag)) four_insertions)) (number 1)
        ≡ pair (number 1) (number 1) ∷ pair (number 1) (number 1) ∷ pair (number 1) (number 2) ∷ [] }
{}
