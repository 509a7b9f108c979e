//! Worked rows of the step of a table in memory, as contracts of functions that do nothing.
ghost use Rattle.std.specs.Prelude.{◌≡◌, true, [], ◌∷◌};
ghost use Rattle.term_model.specs.TermValue.{nil};
ghost use Rattle.term_model.specs.Written.{word, number, tuple_of, list_of, pair};
ghost use Rattle.term_model.specs.declared.kind.Kind.TheVariants.{Set};
ghost use Rattle.table_model.specs.Filled.{filled};
ghost use Rattle.run_model.specs.Reply.{ok, ok_table};
ghost use Rattle.run_model.specs.History.{answers};
ghost use Rattle.run_model.specs.InMemory.{first_state, step, after_exit};
ghost use Rattle.run_model.specs.Written.{command, opens, inserts, looks_up, syncs};

/// `{1,x}`, `{2,x}` and then `{1,y}`: what is found of the keys 1, 2 and 4, and no reply from the first command on that is not served.
pub fn a_set_in_memory_is_opened_filled_and_looked_up()
    ensures found { answers step first_state (opens ∷ inserts (pair (number 1) (word "x")) ∷ inserts (pair (number 2) (word "x"))
        ∷ inserts (pair (number 1) (word "y")) ∷ looks_up (number 1) ∷ looks_up (number 2) ∷ looks_up (number 4) ∷ [])
        ≡ ok_table ∷ ok ∷ ok ∷ ok ∷ list_of (pair (number 1) (word "y") ∷ []) ∷ list_of (pair (number 2) (word "x") ∷ []) ∷ nil ∷ [] }
    ensures sync { answers step first_state (opens ∷ syncs ∷ looks_up (word "k") ∷ []) ≡ ok_table ∷ [] }
    ensures closed { answers step first_state (looks_up (word "k") ∷ opens ∷ []) ≡ [] }
    ensures opened_twice { answers step first_state (opens ∷ command "b" "open" nil ∷ []) ≡ ok_table ∷ [] }
    ensures empty_tuple { answers step first_state (opens ∷ inserts (tuple_of []) ∷ []) ≡ ok_table ∷ [] }
    ensures nothing { answers step first_state [] ≡ [] }
{}

/// After the exit of all clients the table is closed, and an opening finds its objects again.
pub fn a_set_in_memory_stays_after_the_exit_of_all_clients()
    ensures { answers step (after_exit (record { table = filled Set 1 (pair (word "k") (number 1) ∷ []); is_open = true })) (opens ∷ looks_up (word "k") ∷ [])
        ≡ ok_table ∷ list_of (pair (word "k") (number 1) ∷ []) ∷ [] }
{}
