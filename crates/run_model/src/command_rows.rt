//! Worked rows of commands, as contracts of functions that do nothing.
ghost use Rattle.std.specs.Prelude.{◌≡◌, [], ◌∷◌, Some, None, codes};
ghost use Rattle.term_model.specs.TermValue.{nil};
ghost use Rattle.term_model.specs.Written.{word, number, tuple_of, list_of, pair};
ghost use Rattle.run_model.specs.Command.{command_of, open_table, close_table, insert, lookup, sync};
ghost use Rattle.run_model.specs.Written.{command, opens, inserts, looks_up, syncs, closes};

/// The commands that are built, with their arguments as they stand.
pub fn five_operations_are_built()
    ensures open { command_of opens ≡ Some (record { client = codes "c"; operation = open_table nil }) }
    ensures open_with_any { command_of (command "c" "open" (number 1)) ≡ Some (record { client = codes "c"; operation = open_table (number 1) }) }
    ensures close { command_of closes ≡ Some (record { client = codes "c"; operation = close_table }) }
    ensures insert { command_of (inserts (pair (word "k") (number 1))) ≡ Some (record { client = codes "c"; operation = insert (pair (word "k") (number 1)) }) }
    ensures insert_of_an_atom { command_of (inserts (word "k")) ≡ Some (record { client = codes "c"; operation = insert (word "k") }) }
    ensures lookup { command_of (looks_up nil) ≡ Some (record { client = codes "c"; operation = lookup nil }) }
    ensures sync { command_of syncs ≡ Some (record { client = codes "c"; operation = sync }) }
    ensures any_client { command_of (command "Hello World" "open" nil) ≡ Some (record { client = codes "Hello World"; operation = open_table nil }) }
{}

/// A client that is no atom, an operation that is not built, and parts that are too few or too many.
pub fn other_terms_are_no_commands_yet()
    ensures client_is_an_integer { command_of (tuple_of (number 1 ∷ word "open" ∷ nil ∷ [])) ≡ None }
    ensures client_is_a_tuple { command_of (tuple_of (tuple_of [] ∷ word "open" ∷ nil ∷ [])) ≡ None }
    ensures operation_is_no_atom { command_of (tuple_of (word "c" ∷ number 1 ∷ nil ∷ [])) ≡ None }
    ensures unknown_operation { command_of (command "c" "frob" nil) ≡ None }
    ensures operation_in_upper_case { command_of (command "c" "Open" nil) ≡ None }
    ensures client_alone { command_of (tuple_of (word "c" ∷ [])) ≡ None }
    ensures too_few_parts { command_of (pair (word "c") (word "lookup")) ≡ None }
    ensures too_many_parts { command_of (tuple_of (word "c" ∷ word "lookup" ∷ word "k" ∷ number 1 ∷ [])) ≡ None }
    ensures sync_with_an_argument { command_of (command "c" "sync" nil) ≡ None }
    ensures close_with_an_argument { command_of (command "c" "close" nil) ≡ None }
    ensures empty_tuple { command_of (tuple_of []) ≡ None }
    ensures list { command_of (list_of (word "c" ∷ word "open" ∷ nil ∷ [])) ≡ None }
    ensures atom { command_of (word "open") ≡ None }
{}
