//! Laws of the step and of histories, as contracts of functions that do nothing.
ghost use Rattle.std.specs.Prelude.{◌≡◌, ◌≤◌, ℕ, List, IfSome};
ghost use Rattle.term_model.specs.TermValue.{TermValue};
ghost use Rattle.run_model.specs.State.{State};
ghost use Rattle.run_model.specs.Step.{step};
ghost use Rattle.run_model.specs.History.{answers, History, history_from, replies, last_sync};
ghost use Rattle.run_model.specs.Stays.{IsStepFrom, IsLastSync};

/// A step keeps the kind and the keypos of a table, and a file without a header that can be read. After an error nothing has
/// changed but the ledger.
#[tactic(auto, using(crate::proofs::Steps::steps))]
pub fn a_step_stays_by_its_table()
    ensures { (s : State) → (command : TermValue) → IfSome (step s command) (IsStepFrom s) }
{}

/// The replies of a history are the answers of the step.
#[tactic(auto, using(crate::proofs::Histories::answers_are_replies))]
pub fn replies_are_the_answers_of_the_step()
    ensures { (s : State) → (commands : List TermValue) → answers step s commands ≡ replies (history_from s commands) }
{}

/// The last sync point is at or before its place, and none lies between.
#[tactic(auto, using(crate::proofs::Histories::is_last))]
pub fn the_last_sync_point_is_the_last()
    ensures { (h : History) → (place : ℕ) → IsLastSync h place (last_sync h place) }
{}
