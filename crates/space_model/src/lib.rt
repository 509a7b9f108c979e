//! Definitions of where a table has its data, which the crates above cite: runs of units, which of them are free and
//! where a new one is placed, the ledger that tells by the commands alone which runs are held, and the slot of a hash.
//!
//! It stands on std alone: units are numbers, and keys are bytes. It promises laws of these definitions, and compares
//! them with worked rows.
#![tactic(auto)]

pub mod ledger_laws;
pub mod ledger_rows;
pub mod run_laws;
pub mod run_rows;
pub mod slot_laws;
