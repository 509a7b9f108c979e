//! Definitions of a run, which the crates above cite: states, commands, the step of a command, the history of a file and
//! a list of commands, and which images of the file a stop may leave. It stands on `table_model` and `file_model`, and
//! compares the definitions with worked rows.
#![tactic(auto)]

pub use options::{Access, OpenOptions, Repair};

pub mod command_rows;
pub mod history_rows;
pub mod laws;
pub mod memory_rows;
mod options;
pub mod step_rows;
