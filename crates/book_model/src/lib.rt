//! Definitions of the book of a table's file in memory: when it is in order, what the touched keys of a command do to it,
//! and when it is that of a file.
#![tactic(auto)]

pub use change::Change;

pub mod alike_laws;
mod below;
mod change;
pub mod file_laws;
pub mod flush_laws;
pub mod ledger_laws;
pub mod order_laws;
pub mod rows;
pub mod stop_laws;
