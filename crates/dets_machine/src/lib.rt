//! The commands of a table server: each is answered by a reply, and may change the table.
//!
//! Stands on `host_model` and `dets_term`, and on the definitions of `run_model` and `table_model`. A `Machine`
//! serves one table, which so far is a set with keypos 1 that is kept in memory, and so far the commands
//! `{C,open,[]}`, `{C,insert,Object}` and `{C,lookup,Key}`. Each reply and each next state is that of the step of
//! `run_model`, or memory was wanting.
#![tactic(auto)]

pub use machine::{Machine, Stop};
pub use std::alloc::AllocError as Memory;

mod command;
mod machine;
mod reply;
mod table;
