//! The way of the pending writes of a table to its file.
//!
//! Stands on `buddy_space`, `slot_table` and `write_cache`, which keep the parts of a table's book in memory, and on the
//! definitions of `book_model`. `plan` does to a book what its definition does: it takes and gives back runs, and enters what
//! a command changes, or is full and nothing but the number of segments changes. `commit` joins the steps of `flush_steps` to a
//! flush: wherever it stops, each key has its old or its new objects in the file.
#![tactic(auto)]

pub use book::Book;
pub use book_model::Change;
pub use changes::Changes;
pub use committing::commit;
pub use fault::PlanFault;
pub use planning::plan;
pub use std::alloc::AllocError as Memory;

mod all;
mod below;
mod book;
mod changes;
mod committing;
mod entering;
mod fault;
mod growing;
mod placing;
mod planning;
#[cfg(test)]
mod tests;
