//! Definitions of the table that a file and its book hold together, of what keeps the table of a file, and of the changes that
//! give keys new objects, with laws of what a flush and a stop within it make of that table. It stands on `book_model` and
//! `table_model`.
#![tactic(auto)]

pub mod flush_laws;
