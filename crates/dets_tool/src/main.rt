//! The program: `dets_tool run FILE` reads a script of commands from standard input and writes a reply to each;
//! `dets_tool check FILE` reports on a table's file; `dets_tool text`, `text encode` and `text decode` take terms from
//! one form to the other.
//!
//! Stands on `host_model` for what is read and said, `term_text` for text, `etf_codec` for spellings, `dets_machine`
//! for the commands, and `repair_scan` for what a file is found to be. `run` takes the terms of an input and puts the
//! line of each, over any `Input` and any `Service`. `dets_main` is the whole program over any source and any host;
//! `main` hands it the real ones. `job_of` accepts exactly the stated words, `InputFeed` takes the input within a
//! budget, and `Status` says the code and the line of each end.
#![tactic(auto)]

mod checking;
mod commands;
mod input;
mod input_feed;
mod job;
mod printing;
mod program;
mod report_lines;
mod run;
mod service;
mod status;
mod words;

pub use input_feed::{InputFeed, Piece, PullFault};
pub use job::{Job, WordsFault, job_of};
pub use program::dets_main;
pub use status::{FileWhy, InputWhy, Status};
pub use std::alloc::AllocError as Memory;
use std::process::ExitCode;
pub use words::Words;

fn main(rt: HostRuntime) -> ExitCode {
    ExitCode::from(program::run_program(&rt))
}
