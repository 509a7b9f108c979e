//! Worked rows of books: the program answers each line of its input with one line.
//!
//! Stands on `flush_engine`, and on `repair_scan` for what a stop leaves. The stored input has rows of commands over a table
//! whose file and book are in memory, and the stored output the answers, line for line; they come from the definitions of
//! `book_model` and the steps of a flush. A blank line and one that begins with `#` are copied, and begin a block, which has a
//! table of its own. Any other line is a word and its operands.
//!
//!     book MOST          plan TOUCH ..          flush          known KEY ..          stops PICK KEY ..
//!
//! TOUCH is `KEY:EXPONENT`, a new block of 2 to the power of so many units, or `KEY:-`, no object left. A KEY is an integer
//! or an atom without a colon. `docs/CASES.md` says what each word answers. What is no line of this language is answered
//! `bad line`.
#![tactic(auto)]

mod block_for;
mod changing;
mod fault;
mod image;
mod kept;
mod lines;
mod old;
mod row;
mod shown;
mod stops;
mod table;
mod touch;
mod untold;

use std::io;

fn main(rt: HostRuntime) -> io::Result<()> {
    let input = io::read_to_string(rt.alloc(), rt.reader())?;
    let answers = lines::answers(rt.alloc(), &input)?;
    rt.print(answers.as_str())
}
