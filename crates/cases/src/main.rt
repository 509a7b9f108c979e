//! Cases of the libraries: the program answers each line of its input with one line.
//!
//! Stands on all libraries below the command line tool. The stored input has their vectors and tables, and the stored
//! output the answers, line for line; both come from the definitions and the standard. A blank line and one that begins
//! with `#` are copied, and begin a block. Any other line is a word and its operands, with one blank between each two.
//!
//! BYTES is `PIECE+PIECE+..`, a piece hexadecimal digits or a text in backquotes, with `*COUNT` behind it where it stands
//! so many times; `-` is no bytes. TERM is steps that build a term, each with `^COUNT` behind it where it is made so many
//! times: `{k,1}`, `` `Hello World` ``, `tuple:N`, `list:N`, `tail:N`, `map:N`, `bits:USED:BYTES`, `doubles:N`. SIZES are
//! sizes of pieces with commas between them, and the last one stays.
//!
//!     decode BYTES             skip BYTES              recode BYTES          fronts decode|skip BYTES
//!     encode TERM              build TERM              copy TERM             depth TERM
//!     key KEYPOS TERM          part PLACE TERM         order TERM TERM       above TERM
//!     hash BYTES               byte PLACE BYTES        character PLACE BYTES
//!     feed SIZES BYTES         text SIZES BYTES        machine BYTES ..      source N MOST BYTES NUMBER ..
//!
//!     host FILE NUMBER ..      perfect FILE ROOM ROOM  fuse N                inner
//!     len                      read AT N               write AT BYTES        write_and_sync AT BYTES
//!     sync                     put BYTES               write_all_and_sync AT BYTES AT BYTES
//!     file                     said                    moments               starved
//!     restart MOMENT old|new|fill BYTE|mix N
//!
//! `docs/CASES.md` says what each word answers. What is no line of this language is answered `bad line`.
#![tactic(auto)]

mod block;
mod building;
mod device;
mod fault;
mod hosts;
mod line;
mod lists;
mod machines;
mod shown;
mod sources;
mod spellings;
mod streams;
mod terms;
mod texts;
mod two_writes;

use std::io;

fn main(rt: HostRuntime) -> io::Result<()> {
    let input = io::read_to_string(rt.alloc(), rt.reader())?;
    let answers = block::answers(rt.alloc(), &input)?;
    rt.print(answers.as_str())
}
