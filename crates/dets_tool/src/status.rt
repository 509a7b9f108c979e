// How a run ends.
ghost use Rattle.std.specs.Prelude.{◌≡◌, ◌++◌, codes, decimal, IfOk};
ghost use Rattle.dets_tool.specs.Status.{code_of, line_of, message, words_of_file};
ghost use Rattle.dets_tool.specs.declared.status.Status.TheVariants.{Memory as OutOfMemory};

use crate::Memory;
use dets_term::ByteList;
use etf_codec::EtfFault;
use itoa::Buffer;
use std::alloc::Global;
use term_text::TextWhy;

/// How a run ends.
#[derive(Drop)]
pub enum Status {
    /// The input was read to its end where there is one, and all is done.
    Done,
    /// The input was refused at this offset, in bytes from its start.
    Input(u64, InputWhy),
    /// The words have none of the stated forms.
    WordsRefused,
    /// A call on the file failed.
    Disk,
    /// A read of the input failed.
    SourceFault,
    /// A write of the output failed.
    Output,
    /// There was no memory.
    Memory,
    /// The file was refused.
    File(FileWhy),
    /// So many commands were replied to, and the next one is not built yet.
    NotYet(u64),
}

/// Why the input was refused.
#[derive(Drop)]
pub enum InputWhy {
    /// It has more bytes than are read.
    TooMuch,
    /// It breaks this rule of printed terms.
    Text(TextWhy),
    /// It has this fault of the External Term Format.
    Etf(EtfFault),
}

/// Why a file was refused.
#[derive(Drop)]
pub enum FileWhy {
    /// It has no bytes, or is not there.
    Empty,
    /// It has no header of a table's file that can be read.
    NotDets,
    /// The version of its header is this one.
    Version(u8),
}

impl From<Memory> for Status {
    ghost from_gives = { λ _ status. status ≡ OutOfMemory };

    fn from(_error: Memory) -> Status {
        Status::Memory
    }
}

impl Status {
    /// The exit status of the program.
    pub fn code(&self) -> u8
        ensures { result ≡ code_of self.now }
    {
        match self {
            Status::Done => 0,
            Status::Input(_, _) => 1,
            Status::WordsRefused => 2,
            Status::Disk => 3,
            Status::SourceFault => 4,
            Status::Output => 5,
            Status::Memory => 6,
            Status::File(_) => 7,
            Status::NotYet(_) => 9,
        }
    }

    /// The line for standard error, with its line end. No bytes for `Done`. `Memory`: no room for the line.
    pub fn line(&self, alloc: Global) -> Result<ByteList, Memory>
        ensures { IfOk result (λ bytes. bytes ≡ line_of self.now) }
    {
        match self {
            Status::Done => Ok(ByteList::new(alloc)),
            Status::Input(offset, _) => numbered_line(alloc, b"input refused at ", *offset),
            Status::WordsRefused => plain_line(alloc, b"words refused"),
            Status::Disk => plain_line(alloc, b"disk fault"),
            Status::SourceFault => plain_line(alloc, b"source fault"),
            Status::Output => plain_line(alloc, b"output fault"),
            Status::Memory => plain_line(alloc, b"out of memory"),
            Status::File(why) => file_line(alloc, why),
            Status::NotYet(command) => numbered_line(alloc, b"not yet at command ", *command),
        }
    }
}

// The line that says why a file was refused.
fn file_line(alloc: Global, why: &FileWhy) -> Result<ByteList, Memory>
    ensures { IfOk result (λ line. line ≡ message (codes "file refused: " ++ words_of_file why.now)) }
{
    match why {
        FileWhy::Empty => plain_line(alloc, b"file refused: empty"),
        FileWhy::NotDets => plain_line(alloc, b"file refused: not a dets file"),
        FileWhy::Version(version) => {
            numbered_line(alloc, b"file refused: version ", *version as u64)
        }
    }
}

// The line that says this text.
fn plain_line(alloc: Global, text: &[u8]) -> Result<ByteList, Memory>
    ensures { IfOk result (λ line. line ≡ message text.now) }
{
    let mut line = ByteList::new(alloc);
    line.extend_from_slice(b"dets_tool: ")?;
    line.extend_from_slice(text)?;
    line.push(b'\n')?;
    Ok(line)
}

// The line that says this text and the number behind it.
fn numbered_line(alloc: Global, text: &[u8], number: u64) -> Result<ByteList, Memory>
    ensures { IfOk result (λ line. line ≡ message (text.now ++ decimal number)) }
{
    let mut whole = ByteList::new(alloc);
    whole.extend_from_slice(text)?;
    whole.extend_from_slice(Buffer::new().format(number).as_bytes())?;
    plain_line(alloc, whole.as_slice())
}
