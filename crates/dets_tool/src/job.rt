// What the words ask for.
ghost use Rattle.std.specs.Prelude.{◌≡◌, ◌↔◌, None, Some, option_map, option_copied, IfOk, IsErrOf};
ghost use Rattle.std.specs.Str.{chars};
ghost use Rattle.dets_tool.specs.Job.{is_file, job_of_one, job_of_two, job_on_file, stated_job, path_of};
ghost use Rattle.dets_tool.specs.declared.job.WordsFault.TheVariants.{Memory as OutOfMemory};

use crate::{Memory, Words};
use dets_term::Text;
use std::alloc::Global;
use thiserror::Error;

/// What the program is to do.
#[derive(Drop)]
pub enum Job {
    /// The input is a script, which is run on the table of this file.
    Run(Text),
    /// The table of this file is reported on. There is no input.
    Check(Text),
    /// The input is printed terms, which are printed.
    Show,
    /// The input is printed terms, which are spelled.
    Encode,
    /// The input is terms that are spelled, which are printed.
    Decode,
}

/// Why the words are not a job.
#[derive(Debug, Drop, PartialEq, Eq, Error)]
pub enum WordsFault {
    /// The words have none of the stated forms.
    #[error("words refused")]
    Refused,
    /// There was no room for the text of a word.
    #[error("out of memory")]
    Memory,
}

impl From<Memory> for WordsFault {
    ghost from_gives = { λ _ fault. fault ≡ OutOfMemory };

    fn from(_error: Memory) -> WordsFault {
        WordsFault::Memory
    }
}

impl Job {
    /// The file that the job works on. `None` where it works on none.
    pub fn path(&self) -> Option<&str>
        ensures { option_map (λ path. chars path) (option_copied result) ≡ path_of self.now }
    {
        match self {
            Job::Run(file) | Job::Check(file) => Some(file.as_str()),
            Job::Show | Job::Encode | Job::Decode => None,
        }
    }
}

/// What the words ask for: `run FILE` or `check FILE`, where FILE is any word that is not empty and does not begin with
/// `-`, `text`, `text encode` or `text decode`. `Refused`: exactly where the words have another form. `Memory`: no room
/// for the text of the file.
pub fn job_of(alloc: Global, words: &Words) -> Result<Job, WordsFault>
    ensures ok { IfOk result (λ job. stated_job words.now ≡ Some job) }
    ensures refused { IsErrOf result WordsFault.Refused ↔ (stated_job words.now ≡ None) }
{
    match words.len() {
        1 => job_of_one(words.at(0)),
        2 => job_of_two(alloc, words.at(0), words.at(1)),
        _ => Err(WordsFault::Refused),
    }
}

// What one word asks for.
fn job_of_one(word: &str) -> Result<Job, WordsFault>
    ensures ok { IfOk result (λ job. job_of_one word.now ≡ Some job) }
    ensures refused { IsErrOf result WordsFault.Refused ↔ (job_of_one word.now ≡ None) }
{
    match word {
        "text" => Ok(Job::Show),
        _ => Err(WordsFault::Refused),
    }
}

// What two words ask for.
fn job_of_two(alloc: Global, first: &str, second: &str) -> Result<Job, WordsFault>
    ensures ok { IfOk result (λ job. job_of_two first.now second.now ≡ Some job) }
    ensures refused { IsErrOf result WordsFault.Refused ↔ (job_of_two first.now second.now ≡ None) }
{
    match (first, second) {
        ("text", "encode") => Ok(Job::Encode),
        ("text", "decode") => Ok(Job::Decode),
        (name, file) if is_file(file) => job_on_file(alloc, name, file),
        _ => Err(WordsFault::Refused),
    }
}

// What a name asks for with a file behind it.
fn job_on_file(alloc: Global, name: &str, file: &str) -> Result<Job, WordsFault>
    ensures ok { IfOk result (λ job. job_on_file name.now (chars file.now) ≡ Some job) }
    ensures refused { IsErrOf result WordsFault.Refused ↔ (job_on_file name.now (chars file.now) ≡ None) }
{
    match name {
        "run" => Ok(Job::Run(text_of(alloc, file)?)),
        "check" => Ok(Job::Check(text_of(alloc, file)?)),
        _ => Err(WordsFault::Refused),
    }
}

// Whether a word may stand for a file.
fn is_file(word: &str) -> bool
    ensures { result ≡ is_file word.now }
{
    match word.as_bytes() {
        [] => false,
        [first, ..] => *first != b'-',
    }
}

// A text of the characters of a word.
fn text_of(alloc: Global, word: &str) -> Result<Text, Memory>
    ensures { IfOk result (λ text. text ≡ chars word.now) }
{
    let mut text = Text::new(alloc);
    for item in word.chars() {
        text.push(item)?;
    }
    Ok(text)
}
