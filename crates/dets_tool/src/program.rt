//! The program over any source and host, and over the real ones.
ghost use Rattle.std.specs.Prelude.{◌≡◌, ◌≢◌, ◌↔◌, List, ℕ, true, false, None, Some};
ghost use Rattle.host_model.specs.Counts.{Rose};
ghost use Rattle.host_model.specs.Source.{Stream};
ghost use Rattle.dets_tool.specs.Checking.{Checked};
ghost use Rattle.dets_tool.specs.Job.{stated_job, asks_disk, RanJob, IsWholeInput};
ghost use Rattle.dets_tool.specs.declared.job.Job.{Job};
ghost use Rattle.dets_tool.specs.Run.{IsServed};

use crate::checking::check_file;
use crate::commands::Commands;
use crate::printing::{Encoding, Printing};
use crate::run::run;
use crate::{Job, Status, Words, WordsFault, job_of};
use etf_codec::TermFeed;
use host_model::{FileHost, Host, Source, StdSource};
use std::alloc::Global;
use std::env::Env;
use std::io::ErrorKind;
use std::rt::Runtime;
use std::{env, str};
use term_text::TextFeed;

/// Does what the words ask for.
///
/// `run FILE`, `text`, `text encode` and `text decode` go over the input, one term after the other: `run` puts the
/// reply to each, a command, `text` and `text decode` its printed form, each with a full stop and a line end, and `text
/// encode` its canonical spelling; each in one piece. `text decode` reads spellings, and the other forms printed terms.
/// `Done`: the input was read to its end, and each of its terms answered. `NotYet`: so many commands were replied to,
/// and the next one is not built. `Input`: with `TooMuch`, a read gave a byte past 4,294,967,296; with `Text` or `Etf`,
/// each term in front was answered, and what stands behind them has this fault, whose offset is counted from the start
/// of the input, or is its length where spellings are cut. Before the end of a run by `Output` or `Memory` a front of
/// the output is put.
///
/// `check FILE` puts the lines of the report on the file, which is only read; no input is. `File`: the file has no bytes or no
/// header that can be read. `Disk`: a call on it failed.
///
/// `SourceFault`, `Output`: a read or a put failed. `WordsRefused`: the words have none of these forms.
pub fn dets_main<S: Source, H: Host>(
    alloc: Global,
    words: &Words,
    source: &mut S,
    host: &mut H,
) -> Status
    // A run over a source that tells its input, and was not read to its end before.
    ensures run { (job : Job) (stream : Stream) → stated_job words.now ≡ Some job → S.told source.old ≡ Some stream → stream.ended ≡ false
        → RanJob job result stream.left (S.told source.new) (H.shows host.old).said (H.shows host.new).said }
    ensures whole { (job : Job) (stream : Stream) → stated_job words.now ≡ Some job → S.told source.old ≡ Some stream → stream.ended ≡ false
        → IsWholeInput job stream.left → IsServed result }

    // A check of a file that the host tells.
    ensures check { (path file : List ℕ) → stated_job words.now ≡ Some (Job.Check path) → (H.shows host.old).file ≡ Some file
        → Checked result file (H.shows host.old).said (H.shows host.new).said }
    ensures check_reads_no_input { (path : List ℕ) → stated_job words.now ≡ Some (Job.Check path) → source.new ≡ source.old }

    ensures source_fault { result ≡ Status.SourceFault → Rose (S.faults source.old) (S.faults source.new) }
    ensures no_source_fault { result ≢ Status.SourceFault → result ≢ Status.Memory → S.faults source.new ≡ S.faults source.old }
    ensures output { result ≡ Status.Output → Rose (H.shows host.old).out_faults (H.shows host.new).out_faults }
    ensures disk { result ≡ Status.Disk → Rose (H.shows host.old).disk_faults (H.shows host.new).disk_faults }
    ensures no_disk_fault { result ≢ Status.Disk → (H.shows host.new).disk_faults ≡ (H.shows host.old).disk_faults }

    // The file is only read, and only by a check.
    ensures file { (H.shows host.new).file ≡ (H.shows host.old).file }
    ensures asks_disk { result ≡ Status.Disk → asks_disk (stated_job words.now) ≡ true }
    ensures reads { asks_disk (stated_job words.now) ≡ false → (H.shows host.new).reads ≡ (H.shows host.old).reads }

    ensures refused { result ≡ Status.WordsRefused ↔ (stated_job words.now ≡ None) }
    ensures untouched { stated_job words.now ≡ None → (source.new ≡ source.old) × (host.new ≡ host.old) }
{
    match job_of(alloc, words) {
        Ok(job) => do_job(alloc, &job, source, host),
        Err(WordsFault::Refused) => Status::WordsRefused,
        Err(WordsFault::Memory) => Status::Memory,
    }
}

/// Does a job.
fn do_job<S: Source, H: Host>(alloc: Global, job: &Job, source: &mut S, host: &mut H) -> Status
    ensures run { (stream : Stream) → S.told source.old ≡ Some stream → stream.ended ≡ false
        → RanJob job.now result stream.left (S.told source.new) (H.shows host.old).said (H.shows host.new).said }
    ensures check { (path file : List ℕ) → job.now ≡ Job.Check path → (H.shows host.old).file ≡ Some file
        → Checked result file (H.shows host.old).said (H.shows host.new).said }
    ensures check_reads_no_input { (path : List ℕ) → job.now ≡ Job.Check path → source.new ≡ source.old }
    ensures source_fault { result ≡ Status.SourceFault → Rose (S.faults source.old) (S.faults source.new) }
    ensures no_source_fault { result ≢ Status.SourceFault → result ≢ Status.Memory → S.faults source.new ≡ S.faults source.old }
    ensures output { result ≡ Status.Output → Rose (H.shows host.old).out_faults (H.shows host.new).out_faults }
    ensures disk { result ≡ Status.Disk → Rose (H.shows host.old).disk_faults (H.shows host.new).disk_faults }
    ensures no_disk_fault { result ≢ Status.Disk → (H.shows host.new).disk_faults ≡ (H.shows host.old).disk_faults }
    ensures file { (H.shows host.new).file ≡ (H.shows host.old).file }
    ensures asks_disk { result ≡ Status.Disk → asks_disk (Some job.now) ≡ true }
    ensures reads { asks_disk (Some job.now) ≡ false → (H.shows host.new).reads ≡ (H.shows host.old).reads }
    ensures words { result ≢ Status.WordsRefused }
{
    match job {
        Job::Run(_) => run(
            alloc,
            TextFeed::new(alloc),
            Commands::new(alloc),
            source,
            host,
        ),
        Job::Check(_) => check_file(alloc, host),
        Job::Show => run(alloc, TextFeed::new(alloc), Printing(alloc), source, host),
        Job::Encode => run(alloc, TextFeed::new(alloc), Encoding(alloc), source, host),
        Job::Decode => run(alloc, TermFeed::new(alloc), Printing(alloc), source, host),
    }
}

/// Runs the program with the words that it was called with, over standard input and output. Gives its exit status.
pub(crate) fn run_program<R: Runtime + AllocGlobal>(rt: &R) -> u8 {
    let status = match words_of(rt) {
        Ok(words) => run_words(rt, &words),
        Err(status) => status,
    };
    say(rt, &status);
    status.code()
}

/// The words behind the program's own name. The runtime refuses all of them where one is not UTF-8.
fn words_of<R: Env + AllocGlobal>(rt: &R) -> Result<Words, Status> {
    let all = match env::args(rt) {
        Ok(all) => all,
        Err(error) if error.kind() == ErrorKind::OutOfMemory => return Err(Status::Memory),
        Err(_) => return Err(Status::WordsRefused),
    };
    let mut words = Words::new(rt.alloc());
    for word in all.skip(1) {
        words.push(word.as_str())?;
    }
    Ok(words)
}

/// Does what the words ask for, over standard input and output.
fn run_words<R: Runtime + AllocGlobal>(rt: &R, words: &Words) -> Status {
    let job = job_of(rt.alloc(), words);
    let path = match &job {
        Ok(job) => job.path(),
        Err(_) => None,
    };
    let Ok(mut source) = StdSource::new(rt) else {
        return Status::Memory;
    };
    let Ok(mut host) = FileHost::new(rt, rt.alloc(), path) else {
        return Status::Memory;
    };
    dets_main(rt.alloc(), words, &mut source, &mut host)
}

/// Writes the line of a status to standard error. What goes wrong there changes nothing.
fn say<R: Eprint + AllocGlobal>(rt: &R, status: &Status) {
    if let Ok(line) = status.line(rt.alloc())
        && let Ok(text) = str::from_utf8(line.as_slice())
    {
        let _ = rt.eprint(text);
    }
}

#[cfg(test)]
mod tests;
