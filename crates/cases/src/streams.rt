//! Terms from streams that come in pieces.
ghost use Rattle.std.specs.Prelude.{◌≡◌, false};
ghost use Rattle.feed_model.specs.Feed.{empty_feed, total};

use crate::fault::Fault;
use crate::line::Line;
use crate::shown::{join, printed};
use dets_term::Memory;
use etf_codec::TermFeed;
use feed_model::{Fed, Feed};
use std::alloc::Global;
use std::collections::VecDeque;
use std::fmt::Write;
use term_text::TextFeed;

/// `feed SIZES BYTES`
pub fn spellings(alloc: Global, line: &mut Line) -> Result<String, Fault> {
    let sizes = line.sizes()?;
    fed_in_pieces(alloc, TermFeed::new(alloc), sizes, &line.bytes()?)
}

/// `text SIZES BYTES`
pub fn texts(alloc: Global, line: &mut Line) -> Result<String, Fault> {
    let sizes = line.sizes()?;
    fed_in_pieces(alloc, TextFeed::new(alloc), sizes, &line.bytes()?)
}

/// What a new feed answers to some bytes in pieces of these sizes, of which the last one stays, and then to the end of
/// the input. It is asked again behind its last answer.
fn fed_in_pieces<F: Feed>(
    alloc: Global,
    mut feed: F,
    mut sizes: VecDeque<u64>,
    bytes: &[u8],
) -> Result<String, Fault>
where
    Fault: From<F::Fault>,
    requires { F.shows feed ≡ empty_feed }
{
    let mut told = Told::new(alloc);
    let mut size = 1;
    let mut at = 0;
    while at < bytes.len() {
        if let Some(next) = sizes.pop_front() {
            size = (next as usize).max(1);
        }
        let end = at.saturating_add(size).min(bytes.len());
        feed.feed(&bytes[at..end])?;
        at = end;
        told.fed = Some(at);
        take_all(&mut feed, &mut told)?;
    }
    feed.finish();
    told.fed = None;
    take_all(&mut feed, &mut told)?;
    take_all(&mut feed, &mut told)?;
    Ok(told.into_text())
}

/// Tells what a feed answers until it needs more input, is at its end or at fault.
fn take_all<F: Feed>(feed: &mut F, told: &mut Told) -> Result<(), Fault>
where
    Fault: From<F::Fault>,
    ensures fed { total (F.shows feed.new) ≡ total (F.shows feed.old) }
    ensures finished { (F.shows feed.new).finished ≡ (F.shows feed.old).finished }
{
    for _ in 0..u64::MAX {
        let answer = feed.next();
        if !told.hear(answer.map_err(Fault::from))? {
            break;
        }
    }
    Ok(())
}

/// The answers of a feed.
#[derive(Drop)]
struct Told {
    alloc: Global,
    text: String,
    /// How many bytes were fed, while more may come.
    fed: Option<usize>,
    /// The end or the fault that was told.
    last: String,
}

impl Told {
    fn new(alloc: Global) -> Told {
        Told {
            alloc,
            text: String::new(alloc),
            fed: None,
            last: String::new(alloc),
        }
    }

    fn into_text(self) -> String {
        self.text
    }

    /// Tells an answer. Whether another one may come before more input.
    fn hear(&mut self, answer: Result<Fed, Fault>) -> Result<bool, Fault> {
        match answer {
            Ok(Fed::Term(term)) => {
                let text = printed(self.alloc, &term)?;
                self.tell(&text)?;
                return Ok(true);
            }
            Ok(Fed::Again) => {}
            Ok(Fed::End) => self.tell_last("End")?,
            Err(fault) => {
                let text = format!(in self.alloc; "{fault}")?;
                self.tell_last(&text)?;
            }
        }
        Ok(false)
    }

    /// Tells an answer, and behind how many bytes it came.
    fn tell(&mut self, answer: &str) -> Result<(), Memory> {
        join(&mut self.text, "; ", answer)?;
        if let Some(fed) = self.fed {
            write!(self.text, " after {fed}")?;
        }
        Ok(())
    }

    /// Tells an end or a fault, where it is another one than before.
    fn tell_last(&mut self, answer: &str) -> Result<(), Memory> {
        if self.last.as_str() != answer {
            self.tell(answer)?;
            self.last = String::from_str(self.alloc, answer)?;
        }
        Ok(())
    }
}
