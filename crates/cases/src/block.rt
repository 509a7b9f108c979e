//! The lines one behind the other.

use crate::fault::Fault;
use crate::hosts::Hosts;
use crate::line::Line;
use crate::shown::answer_text;
use crate::spellings::Reading;
use crate::{lists, machines, sources, spellings, streams, terms};
use dets_term::{Memory, TermList};
use std::alloc::Global;

/// The answer to each line of an input, on a line of its own.
pub fn answers(alloc: Global, input: &str) -> Result<String, Memory> {
    let mut answers = String::new(alloc);
    let mut block = Block::new(alloc);
    for line in input.lines() {
        block.answer(line, &mut answers)?;
    }
    Ok(answers)
}

/// What the lines of a block share: the terms of its lines `above`, and its host.
#[derive(Drop)]
struct Block {
    alloc: Global,
    terms: TermList,
    hosts: Hosts,
}

impl Block {
    fn new(alloc: Global) -> Block {
        Block {
            alloc,
            terms: TermList::new(alloc),
            hosts: Hosts::new(alloc),
        }
    }

    /// Answers a line on a line. A heading or a blank line is answered as it is, and begins a new block.
    fn answer(&mut self, line: &str, answers: &mut String) -> Result<(), Memory> {
        if line.is_empty() || line.starts_with('#') {
            *self = Block::new(self.alloc);
            answers.push_str(line)?;
        } else {
            answers.push_str(&answer_text(self.alloc, self.case_answer(line))?)?;
        }
        answers.push('\n')
    }

    fn case_answer(&mut self, text: &str) -> Result<String, Fault> {
        let mut line = Line::new(self.alloc, text)?;
        let word = line.word()?;
        let answer = self.word_answer(&word, &mut line)?;
        if line.is_empty() {
            Ok(answer)
        } else {
            Err(Fault::BadLine)
        }
    }

    fn word_answer(&mut self, word: &str, line: &mut Line) -> Result<String, Fault> {
        let alloc = self.alloc;
        match word {
            "decode" => spellings::read(alloc, Reading::Decode, line),
            "skip" => spellings::read(alloc, Reading::Skip, line),
            "fronts" => spellings::fronts(alloc, line),
            "encode" => spellings::encode(alloc, line),
            "recode" => spellings::recode(alloc, line),
            "feed" => streams::spellings(alloc, line),
            "text" => streams::texts(alloc, line),
            "build" => terms::build(alloc, line),
            "copy" => terms::copy(alloc, line),
            "depth" => terms::depth(alloc, line),
            "key" => terms::key(alloc, line),
            "hash" => terms::hash(alloc, line),
            "order" => terms::order(alloc, line),
            "above" => terms::above(alloc, &mut self.terms, line),
            "byte" => lists::byte(alloc, line),
            "character" => lists::character(alloc, line),
            "part" => lists::part(alloc, line),
            "source" => sources::reads(alloc, line),
            "machine" => machines::serve(alloc, line),
            _ => self.hosts.answer(word, line),
        }
    }
}
