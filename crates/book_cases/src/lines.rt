//! The lines one behind the other.
use crate::fault::Fault;
use crate::image::pick_of;
use crate::kept::{Kept, Outcome};
use crate::row::Row;
use crate::shown::{entry_text, numbers_text};
use crate::stops::stops;
use crate::table::Table;
use crate::touch::{key_of, name_of, touches_of};
use dets_term::Memory;
use std::alloc::Global;

/// The answer to each line of an input, on a line of its own.
pub fn answers(alloc: Global, input: &str) -> Result<String, Memory> {
    let mut answers = String::new(alloc);
    let mut block = Block {
        alloc,
        row: None,
        table: None,
    };
    for line in input.lines() {
        block.answer(line, &mut answers)?;
    }
    Ok(answers)
}

/// What the lines of a block share: the table that one of them made, and what they did to it.
#[derive(Drop)]
struct Block {
    alloc: Global,
    row: Option<Row>,
    table: Option<Table>,
}

impl Block {
    /// Answers a line on a line. A heading or a blank line is answered as it is, and begins a new block.
    fn answer(&mut self, line: &str, answers: &mut String) -> Result<(), Memory> {
        if line.is_empty() || line.starts_with('#') {
            self.row = None;
            self.table = None;
            answers.push_str(line)?;
        } else {
            match self.line_answer(line) {
                Ok(text) => answers.push_str(&text)?,
                Err(Fault::BadLine) => answers.push_str("bad line")?,
                Err(Fault::Disk) => answers.push_str("failed")?,
                Err(Fault::Memory(memory)) => return Err(memory),
            }
        }
        answers.push('\n')
    }

    fn line_answer(&mut self, line: &str) -> Result<String, Fault> {
        match line.split_once(' ') {
            Some((word, operands)) => self.word_answer(word, operands),
            None => self.word_answer(line, ""),
        }
    }

    fn word_answer(&mut self, word: &str, operands: &str) -> Result<String, Fault> {
        match word {
            "book" => self.book(operands),
            "plan" => self.plan(operands),
            "flush" => self.flush(operands),
            "known" => self.known(operands),
            "stops" => self.stops(operands),
            _ => Err(Fault::BadLine),
        }
    }

    /// `book MOST`
    fn book(&mut self, operands: &str) -> Result<String, Fault> {
        let most = operands.parse()?;
        self.table = Some(Table::new(self.alloc, most)?);
        self.row = Some(Row::new(self.alloc, most));
        self.numbers()
    }

    /// `plan TOUCH ..`
    fn plan(&mut self, operands: &str) -> Result<String, Fault> {
        let touches = touches_of(self.alloc, operands)?;
        let table = self.table.take().ok_or(Fault::BadLine)?;
        let (table, outcome) = table.command(self.alloc, &touches)?;
        self.table = Some(table);
        let text = match outcome {
            Outcome::Planned => self.known(operands)?,
            Outcome::Full(exp) => self.full(exp)?,
            Outcome::BadLine => return Err(Fault::BadLine),
        };
        self.row()?.planned(touches)?;
        Ok(text)
    }

    /// `flush`
    fn flush(&mut self, operands: &str) -> Result<String, Fault> {
        if !operands.is_empty() {
            return Err(Fault::BadLine);
        }
        let table = self.table.take().ok_or(Fault::BadLine)?;
        self.table = Some(table.flush()?);
        self.row()?.flushed()?;
        self.numbers()
    }

    /// `known KEY ..`
    fn known(&self, operands: &str) -> Result<String, Fault> {
        let mut text = String::new(self.alloc);
        for word in operands.split_whitespace() {
            let name = name_of(word);
            let entry = self.kept()?.known(self.alloc, &key_of(self.alloc, name)?)?;
            text.push_str(&entry_text(self.alloc, name, entry)?)?;
        }
        text.push_str(&self.numbers()?)?;
        Ok(text)
    }

    /// `stops PICK KEY ..`
    fn stops(&mut self, operands: &str) -> Result<String, Fault> {
        let (pick, names) = operands.split_once(' ').ok_or(Fault::BadLine)?;
        let pick = pick_of(pick)?;
        stops(self.alloc, self.row()?, pick, names)
    }

    /// What a command is answered whose block of this exponent has no place.
    fn full(&self, exp: u8) -> Result<String, Fault> {
        let numbers = self.numbers()?;
        Ok(format!(in self.alloc; "full {exp}; {numbers}")?)
    }

    /// The numbers of the book.
    fn numbers(&self) -> Result<String, Fault> {
        Ok(numbers_text(self.alloc, self.kept()?.numbers())?)
    }

    /// The book of the block's table.
    fn kept(&self) -> Result<&Kept, Fault> {
        Ok(self.table.as_ref().ok_or(Fault::BadLine)?.kept())
    }

    /// What the lines did to it.
    fn row(&mut self) -> Result<&mut Row, Fault> {
        self.row.as_mut().ok_or(Fault::BadLine)
    }
}
