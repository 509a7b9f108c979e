//! The lines of a row that make its table, which can be run again.
use crate::fault::Fault;
use crate::table::Table;
use crate::touch::Touch;
use dets_term::Memory;
use std::alloc::Global;

/// What a line did to the table.
#[derive(Drop)]
enum Step {
    Plan(Vec<Touch>),
    Flush,
}

/// What the lines did so far, and the most segments of the table.
#[derive(Drop)]
pub struct Row {
    alloc: Global,
    most: u32,
    steps: Vec<Step>,
}

impl Row {
    /// The row of a table that was just made.
    pub fn new(alloc: Global, most: u32) -> Row {
        Row {
            alloc,
            most,
            steps: Vec::new(alloc),
        }
    }

    /// A command that touched these keys was planned, or was full.
    pub fn planned(&mut self, touches: Vec<Touch>) -> Result<(), Memory> {
        self.steps.push(Step::Plan(touches))?;
        Ok(())
    }

    /// What waited was flushed.
    pub fn flushed(&mut self) -> Result<(), Memory> {
        self.steps.push(Step::Flush)?;
        Ok(())
    }

    /// A new table to which all this was done again.
    pub fn table(&self) -> Result<Table, Fault> {
        let mut table = Table::new(self.alloc, self.most)?;
        for step in &self.steps {
            table = after(self.alloc, table, step)?;
        }
        Ok(table)
    }
}

/// The table behind one step more.
fn after(alloc: Global, table: Table, step: &Step) -> Result<Table, Fault> {
    match step {
        Step::Plan(touches) => {
            let (table, _outcome) = table.command(alloc, touches)?;
            Ok(table)
        }
        Step::Flush => Ok(table.flush()?),
    }
}
