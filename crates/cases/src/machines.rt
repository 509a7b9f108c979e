//! Commands to a machine.

use crate::fault::Fault;
use crate::line::{Line, bytes_of};
use crate::shown::{answer_text, join, printed};
use crate::texts::terms_of;
use dets_machine::Machine;
use dets_term::Term;
use host_model::MemHost;
use std::alloc::Global;

/// A machine over a host in memory.
#[derive(Drop)]
struct Server {
    machine: Machine,
    host: MemHost,
}

/// `machine BYTES ..`
pub fn serve(alloc: Global, line: &mut Line) -> Result<String, Fault> {
    let mut server = Server {
        machine: Machine::new(alloc),
        host: MemHost::new(alloc, &[], &[])?,
    };
    let mut answers = String::new(alloc);
    for word in line.rest() {
        server.serve(alloc, &word, &mut answers)?;
    }
    Ok(answers)
}

impl Server {
    /// Answers each command of a text, and behind it that all clients exit.
    fn serve(&mut self, alloc: Global, word: &str, answers: &mut String) -> Result<(), Fault> {
        for command in terms_of(alloc, &bytes_of(alloc, word)?)? {
            let reply = answer_text(alloc, self.reply(alloc, &command))?;
            join(answers, "; ", &reply)?;
        }
        self.machine.finish(&mut self.host)?;
        Ok(join(answers, "; ", "closed")?)
    }

    fn reply(&mut self, alloc: Global, command: &Term) -> Result<String, Fault> {
        printed(alloc, &self.machine.step(&mut self.host, command)?)
    }
}
