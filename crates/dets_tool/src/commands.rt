//! The commands of a script, each answered by its reply.
use crate::printing::printed_line;
use crate::service::Service;
use dets_machine::{Machine, Stop};
use dets_term::{ByteList, Term};
use host_model::Host;
use std::alloc::Global;

/// A machine that replies to commands.
#[derive(Drop)]
pub(crate) struct Commands {
    alloc: Global,
    machine: Machine,
}

impl Commands {
    ghost use Rattle.std.specs.Prelude.{◌≡◌, false};
    ghost use Rattle.run_model.specs.InMemory.{first_state};

    /// No command was answered yet.
    pub(crate) fn new(alloc: Global) -> Commands
        ensures { result.machine ≡ record { state = first_state; starved = false } }
    {
        Commands {
            alloc,
            machine: Machine::new(alloc),
        }
    }
}

impl Service for Commands {
    ghost use Rattle.std.specs.Prelude.{◌≡◌, false};
    ghost use Rattle.run_model.specs.InMemory.{State as ServerState, after_exit};
    ghost use Rattle.dets_tool.specs.Service.{serving};

    ghost State = { ServerState };

    ghost service = { serving };

    ghost state = { λ commands. commands.machine.state };

    ghost is_ready = { λ commands. commands.machine.starved ≡ false };

    ghost ended = { after_exit };

    fn serve<H: Host>(&mut self, host: &mut H, term: &Term) -> Result<ByteList, Stop> {
        let reply = self.machine.step(host, term)?;
        Ok(printed_line(self.alloc, &reply)?)
    }

    fn finish<H: Host>(&mut self, host: &mut H) -> Result<(), Stop> {
        self.machine.finish(host)
    }
}
