//! The machine that serves one table.
ghost use Rattle.std.specs.Prelude.{◌≡◌, ◌<◌, ◌↔◌, true, false, Some, None, IfOk, IfErr, OnOk, IsErrOf};
ghost use Rattle.dets_term.specs.TermValue.{depth};
ghost use Rattle.run_model.specs.InMemory.{open_table, insert_one, look_up, first_state, serve, step, after_exit};
ghost use Rattle.dets_machine.specs.Command.{asked_by, IsBelow};
ghost use Rattle.dets_machine.specs.declared.machine.Stop.TheVariants.{Memory as OutOfMemory};

use crate::command::{Command, command_of};
use crate::table::Table;
use crate::{Memory, reply};
use dets_term::Term;
use host_model::Host;
use std::alloc::Global;
use std::marker::Model;

/// Why a command got no reply.
#[derive(Clone, Copy, Debug, PartialEq, Eq)]
pub enum Stop {
    /// The command is not built yet. The machine is as it was.
    NotYet,
    /// Want of memory. Each later call answers it too.
    Memory,
}

impl From<Memory> for Stop {
    ghost from_gives = { λ _ e. e ≡ OutOfMemory };

    fn from(_error: Memory) -> Stop {
        Stop::Memory
    }
}

/// A table and who has it open.
#[derive(Drop)]
pub struct Machine {
    alloc: Global,
    table: Table,
    is_open: bool,
    starved: bool,
}

impl Model for Machine {
    ghost use Rattle.dets_machine.specs.MachineValue.{MachineValue, machine_value, coded_machine};

    ghost Value = { MachineValue };

    ghost coded = { coded_machine };

    ghost view = { λ a. machine_value a.table a.is_open a.starved };
}

impl Machine {
    /// A machine whose table is empty and not open.
    pub fn new(alloc: Global) -> Machine
        ensures { result ≡ record { state = first_state; starved = false } }
    {
        Machine {
            alloc,
            table: Table::new(alloc),
            is_open: false,
            starved: false,
        }
    }

    /// Serves one command, and gives its reply. `NotYet`: exactly where the command is not built in this state.
    /// `Memory`: want of memory, in this call or an earlier one.
    pub fn step<H: Host>(&mut self, host: &mut H, command: &Term) -> Result<Term, Stop>
        ensures ok { IfOk result (λ reply. step self.old.state command.now ≡ Some (reply, self.new.state)) }
        ensures goes_on { OnOk result (self.new.starved ≡ false) }

        ensures not_yet { IsErrOf result Stop.NotYet
            ↔ (self.old.starved ≡ false) × (step self.old.state command.now ≡ None) }
        ensures unchanged { IsErrOf result Stop.NotYet → self.new ≡ self.old }

        ensures memory { IsErrOf result Stop.Memory → self.new.starved ≡ true }
        ensures starved { self.old.starved ≡ true → IsErrOf result Stop.Memory × (self.new ≡ self.old) }

        ensures host { host.new ≡ host.old }
    {
        let _ = host;
        if self.starved {
            return Err(Stop::Memory);
        }
        let Some(command) = command_of(command) else {
            return Err(Stop::NotYet);
        };
        match self.serve(command) {
            Err(Stop::Memory) => {
                self.starved = true;
                Err(Stop::Memory)
            }
            answer => answer,
        }
    }

    /// Ends all clients, and so closes the table. `Memory`: want of memory in an earlier call.
    pub fn finish<H: Host>(&mut self, host: &mut H) -> Result<(), Stop>
        ensures ok { self.old.starved ≡ false → (result ≡ Ok tt) × (self.new.state ≡ after_exit self.old.state) }
        ensures goes_on { self.new.starved ≡ self.old.starved }
        ensures starved { self.old.starved ≡ true → IsErrOf result Stop.Memory × (self.new ≡ self.old) }
        ensures host { host.new ≡ host.old }
    {
        let _ = host;
        if self.starved {
            return Err(Stop::Memory);
        }
        self.is_open = false;
        Ok(())
    }

    /// Serves a command. After `Memory` nothing is known of the state.
    fn serve(&mut self, command: Command<'_>) -> Result<Term, Stop>
        requires { IsBelow 256 command }
        ensures ok { IfOk result (λ reply. serve self.old.state (asked_by command.entry) ≡ Some (reply, self.new.state)) }
        ensures not_yet { IsErrOf result Stop.NotYet ↔ (serve self.old.state (asked_by command.entry) ≡ None) }
        ensures unchanged { IsErrOf result Stop.NotYet → self.new ≡ self.old }
        ensures goes_on { self.new.starved ≡ self.old.starved }
    {
        match command {
            Command::Open if !self.is_open => self.open(),
            Command::Insert(object) if self.is_open => self.insert(object),
            Command::Lookup(key) if self.is_open => self.lookup(key),
            _ => Err(Stop::NotYet),
        }
    }

    fn open(&mut self) -> Result<Term, Stop>
        requires { self.old.state.is_open ≡ false }
        ensures ok { IfOk result (λ reply. serve self.old.state open_table ≡ Some (reply, self.new.state)) }
        ensures memory { IfErr result (λ stop. stop ≡ Stop.Memory) }
        ensures goes_on { self.new.starved ≡ self.old.starved }
    {
        let reply = reply::ok_table(self.alloc)?;
        self.is_open = true;
        Ok(reply)
    }

    fn insert(&mut self, object: &Term) -> Result<Term, Stop>
        requires open { self.old.state.is_open ≡ true }
        requires shallow { depth object.now < 256 }
        ensures ok { IfOk result (λ reply. serve self.old.state (insert_one object.now) ≡ Some (reply, self.new.state)) }
        ensures memory { IfErr result (λ stop. stop ≡ Stop.Memory) }
        ensures goes_on { self.new.starved ≡ self.old.starved }
    {
        self.table.insert(object.copy(self.alloc)?)?;
        Ok(reply::ok(self.alloc)?)
    }

    fn lookup(&self, key: &Term) -> Result<Term, Stop>
        requires { self.now.state.is_open ≡ true }
        ensures ok { IfOk result (λ reply. serve self.now.state (look_up key.now) ≡ Some (reply, self.now.state)) }
        ensures memory { IfErr result (λ stop. stop ≡ Stop.Memory) }
    {
        let found = self.table.lookup(self.alloc, key)?;
        Ok(reply::list(found)?)
    }
}
