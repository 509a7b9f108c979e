// Standard input.
ghost use Rattle.std.specs.Prelude.{◌≡◌, ◌<◌, ◌≤◌, length, take, None, IfOk, OnOk, OnErr};
ghost use Rattle.std.specs.Io.KnownBytes.{Consumes, IsAtEnd, Keeps};
ghost use Rattle.host_model.specs.Counts.{counted, count_fits, Rose, raised};
ghost use Rattle.host_model.specs.StdSource.{StdSourceState};

use crate::counts::with_fault;
use crate::{Memory, Source, SourceFailed};
use std::io::{ErrorKind, Read};
use std::marker::Model;

/// Standard input. As a `Source` it tells nothing of what is left.
#[derive(Drop)]
pub struct StdSource<R: Input> {
    runtime: R,
    // One reader for all reads, so that nothing is lost that it may have read ahead.
    reader: R::Reader,
    faults: u64,
}

impl<R: Input> Model for StdSource<R> {
    ghost Value = { StdSourceState };

    ghost view = { λ s. record { left = R.Reader.remaining s.reader; faults = s.faults } };
}

impl<R: Input + Clone + Drop> StdSource<R> {
    /// The standard input of a clone of this runtime. `Memory`: that clone found none.
    pub fn new(rt: &R) -> Result<StdSource<R>, Memory>
        ensures { IfOk result (λ s. s.faults ≡ 0) }
    {
        let runtime = rt.clone()?;
        let reader = runtime.reader();
        Ok(StdSource {
            runtime,
            reader,
            faults: 0,
        })
    }
}

impl<R: Input> Source for StdSource<R> {
    ghost told = { λ _. None };

    ghost faults = { λ s. counted s.faults };

    ghost faults_fit = { λ s. count_fits s.faults };

    /// One read, made again where a signal interrupts it. Any other error is a fault.
    fn read(&mut self, buf: &mut [u8]) -> Result<usize, SourceFailed>
        requires { 0 < length buf.old }
        ensures fits { IfOk result (λ n. n ≤ length buf.new) }
        ensures ok_faults { OnOk result (self.new.faults ≡ self.old.faults) }
        ensures cause { OnErr result (Rose self.old.faults self.new.faults) }
        ensures never_falls { self.old.faults ≤ self.new.faults }

        // What this source adds.
        ensures err { OnErr result (self.new.faults ≡ raised self.old.faults) }

        // At a reader that tells what it has left, as standard input does not: just that is given.
        ensures given { IfOk result (λ n. Consumes self.old.left self.new.left (take n buf.new)) }
        ensures end { IfOk result (λ n. n ≡ 0 → IsAtEnd self.new.left) }
        ensures untaken { OnErr result (Keeps self.old.left self.new.left) }
    {
        let outcome = read_once(&mut self.reader, buf);
        if outcome.is_err() {
            self.faults = with_fault(self.faults);
        }
        outcome
    }
}

// One read, made again where a signal interrupts it.
fn read_once<R: Read>(reader: &mut R, buf: &mut [u8]) -> Result<usize, SourceFailed>
    ensures fits { IfOk result (λ n. n ≤ length buf.new) }
    ensures given { IfOk result
        (λ n. Consumes (R.remaining reader.old) (R.remaining reader.new) (take n buf.new)) }
    ensures end { IfOk result (λ n. n ≡ 0 → 0 < length buf.old → IsAtEnd (R.remaining reader.new)) }
    ensures untaken { OnErr result (Keeps (R.remaining reader.old) (R.remaining reader.new)) }
{
    for _ in 0..u64::MAX {
        match reader.read(buf) {
            Ok(n) => return Ok(n),
            Err(e) => {
                if e.kind() != ErrorKind::Interrupted {
                    return Err(SourceFailed);
                }
            }
        }
    }
    Err(SourceFailed)
}
