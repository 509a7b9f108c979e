//! What is done with each term of an input.
use dets_machine::Stop;
use dets_term::{ByteList, Term};
use host_model::Host;

/// One who answers terms, one after the other, and says what is put for each.
pub(crate) trait Service: Drop {
    ghost use Rattle.std.specs.Prelude.{◌≡◌, Some, None, Ok, IfOk, OnOk, IsErrOf};
    ghost use Rattle.dets_term.specs.TermValue.{TermValue};
    ghost use Rattle.dets_tool.specs.Service.{Service};

    /// What it is between two terms.
    ghost State: { Type 0 };

    ghost service: { Service State };

    ghost state: { Self → State };

    /// It did not want memory yet.
    ghost is_ready: { Self → Type 0 };

    /// Its state behind the end of the run.
    ghost ended: { State → State };

    /// The bytes that are put for a term. `NotYet`: it is a command that is not built.
    fn serve<H: Host>(&mut self, host: &mut H, term: &Term) -> Result<ByteList, Stop>
        requires { is_ready self.old }
        ensures ok { IfOk result (λ line. (answer : TermValue) × (service.step (state self.old) term.now ≡ Some (answer, state self.new))
            × (line ≡ service.line answer)) }
        ensures not_yet { IsErrOf result Stop.NotYet → service.step (state self.old) term.now ≡ None }
        ensures ready { OnOk result (is_ready self.new) }
        ensures host { host.new ≡ host.old };

    /// Says that no more terms come. It answers a fault only where it wanted memory before.
    fn finish<H: Host>(&mut self, host: &mut H) -> Result<(), Stop>
        ensures ready { is_ready self.old → result ≡ Ok tt }
        ensures ok { OnOk result (state self.new ≡ ended (state self.old)) }
        ensures host { host.new ≡ host.old };
}
