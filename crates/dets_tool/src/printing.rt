//! Terms that are put as they are, in their printed form or by their spelling.
ghost use Rattle.std.specs.Prelude.{◌≡◌, IfOk};
ghost use Rattle.dets_tool.specs.Service.{printing, encoding, printed_line as line_of_term};

use crate::Memory;
use crate::service::Service;
use dets_machine::Stop;
use dets_term::{ByteList, Term};
use etf_codec::encode;
use host_model::Host;
use std::alloc::Global;
use term_text::print;

/// Each term is put in its printed form, with a full stop and a line end.
#[derive(Clone, Copy, Drop)]
pub(crate) struct Printing(pub(crate) Global);

/// The canonical spelling of each term is put.
#[derive(Clone, Copy, Drop)]
pub(crate) struct Encoding(pub(crate) Global);

impl Service for Printing {
    ghost State = { Unit {0} };

    ghost service = { printing };

    ghost state = { λ _. tt };

    ghost is_ready = { λ _. Unit {0} };

    ghost ended = { λ s. s };

    fn serve<H: Host>(&mut self, host: &mut H, term: &Term) -> Result<ByteList, Stop> {
        let _ = host;
        Ok(printed_line(self.0, term)?)
    }

    fn finish<H: Host>(&mut self, host: &mut H) -> Result<(), Stop> {
        let _ = host;
        Ok(())
    }
}

impl Service for Encoding {
    ghost State = { Unit {0} };

    ghost service = { encoding };

    ghost state = { λ _. tt };

    ghost is_ready = { λ _. Unit {0} };

    ghost ended = { λ s. s };

    fn serve<H: Host>(&mut self, host: &mut H, term: &Term) -> Result<ByteList, Stop> {
        let _ = host;
        Ok(encode(self.0, term)?)
    }

    fn finish<H: Host>(&mut self, host: &mut H) -> Result<(), Stop> {
        let _ = host;
        Ok(())
    }
}

/// The printed form of a term, a full stop and a line end.
pub(crate) fn printed_line(alloc: Global, term: &Term) -> Result<ByteList, Memory>
    ensures { IfOk result (λ line. line ≡ line_of_term term.now) }
{
    let mut line = print(alloc, term)?;
    line.extend_from_slice(b".\n")?;
    Ok(line)
}
