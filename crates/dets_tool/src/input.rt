//! The feeds that an input is read by.
ghost use Rattle.dets_tool.specs.Status.{status_of_text, status_of_spelling};

use crate::{InputWhy, Status};
use etf_codec::{EtfFault, TermFeed};
use feed_model::Feed;
use term_text::{TextFault, TextFeed};

/// A feed of the terms of an input, whose faults end a run.
pub(crate) trait Input: Feed {
    ghost use Rattle.std.specs.Prelude.{◌≡◌, ℕ, false, []};
    ghost use Rattle.feed_model.specs.Meaning.{goes_on, no_term};
    ghost use Rattle.dets_tool.specs.Status.{IsRefusal};
    ghost use Rattle.dets_tool.specs.declared.status.Status.{Status};
    ghost use Rattle.dets_tool.specs.declared.status.Status.TheVariants.{Memory};

    /// The status of a fault, where so many bytes were fed.
    ghost told: { Self.Fault → ℕ → Status };

    fn status(fault: Self::Fault, fed: u64) -> Status
        ensures { result ≡ told fault fed };

    /// Want of memory is told as such, and any other fault refuses the input.
    ghost of_memory: { (fed : ℕ) → told Self.meaning.memory fed ≡ Memory };

    ghost of_others: { (fault : Self.Fault) (fed : ℕ) → IsRefusal (told fault fed) };

    /// Where nothing was fed yet the input goes on.
    ghost nothing_fed: { Self.meaning.Stands false 0 [] (no_term goes_on) };
}

impl Input for TextFeed {
    ghost use Rattle.std.specs.Prelude.{refl};
    ghost use Rattle.dets_tool.specs.Inputs.{text_refusal, no_text};

    ghost told = { status_of_text };

    fn status(fault: TextFault, fed: u64) -> Status {
        let _ = fed;
        match fault {
            TextFault::Syntax(at, why) => Status::Input(at, InputWhy::Text(why)),
            TextFault::Memory => Status::Memory,
        }
    }

    ghost of_memory = { λ fed. refl };

    ghost of_others = { text_refusal };

    ghost nothing_fed = { no_text };
}

impl Input for TermFeed {
    ghost use Rattle.std.specs.Prelude.{refl};
    ghost use Rattle.dets_tool.specs.Inputs.{spelling_refusal, no_spelling};

    ghost told = { status_of_spelling };

    fn status(fault: EtfFault, fed: u64) -> Status {
        let at = match fault {
            EtfFault::Memory => return Status::Memory,
            EtfFault::Short => fed,
            EtfFault::NotVersion(at) => at,
            EtfFault::Unsupported(at, _) => at,
            EtfFault::Compressed(at) => at,
            EtfFault::IntegerRange(at) => at,
            EtfFault::BadAtom(at) => at,
            EtfFault::BadBits(at) => at,
            EtfFault::RepeatedKey(at) => at,
            EtfFault::Depth(at) => at,
            EtfFault::LongTerm(at) => at,
        };
        Status::Input(at, InputWhy::Etf(fault))
    }

    ghost of_memory = { λ fed. refl };

    ghost of_others = { spelling_refusal };

    ghost nothing_fed = { no_spelling };
}
