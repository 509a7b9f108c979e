use crate::Fed;
use dets_term::Memory;

/// Terms from a stream of bytes that comes in pieces.
pub trait Feed: Drop {
    ghost use Rattle.std.specs.Prelude.{◌≡◌, ◌<◌, ◌+◌, ◌^◌, length, true, false, OnOk, OnErr};
    ghost use Rattle.feed_model.specs.Meaning.{Meaning};
    ghost use Rattle.feed_model.specs.Feed.{Feed, total, with_piece, IsNext};
    ghost use Rattle.feed_model.specs.Steady.{Steady};

    /// Why there is no next term.
    type Fault: Drop;

    /// What the bytes mean.
    ghost meaning: { Meaning Self.Fault };

    /// What the feed shows.
    ghost shows: { Self → Feed Self.Fault };

    /// Puts a piece behind what is left. `Memory` changes nothing.
    fn feed(&mut self, piece: &[u8]) -> Result<(), Memory>
        requires not_finished { (shows self.old).finished ≡ false }
        requires room { total (shows self.old) + length piece.now < 2 ^ 63 }
        ensures ok { OnOk result (shows self.new ≡ with_piece (shows self.old) piece.now) }
        ensures err { OnErr result (self.new ≡ self.old) };

    /// Says that no more input comes.
    fn finish(&mut self)
        ensures { shows self.new ≡ record (shows self.old) { finished = true } };

    /// The next term of the stream, or that more input is needed, or that there is none. A fault comes again at each later call, but
    /// want of memory changes nothing.
    fn next(&mut self) -> Result<Fed, Self::Fault>
        ensures next { IsNext meaning (shows self.old) (shows self.new) result }
        ensures keeps { (total (shows self.new) ≡ total (shows self.old)) × ((shows self.new).finished ≡ (shows self.old).finished) };

    /// What the bytes mean is steady.
    ghost steady: { Steady meaning };
}
