//! The terms of an input, taken as it comes, and what is put for each.
ghost use Rattle.std.specs.Prelude.{◌≡◌, ◌≢◌, ◌<◌, ◌+◌, ◌^◌, length, true, false, OnOk, IfErr, IsErrOf, ◌⊎◌};
ghost use Rattle.host_model.specs.Counts.{Rose};
ghost use Rattle.host_model.specs.Source.{Stream};
ghost use Rattle.feed_model.specs.Feed.{empty_feed, total};
ghost use Rattle.dets_tool.specs.Status.{status_of_pull, status_of_run};
ghost use Rattle.dets_tool.specs.Run.{Ran};

use crate::input::Input;
use crate::service::Service;
use crate::{InputFeed, InputWhy, Piece, PullFault, Status};
use dets_machine::Stop;
use dets_term::Term;
use feed_model::Fed;
use host_model::{Host, Source};
use std::alloc::Global;

/// A run takes at most this many bytes of input.
const BUDGET: u64 = 4_294_967_296;

impl From<PullFault> for Status {
    ghost from_gives = { λ fault status. status ≡ status_of_pull fault };

    fn from(fault: PullFault) -> Status {
        match fault {
            PullFault::SourceFault => Status::SourceFault,
            PullFault::TooMuch => Status::Input(BUDGET, InputWhy::TooMuch),
        }
    }
}

/// An input that is being read: what was fed of it, and who answers its terms.
#[derive(Drop)]
struct InputRun<F, W> {
    feed: F,
    service: W,
    /// How many bytes were fed.
    fed: u64,
    /// How many terms were answered. Each of them took a byte at least.
    answered: u64,
}

/// Reads the input that the source gives, and puts the line of each of its terms.
pub(crate) fn run<F: Input, W: Service, S: Source, H: Host>(
    alloc: Global,
    feed: F,
    service: W,
    source: &mut S,
    host: &mut H,
) -> Status
    requires feed { F.shows feed ≡ empty_feed }
    requires first { W.state service ≡ W.service.first }
    requires ready { W.is_ready service }
    ensures ran { (stream : Stream) → S.told source.old ≡ Some stream → stream.ended ≡ false
        → Ran F.meaning F.told W.service result stream.left (S.told source.new) (H.shows host.old).said (H.shows host.new).said }
    ensures source_fault { result ≡ Status.SourceFault → Rose (S.faults source.old) (S.faults source.new) }
    ensures no_source_fault { result ≢ Status.SourceFault → result ≢ Status.Memory → S.faults source.new ≡ S.faults source.old }
    ensures output { result ≡ Status.Output → Rose (H.shows host.old).out_faults (H.shows host.new).out_faults }
    ensures file { (H.shows host.new).file ≡ (H.shows host.old).file }
    ensures disk_faults { (H.shows host.new).disk_faults ≡ (H.shows host.old).disk_faults }
    ensures reads { (H.shows host.new).reads ≡ (H.shows host.old).reads }
    ensures words { result ≢ Status.WordsRefused }
    ensures disk { result ≢ Status.Disk }
{
    let mut run = InputRun {
        feed,
        service,
        fed: 0,
        answered: 0,
    };
    let end = match run.serve_input(alloc, source, host) {
        Ok(()) => Status::Done,
        Err(status) => status,
    };
    run.close(host, end)
}

impl<F: Input, W: Service> InputRun<F, W> {
    ghost use Rattle.dets_tool.specs.Serving.{standing, behind_piece, IsReady, Replies, IsUnserved, IsWaiting, Serves, Breaks, TellsFaults};

    /// Reads the input to its end and answers its terms. The status says what ended the run before.
    fn serve_input<S: Source, H: Host>(
        &mut self,
        alloc: Global,
        source: &mut S,
        host: &mut H,
    ) -> Result<(), Status>
        requires feed { F.shows self.old.feed ≡ empty_feed }
        requires first { W.state self.old.service ≡ W.service.first }
        requires ready { W.is_ready self.old.service }
        requires counts { (self.old.fed ≡ 0) × (self.old.answered ≡ 0) }
        ensures ran { (stream : Stream) → S.told source.old ≡ Some stream → stream.ended ≡ false
            → Ran F.meaning F.told W.service (status_of_run result) stream.left (S.told source.new) (H.shows host.old).said (H.shows host.new).said }
        ensures source_fault { IsErrOf result Status.SourceFault → Rose (S.faults source.old) (S.faults source.new) }
        ensures no_source_fault { result ≢ Err Status.SourceFault → S.faults source.new ≡ S.faults source.old }
        ensures faults { TellsFaults result (H.shows host.old) (H.shows host.new) }
        ensures words { IsErrOf result Status.WordsRefused → ⊥ }
        ensures disk { IsErrOf result Status.Disk → ⊥ }
    {
        let mut input = InputFeed::new(alloc, BUDGET)?;
        while let Piece::Bytes = input.pull(source)? {
            self.serve_piece(host, input.piece())?;
        }
        self.feed.finish();
        self.serve_whole(host)
    }

    /// Answers the terms that are whole with one more piece of the input.
    fn serve_piece<H: Host>(&mut self, host: &mut H, piece: &[u8]) -> Result<(), Status>
        requires short { total (F.shows self.old.feed) + length piece.now < 2 ^ 63 }
        requires ready { IsReady false (F.shows self.old.feed) self.old.answered }
        requires serves { W.is_ready self.old.service }
        requires fed { self.old.fed ≡ total (F.shows self.old.feed) }
        ensures served { OnOk result (Serves F.meaning W.service false
            (behind_piece piece.now (standing (F.shows self.old.feed) (W.state self.old.service) self.old.answered (H.shows host.old)))
            (standing (F.shows self.new.feed) (W.state self.new.service) self.new.answered (H.shows host.new))) }
        ensures breaks { IfErr result (λ status. Breaks F.meaning F.told W.service status false
            (behind_piece piece.now (standing (F.shows self.old.feed) (W.state self.old.service) self.old.answered (H.shows host.old)))
            (H.shows host.new).said) }
        ensures ready { OnOk result (IsReady false (F.shows self.new.feed) self.new.answered) }
        ensures serves { OnOk result (W.is_ready self.new.service) }
        ensures waiting { OnOk result (IsWaiting F.meaning false (F.shows self.new.feed)) }
        ensures fed { OnOk result (self.new.fed ≡ total (F.shows self.new.feed)) }
        ensures total { OnOk result (total (F.shows self.new.feed) ≡ total (F.shows self.old.feed) + length piece.now) }
        ensures faults { TellsFaults result (H.shows host.old) (H.shows host.new) }
    {
        self.feed.feed(piece)?;
        self.fed += piece.len() as u64;
        self.serve_whole(host)
    }

    /// Answers the terms that are whole.
    fn serve_whole<H: Host>(&mut self, host: &mut H) -> Result<(), Status>
        requires short { total (F.shows self.old.feed) < 2 ^ 63 }
        requires ready { IsReady (F.shows self.old.feed).finished (F.shows self.old.feed) self.old.answered }
        requires serves { W.is_ready self.old.service }
        requires fed { self.old.fed ≡ total (F.shows self.old.feed) }
        ensures served { OnOk result (Serves F.meaning W.service (F.shows self.old.feed).finished
            (standing (F.shows self.old.feed) (W.state self.old.service) self.old.answered (H.shows host.old))
            (standing (F.shows self.new.feed) (W.state self.new.service) self.new.answered (H.shows host.new))) }
        ensures breaks { IfErr result (λ status. Breaks F.meaning F.told W.service status (F.shows self.old.feed).finished
            (standing (F.shows self.old.feed) (W.state self.old.service) self.old.answered (H.shows host.old)) (H.shows host.new).said) }
        ensures ready { OnOk result (IsReady (F.shows self.old.feed).finished (F.shows self.new.feed) self.new.answered) }
        ensures serves { OnOk result (W.is_ready self.new.service) }
        ensures waiting { OnOk result (IsWaiting F.meaning (F.shows self.old.feed).finished (F.shows self.new.feed)) }
        ensures fed { self.new.fed ≡ self.old.fed }
        ensures total { OnOk result (total (F.shows self.new.feed) ≡ total (F.shows self.old.feed)) }
        ensures faults { TellsFaults result (H.shows host.old) (H.shows host.new) }
    {
        while self.serve_next(host)? {}
        Ok(())
    }

    /// Answers the next term where it is whole, and says whether there was one.
    fn serve_next<H: Host>(&mut self, host: &mut H) -> Result<bool, Status>
        requires short { total (F.shows self.old.feed) < 2 ^ 63 }
        requires ready { IsReady (F.shows self.old.feed).finished (F.shows self.old.feed) self.old.answered }
        requires serves { W.is_ready self.old.service }
        requires fed { self.old.fed ≡ total (F.shows self.old.feed) }
        ensures served { OnOk result (Serves F.meaning W.service (F.shows self.old.feed).finished
            (standing (F.shows self.old.feed) (W.state self.old.service) self.old.answered (H.shows host.old))
            (standing (F.shows self.new.feed) (W.state self.new.service) self.new.answered (H.shows host.new))) }
        ensures breaks { IfErr result (λ status. Breaks F.meaning F.told W.service status (F.shows self.old.feed).finished
            (standing (F.shows self.old.feed) (W.state self.old.service) self.old.answered (H.shows host.old)) (H.shows host.new).said) }
        ensures ready { OnOk result (IsReady (F.shows self.old.feed).finished (F.shows self.new.feed) self.new.answered) }
        ensures serves { OnOk result (W.is_ready self.new.service) }
        ensures waiting { result ≡ Ok false → IsWaiting F.meaning (F.shows self.old.feed).finished (F.shows self.new.feed) }
        ensures shorter { result ≡ Ok true → length (F.shows self.new.feed).left < length (F.shows self.old.feed).left }
        ensures fed { self.new.fed ≡ self.old.fed }
        ensures total { total (F.shows self.new.feed) ≡ total (F.shows self.old.feed) }
        ensures faults { TellsFaults result (H.shows host.old) (H.shows host.new) }
    {
        match self.feed.next() {
            Ok(Fed::Term(term)) => {
                self.serve(host, &term)?;
                Ok(true)
            }
            Ok(Fed::Again) => Ok(false),
            Ok(Fed::End) => Ok(false),
            Err(fault) => Err(F::status(fault, self.fed)),
        }
    }

    /// Answers one term, and puts its line.
    fn serve<H: Host>(&mut self, host: &mut H, term: &Term) -> Result<(), Status>
        requires room { self.old.answered < 2 ^ 63 }
        requires serves { W.is_ready self.old.service }
        ensures served { OnOk result (Replies W.service
            (standing (F.shows self.old.feed) (W.state self.old.service) self.old.answered (H.shows host.old))
            (standing (F.shows self.new.feed) (W.state self.new.service) self.new.answered (H.shows host.new)) term.now) }
        ensures unserved { IfErr result (λ status. IsUnserved W.service status
            (standing (F.shows self.old.feed) (W.state self.old.service) self.old.answered (H.shows host.old)) term.now (H.shows host.new).said) }
        ensures serves { OnOk result (W.is_ready self.new.service) }
        ensures feed { self.new.feed ≡ self.old.feed }
        ensures fed { self.new.fed ≡ self.old.fed }
        ensures faults { TellsFaults result (H.shows host.old) (H.shows host.new) }
    {
        let line = match self.service.serve(host, term) {
            Ok(line) => line,
            Err(Stop::NotYet) => return Err(Status::NotYet(self.answered)),
            Err(Stop::Memory) => return Err(Status::Memory),
        };
        if host.put(line.as_slice()).is_err() {
            return Err(Status::Output);
        }
        self.answered += 1;
        Ok(())
    }

    /// Says that no more terms come, unless nothing more is to be called after this end. A fault on this way counts in its
    /// place.
    fn close<H: Host>(&mut self, host: &mut H, end: Status) -> Status
        ensures end { (result ≡ end) ⊎ (result ≡ Status.Memory) }
        ensures exit { result ≢ Status.Output → result ≢ Status.Memory → W.state self.new.service ≡ W.ended (W.state self.old.service) }
        ensures host { host.new ≡ host.old }
    {
        match end {
            Status::Output | Status::Memory => end,
            _ if self.service.finish(host).is_err() => Status::Memory,
            _ => end,
        }
    }
}
