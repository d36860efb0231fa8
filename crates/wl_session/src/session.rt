//! A session: bytes of a connection, names, turns and tokens in; bytes of its answers out.

ghost use Rattle.std.specs.Prelude.{◌≡◌, ◌++◌, IfOk, OnOk, IsSome, IfSome, None, Some, option_map};
ghost use Rattle.list_laws.specs.Lists.{GainsFront};
ghost use Rattle.h2_frame.specs.declared.fault.FrameFault.TheVariants as frame_faults;
ghost use Rattle.h2_frame.specs.Reading.{reading_from};
ghost use Rattle.wl_session.specs.Sessions.{fresh_session, Feeds, Turns, Names, GivesOutcome, unnamed_in, asks_in, is_done_in, failure_in, Began, fault_in, feed_said};
ghost use Rattle.wl_session.specs.Settled.{MayTurn, IsShown, is_number};
ghost use Rattle.wl_session.specs.Sharing.{MayShare, SharesOf};

use crate::asks::{JwtAsk, JwtOutcome, SessionFault};
use crate::shared_views::SharedViews;
use crate::talk::{Talk, first_of};
use call_counts::CallCounts;
use h2_conn::ConnFault;
use h2_frame::{Frame, FrameFault, Parser};
use output_parts::Output;
use std::alloc::Global;
use std::marker::Model;
use std::snapshot;
use wl_match::Index;
use wl_octets::{Memory, Row};
use wl_selector::Selectors;
use wl_snapshot::Snapshot;

/// A connection. A contract sees where its bytes end, its talk, and the last turn's publication; or the fault with which
/// its talk has failed; or that memory ran out.
#[derive(Drop)]
pub struct Session {
    alloc: Global,
    parser: Parser,
    talk: Talk,
    failed: Option<SessionFault>,
    /// The number of the last turn's publication.
    number: Option<u64>,
    /// The publication itself, for contracts alone: it takes no memory.
    shown: Option<snapshot::Snapshot<Snapshot>>,
}

impl Model for Session {
    ghost use Rattle.std.specs.Prelude.{option_map};
    ghost use Rattle.wl_session.specs.Sessions.{SessionState, state_by};
    ghost use Rattle.wl_session.specs.Settled.{IsSettled};

    ghost Value = { SessionState };

    ghost view = { λ s. state_by s.failed s.parser s.talk (option_map (λ g. g.value) s.shown) };

    ghost invariant = { λ s. IsSettled s.failed (option_map (λ g. g.value) s.shown) s.number s.talk };
}

impl Session {
    /// A connection of which nothing came yet.
    #[tactic(auto, using(crate::proofs::SessionFacts::settled_fresh))]
    pub fn start(alloc: Global) -> Result<Session, Memory>
        ensures { IfOk result (λ s. s ≡ fresh_session) }
    {
        Ok(Session {
            alloc,
            parser: Parser::start(alloc),
            talk: Talk::start(alloc)?,
            failed: None,
            number: None,
            shown: None,
        })
    }

    /// The peer's bytes, however cut: each whole frame in turn, with what may be written after it. At Protocol the GOAWAY
    /// is in `out`. After a fault or out of memory each later call that can be refused gives that answer again; out of
    /// memory, `out` gained a prefix of what was due.
    #[tactic(auto, using(crate::proofs::SessionFacts::settled_feed))]
    pub fn feed(&mut self, piece: &[u8], out: &mut Output) -> Result<(), SessionFault>
        ensures { Feeds piece.now self.old result out.old out.new self.new }
    {
        if let Some(fault) = self.failed {
            return Err(fault);
        }
        match advance(self.alloc, &mut self.parser, &mut self.talk, piece, out) {
            Ok(None) => Ok(()),
            Ok(Some(fault)) => {
                self.failed = Some(SessionFault::Protocol(fault));
                Err(SessionFault::Protocol(fault))
            }
            Err(Memory) => {
                self.failed = Some(SessionFault::Memory);
                Err(SessionFault::Memory)
            }
        }
    }

    /// The stream of the lowest ready call that was not attested. It takes no memory.
    pub fn unnamed(&self) -> Option<u32>
        ensures { result ≡ unnamed_in self.now }
    {
        match self.failed {
            None => self.talk.unnamed(),
            Some(_) => None,
        }
    }

    /// The call that `unnamed` gives takes these selectors, which are its caller's from then on; without selectors its
    /// stream ends, since its caller could not be attested.
    #[tactic(auto, using(crate::proofs::SessionFacts::settled_name))]
    pub fn name(
        &mut self,
        selectors: Option<Selectors>,
        out: &mut Output,
    ) -> Result<(), SessionFault>
        requires { IsSome (unnamed_in self.old) }
        ensures { Names selectors self.old result out.old out.new self.new }
    {
        match self.talk.name(selectors, out) {
            Ok(()) => Ok(()),
            Err(Memory) => {
                self.failed = Some(SessionFault::Memory);
                Err(SessionFault::Memory)
            }
        }
    }

    /// A turn: each ready call is answered on its view of this publication, where that is not the view that answered it
    /// last. The publication may not be older than the last turn's, and has to be the same where its number is. A turn on
    /// the last turn's number in which no call is new makes no view.
    pub fn turn(&mut self, snapshot: &Snapshot, out: &mut Output) -> Result<(), SessionFault>
        requires follows { MayTurn snapshot.now self.old }
        requires named { unnamed_in self.old ≡ None }
        ensures { Turns snapshot.now self.old result out.old out.new self.new }
    {
        self.turn_over(&mut SharedViews::new(self.alloc), snapshot, None, out)
    }

    /// The same, by the index of the publication's entries: it looks at no entry but those of its callers.
    pub fn turn_by(
        &mut self,
        snapshot: &Snapshot,
        index: &Index,
        out: &mut Output,
    ) -> Result<(), SessionFault>
        requires follows { MayTurn snapshot.now self.old }
        requires named { unnamed_in self.old ≡ None }
        requires index { index.now ≡ snapshot.now.entries }
        ensures { Turns snapshot.now self.old result out.old out.new self.new }
    {
        self.turn_over(
            &mut SharedViews::new(self.alloc),
            snapshot,
            Some(index),
            out,
        )
    }

    /// The same, with views and messages that connections share: what was made for a caller of equal selectors in this
    /// publication is not made again, and what is made here is kept for the others.
    pub fn turn_with(
        &mut self,
        views: &mut SharedViews,
        snapshot: &Snapshot,
        index: &Index,
        out: &mut Output,
    ) -> Result<(), SessionFault>
        requires follows { MayTurn snapshot.now self.old }
        requires named { unnamed_in self.old ≡ None }
        requires index { index.now ≡ snapshot.now.entries }
        requires shares { MayShare snapshot.now views.old }
        ensures turns { Turns snapshot.now self.old result out.old out.new self.new }
        ensures shares { SharesOf snapshot.now views.old views.new }
    {
        self.turn_over(views, snapshot, Some(index), out)
    }

    /// The same on a publication that shows no call that was answered another view than answered it last: where no call is
    /// new it makes no view, and takes no memory.
    #[tactic(auto, using(crate::proofs::ViewFacts::unchanged_settles, crate::proofs::ViewFacts::unchanged_turns))]
    pub fn turn_unchanged(
        &mut self,
        snapshot: &Snapshot,
        index: &Index,
        out: &mut Output,
    ) -> Result<(), SessionFault>
        requires follows { MayTurn snapshot.now self.old }
        requires named { unnamed_in self.old ≡ None }
        requires index { index.now ≡ snapshot.now.entries }
        requires shown { IsShown snapshot.now self.old }
        ensures { Turns snapshot.now self.old result out.old out.new self.new }
    {
        if let Some(fault) = self.failed {
            return Err(fault);
        }
        if self.talk.has_new() {
            return self.turn_over(
                &mut SharedViews::new(self.alloc),
                snapshot,
                Some(index),
                out,
            );
        }
        self.number = Some(snapshot.number);
        self.shown = Some(snapshot::Snapshot::of(snapshot));
        Ok(())
    }

    #[tactic(auto, using(crate::proofs::SessionFacts::settled_turn, crate::proofs::SessionFacts::stays_on))]
    fn turn_over(
        &mut self,
        views: &mut SharedViews,
        snapshot: &Snapshot,
        index: Option<&Index>,
        out: &mut Output,
    ) -> Result<(), SessionFault>
        requires follows { MayTurn snapshot.now self.old }
        requires index { IfSome index (λ i. i.now ≡ snapshot.now.entries) }
        requires shares { MayShare snapshot.now views.old }
        ensures turns { Turns snapshot.now self.old result out.old out.new self.new }
        ensures shares { SharesOf snapshot.now views.old views.new }
    {
        if let Some(fault) = self.failed {
            return Err(fault);
        }
        if is_number(self.number, snapshot.number) && !self.talk.has_new() {
            return Ok(());
        }
        match self.talk.turn(views, snapshot, index, out) {
            Ok(()) => {
                self.number = Some(snapshot.number);
                self.shown = Some(snapshot::Snapshot::of(snapshot));
                Ok(())
            }
            Err(Memory) => {
                self.failed = Some(SessionFault::Memory);
                Err(SessionFault::Memory)
            }
        }
    }

    /// The first waiting ask, by stream and then entry id. It takes no memory.
    pub fn asks(&self) -> Option<&JwtAsk>
        ensures { option_map (λ a. a.now) result ≡ asks_in self.now }
    {
        match self.failed {
            None => self.talk.ask(),
            Some(_) => None,
        }
    }

    /// The ask that `asks` gives gets this outcome. When all tokens of its call have come, the call's message is queued;
    /// where one cannot be had, the call ends with status 14.
    #[tactic(auto, using(crate::proofs::SessionFacts::settled_given))]
    pub fn given(&mut self, outcome: JwtOutcome, out: &mut Output) -> Result<(), SessionFault>
        requires { IsSome (asks_in self.old) }
        ensures { GivesOutcome outcome self.old result out.old out.new self.new }
    {
        match self.talk.give(outcome, out) {
            Ok(()) => Ok(()),
            Err(Memory) => {
                self.failed = Some(SessionFault::Memory);
                Err(SessionFault::Memory)
            }
        }
    }

    /// Whether the session has not failed, the peer sent GOAWAY, and no stream is live. It takes no memory.
    pub fn is_done(&self) -> bool
        ensures { result ≡ is_done_in self.now }
    {
        match self.failed {
            None => self.talk.is_done(),
            Some(_) => false,
        }
    }

    /// How the session has failed, which is what each later call that can be refused gives. It takes no memory.
    pub fn failure(&self) -> Option<SessionFault>
        ensures { result ≡ failure_in self.now }
    {
        self.failed
    }

    /// How many messages began. It takes no memory.
    pub fn begun(&self) -> u64
        ensures { Began self.now result }
    {
        self.talk.begun()
    }

    /// How many bytes it holds that are still to be written: control frames, and the messages of its streams. One that
    /// several streams share counts for each. It takes no memory.
    pub fn held(&self) -> usize {
        self.talk.held()
    }

    /// What became of its calls since this was asked last, in numbers. It takes no memory.
    pub fn take_calls(&mut self) -> CallCounts
        ensures { self.new ≡ self.old }
    {
        self.talk.take_calls()
    }

    /// The same, where its connection is over: the calls that are left end with it. It takes no memory.
    pub fn end_calls(&mut self) -> CallCounts
        ensures { self.new ≡ self.old }
    {
        self.talk.end_calls()
    }
}

/// Whether the last turn's publication had this number.
pub fn is_number(last: Option<u64>, number: u64) -> bool
    ensures { result ≡ is_number last number }
{
    match last {
        Some(last) => last == number,
        None => false,
    }
}

/// What came: frames, and the fault of bytes that are none.
#[derive(Drop)]
struct Heard {
    frames: Row<Frame>,
    fault: Option<FrameFault>,
}

/// The frames of these bytes, and the fault of those that are none.
#[tactic(auto, using(crate::proofs::FedBytes::open_none, crate::proofs::FedBytes::fault_some))]
fn read(alloc: Global, parser: &mut Parser, piece: &[u8]) -> Result<Heard, Memory>
    ensures ending { OnOk result (parser.new ≡ (reading_from parser.old piece.now).ending) }
    ensures frames { IfOk result (λ heard. heard.frames ≡ (reading_from parser.old piece.now).frames) }
    ensures fault { IfOk result (λ heard. heard.fault ≡ fault_in (reading_from parser.old piece.now).ending) }
    ensures named { IfOk result (λ heard. heard.fault ≡ Some frame_faults.Memory → ⊥) }
{
    let mut frames = Row::empty(alloc);
    match parser.feed(alloc, piece, &mut frames) {
        Ok(()) => Ok(Heard {
            frames,
            fault: None,
        }),
        Err(FrameFault::Memory) => Err(Memory),
        Err(why) => Ok(Heard {
            frames,
            fault: Some(why),
        }),
    }
}

/// The frames of these bytes in turn, and then the fault of bytes that are none.
#[tactic(auto, using(crate::proofs::FedBytes::said_open, crate::proofs::FedBytes::said_fault, crate::proofs::FedBytes::frames_front, crate::proofs::FedBytes::break_front, crate::proofs::FedBytes::fed_fit))]
fn advance(
    alloc: Global,
    parser: &mut Parser,
    talk: &mut Talk,
    piece: &[u8],
    out: &mut Output,
) -> Result<Option<ConnFault>, Memory>
    ensures ending { OnOk result (parser.new ≡ (reading_from parser.old piece.now).ending) }
    ensures after { OnOk result (talk.new ≡ (feed_said (reading_from parser.old piece.now) talk.old).after) }
    ensures bytes { OnOk result
        (out.new ≡ out.old ++ (feed_said (reading_from parser.old piece.now) talk.old).bytes) }
    ensures fault { IfOk result
        (λ fault. fault ≡ (feed_said (reading_from parser.old piece.now) talk.old).fault) }
    ensures prefix { GainsFront
        (feed_said (reading_from parser.old piece.now) talk.old).bytes out.old out.new }
{
    let Heard { frames, fault } = read(alloc, parser, piece)?;
    let first = talk.frames(frames, out)?;
    match fault {
        None => Ok(first),
        Some(why) => {
            let then = talk.fail(why, out)?;
            Ok(first_of(first, then))
        }
    }
}
