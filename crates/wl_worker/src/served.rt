//! A served connection.

ghost use Rattle.std.specs.Prelude.{◌≡◌, ◌⊎◌, ◌<◌, ◌≤◌, [], None, IfOk, length};
ghost use Rattle.wl_edge.specs.Edge.{Rose};
ghost use Rattle.wl_session.specs.Sessions.{asks_in, fresh_session};
ghost use Rattle.wl_worker.specs.Sending.{IsDue, Settles, end_of};
ghost use Rattle.wl_worker.specs.Outcomes.{asker};
ghost use Rattle.wl_worker.specs.Served.{RoundTells, around, HasSeenLast};

use crate::ended::{Ended, RoundEnd};
use crate::flush::{Flushed, flush_output};
use crate::outside::{Caller, Outside};
use crate::seat_pass::SeatPass;
use crate::stepping::hear_and_step;
use ask_mail::TokenAsks;
use call_counts::CallCounts;
use output_parts::Output;
use std::alloc::Global;
use std::marker::Model;
use std::mem;
use std::sync::{Mutex, Wait};
use wl_desk::Desk;
use wl_edge::{Attestor, Clock, Gate, Link};
use wl_octets::Memory;
use wl_session::{Session, SessionFault};

/// How many bytes one receive may give.
const PIECE_LIMIT: usize = 16_384;

/// How many bytes one sending is lent at most.
const BUFFER_LENGTH: usize = 65_536;

/// How many bytes may have been written at once for their room to be kept: what a peer's first window takes.
const KEPT_ROOM: usize = 65_536;

/// A served connection. A contract sees its session, and what that wrote and the link did not take yet.
#[derive(Drop)]
pub struct Served {
    alloc: Global,
    session: Session,
    /// What the last step wrote.
    written: Output,
    /// How many bytes of it the link took.
    sent: usize,
}

impl Model for Served {
    ghost use Rattle.std.specs.Prelude.{◌≤◌, length, drop};
    ghost use Rattle.wl_worker.specs.Served.{ServedState};

    ghost Value = { ServedState };

    ghost view = { λ s. record { session = s.session; unsent = drop s.sent s.written } };

    ghost invariant = { λ s. s.sent ≤ length s.written };
}

/// What a receive is lent, and a sending whose bytes don't lie in one piece. One serves all connections of a seat, since their rounds
/// are taken one after the other.
#[derive(Drop)]
pub struct Buffer {
    bytes: Vec<u8>,
}

impl Model for Buffer {
    ghost use Rattle.std.specs.Prelude.{◌<◌, List, ℕ, vec_len};

    ghost Value = { List ℕ };

    ghost view = { λ b. b.bytes.items };

    ghost invariant = { λ b. 0 < vec_len b.bytes };
}

impl Buffer {
    /// A buffer of 65,536 bytes. A receive is lent a quarter of it.
    pub fn new(alloc: Global) -> Result<Buffer, Memory> {
        Ok(Buffer {
            bytes: vec![in alloc; 0; BUFFER_LENGTH]?,
        })
    }
}

/// The end that a session is due to, once nothing is unsent.
fn due(session: &Session) -> Option<Ended>
    ensures { IsDue session.now result }
{
    match session.failure() {
        Some(SessionFault::Protocol(fault)) => Some(Ended::Protocol(fault)),
        Some(SessionFault::Memory) => Some(Ended::Memory),
        None if session.is_done() => Some(Ended::Closed),
        None => None,
    }
}

impl Served {
    /// A connection of which no round was taken.
    pub fn start(alloc: Global) -> Result<Served, Memory>
        ensures { IfOk result (λ s. s ≡ record { session = fresh_session; unsent = [] }) }
    {
        Ok(Served {
            alloc,
            session: Session::start(alloc)?,
            written: Output::empty(alloc),
            sent: 0,
        })
    }

    /// How many bytes it holds: what the last step wrote, while some of it is unsent, or what waits in its session, whichever is
    /// more. What is unsent lends the messages that the session's streams have.
    pub(crate) fn held(&self) -> usize {
        let held = self.session.held();
        if self.sent == self.written.len() {
            return held;
        }
        held.max(self.written.len())
    }

    /// What became of its calls since this was asked last.
    pub(crate) fn take_calls(&mut self) -> CallCounts
        ensures { self.new ≡ self.old }
    {
        self.session.take_calls()
    }

    /// The same, where it is over: the calls that are left end with it.
    pub(crate) fn end_calls(&mut self) -> CallCounts
        ensures { self.new ≡ self.old }
    {
        self.session.end_calls()
    }

    /// Sends what is unsent, as far as the link takes it: the end that is due then, or `Later`, or that a
    /// sending failed.
    fn send_unsent<L: Link>(&mut self, link: &mut L, lent: &mut [u8]) -> Option<RoundEnd>
        requires { 0 < length lent.old }
        ensures settles { Settles self.old self.new (L.told link.old) (L.told link.new) result }
        ensures later { result ≡ Some RoundEnd.Later → Rose (L.stalls link.old) (L.stalls link.new) }
        ensures failed { result ≡ Some (RoundEnd.Ended Ended.WriteFault)
            → Rose (L.failed_sends link.old) (L.failed_sends link.new) }
        ensures sends { L.failed_sends link.old ≤ L.failed_sends link.new }
        ensures stalls { L.stalls link.old ≤ L.stalls link.new }
        ensures receives { L.failed_receives link.new ≡ L.failed_receives link.old }
        ensures origin { L.origin link.new ≡ L.origin link.old }
    {
        let start = self.sent;
        let (sent, flushed) = flush_output(link, &mut self.written, start, lent);
        self.sent = sent;
        match flushed {
            Flushed::Later => Some(RoundEnd::Later),
            Flushed::Failed => Some(RoundEnd::Ended(Ended::WriteFault)),
            Flushed::All => match due(&self.session) {
                Some(end) => Some(RoundEnd::Ended(end)),
                None => None,
            },
        }
    }

    /// Gives back the room of a long output, once all of it was sent.
    fn give_back(&mut self)
        ensures { self.new ≡ self.old }
    {
        let is_long = self.sent > KEPT_ROOM || self.written.lends();
        if is_long && self.sent == self.written.len() {
            self.written = Output::empty(self.alloc);
            self.sent = 0;
        }
    }

    /// Sends what is unsent, as `send_unsent` does, and gives back the room of a long output.
    fn settle<L: Link>(&mut self, link: &mut L, lent: &mut [u8]) -> Option<RoundEnd>
        requires { 0 < length lent.old }
        ensures settles { Settles self.old self.new (L.told link.old) (L.told link.new) result }
        ensures later { result ≡ Some RoundEnd.Later → Rose (L.stalls link.old) (L.stalls link.new) }
        ensures failed { result ≡ Some (RoundEnd.Ended Ended.WriteFault)
            → Rose (L.failed_sends link.old) (L.failed_sends link.new) }
        ensures sends { L.failed_sends link.old ≤ L.failed_sends link.new }
        ensures stalls { L.stalls link.old ≤ L.stalls link.new }
        ensures receives { L.failed_receives link.new ≡ L.failed_receives link.old }
        ensures origin { L.origin link.new ≡ L.origin link.old }
    {
        let end = self.send_unsent(link, lent);
        self.give_back();
        end
    }

    /// An output of no byte, in the room of the last one, all of which was sent, so that it takes no fresh memory.
    fn take_output(&mut self) -> Output
        ensures empty { result ≡ [] }
        ensures session { self.new.session ≡ self.old.session }
        ensures unsent { self.new.unsent ≡ [] }
    {
        self.sent = 0;
        mem::replace(&mut self.written, Output::empty(self.alloc)).cleared()
    }

    /// One round. First it sends what is unsent, and answers `Later` where the link takes nothing for now,
    /// or the end that is due. Else it receives once; feeds what came; has each call attested that became
    /// ready, by the origin of the link; passes the point before turns; reads the pass; takes the turn; answers
    /// the asks that wait, while an outcome has come; and sends what was written. What the link does not take
    /// stays unsent. It waits for no answer to an ask. What comes is received into `buffer`.
    ///
    /// An end other than `WriteFault` and `Memory` is answered once all that is due was sent; after an end
    /// no round is to be taken. What the pass has seen has to begin with what it had seen at the end of the
    /// last round.
    pub fn round<L: Link, A: Attestor, T: TokenAsks, C: Clock, G: Gate, R: Wait>(
        &mut self,
        rt: &R,
        desk: &Mutex<Desk<T::V>>,
        pass: &mut SeatPass<T::V>,
        link: &mut L,
        attestor: &mut A,
        connection: u64,
        asks: &mut T,
        clock: &mut C,
        gate: &G,
        buffer: &mut Buffer,
    ) -> RoundEnd
        // The publication of the last turn is one of those that the pass has seen.
        requires { HasSeenLast pass.old.seen self.old.session }
        ensures tells { RoundTells T.V.signed (asker connection T.V.token) (L.origin link.old) self.old self.new
            (L.told link.old) (L.told link.new)
            (around (A.calls attestor.old) (A.faults attestor.old) (T.taken asks.old) (T.faults asks.old)
            (C.answers clock.old) pass.old)
            (around (A.calls attestor.new) (A.faults attestor.new) (T.taken asks.new) (T.faults asks.new)
            (C.answers clock.new) pass.new)
            result }
        ensures seen { HasSeenLast pass.new.seen self.new.session }
        // An ask that waits on is in the queue or under way, or its answer is in the mailbox.
        ensures waits { result ≡ RoundEnd.On
            → (asks_in self.new.session ≡ None) ⊎ T.holds asks.new connection }
        ensures later { result ≡ RoundEnd.Later → Rose (L.stalls link.old) (L.stalls link.new) }
        ensures read_fault { result ≡ RoundEnd.Ended Ended.ReadFault
            → Rose (L.failed_receives link.old) (L.failed_receives link.new) }
        ensures write_fault { result ≡ RoundEnd.Ended Ended.WriteFault
            → Rose (L.failed_sends link.old) (L.failed_sends link.new) }
        ensures receives { L.failed_receives link.old ≤ L.failed_receives link.new }
        ensures sends { L.failed_sends link.old ≤ L.failed_sends link.new }
        ensures stalls { L.stalls link.old ≤ L.stalls link.new }
        ensures origin { L.origin link.new ≡ L.origin link.old }
    {
        let lent = buffer.bytes.as_mut_slice();
        if let Some(end) = self.settle(link, lent) {
            return end;
        }
        let mut out = self.take_output();
        let caller = Caller::new(rt, self.alloc, desk, connection);
        let mut outside = Outside::new(pass, attestor, asks, clock, gate);
        let session = &mut self.session;
        let room = PIECE_LIMIT.min(lent.len());
        let (piece, _) = lent.split_at_mut(room);
        if let Err(end) = hear_and_step(&caller, &mut outside, link, session, piece, &mut out) {
            return RoundEnd::Ended(end);
        }
        self.written = out;
        self.sent = 0;
        end_of(self.settle(link, lent))
    }
}

/// The end of a round that had a piece. Where the link takes nothing for now the connection goes on.
fn end_of(sent: Option<RoundEnd>) -> RoundEnd
    ensures { result ≡ end_of sent }
{
    match sent {
        None | Some(RoundEnd::Later) => RoundEnd::On,
        Some(end) => end,
    }
}
