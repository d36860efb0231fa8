//! Sessions by their connections.

ghost use Rattle.std.specs.Prelude.{◌≡◌, ℕ, ◌+◌, ◌<◌, ◌++◌, false, Option, None, Some, is_some, IfOk, OnOk, IsSome, map, sum, replicate, slice_set, length};
ghost use Rattle.wl_session.specs.Sessions.{unnamed_in, asks_in, Turns};
ghost use Rattle.wl_session.specs.Settled.{MayTurn, IsShown};
ghost use Rattle.wl_core.specs.declared.events.TheConstants.{CONNS};
ghost use Rattle.wl_session.specs.Steps.{IsTold, outcome_told, begun_in, HasMemory};
ghost use Rattle.wl_core.specs.Seats.{seat_at, joined_seat, named_seat, feed_seat, turn_seat, begun_at, HasMemoryAt, IsReady};
ghost use Rattle.wl_core.specs.Counts.{counted};
ghost use Rattle.wl_core.specs.Marks.{IsShownAt};
ghost use Rattle.wl_core.specs.Moments.{with_told};
ghost use Rattle.wl_core.specs.Lines.{join_lines, name_lines, told_lines, close_lines};

use crate::counts::begun_at;
use crate::events::CONNS;
use crate::lines::{Line, one_line, session_lines};
use crate::naming::name_all;
use output_parts::Output;
use std::alloc::Global;
use std::mem;
use wl_match::Index;
use wl_octets::{Memory, Row};
use wl_selector::Selectors;
use wl_session::{JwtOutcome, Session, SessionFault};
use wl_snapshot::Snapshot;

/// A session, and what a call of it is attested as when it becomes ready.
#[derive(Drop)]
pub struct Seat {
    pub caller: Option<Selectors>,
    pub session: Session,
}

/// A turn on a publication. A session that is not marked was shown what it shows, and makes no view unless a call is new.
fn take_turn(
    session: &mut Session,
    snapshot: &Snapshot,
    index: &Index,
    is_marked: bool,
    out: &mut Output,
) -> Result<(), SessionFault>
    requires follows { MayTurn snapshot.now session.old }
    requires named { unnamed_in session.old ≡ None }
    requires index { index.now ≡ snapshot.now.entries }
    requires shown { is_marked ≡ false → IsShown snapshot.now session.old }
    ensures { Turns snapshot.now session.old result out.old out.new session.new }
{
    if is_marked {
        session.turn_by(snapshot, index, out)
    } else {
        session.turn_unchanged(snapshot, index, out)
    }
}

impl Seat {
    /// The caller's bytes; each call that is ready after them is attested.
    #[tactic(auto, using(crate::proofs::CallAnswers::fed_well, crate::proofs::CallAnswers::fed_badly))]
    pub fn feed(&mut self, alloc: Global, piece: &[u8], out: &mut Output) -> Result<(), Memory>
        ensures told { OnOk result (IsTold (feed_seat piece.now self.old) self.new.session out.old out.new) }
        ensures caller { self.new.caller ≡ self.old.caller }
    {
        match self.session.feed(piece, out) {
            Ok(()) => {
                name_all(alloc, &mut self.session, &self.caller, out)?;
                Ok(())
            }
            Err(SessionFault::Protocol(_)) => Ok(()),
            Err(SessionFault::Memory) => Err(Memory),
        }
    }

    /// A turn on a publication.
    #[tactic(auto, using(crate::proofs::CallAnswers::turned_well, crate::proofs::CallAnswers::turned_badly))]
    pub fn turn(
        &mut self,
        snapshot: &Snapshot,
        index: &Index,
        is_marked: bool,
        out: &mut Output,
    ) -> Result<(), Memory>
        requires follows { MayTurn snapshot.now self.old.session }
        requires named { unnamed_in self.old.session ≡ None }
        requires index { index.now ≡ snapshot.now.entries }
        requires shown { is_marked ≡ false → IsShown snapshot.now self.old.session }
        ensures told { OnOk result (IsTold (turn_seat snapshot.now self.old) self.new.session out.old out.new) }
        ensures caller { self.new.caller ≡ self.old.caller }
    {
        match take_turn(&mut self.session, snapshot, index, is_marked, out) {
            Ok(()) => Ok(()),
            Err(SessionFault::Protocol(_)) => Ok(()),
            Err(SessionFault::Memory) => Err(Memory),
        }
    }

    /// The first waiting ask gets this outcome.
    #[tactic(auto, using(crate::proofs::CallAnswers::given_well))]
    pub fn give(&mut self, outcome: JwtOutcome, out: &mut Output) -> Result<(), Memory>
        requires { IsSome (asks_in self.old.session) }
        ensures told { OnOk result (IsTold (outcome_told outcome self.old.session) self.new.session out.old out.new) }
        ensures caller { self.new.caller ≡ self.old.caller }
    {
        match self.session.given(outcome, out) {
            Ok(()) => Ok(()),
            Err(_) => Err(Memory),
        }
    }

    /// How many messages began. It takes no memory.
    #[tactic(auto, using(crate::proofs::WideCounts::began_is))]
    pub fn begun(&self) -> u64
        ensures { HasMemory self.now.session → result ≡ begun_in self.now.session }
    {
        self.session.begun()
    }
}

/// The sessions, and how many messages those that are gone had begun.
#[derive(Drop)]
pub struct Seats {
    pub seats: Vec<Option<Seat>>,
    pub begun_before: u64,
}

impl Seats {
    /// No session on any connection.
    #[tactic(auto, using(crate::proofs::Rooms::one_more))]
    pub fn start(alloc: Global) -> Result<Seats, Memory>
        ensures seats { IfOk result (λ s. s.seats.items ≡ replicate CONNS None) }
        ensures begun { IfOk result (λ s. s.begun_before ≡ 0) }
    {
        let mut seats = Vec::with_capacity(alloc, CONNS as usize)?;
        for _ in 0..CONNS {
            seats.push(None)?;
        }
        Ok(Seats {
            seats,
            begun_before: 0,
        })
    }

    /// Whether there is a session on a connection. It takes no memory.
    pub fn is_taken(&self, conn: u32) -> bool
        requires { conn < length self.now.seats.items }
        ensures { result ≡ is_some (seat_at self.now.seats.items conn) }
    {
        self.seats[conn as usize].is_some()
    }

    /// Takes the session off a connection.
    pub fn take(&mut self, conn: u32) -> Option<Seat>
        requires { conn < length self.old.seats.items }
        ensures value { result ≡ seat_at self.old.seats.items conn }
        ensures seats { self.new.seats.items ≡ slice_set self.old.seats.items conn None }
        ensures begun { self.new.begun_before ≡ self.old.begun_before }
    {
        mem::replace(&mut self.seats[conn as usize], None)
    }

    /// Puts a session on a connection.
    pub fn put(&mut self, conn: u32, seat: Seat)
        requires { conn < length self.old.seats.items }
        ensures seats { self.new.seats.items ≡ slice_set self.old.seats.items conn (Some seat) }
        ensures begun { self.new.begun_before ≡ self.old.begun_before }
    {
        self.seats[conn as usize] = Some(seat);
    }

    /// A caller with these selectors connects.
    #[tactic(auto, using(crate::proofs::Rooms::busy_set, crate::proofs::Rooms::busy_said, crate::proofs::Rooms::new_set, crate::proofs::Rooms::new_said))]
    pub fn join(
        &mut self,
        alloc: Global,
        conn: u32,
        selectors: Selectors,
    ) -> Result<Row<Line>, Memory>
        requires { conn < length self.old.seats.items }
        ensures seats { OnOk result (self.new.seats.items ≡ slice_set self.old.seats.items conn (joined_seat selectors (seat_at self.old.seats.items conn))) }
        ensures lines { IfOk result (λ l. l ≡ join_lines conn (seat_at self.old.seats.items conn)) }
        ensures begun { self.new.begun_before ≡ self.old.begun_before }
    {
        match self.take(conn) {
            Some(seat) => {
                self.put(conn, seat);
                let lines = one_line(alloc, Line::Busy(conn))?;
                Ok(lines)
            }
            None => {
                let seat = Seat {
                    caller: Some(selectors),
                    session: Session::start(alloc)?,
                };
                self.put(conn, seat);
                let lines = one_line(alloc, Line::Joined(conn))?;
                Ok(lines)
            }
        }
    }

    /// From now on a call that becomes ready is attested with these selectors, or can't be.
    #[tactic(auto, using(crate::proofs::Rooms::named_set, crate::proofs::Rooms::named_said, crate::proofs::Rooms::unnamed_set, crate::proofs::Rooms::unnamed_said))]
    pub fn name(
        &mut self,
        alloc: Global,
        conn: u32,
        caller: Option<Selectors>,
    ) -> Result<Row<Line>, Memory>
        requires { conn < length self.old.seats.items }
        ensures seats { OnOk result (self.new.seats.items ≡ slice_set self.old.seats.items conn (named_seat caller (seat_at self.old.seats.items conn))) }
        ensures lines { IfOk result (λ l. l ≡ name_lines conn caller (seat_at self.old.seats.items conn)) }
        ensures begun { self.new.begun_before ≡ self.old.begun_before }
    {
        match self.take(conn) {
            None => {
                let lines = one_line(alloc, Line::Absent(conn))?;
                Ok(lines)
            }
            Some(seat) => {
                let said = match &caller {
                    None => Line::Unnamed(conn),
                    Some(_) => Line::Named(conn),
                };
                let Seat { caller: _, session } = seat;
                self.put(conn, Seat { caller, session });
                let lines = one_line(alloc, said)?;
                Ok(lines)
            }
        }
    }

    /// Bytes come from the caller.
    #[tactic(auto, using(crate::proofs::CallAnswers::told_set, crate::proofs::CallAnswers::none_set, crate::proofs::Rooms::absent_said, crate::proofs::Rooms::written_said))]
    pub fn feed(&mut self, alloc: Global, conn: u32, piece: &[u8]) -> Result<Row<Line>, Memory>
        requires { conn < length self.old.seats.items }
        ensures seats { OnOk result (self.new.seats.items ≡ with_told conn (feed_seat piece.now) self.old.seats.items) }
        ensures lines { IfOk result (λ l. l ≡ told_lines conn (feed_seat piece.now) (seat_at self.old.seats.items conn)) }
        ensures begun { self.new.begun_before ≡ self.old.begun_before }
    {
        match self.take(conn) {
            None => {
                let lines = one_line(alloc, Line::Absent(conn))?;
                Ok(lines)
            }
            Some(seat) => {
                let mut seat = seat;
                let mut out = Output::empty(alloc);
                seat.feed(alloc, piece, &mut out)?;
                let failure = seat.session.failure();
                self.put(conn, seat);
                let lines = session_lines(alloc, conn, out, failure)?;
                Ok(lines)
            }
        }
    }

    /// The caller's calls are answered from a publication.
    #[tactic(auto, using(crate::proofs::CallAnswers::told_set, crate::proofs::CallAnswers::none_set, crate::proofs::Rooms::absent_said, crate::proofs::Rooms::written_said))]
    pub fn turn(
        &mut self,
        alloc: Global,
        conn: u32,
        snapshot: &Snapshot,
        index: &Index,
        is_marked: bool,
    ) -> Result<Row<Line>, Memory>
        requires room { conn < length self.old.seats.items }
        requires ready { IsReady snapshot.now (seat_at self.old.seats.items conn) }
        requires index { index.now ≡ snapshot.now.entries }
        requires shown { is_marked ≡ false → IsShownAt snapshot.now (seat_at self.old.seats.items conn) }
        ensures seats { OnOk result (self.new.seats.items ≡ with_told conn (turn_seat snapshot.now) self.old.seats.items) }
        ensures lines { IfOk result (λ l. l ≡ told_lines conn (turn_seat snapshot.now) (seat_at self.old.seats.items conn)) }
        ensures begun { self.new.begun_before ≡ self.old.begun_before }
    {
        match self.take(conn) {
            None => {
                let lines = one_line(alloc, Line::Absent(conn))?;
                Ok(lines)
            }
            Some(seat) => {
                let mut seat = seat;
                let mut out = Output::empty(alloc);
                seat.turn(snapshot, index, is_marked, &mut out)?;
                let failure = seat.session.failure();
                self.put(conn, seat);
                let lines = session_lines(alloc, conn, out, failure)?;
                Ok(lines)
            }
        }
    }

    /// The caller's connection ends.
    pub fn close(&mut self, alloc: Global, conn: u32) -> Result<Row<Line>, Memory>
        requires { conn < length self.old.seats.items }
        ensures seats { OnOk result (self.new.seats.items ≡ slice_set self.old.seats.items conn None) }
        ensures lines { IfOk result (λ l. l ≡ close_lines conn (seat_at self.old.seats.items conn)) }
        ensures begun { HasMemoryAt (seat_at self.old.seats.items conn)
            → OnOk result (self.new.begun_before ≡ counted (self.old.begun_before + begun_at (seat_at self.old.seats.items conn))) }
    {
        let before = self.begun_before;
        match self.take(conn) {
            None => {
                let lines = one_line(alloc, Line::Absent(conn))?;
                Ok(lines)
            }
            Some(seat) => {
                self.begun_before = before.saturating_add(seat.begun());
                let lines = one_line(alloc, Line::Closed(conn))?;
                Ok(lines)
            }
        }
    }

    /// How many messages began in all sessions; the count stands still at its type's end. It takes no memory.
    pub fn begun(&self) -> u64
        ensures { ((conn : ℕ) → HasMemoryAt (seat_at self.now.seats.items conn))
            → result ≡ counted (self.now.begun_before + sum (map begun_at self.now.seats.items)) }
    {
        let mut begun = self.begun_before;
        for seat in self.seats.as_slice() {
            begun = begun.saturating_add(begun_at(seat));
        }
        begun
    }
}
