//! One round of the trace: a piece, names, a turn, and tokens.

ghost use Rattle.std.specs.Prelude.{◌≡◌, ◌⊎◌, ◌<◌, ◌≤◌, None, Err, OnOk, length};
ghost use Rattle.wl_edge.specs.Edge.{Rose};
ghost use Rattle.wl_publish.specs.Lists.{IsLast, Numbered};
ghost use Rattle.wl_session.specs.Sessions.{asks_in, unnamed_in};
ghost use Rattle.wl_session.specs.Settled.{MayTurn};
ghost use Rattle.wl_worker.specs.Outcomes.{asker};
ghost use Rattle.wl_worker.specs.Served.{around, HasSeenLast};
ghost use Rattle.wl_worker.specs.Stepping.{TurnTells, StepTells, HearTells};

use crate::ended::Ended;
use crate::hearing::hear;
use crate::naming::attest_all;
use crate::outcomes::answer_ready;
use crate::outside::{Caller, Outside};
use crate::seat_pass::SeatPass;
use ask_mail::TokenAsks;
use output_parts::Output;
use std::sync::Wait;
use wl_edge::{Attestor, BEFORE_TURN, Clock, Gate, Link, Origin};
use wl_entry::Voucher;
use wl_octets::Memory;
use wl_publish::PublishedSnapshot;
use wl_session::{Session, SessionFault};

/// A turn on the publication that was read.
fn take_turn<V: Voucher>(
    pass: &mut SeatPass<V>,
    session: &mut Session,
    published_snapshot: &PublishedSnapshot,
    out: &mut Output,
) -> Result<(), Memory>
    requires last { IsLast pass.old.seen published_snapshot.now }
    requires numbered { Numbered pass.old.seen }
    requires follows { MayTurn published_snapshot.now session.old }
    requires named { unnamed_in session.old ≡ None }
    ensures tells { TurnTells published_snapshot.now session.old session.new out.old out.new result }
    ensures stays { pass.new ≡ pass.old }
{
    match pass.take_turn(session, published_snapshot, out) {
        Ok(()) => Ok(()),
        Err(_) => Err(Memory),
    }
}

/// Feeds what came, has each call attested that became ready, reads the last publication, takes the turn,
/// and answers the asks that wait, while an outcome has come. Where the talk fails there is no turn. What is
/// to be sent is put after `out`; out of memory that is of no use. Where a call was attested, `attested` says so.
pub fn step<A: Attestor, T: TokenAsks, C: Clock, G: Gate, R: Wait>(
    caller: &Caller<T::V, R>,
    outside: &mut Outside<A, T, C, G>,
    origin: &Origin,
    piece: &[u8],
    session: &mut Session,
    out: &mut Output,
    attested: &mut bool,
) -> Result<(), Memory>
    requires { HasSeenLast outside.old.pass.now.seen session.old }
    ensures tells { StepTells T.V.signed (asker caller.now.connection T.V.token) origin.now piece.now
        session.old session.new out.old out.new
        (around (A.calls outside.old.attestor.now) (A.faults outside.old.attestor.now)
        (T.taken outside.old.asks.now) (T.faults outside.old.asks.now)
        (C.answers outside.old.clock.now) outside.old.pass.now)
        (around (A.calls outside.new.attestor.now) (A.faults outside.new.attestor.now)
        (T.taken outside.new.asks.now) (T.faults outside.new.asks.now)
        (C.answers outside.new.clock.now) outside.new.pass.now)
        result }
    ensures waits { OnOk result ((asks_in session.new ≡ None)
        ⊎ T.holds outside.new.asks.now caller.now.connection) }
    ensures lent { (outside.new.pass.ghost_name ≡ outside.old.pass.ghost_name)
        × (outside.new.attestor.ghost_name ≡ outside.old.attestor.ghost_name)
        × (outside.new.asks.ghost_name ≡ outside.old.asks.ghost_name)
        × (outside.new.clock.ghost_name ≡ outside.old.clock.ghost_name) }
{
    match session.feed(piece, out) {
        Ok(()) => {}
        Err(SessionFault::Protocol(_)) => return Ok(()),
        Err(SessionFault::Memory) => return Err(Memory),
    }
    attest_all(origin, outside.attestor, session, out, attested)?;
    outside.gate.pass(BEFORE_TURN);
    let published_snapshot = outside.pass.read()?;
    take_turn(outside.pass, session, &published_snapshot, out)?;
    answer_ready(
        caller,
        origin.socket,
        outside.asks,
        outside.clock,
        session,
        out,
    )?;
    Ok(())
}

/// Notes at a link that a call of it was attested, where one was.
fn note_attested<L: Link>(link: &mut L, attested: bool)
    ensures told { L.told link.new ≡ L.told link.old }
    ensures receives { L.failed_receives link.new ≡ L.failed_receives link.old }
    ensures sends { L.failed_sends link.new ≡ L.failed_sends link.old }
    ensures stalls { L.stalls link.new ≡ L.stalls link.old }
    ensures origin { L.origin link.new ≡ L.origin link.old }
{
    if attested {
        link.note_call();
    }
}

/// Hears the link once, and takes a step with what came. `Closed` and `ReadFault` are of the link; then
/// nothing else is done. Where a call was attested, that is noted at the link.
pub fn hear_and_step<L: Link, A: Attestor, T: TokenAsks, C: Clock, G: Gate, R: Wait>(
    caller: &Caller<T::V, R>,
    outside: &mut Outside<A, T, C, G>,
    link: &mut L,
    session: &mut Session,
    buffer: &mut [u8],
    out: &mut Output,
) -> Result<(), Ended>
    requires seen { HasSeenLast outside.old.pass.now.seen session.old }
    requires room { 0 < length buffer.old }
    ensures tells { HearTells T.V.signed (asker caller.now.connection T.V.token) (L.origin link.old)
        session.old session.new out.old out.new (L.told link.old) (L.told link.new)
        (around (A.calls outside.old.attestor.now) (A.faults outside.old.attestor.now)
        (T.taken outside.old.asks.now) (T.faults outside.old.asks.now)
        (C.answers outside.old.clock.now) outside.old.pass.now)
        (around (A.calls outside.new.attestor.now) (A.faults outside.new.attestor.now)
        (T.taken outside.new.asks.now) (T.faults outside.new.asks.now)
        (C.answers outside.new.clock.now) outside.new.pass.now)
        result }
    ensures waits { OnOk result ((asks_in session.new ≡ None)
        ⊎ T.holds outside.new.asks.now caller.now.connection) }
    ensures failed { result ≡ Err Ended.ReadFault
        → Rose (L.failed_receives link.old) (L.failed_receives link.new) }
    ensures receives { L.failed_receives link.old ≤ L.failed_receives link.new }
    ensures sends { L.failed_sends link.new ≡ L.failed_sends link.old }
    ensures stalls { L.stalls link.new ≡ L.stalls link.old }
    ensures origin { L.origin link.new ≡ L.origin link.old }
    ensures lent { (outside.new.pass.ghost_name ≡ outside.old.pass.ghost_name)
        × (outside.new.attestor.ghost_name ≡ outside.old.attestor.ghost_name)
        × (outside.new.asks.ghost_name ≡ outside.old.asks.ghost_name)
        × (outside.new.clock.ghost_name ≡ outside.old.clock.ghost_name) }
{
    let count = match hear(link, buffer) {
        Ok(count) => count,
        Err(end) => return Err(end),
    };
    let piece = buffer.split_at(count).0;
    let mut attested = false;
    match step(
        caller,
        outside,
        link.origin(),
        piece,
        session,
        out,
        &mut attested,
    ) {
        Ok(()) => {
            note_attested(link, attested);
            Ok(())
        }
        Err(Memory) => Err(Ended::Memory),
    }
}
