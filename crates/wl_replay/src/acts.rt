//! What happens in a simulation.

ghost use Rattle.std.specs.Prelude.{◌≡◌, ◌+◌, ◌<◌, ◌≤◌, ◌^◌, ◌∷◌, [], Bool, List, length, true, false, slice_index_or, IfOk, OnOk};
ghost use Rattle.std.specs.Fmt.{decimal};
ghost use Rattle.wl_core.specs.declared.events.Event.{Event};
ghost use Rattle.wl_core.specs.Events.{IsWithin};
ghost use Rattle.wl_core.specs.Moments.{Beginning};
ghost use Rattle.wl_core.specs.Worlds.{StandsFor};
ghost use Rattle.wl_replay.specs.Stands.{Fits};
ghost use Rattle.wl_core.specs.Lines.{onto};
ghost use Rattle.wl_replay.specs.Simulations.{act_of, identity_event, ticket_in, identity_events, claimed, piece_of};

use crate::numbers::put_decimal;
use std::alloc::Global;
use wl_core::{Event, Line, World};
use wl_entry::Signed;
use wl_octets::{Memory, Octets, Row};

/// When a simulation begins, in Unix seconds.
pub(crate) const FIRST_CLOCK: u64 = 1_000;

/// For how long an identity is signed.
const IDENTITY_SECONDS: u64 = 100;

/// The first bytes of a caller: the preface, SETTINGS, and a FetchX509SVID call.
const OPENING: &[u8] = b"PRI * HTTP/2.0\r\n\r\nSM\r\n\r\n\
    \x00\x00\x00\x04\x00\x00\x00\x00\x00\
    \x00\x00h\x01\x04\x00\x00\x00\x01\x83\x86\
    \x04 /SpiffeWorkloadAPI/FetchX509SVID\x01\x09localhost\
    \x0f\x10\x10application/grpc\x00\x02te\x08trailers\x00\x12workload.spiffe.io\x04true\
    \x00\x00\x05\x00\x01\x00\x00\x00\x01\x00\x00\x00\x00\x00";

/// A PING.
const PING: &[u8] = b"\x00\x00\x08\x06\x00\x00\x00\x00\x00\x00\x00\x00\x00\x00\x00\x00\x00";

/// What happens in a step.
#[derive(Clone, Copy)]
pub(crate) enum Act {
    /// A claim, and each of its tickets is signed.
    Claim,
    /// So many seconds pass.
    Wait(u64),
    /// The entry of this number gets its DNS name, or loses it.
    Rename(usize),
    /// A caller sends its first bytes, or a PING.
    Feed(u32),
    Turn(u32),
}

/// What a number says, among so many entries and callers.
#[tactic(auto, unfolding(crate::specs::Simulations::act_of))]
pub(crate) fn act_of(entries: usize, callers: u32, number: u64) -> Act
    requires entries { 0 < entries }
    requires callers { 0 < callers }
    ensures value { result ≡ act_of entries callers number }
    ensures fits { Fits entries callers result }
{
    let rest = number >> 16;
    match number % 6 {
        0 => Act::Claim,
        1 => Act::Wait(rest % 50),
        2 => Act::Rename((rest % entries as u64) as usize),
        3 => Act::Feed((rest % u64::from(callers)) as u32),
        _ => Act::Turn((rest % u64::from(callers)) as u32),
    }
}

/// A number in decimal.
fn decimal(alloc: Global, number: u64) -> Result<Octets, Memory>
    ensures { IfOk result (λ o. o ≡ decimal number) }
{
    let mut text = Vec::new(alloc);
    put_decimal(&mut text, number)?;
    Ok(Octets::from_vec(text))
}

/// Takes an event of which nothing is to be said.
pub(crate) fn apply(alloc: Global, world: &mut World, event: Event) -> Result<(), Memory>
    requires { IsWithin event }
    ensures { (d : Beginning) (past : List Event) → StandsFor world.old d past
        → OnOk result (StandsFor world.new d (event ∷ past)) }
{
    let mut said = Row::empty(alloc);
    world.apply(event, &mut said)
}

/// The signed identity that comes back with a ticket.
fn identity(alloc: Global, now: u64, ticket: u64) -> Result<Event, Memory>
    requires { now < 2 ^ 63 }
    ensures value { IfOk result (λ e. e ≡ identity_event now ticket) }
    ensures within { IfOk result IsWithin }
{
    Ok(Event::Signed {
        ticket,
        signed: Signed {
            chain: decimal(alloc, ticket)?,
            key: decimal(alloc, ticket)?,
            not_before: now,
            not_after: now + IDENTITY_SECONDS,
        },
        now,
    })
}

/// The ticket that a line tells.
fn ticket_in(line: &Line) -> Option<u64>
    ensures { result ≡ ticket_in line.now }
{
    match line {
        Line::Ticket {
            number,
            entry_id: _,
        } => Some(*number),
        _ => None,
    }
}

/// Signs the ticket that a line tells, where it tells one.
fn answer(alloc: Global, world: &mut World, now: u64, line: &Line) -> Result<(), Memory>
    requires { now < 2 ^ 63 }
    ensures { (d : Beginning) (past : List Event) → StandsFor world.old d past
        → OnOk result (StandsFor world.new d (onto (identity_events now (line.now ∷ [])) past)) }
{
    match ticket_in(line) {
        Some(ticket) => {
            let event = identity(alloc, now, ticket)?;
            apply(alloc, world, event)
        }
        None => Ok(()),
    }
}

/// Signs the tickets that these lines tell, in their order.
fn answer_all(alloc: Global, world: &mut World, now: u64, lines: &[Line]) -> Result<(), Memory>
    requires { now < 2 ^ 63 }
    ensures { (d : Beginning) (past : List Event) → StandsFor world.old d past
        → OnOk result (StandsFor world.new d (onto (identity_events now lines.now) past)) }
{
    for line in lines {
        answer(alloc, world, now, line)?;
    }
    Ok(())
}

/// Claims, and signs each ticket.
#[tactic(auto, unfolding(crate::specs::Simulations::claimed))]
pub(crate) fn claim(alloc: Global, world: &mut World, now: u64) -> Result<(), Memory>
    requires { now < 2 ^ 63 }
    ensures { (d : Beginning) (past : List Event) → StandsFor world.old d past
        → OnOk result (StandsFor world.new d (claimed d now past)) }
{
    let mut said = Row::empty(alloc);
    world.apply(Event::Claim { now }, &mut said)?;
    answer_all(alloc, world, now, said.as_slice())
}

/// The next bytes of a caller.
#[tactic(auto, unfolding(crate::specs::Callers::opening, crate::specs::Callers::ping, h2_wire::specs::Encoding::frame_bytes, h2_wire::specs::Encoding::head_bytes))]
pub(crate) fn piece(alloc: Global, is_fed: bool) -> Result<Octets, Memory>
    ensures { IfOk result (λ o. o ≡ piece_of is_fed) }
{
    if is_fed {
        Octets::from_slice(alloc, PING)
    } else {
        Octets::from_slice(alloc, OPENING)
    }
}
