//! One event.

ghost use Rattle.std.specs.Prelude.{◌≡◌, ◌<◌, false, IfOk, OnOk, length};
ghost use Rattle.wl_snapshot.specs.Untouched.{SameBut};
ghost use Rattle.wl_core.specs.Events.{IsWithin};
ghost use Rattle.wl_core.specs.Moments.{Moment, with_told};
ghost use Rattle.wl_core.specs.Seats.{seat_at, turn_seat, IsReady};
ghost use Rattle.wl_core.specs.Lines.{told_lines};
ghost use Rattle.wl_core.specs.Marks.{IsShownAt, IsTurnShown};
ghost use Rattle.wl_core.specs.Worlds.{Holds, Steps, WorksOn};

use crate::documents::Stepped;
use crate::events::Event;
use crate::lines::Line;
use crate::seats::Seats;
use crate::{documents, tokens};
use std::alloc::Global;
use wl_entry::Free;
use wl_manager::Manager;
use wl_octets::{Memory, Row};

/// A turn on the last publication.
fn turn(
    alloc: Global,
    manager: &Manager<Free>,
    seats: &mut Seats,
    conn: u32,
    is_marked: bool,
) -> Result<Row<Line>, Memory>
    requires room { conn < length seats.old.seats.items }
    requires ready { IsReady manager.now.stored.published (seat_at seats.old.seats.items conn) }
    requires shown { is_marked ≡ false → IsShownAt manager.now.stored.published (seat_at seats.old.seats.items conn) }
    ensures seats { OnOk result (seats.new.seats.items ≡ with_told conn (turn_seat manager.now.stored.published) seats.old.seats.items) }
    ensures lines { IfOk result (λ l. l ≡ told_lines conn (turn_seat manager.now.stored.published) (seat_at seats.old.seats.items conn)) }
    ensures begun { seats.new.begun_before ≡ seats.old.begun_before }
{
    let lines = seats.turn(
        alloc,
        conn,
        manager.snapshot().part(),
        manager.index().part(),
        is_marked,
    )?;
    Ok(lines)
}

/// Takes an event, and tells what came of it. A turn of a session that is not marked makes no view, unless a call of it
/// is new.
#[tactic(auto, using(crate::proofs::AfterEvents::sync_steps, crate::proofs::AfterEvents::claim_steps, crate::proofs::AfterEvents::signed_steps, crate::proofs::AfterEvents::failed_steps, crate::proofs::AfterEvents::join_steps, crate::proofs::AfterEvents::name_steps, crate::proofs::AfterEvents::feed_steps, crate::proofs::AfterEvents::turn_steps, crate::proofs::AfterEvents::token_steps, crate::proofs::AfterEvents::close_steps, crate::proofs::StoreSteps::untouched, crate::proofs::StoreSteps::failed_untouched))]
pub fn step(
    alloc: Global,
    manager: &mut Manager<Free>,
    seats: &mut Seats,
    is_marked: bool,
    event: Event,
) -> Result<Stepped, Memory>
    requires within { IsWithin event }
    requires works { WorksOn manager.old seats.old.seats.items }
    requires shown { is_marked ≡ false → IsTurnShown manager.old.stored.published event seats.old.seats.items }
    ensures steps { (m : Moment) → Holds manager.old seats.old.seats.items seats.old.begun_before m
        → IfOk result (λ s. Steps event manager.new seats.new.seats.items seats.new.begun_before s.lines m) }
    ensures touched { IfOk result (λ s. SameBut s.touched manager.old.stored.published manager.new.stored.published) }
{
    match event {
        Event::Sync { document } => {
            let stepped = documents::sync(alloc, manager, document.as_slice())?;
            Ok(stepped)
        }
        Event::Claim { now } => {
            let stepped = documents::claim(alloc, manager, now)?;
            Ok(stepped)
        }
        Event::Signed {
            ticket,
            signed,
            now,
        } => {
            let stepped = documents::signed(alloc, manager, ticket, signed, now)?;
            Ok(stepped)
        }
        Event::Failed { ticket } => {
            let lines = documents::failed(alloc, manager, ticket)?;
            Ok(Stepped::quiet(alloc, lines))
        }
        Event::Join { conn, selectors } => {
            let lines = seats.join(alloc, conn, selectors)?;
            Ok(Stepped::quiet(alloc, lines))
        }
        Event::Name { conn, selectors } => {
            let lines = seats.name(alloc, conn, selectors)?;
            Ok(Stepped::quiet(alloc, lines))
        }
        Event::Feed { conn, piece } => {
            let lines = seats.feed(alloc, conn, piece.as_slice())?;
            Ok(Stepped::quiet(alloc, lines))
        }
        Event::Turn { conn } => {
            let lines = turn(alloc, manager, seats, conn, is_marked)?;
            Ok(Stepped::quiet(alloc, lines))
        }
        Event::Token { conn, now, signed } => {
            let lines = tokens::token(alloc, manager, seats, conn, now, signed)?;
            Ok(Stepped::quiet(alloc, lines))
        }
        Event::Close { conn } => {
            let lines = seats.close(alloc, conn)?;
            Ok(Stepped::quiet(alloc, lines))
        }
    }
}
