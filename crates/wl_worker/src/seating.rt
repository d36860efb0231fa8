//! A seat takes links and serves them until it ends.

ghost use Rattle.std.specs.Prelude.{◌≡◌, [], None, length, IfOk, OnOk, IsSome};
ghost use Rattle.slab.specs.Slab.{HasRoomFor, Updates};
ghost use Rattle.wl_publish.specs.Listings.{Passing};
ghost use Rattle.wl_session.specs.Sessions.{fresh_session};
ghost use Rattle.wl_worker.specs.Seating.{HasOpen, Fit, Goes, Stepped, Rests, EndedBy, seat_end_of};
ghost use Rattle.wl_worker.specs.Seating.{KeepsTending, FinishesTending};
ghost use Rattle.wl_worker.specs.Slots.{links_of};
ghost use Rattle.wl_worker.specs.Tended.{Tends};

use crate::ended::{Ended, starved_after};
use crate::places::{Connection, Places, note_last_calls, release};
use crate::seat::{Seat, SeatEnd};
use crate::seat_pass::SeatPass;
use crate::seat_rounds::{LinkShown, SeatShown, serve_turn};
use crate::served::Served;
use crate::step::Step;
use ask_mail::TokenAsks;
use slab::Slab;
use std::alloc::Global;
use std::sync::{Mutex, Wait};
use wl_desk::Desk;
use wl_edge::{Accepted, Attestor, Clock, EdgeFault, Gate, Listener, Ready};
use wl_octets::Memory;

/// The end of a seat whose watcher had no answer.
fn end_of(fault: EdgeFault) -> SeatEnd
    ensures { result ≡ seat_end_of fault }
{
    match fault {
        EdgeFault::Failed => SeatEnd::WaitFault,
        EdgeFault::Memory => SeatEnd::Memory,
    }
}

/// A place for one more link, and the connection on it.
fn prepare<L>(alloc: Global, links: &mut Slab<Connection<L>>) -> Result<Served, Memory>
    ensures items { links.new.slots ≡ links.old.slots }
    ensures place { OnOk result (HasRoomFor links.new 1) }
    ensures fresh { IfOk result (λ s. s ≡ record { session = fresh_session; unsent = [] }) }
{
    links.reserve(1)?;
    Served::start(alloc)
}

/// Accepts one link, where there is a place for it. One for which memory lacks is counted and finished at once.
fn admit<L: Listener, T: TokenAsks, A: Attestor, C: Clock, P: Ready<L::L>>(
    alloc: Global,
    seat: &mut Seat<L, T, A, C, P>,
    places: &mut Places<L::L>,
) -> Step
    requires { HasOpen (L.told seat.old.listener)
        (length (links_of ⟦<Connection<L::L> as LinkShown>⟧.shown places.old.links.slots)) }
    ensures goes { (p : Passing) → Stepped (⟦<Seat<L, T, A, C, P> as SeatShown>⟧.view seat.old p)
        (⟦<Seat<L, T, A, C, P> as SeatShown>⟧.view seat.new p)
        (links_of ⟦<Connection<L::L> as LinkShown>⟧.shown places.old.links.slots)
        (links_of ⟦<Connection<L::L> as LinkShown>⟧.shown places.new.links.slots) result }
    ensures tends { (p : Passing) → KeepsTending ((l : L.L) → IsSome (L.L.told l)) T.V.token
        (⟦<Seat<L, T, A, C, P> as SeatShown>⟧.view seat.old p)
        (⟦<Seat<L, T, A, C, P> as SeatShown>⟧.view seat.new p)
        (links_of ⟦<Connection<L::L> as LinkShown>⟧.shown places.old.links.slots)
        (links_of ⟦<Connection<L::L> as LinkShown>⟧.shown places.new.links.slots) result }
{
    // There is a number for each connection.
    let asker = seat.connections;
    if places.links.len() >= seat.room as usize || asker == u64::MAX {
        return Step::Idle;
    }
    let Ok(number) = u32::try_from(places.links.vacant_key()) else {
        return Step::Idle;
    };
    let mut link = match seat.listener.accept() {
        Accepted::Link(link) => link,
        Accepted::Idle => return Step::Idle,
        Accepted::End => return Step::Closed,
        Accepted::Failed => return Step::Over(SeatEnd::ListenFault),
    };
    seat.connections = asker + 1;
    let served = match prepare(alloc, &mut places.links) {
        Ok(served) => served,
        Err(Memory) => {
            seat.starved = starved_after(seat.starved, Ended::Memory);
            seat.listener.finish(link);
            return Step::On;
        }
    };
    if let Err(fault) = seat.ready.add(number, &mut link) {
        seat.listener.finish(link);
        return Step::Over(end_of(fault));
    }
    places.links.insert_reserved(Connection {
        number,
        asker,
        link,
        served,
        held: 0,
    });
    Step::On
}

/// Accepts the links that are there, as far as there are places.
fn admit_all<L: Listener, T: TokenAsks, A: Attestor, C: Clock, P: Ready<L::L>>(
    alloc: Global,
    seat: &mut Seat<L, T, A, C, P>,
    places: &mut Places<L::L>,
) -> Step
    requires { HasOpen (L.told seat.old.listener)
        (length (links_of ⟦<Connection<L::L> as LinkShown>⟧.shown places.old.links.slots)) }
    ensures goes { (p : Passing) → Stepped (⟦<Seat<L, T, A, C, P> as SeatShown>⟧.view seat.old p)
        (⟦<Seat<L, T, A, C, P> as SeatShown>⟧.view seat.new p)
        (links_of ⟦<Connection<L::L> as LinkShown>⟧.shown places.old.links.slots)
        (links_of ⟦<Connection<L::L> as LinkShown>⟧.shown places.new.links.slots) result }
    ensures tends { (p : Passing) → KeepsTending ((l : L.L) → IsSome (L.L.told l)) T.V.token
        (⟦<Seat<L, T, A, C, P> as SeatShown>⟧.view seat.old p)
        (⟦<Seat<L, T, A, C, P> as SeatShown>⟧.view seat.new p)
        (links_of ⟦<Connection<L::L> as LinkShown>⟧.shown places.old.links.slots)
        (links_of ⟦<Connection<L::L> as LinkShown>⟧.shown places.new.links.slots) result }
{
    'places: for _ in 0..seat.room {
        match admit(alloc, seat, places) {
            Step::On => {}
            step => return step,
        }
    }
    Step::On
}

/// Accepts links, and serves a round of those that may be ready.
fn go_on<L: Listener, T: TokenAsks, A: Attestor, C: Clock, P: Ready<L::L>, G: Gate, R: Wait>(
    rt: &R,
    alloc: Global,
    desk: &Mutex<Desk<T::V>>,
    seat: &mut Seat<L, T, A, C, P>,
    pass: &mut SeatPass<T::V>,
    places: &mut Places<L::L>,
    gate: &G,
) -> Step
    requires { Fit (⟦<Seat<L, T, A, C, P> as SeatShown>⟧.view seat.old pass.old)
        (links_of ⟦<Connection<L::L> as LinkShown>⟧.shown places.old.links.slots) }
    ensures goes { Stepped (⟦<Seat<L, T, A, C, P> as SeatShown>⟧.view seat.old pass.old)
        (⟦<Seat<L, T, A, C, P> as SeatShown>⟧.view seat.new pass.new)
        (links_of ⟦<Connection<L::L> as LinkShown>⟧.shown places.old.links.slots)
        (links_of ⟦<Connection<L::L> as LinkShown>⟧.shown places.new.links.slots) result }
    ensures tends { KeepsTending ((l : L.L) → IsSome (L.L.told l)) T.V.token
        (⟦<Seat<L, T, A, C, P> as SeatShown>⟧.view seat.old pass.old)
        (⟦<Seat<L, T, A, C, P> as SeatShown>⟧.view seat.new pass.new)
        (links_of ⟦<Connection<L::L> as LinkShown>⟧.shown places.old.links.slots)
        (links_of ⟦<Connection<L::L> as LinkShown>⟧.shown places.new.links.slots) result }
{
    match admit_all(alloc, seat, places) {
        Step::Closed => Step::Closed,
        Step::Over(end) => Step::Over(end),
        _ => match serve_turn(rt, alloc, desk, seat, pass, places, gate) {
            Ok(()) => Step::On,
            Err(fault) => Step::Over(end_of(fault)),
        },
    }
}

/// Serves the links that are left once there will be no more.
fn serve_rest<L: Listener, T: TokenAsks, A: Attestor, C: Clock, P: Ready<L::L>, G: Gate, R: Wait>(
    rt: &R,
    alloc: Global,
    desk: &Mutex<Desk<T::V>>,
    seat: &mut Seat<L, T, A, C, P>,
    pass: &mut SeatPass<T::V>,
    places: &mut Places<L::L>,
    gate: &G,
) -> SeatEnd
    requires { Fit (⟦<Seat<L, T, A, C, P> as SeatShown>⟧.view seat.old pass.old)
        (links_of ⟦<Connection<L::L> as LinkShown>⟧.shown places.old.links.slots) }
    ensures goes { Rests (⟦<Seat<L, T, A, C, P> as SeatShown>⟧.view seat.old pass.old)
        (⟦<Seat<L, T, A, C, P> as SeatShown>⟧.view seat.new pass.new)
        (links_of ⟦<Connection<L::L> as LinkShown>⟧.shown places.old.links.slots)
        (links_of ⟦<Connection<L::L> as LinkShown>⟧.shown places.new.links.slots) result }
    ensures tends { KeepsTending ((l : L.L) → IsSome (L.L.told l)) T.V.token
        (⟦<Seat<L, T, A, C, P> as SeatShown>⟧.view seat.old pass.old)
        (⟦<Seat<L, T, A, C, P> as SeatShown>⟧.view seat.new pass.new)
        (links_of ⟦<Connection<L::L> as LinkShown>⟧.shown places.old.links.slots)
        (links_of ⟦<Connection<L::L> as LinkShown>⟧.shown places.new.links.slots) (Step.Over result) }
{
    'rest: for _ in rt.forever() {
        if places.links.is_empty() {
            return SeatEnd::End;
        }
        if let Err(fault) = serve_turn(rt, alloc, desk, seat, pass, places, gate) {
            return end_of(fault);
        }
    }
    unreachable!()
}

/// Takes links and serves them until the seat has ended, except those that it then still serves.
fn serve_all<L: Listener, T: TokenAsks, A: Attestor, C: Clock, P: Ready<L::L>, G: Gate, R: Wait>(
    rt: &R,
    alloc: Global,
    desk: &Mutex<Desk<T::V>>,
    seat: &mut Seat<L, T, A, C, P>,
    pass: &mut SeatPass<T::V>,
    places: &mut Places<L::L>,
    gate: &G,
) -> SeatEnd
    requires { Fit (⟦<Seat<L, T, A, C, P> as SeatShown>⟧.view seat.old pass.old)
        (links_of ⟦<Connection<L::L> as LinkShown>⟧.shown places.old.links.slots) }
    ensures goes { EndedBy (⟦<Seat<L, T, A, C, P> as SeatShown>⟧.view seat.old pass.old)
        (⟦<Seat<L, T, A, C, P> as SeatShown>⟧.view seat.new pass.new)
        (links_of ⟦<Connection<L::L> as LinkShown>⟧.shown places.old.links.slots)
        (links_of ⟦<Connection<L::L> as LinkShown>⟧.shown places.new.links.slots) result }
    ensures tends { KeepsTending ((l : L.L) → IsSome (L.L.told l)) T.V.token
        (⟦<Seat<L, T, A, C, P> as SeatShown>⟧.view seat.old pass.old)
        (⟦<Seat<L, T, A, C, P> as SeatShown>⟧.view seat.new pass.new)
        (links_of ⟦<Connection<L::L> as LinkShown>⟧.shown places.old.links.slots)
        (links_of ⟦<Connection<L::L> as LinkShown>⟧.shown places.new.links.slots) (Step.Over result) }
{
    'seat: for _ in rt.forever() {
        match go_on(rt, alloc, desk, seat, pass, places, gate) {
            Step::Closed => return serve_rest(rt, alloc, desk, seat, pass, places, gate),
            Step::Over(end) => return end,
            _ => {}
        }
    }
    unreachable!()
}

/// Finishes the link of this number as it stands, if there is one.
fn finish_one<L: Listener, T: TokenAsks, A: Attestor, C: Clock, P: Ready<L::L>, R: Wait>(
    rt: &R,
    seat: &mut Seat<L, T, A, C, P>,
    places: &mut Places<L::L>,
    number: usize,
)
    requires { HasOpen (L.told seat.old.listener)
        (length (links_of ⟦<Connection<L::L> as LinkShown>⟧.shown places.old.links.slots)) }
    ensures gone { Updates places.old.links places.new.links number None }
    ensures within { length places.new.links.slots ≡ length places.old.links.slots }
    ensures goes { (p : Passing) → Goes (⟦<Seat<L, T, A, C, P> as SeatShown>⟧.view seat.old p)
        (⟦<Seat<L, T, A, C, P> as SeatShown>⟧.view seat.new p)
        (links_of ⟦<Connection<L::L> as LinkShown>⟧.shown places.old.links.slots)
        (links_of ⟦<Connection<L::L> as LinkShown>⟧.shown places.new.links.slots) [] }
    ensures tends { (p : Passing) → FinishesTending T.V.token
        (⟦<Seat<L, T, A, C, P> as SeatShown>⟧.view seat.old p)
        (⟦<Seat<L, T, A, C, P> as SeatShown>⟧.view seat.new p)
        (links_of ⟦<Connection<L::L> as LinkShown>⟧.shown places.old.links.slots)
        (links_of ⟦<Connection<L::L> as LinkShown>⟧.shown places.new.links.slots) }
{
    let connection = match places.links.try_remove(number) {
        Some(connection) => connection,
        None => return,
    };
    let Connection {
        number,
        asker,
        link,
        served,
        held: _held,
    } = connection;
    note_last_calls(&seat.listener, &link, served);
    seat.asks.forget(rt, asker);
    release(&mut seat.listener, &mut seat.ready, number, link);
}

/// Finishes every link as it stands.
fn finish_all<L: Listener, T: TokenAsks, A: Attestor, C: Clock, P: Ready<L::L>, R: Wait>(
    rt: &R,
    seat: &mut Seat<L, T, A, C, P>,
    places: &mut Places<L::L>,
)
    requires { HasOpen (L.told seat.old.listener)
        (length (links_of ⟦<Connection<L::L> as LinkShown>⟧.shown places.old.links.slots)) }
    ensures goes { (p : Passing) → Goes (⟦<Seat<L, T, A, C, P> as SeatShown>⟧.view seat.old p)
        (⟦<Seat<L, T, A, C, P> as SeatShown>⟧.view seat.new p)
        (links_of ⟦<Connection<L::L> as LinkShown>⟧.shown places.old.links.slots)
        [] [] }
    ensures tends { (p : Passing) → FinishesTending T.V.token
        (⟦<Seat<L, T, A, C, P> as SeatShown>⟧.view seat.old p)
        (⟦<Seat<L, T, A, C, P> as SeatShown>⟧.view seat.new p)
        (links_of ⟦<Connection<L::L> as LinkShown>⟧.shown places.old.links.slots)
        [] }
{
    let capacity = places.links.capacity();
    'links: for number in 0..capacity {
        finish_one(rt, seat, places, number);
    }
}

/// Takes links and serves them until the seat has ended, and finishes those that are left.
pub(crate) fn serve_links<
    L: Listener,
    T: TokenAsks,
    A: Attestor,
    C: Clock,
    P: Ready<L::L>,
    G: Gate,
    R: Wait,
>(
    rt: &R,
    alloc: Global,
    desk: &Mutex<Desk<T::V>>,
    seat: &mut Seat<L, T, A, C, P>,
    pass: &mut SeatPass<T::V>,
    gate: &G,
) -> SeatEnd
    requires { HasOpen (L.told seat.old.listener) 0 }
    ensures goes { EndedBy (⟦<Seat<L, T, A, C, P> as SeatShown>⟧.view seat.old pass.old)
        (⟦<Seat<L, T, A, C, P> as SeatShown>⟧.view seat.new pass.new)
        []
        [] result }
    ensures tends { ((l : L.L) → IsSome (L.L.told l)) → Tends T.V.token seat.old.room result
        (⟦<Seat<L, T, A, C, P> as SeatShown>⟧.view seat.old pass.old).world
        (⟦<Seat<L, T, A, C, P> as SeatShown>⟧.view seat.new pass.new).world }
{
    let mut places = match Places::start(alloc) {
        Ok(places) => places,
        Err(Memory) => return SeatEnd::Memory,
    };
    let end = serve_all(rt, alloc, desk, seat, pass, &mut places, gate);
    finish_all(rt, seat, &mut places);
    end
}
