//! Rounds of the links of a seat.

ghost use Rattle.std.specs.Prelude.{◌≡◌, [], ◌∷◌, length, IsErrOf, IsSome};
ghost use Rattle.slab.specs.Slab.{HasRoomFor};
ghost use Rattle.wl_edge.specs.Edge.{Rose};
ghost use Rattle.wl_publish.specs.Listings.{Passing};
ghost use Rattle.wl_worker.specs.Served.{around};
ghost use Rattle.wl_worker.specs.Slots.{links_of};
ghost use Rattle.wl_worker.specs.Tended.{seat_world};
ghost use Rattle.wl_worker.specs.Seating.{SeatView, Under, HasOpen, Fit, Goes};
ghost use Rattle.wl_worker.specs.Seating.{seat_view, under, finished_link};
ghost use Rattle.wl_worker.specs.Seating.{KeepsTending, turn_step};
ghost use Rattle.wl_worker.specs.declared.step.Step.TheVariants.{On};

use crate::ended::{Ended, RoundEnd, starved_after};
use crate::places::{Connection, Places, end_link, greatest, note_calls, note_last_calls, release};
use crate::seat::Seat;
use crate::seat_pass::SeatPass;
use ask_mail::TokenAsks;
use std::alloc::Global;
use std::sync::{Mutex, Wait};
use wl_desk::Desk;
use wl_edge::{Attestor, Clock, EdgeFault, Gate, Link, Listener, Ready};
use wl_entry::Voucher;
use wl_octets::Row;

/// What contracts see of a seat, with the pass that was taken out of it.
pub(crate) trait SeatShown {
    ghost view: { Self → Passing → SeatView };
}

impl<L: Listener, T: TokenAsks, A: Attestor, C: Clock, P: Ready<L::L>> SeatShown
    for Seat<L, T, A, C, P> {
    ghost view = { λ s pass. seat_view s.room s.connections (L.faults s.listener) (P.faults s.ready)
        (seat_world (L.sockets s.listener) (L.told s.listener) s.starved (around (A.calls s.attestor) (A.faults s.attestor)
        (T.taken s.asks) (T.faults s.asks) (C.answers s.clock) pass)) };
}

/// What contracts see of a link that is served.
pub(crate) trait LinkShown {
    ghost shown: { Self → Under };
}

impl<L: Link> LinkShown for Connection<L> {
    ghost shown = { λ c. under c.asker (finished_link (L.origin c.link) (L.told c.link) (L.failed_receives c.link)
        (L.failed_sends c.link) (L.stalls c.link)) c.served };
}

/// Serves one round of a link that was taken out. It is put back, or finished where it is over. A link for
/// which memory ran out is counted, and the seat goes on.
fn serve_one<L: Listener, T: TokenAsks, A: Attestor, C: Clock, P: Ready<L::L>, G: Gate, R: Wait>(
    rt: &R,
    desk: &Mutex<Desk<T::V>>,
    seat: &mut Seat<L, T, A, C, P>,
    pass: &mut SeatPass<T::V>,
    places: &mut Places<L::L>,
    connection: Connection<L::L>,
    gate: &G,
)
    requires place { HasRoomFor places.old.links 1 }
    requires fit { Fit (⟦<Seat<L, T, A, C, P> as SeatShown>⟧.view seat.old pass.old)
        (⟦<Connection<L::L> as LinkShown>⟧.shown connection
        ∷ links_of ⟦<Connection<L::L> as LinkShown>⟧.shown places.old.links.slots) }
    ensures goes { Goes (⟦<Seat<L, T, A, C, P> as SeatShown>⟧.view seat.old pass.old)
        (⟦<Seat<L, T, A, C, P> as SeatShown>⟧.view seat.new pass.new)
        (⟦<Connection<L::L> as LinkShown>⟧.shown connection
        ∷ links_of ⟦<Connection<L::L> as LinkShown>⟧.shown places.old.links.slots)
        (links_of ⟦<Connection<L::L> as LinkShown>⟧.shown places.new.links.slots) [] }
    ensures tends { KeepsTending ((l : L.L) → IsSome (L.L.told l)) T.V.token
        (⟦<Seat<L, T, A, C, P> as SeatShown>⟧.view seat.old pass.old)
        (⟦<Seat<L, T, A, C, P> as SeatShown>⟧.view seat.new pass.new)
        (⟦<Connection<L::L> as LinkShown>⟧.shown connection
        ∷ links_of ⟦<Connection<L::L> as LinkShown>⟧.shown places.old.links.slots)
        (links_of ⟦<Connection<L::L> as LinkShown>⟧.shown places.new.links.slots) On }
{
    let Connection {
        number,
        asker,
        mut link,
        mut served,
        held,
    } = connection;
    places.held = places.held.saturating_sub(held);
    let end = served.round(
        rt,
        desk,
        pass,
        &mut link,
        &mut seat.attestor,
        asker,
        &mut seat.asks,
        &mut seat.clock,
        gate,
        &mut places.buffer,
    );
    if let RoundEnd::Ended(ended) = end {
        note_last_calls(&seat.listener, &link, served);
        seat.asks.forget(rt, asker);
        seat.starved = starved_after(seat.starved, ended);
        end_link(&mut seat.listener, &mut seat.ready, number, link, ended);
        return;
    }
    note_calls(&seat.listener, &link, &mut served);
    let held = served.held();
    places.held = places.held.saturating_add(held);
    places.links.insert_reserved(Connection {
        number,
        asker,
        link,
        served,
        held,
    });
}

/// Serves one round of the link of this number, if there is one.
fn serve_number<L: Listener, T: TokenAsks, A: Attestor, C: Clock, P: Ready<L::L>, G: Gate, R: Wait>(
    rt: &R,
    desk: &Mutex<Desk<T::V>>,
    seat: &mut Seat<L, T, A, C, P>,
    pass: &mut SeatPass<T::V>,
    places: &mut Places<L::L>,
    number: usize,
    gate: &G,
)
    requires { Fit (⟦<Seat<L, T, A, C, P> as SeatShown>⟧.view seat.old pass.old)
        (links_of ⟦<Connection<L::L> as LinkShown>⟧.shown places.old.links.slots) }
    ensures goes { Goes (⟦<Seat<L, T, A, C, P> as SeatShown>⟧.view seat.old pass.old)
        (⟦<Seat<L, T, A, C, P> as SeatShown>⟧.view seat.new pass.new)
        (links_of ⟦<Connection<L::L> as LinkShown>⟧.shown places.old.links.slots)
        (links_of ⟦<Connection<L::L> as LinkShown>⟧.shown places.new.links.slots) [] }
    ensures tends { KeepsTending ((l : L.L) → IsSome (L.L.told l)) T.V.token
        (⟦<Seat<L, T, A, C, P> as SeatShown>⟧.view seat.old pass.old)
        (⟦<Seat<L, T, A, C, P> as SeatShown>⟧.view seat.new pass.new)
        (links_of ⟦<Connection<L::L> as LinkShown>⟧.shown places.old.links.slots)
        (links_of ⟦<Connection<L::L> as LinkShown>⟧.shown places.new.links.slots) On }
{
    let connection = match places.links.try_remove(number) {
        Some(connection) => connection,
        None => return,
    };
    serve_one(rt, desk, seat, pass, places, connection, gate);
}

/// Ends the link of this number, if there is one, as one for which memory ran out.
fn starve<L: Listener, T: TokenAsks, A: Attestor, C: Clock, P: Ready<L::L>, R: Wait>(
    rt: &R,
    seat: &mut Seat<L, T, A, C, P>,
    places: &mut Places<L::L>,
    number: usize,
)
    requires { HasOpen (L.told seat.old.listener)
        (length (links_of ⟦<Connection<L::L> as LinkShown>⟧.shown places.old.links.slots)) }
    ensures goes { (p : Passing) → Goes (⟦<Seat<L, T, A, C, P> as SeatShown>⟧.view seat.old p)
        (⟦<Seat<L, T, A, C, P> as SeatShown>⟧.view seat.new p)
        (links_of ⟦<Connection<L::L> as LinkShown>⟧.shown places.old.links.slots)
        (links_of ⟦<Connection<L::L> as LinkShown>⟧.shown places.new.links.slots) [] }
    ensures tends { (p : Passing) → KeepsTending ((l : L.L) → IsSome (L.L.told l)) T.V.token
        (⟦<Seat<L, T, A, C, P> as SeatShown>⟧.view seat.old p)
        (⟦<Seat<L, T, A, C, P> as SeatShown>⟧.view seat.new p)
        (links_of ⟦<Connection<L::L> as LinkShown>⟧.shown places.old.links.slots)
        (links_of ⟦<Connection<L::L> as LinkShown>⟧.shown places.new.links.slots) On }
{
    let connection = match places.links.try_remove(number) {
        Some(connection) => connection,
        None => return,
    };
    let Connection {
        number,
        asker,
        link,
        served,
        held,
    } = connection;
    note_last_calls(&seat.listener, &link, served);
    places.held = places.held.saturating_sub(held);
    seat.asks.forget(rt, asker);
    seat.starved = starved_after(seat.starved, Ended::Memory);
    release(&mut seat.listener, &mut seat.ready, number, link);
}

/// Where all links together hold more than the seat's budget, the one that holds most ends, as one for which memory ran
/// out. One is enough: before the round that passed the budget they held no more than it.
fn keep_budget<L: Listener, T: TokenAsks, A: Attestor, C: Clock, P: Ready<L::L>, R: Wait>(
    rt: &R,
    seat: &mut Seat<L, T, A, C, P>,
    places: &mut Places<L::L>,
)
    requires { HasOpen (L.told seat.old.listener)
        (length (links_of ⟦<Connection<L::L> as LinkShown>⟧.shown places.old.links.slots)) }
    ensures goes { (p : Passing) → Goes (⟦<Seat<L, T, A, C, P> as SeatShown>⟧.view seat.old p)
        (⟦<Seat<L, T, A, C, P> as SeatShown>⟧.view seat.new p)
        (links_of ⟦<Connection<L::L> as LinkShown>⟧.shown places.old.links.slots)
        (links_of ⟦<Connection<L::L> as LinkShown>⟧.shown places.new.links.slots) [] }
    ensures tends { (p : Passing) → KeepsTending ((l : L.L) → IsSome (L.L.told l)) T.V.token
        (⟦<Seat<L, T, A, C, P> as SeatShown>⟧.view seat.old p)
        (⟦<Seat<L, T, A, C, P> as SeatShown>⟧.view seat.new p)
        (links_of ⟦<Connection<L::L> as LinkShown>⟧.shown places.old.links.slots)
        (links_of ⟦<Connection<L::L> as LinkShown>⟧.shown places.new.links.slots) On }
{
    if places.held as u64 <= seat.budget {
        return;
    }
    let number = greatest(&places.links);
    starve(rt, seat, places, number);
}

/// Serves a round of each link that was listed, in this order, and touches no other unless the budget is passed. A number
/// of no link does nothing.
fn serve_listed<L: Listener, T: TokenAsks, A: Attestor, C: Clock, P: Ready<L::L>, G: Gate, R: Wait>(
    rt: &R,
    desk: &Mutex<Desk<T::V>>,
    seat: &mut Seat<L, T, A, C, P>,
    pass: &mut SeatPass<T::V>,
    places: &mut Places<L::L>,
    listed: &[u32],
    gate: &G,
)
    requires { Fit (⟦<Seat<L, T, A, C, P> as SeatShown>⟧.view seat.old pass.old)
        (links_of ⟦<Connection<L::L> as LinkShown>⟧.shown places.old.links.slots) }
    ensures goes { Goes (⟦<Seat<L, T, A, C, P> as SeatShown>⟧.view seat.old pass.old)
        (⟦<Seat<L, T, A, C, P> as SeatShown>⟧.view seat.new pass.new)
        (links_of ⟦<Connection<L::L> as LinkShown>⟧.shown places.old.links.slots)
        (links_of ⟦<Connection<L::L> as LinkShown>⟧.shown places.new.links.slots) [] }
    ensures tends { KeepsTending ((l : L.L) → IsSome (L.L.told l)) T.V.token
        (⟦<Seat<L, T, A, C, P> as SeatShown>⟧.view seat.old pass.old)
        (⟦<Seat<L, T, A, C, P> as SeatShown>⟧.view seat.new pass.new)
        (links_of ⟦<Connection<L::L> as LinkShown>⟧.shown places.old.links.slots)
        (links_of ⟦<Connection<L::L> as LinkShown>⟧.shown places.new.links.slots) On }
{
    'listed: for number in listed {
        serve_number(rt, desk, seat, pass, places, *number as usize, gate);
        keep_budget(rt, seat, places);
    }
}

/// Lets go of what the connections of a seat share, where there is none.
fn let_go<L: Link, V: Voucher>(pass: &mut SeatPass<V>, places: &Places<L>)
    ensures { pass.new ≡ pass.old }
{
    if places.links.is_empty() {
        pass.clear();
    }
}

/// Waits until links may be ready, and serves a round of each that is listed. A wait that lists nobody serves nobody.
pub(crate) fn serve_turn<
    L: Listener,
    T: TokenAsks,
    A: Attestor,
    C: Clock,
    P: Ready<L::L>,
    G: Gate,
    R: Wait,
>(
    rt: &R,
    alloc: Global,
    desk: &Mutex<Desk<T::V>>,
    seat: &mut Seat<L, T, A, C, P>,
    pass: &mut SeatPass<T::V>,
    places: &mut Places<L::L>,
    gate: &G,
) -> Result<(), EdgeFault>
    requires { Fit (⟦<Seat<L, T, A, C, P> as SeatShown>⟧.view seat.old pass.old)
        (links_of ⟦<Connection<L::L> as LinkShown>⟧.shown places.old.links.slots) }
    ensures goes { Goes (⟦<Seat<L, T, A, C, P> as SeatShown>⟧.view seat.old pass.old)
        (⟦<Seat<L, T, A, C, P> as SeatShown>⟧.view seat.new pass.new)
        (links_of ⟦<Connection<L::L> as LinkShown>⟧.shown places.old.links.slots)
        (links_of ⟦<Connection<L::L> as LinkShown>⟧.shown places.new.links.slots) [] }
    ensures tends { KeepsTending ((l : L.L) → IsSome (L.L.told l)) T.V.token
        (⟦<Seat<L, T, A, C, P> as SeatShown>⟧.view seat.old pass.old)
        (⟦<Seat<L, T, A, C, P> as SeatShown>⟧.view seat.new pass.new)
        (links_of ⟦<Connection<L::L> as LinkShown>⟧.shown places.old.links.slots)
        (links_of ⟦<Connection<L::L> as LinkShown>⟧.shown places.new.links.slots) (turn_step result) }
    ensures failed { IsErrOf result EdgeFault.Failed → Rose (P.faults seat.old.ready) (P.faults seat.new.ready) }
{
    let mut listed = Row::empty(alloc);
    if let Err(fault) = seat.ready.wait(&mut listed) {
        return Err(fault);
    }
    serve_listed(rt, desk, seat, pass, places, listed.as_slice(), gate);
    let_go(pass, places);
    Ok(())
}
