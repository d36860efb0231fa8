//! Seats are served at once.

ghost use Rattle.std.specs.Fork.{AcceptsEach};
ghost use Rattle.std.specs.Prelude.{◌≡◌, ◌<◌, ◌≤◌, ℕ, All, IsSome, length, slice_index_or};
ghost use Rattle.wl_worker.specs.Upkeep.{PulledAgain};
ghost use Rattle.wl_serve.specs.Views.{SeatView};
ghost use Rattle.wl_serve.specs.Seating.{IsReady, Served};

use crate::upkeep::keep_up;
use ask_mail::TokenAsks;
use at_once::for_each_beside;
use std::alloc::Global;
use std::sync::{Mutex, Wait};
use std::thread::Threads;
use wl_desk::Desk;
use wl_edge::{Attestor, Bell, Clock, Gate, Listener, Ready, Upstream};
use wl_served::{served_connections_are_complete, served_responses_are_answers};
use wl_worker::{Seat, SeatEnd, TicketQueue, serve_seat};

/// What contracts see of a seat.
pub trait SeatShown {
    ghost shown: { Self → SeatView };
}

impl<L: Listener, T: TokenAsks, A: Attestor, C: Clock, P: Ready<L::L>> SeatShown
    for Seat<L, T, A, C, P> {
    ghost shown = { λ s. record {
      room = s.room;
      sockets = L.sockets s.listener;
      listener = L.told s.listener;
      listener_faults = L.faults s.listener;
      ready_faults = P.faults s.ready;
      attestor = A.calls s.attestor;
      attestor_faults = A.faults s.attestor;
      asks = T.taken s.asks;
      ask_faults = T.faults s.asks;
      clock = C.answers s.clock;
      starved = s.starved;
      pass = s.pass;
      end = s.end;
    } };
}

/// Point 5 of the gate is passed once for each seat that ended with a fault, and then all bells ring. A host whose
/// listeners and links all come to their end from then on has [`serve`](crate::serve) return.
pub const AFTER_FAILED_SEAT: u32 = 5;

/// Serves a seat, and writes its end. After a fault the host may have the other seats end.
fn tend<
    L: Listener,
    T: TokenAsks,
    A: Attestor,
    C: Clock,
    P: Ready<L::L>,
    G: Gate,
    B: Bell,
    R: Wait,
>(
    rt: &R,
    alloc: Global,
    desk: &Mutex<Desk<T::V>>,
    seat: &mut Seat<L, T, A, C, P>,
    gate: &G,
    bells: &[B],
)
    requires { IsReady (⟦<Seat<L, T, A, C, P> as SeatShown>⟧.shown seat.old) }
    ensures { Served T.V.token ((l : L.L) → IsSome (L.L.told l))
        (⟦<Seat<L, T, A, C, P> as SeatShown>⟧.shown seat.old)
        (⟦<Seat<L, T, A, C, P> as SeatShown>⟧.shown seat.new) }
{
    let end = serve_seat(rt, alloc, desk, seat, gate);
    // laws: what a seat's links took are responses, and each call has its status and its answer
    served_responses_are_answers();
    served_connections_are_complete();
    seat.end = Some(end);
    after_seat(gate, bells, end);
}

/// Where a seat ended so with a fault, point 5 is passed and all bells ring.
fn after_seat<G: Gate, B: Bell>(gate: &G, bells: &[B], end: SeatEnd) {
    if end == SeatEnd::End {
        return;
    }
    gate.pass(AFTER_FAILED_SEAT);
    for bell in bells {
        bell.ring();
    }
}

/// Serves all seats at once, each in a thread of its own, with the upkeep beside them.
pub(crate) fn serve_all<
    L: Listener + Send,
    T: TokenAsks + Send,
    A: Attestor + Send,
    C: Clock + Send,
    P: Ready<L::L> + Send,
    U: Upstream,
    G: Gate + Sync,
    B: Bell + Sync,
    E: Send,
    W: Fn(usize, &mut E) + Sync,
    R: Threads + Wait + Sync,
>(
    rt: &R,
    alloc: Global,
    desk: &Mutex<Desk<T::V>>,
    queue: &TicketQueue<T::V>,
    gate: &G,
    bells: &[B],
    upstream: &mut U,
    puller: &mut C,
    keeper: &mut C,
    sign: &W,
    signers: &mut [E],
    seats: &mut [Seat<L, T, A, C, P>],
)
    requires some { 0 < length seats.old }
    requires ready { All (λ s. IsReady (⟦<Seat<L, T, A, C, P> as SeatShown>⟧.shown s)) seats.old }
    requires signers { 0 < length signers.old }
    requires each { AcceptsEach W.Fn sign.now signers.old }
    ensures pulled { PulledAgain (U.told upstream.old) (U.told upstream.new) }
    ensures pull_faults { U.faults upstream.old ≤ U.faults upstream.new }
    ensures count { length seats.new ≡ length seats.old }
    ensures served { (i : ℕ) (d : _) → i < length seats.old
        → Served T.V.token ((l : L.L) → IsSome (L.L.told l))
        (⟦<Seat<L, T, A, C, P> as SeatShown>⟧.shown (slice_index_or seats.old i d))
        (⟦<Seat<L, T, A, C, P> as SeatShown>⟧.shown (slice_index_or seats.new i d)) }
{
    for_each_beside(
        rt,
        &|_, seat: &mut Seat<L, T, A, C, P>|
            requires { IsReady (record {
              room = seat.now.room;
              sockets = L.sockets seat.now.listener;
              listener = L.told seat.now.listener;
              listener_faults = L.faults seat.now.listener;
              ready_faults = P.faults seat.now.ready;
              attestor = A.calls seat.now.attestor;
              attestor_faults = A.faults seat.now.attestor;
              asks = T.taken seat.now.asks;
              ask_faults = T.faults seat.now.asks;
              clock = C.answers seat.now.clock;
              starved = seat.now.starved;
              pass = seat.now.pass;
              end = seat.now.end;
            }) }
            ensures { Served T.V.token ((l : L.L) → IsSome (L.L.told l)) (record {
              room = seat.entry.now.room;
              sockets = L.sockets seat.entry.now.listener;
              listener = L.told seat.entry.now.listener;
              listener_faults = L.faults seat.entry.now.listener;
              ready_faults = P.faults seat.entry.now.ready;
              attestor = A.calls seat.entry.now.attestor;
              attestor_faults = A.faults seat.entry.now.attestor;
              asks = T.taken seat.entry.now.asks;
              ask_faults = T.faults seat.entry.now.asks;
              clock = C.answers seat.entry.now.clock;
              starved = seat.entry.now.starved;
              pass = seat.entry.now.pass;
              end = seat.entry.now.end;
            }) (record {
              room = seat.exit.now.room;
              sockets = L.sockets seat.exit.now.listener;
              listener = L.told seat.exit.now.listener;
              listener_faults = L.faults seat.exit.now.listener;
              ready_faults = P.faults seat.exit.now.ready;
              attestor = A.calls seat.exit.now.attestor;
              attestor_faults = A.faults seat.exit.now.attestor;
              asks = T.taken seat.exit.now.asks;
              ask_faults = T.faults seat.exit.now.asks;
              clock = C.answers seat.exit.now.clock;
              starved = seat.exit.now.starved;
              pass = seat.exit.now.pass;
              end = seat.exit.now.end;
            }) }
        { tend(rt, alloc, desk, seat, gate, bells) },
        &mut ||
            requires { (0 < length signers.now) × AcceptsEach W.Fn sign.now signers.now }
        {
            keep_up(
                rt, alloc, desk, queue, gate, bells, upstream, puller, keeper, sign, signers,
            )
        },
        seats,
    );
}
