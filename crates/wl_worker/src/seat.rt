//! A seat: one listener, whose links are served in turn.

ghost use Rattle.std.specs.Prelude.{◌≡◌, ◌≤◌, Some, IsSome, IfSome, IsSomeAnd, is_some, length};
ghost use mathlib.Core.List.{IsPrefix};
ghost use Rattle.wl_edge.specs.Edge.{Rose};
ghost use Rattle.wl_edge.specs.Listeners.{OnlyAdds, links_given};
ghost use Rattle.wl_publish.specs.Listings.{Passing};
ghost use Rattle.wl_worker.specs.Served.{around};
ghost use Rattle.wl_worker.specs.Tended.{ListenedTo, Tends, seat_world};

use crate::seat_pass::SeatPass;
use crate::seating::serve_links;
use ask_mail::TokenAsks;
use std::alloc::Global;
use std::sync::{Mutex, Wait};
use wl_desk::Desk;
use wl_edge::{Attestor, Clock, Gate, Listener, Ready};
use wl_publish::Pass;

/// A place at which links are served.
#[derive(Drop)]
pub struct Seat<L: Listener, T: TokenAsks, A, C, P> {
    pub listener: L,
    /// Where its connections ask for tokens.
    pub asks: T,
    /// How many links it has taken: the number of the next connection, from 0.
    pub connections: u64,
    pub attestor: A,
    pub clock: C,
    pub pass: Option<Pass<T::V>>,
    /// How it ended, once it was served; whoever has it served writes it.
    pub end: Option<SeatEnd>,
    pub ready: P,
    /// How many links are served at once.
    pub room: u32,
    /// How many bytes its links hold together at most, after each round: what is unsent, and the messages that wait in
    /// their sessions. Where they hold more, the link that holds most ends, as one for which memory ran out.
    pub budget: u64,
    /// How many links it finished since memory ran out for them. At 2^64-1 it stays.
    pub starved: u64,
    // All listeners of its type tell their content, or none does.
    ghost alike: { (one other : L) → is_some (L.told one) ≡ is_some (L.told other) },
}

/// How a seat ended.
#[derive(Clone, Copy, Debug, Drop, PartialEq, Eq)]
pub enum SeatEnd {
    /// There will be no more links, and all were served.
    End,
    /// An accept failed.
    ListenFault,
    /// The watching of links failed.
    WaitFault,
    /// Memory ran out for the seat itself. Where it runs out for a link, that link ends alone.
    Memory,
}

/// Serves the links of a seat, as many at once as it has room for, each a round at a time: those that may be
/// ready, in the order in which they are listed. Each link is given to `finish`, whatever its end was. A link
/// for which memory runs out ends alone, and is counted; so does the link that holds most where all together
/// pass the budget. After the listener's end the seat goes on until all its links are finished; at any other
/// end of its own it first finishes every link as it stands. It tells the desk once that it has ended.
pub fn serve_seat<
    L: Listener,
    T: TokenAsks,
    A: Attestor,
    C: Clock,
    P: Ready<L::L>,
    G: Gate,
    R: Wait,
>(
    rt: &R,
    alloc: Global,
    desk: &Mutex<Desk<T::V>>,
    seat: &mut Seat<L, T, A, C, P>,
    gate: &G,
) -> SeatEnd
    requires pass { IsSome seat.old.pass }
    requires open { IfSome (L.told seat.old.listener) (λ log. length log.finished ≤ links_given log.kinds) }
    ensures place { seat.new.room ≡ seat.old.room }
    ensures sockets { OnlyAdds (L.sockets seat.old.listener) (L.sockets seat.new.listener) }
    ensures sees { IsSomeAnd seat.old.pass (λ p. IsSomeAnd seat.new.pass (λ q. IsPrefix p.seen q.seen)) }
    ensures listens { L.faults seat.old.listener ≤ L.faults seat.new.listener }
    ensures waits { P.faults seat.old.ready ≤ P.faults seat.new.ready }
    ensures listen_fault { result ≡ SeatEnd.ListenFault
        → Rose (L.faults seat.old.listener) (L.faults seat.new.listener) }
    ensures wait_fault { result ≡ SeatEnd.WaitFault → Rose (P.faults seat.old.ready) (P.faults seat.new.ready) }
    ensures finishes { ListenedTo result (L.told seat.old.listener) (L.told seat.new.listener) }
    // Where links tell their content: what each took, and that its calls were attested by its own origin, which is one of
    // the sockets that the listener has at the end.
    ensures tends { ((l : L.L) → IsSome (L.L.told l))
        → (p q : Passing) → seat.old.pass ≡ Some p → seat.new.pass ≡ Some q
        → Tends T.V.token seat.old.room result
        (seat_world (L.sockets seat.old.listener) (L.told seat.old.listener) seat.old.starved
        (around (A.calls seat.old.attestor) (A.faults seat.old.attestor) (T.taken seat.old.asks) (T.faults seat.old.asks)
        (C.answers seat.old.clock) p))
        (seat_world (L.sockets seat.new.listener) (L.told seat.new.listener) seat.new.starved
        (around (A.calls seat.new.attestor) (A.faults seat.new.attestor) (T.taken seat.new.asks) (T.faults seat.new.asks)
        (C.answers seat.new.clock) q)) }
{
    let mut pass = match seat.pass.take() {
        Some(pass) => SeatPass::new(alloc, pass),
        None => unreachable!(),
    };
    let end = serve_links(rt, alloc, desk, seat, &mut pass, gate);
    seat.pass = Some(pass.into_pass());
    desk.lock(rt).seat_ended();
    end
}
