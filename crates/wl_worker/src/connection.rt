//! A connection, served from its start to its end.

ghost use Rattle.std.specs.Prelude.{◌≡◌, ◌≤◌};
ghost use Rattle.wl_edge.specs.Edge.{Rose};
ghost use Rattle.wl_worker.specs.Outcomes.{asker};
ghost use Rattle.wl_worker.specs.Served.{around};
ghost use Rattle.wl_worker.specs.Completeness.{Completes, link_faults};
ghost use Rattle.wl_worker.specs.Connections.{ConnectionTells};

use crate::ended::{Ended, RoundEnd};
use crate::seat_pass::SeatPass;
use crate::served::{Buffer, Served};
use ask_mail::TokenAsks;
use std::alloc::Global;
use std::sync::{Mutex, Wait};
use wl_desk::Desk;
use wl_edge::{Attestor, Clock, Gate, Link};
use wl_octets::Memory;

/// Serves a link until a round of it ends. A link that takes nothing for now is tried again at once: a
/// caller that has others to serve takes the rounds of a [`Served`] itself.
///
/// A call that becomes ready is attested then. A waiting ask gets the desk's kept token, else what came for the ask,
/// which is offered to the desk; a fit token is given even where it was not kept. While nothing has come the rounds go
/// on; an ask that waits when the connection ends is forgotten. Where the attestor fails,
/// the call that was to be attested ends, and the connection goes on.
pub fn serve_connection<L: Link, A: Attestor, T: TokenAsks, C: Clock, G: Gate, R: Wait>(
    rt: &R,
    alloc: Global,
    desk: &Mutex<Desk<T::V>>,
    pass: &mut SeatPass<T::V>,
    link: &mut L,
    attestor: &mut A,
    connection: u64,
    asks: &mut T,
    clock: &mut C,
    gate: &G,
) -> Ended
    ensures tells { ConnectionTells (asker connection T.V.token) (L.origin link.old) (L.told link.old) (L.told link.new)
        (around (A.calls attestor.old) (A.faults attestor.old) (T.taken asks.old) (T.faults asks.old)
        (C.answers clock.old) pass.old)
        (around (A.calls attestor.new) (A.faults attestor.new) (T.taken asks.new) (T.faults asks.new)
        (C.answers clock.new) pass.new)
        result }
    // Where no count of the link, the attestor and the asks rose: how it ended, and that all was answered and sent.
    ensures completeness { Completes (asker connection T.V.token) (L.origin link.old) (L.told link.old) (L.told link.new)
        (link_faults (L.failed_receives link.old) (L.failed_sends link.old))
        (link_faults (L.failed_receives link.new) (L.failed_sends link.new))
        (around (A.calls attestor.old) (A.faults attestor.old) (T.taken asks.old) (T.faults asks.old)
        (C.answers clock.old) pass.old)
        (around (A.calls attestor.new) (A.faults attestor.new) (T.taken asks.new) (T.faults asks.new)
        (C.answers clock.new) pass.new)
        result }
    ensures read_fault { result ≡ Ended.ReadFault
        → Rose (L.failed_receives link.old) (L.failed_receives link.new) }
    ensures write_fault { result ≡ Ended.WriteFault
        → Rose (L.failed_sends link.old) (L.failed_sends link.new) }
    ensures receives { L.failed_receives link.old ≤ L.failed_receives link.new }
    ensures sends { L.failed_sends link.old ≤ L.failed_sends link.new }
    ensures origin { L.origin link.new ≡ L.origin link.old }
{
    let mut served = match Served::start(alloc) {
        Ok(served) => served,
        Err(Memory) => return Ended::Memory,
    };
    let mut buffer = match Buffer::new(alloc) {
        Ok(buffer) => buffer,
        Err(Memory) => return Ended::Memory,
    };
    'rounds: for _ in rt.forever() {
        let end = served.round(
            rt,
            desk,
            pass,
            link,
            attestor,
            connection,
            asks,
            clock,
            gate,
            &mut buffer,
        );
        if let RoundEnd::Ended(end) = end {
            asks.forget(rt, connection);
            return end;
        }
    }
    unreachable!()
}
