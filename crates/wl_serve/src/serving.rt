//! A configuration is served.

ghost use Rattle.std.specs.Prelude.{◌≡◌, ◌<◌, ◌≤◌, length, map, option_map, None, IsSome, OnOk, OnErr};
ghost use Rattle.std.specs.List.{AllByRecursion, AllZip};
ghost use Rattle.wl_config.specs.Configs.{configuration_of};
ghost use Rattle.wl_worker.specs.Upkeep.{PulledAgain};
ghost use Rattle.wl_serve.specs.Seating.{IsReady, IsIdle, Served, ServedFrom};
ghost use Rattle.wl_serve.specs.Serving.{SatTells, ServeTells};

use crate::binder::{Binder, Parts, PartsShown};
use crate::ending::{ServeEnd, end_of_all};
use crate::passes::{first_passes, give_passes};
use crate::seats::{SeatShown, serve_all};
use crate::upkeep::Upkeep;
use std::alloc::Global;
use std::sync::{Arc, Mutex, Wait};
use std::thread::Threads;
use wl_config::{ConfigFault, read_config};
use wl_desk::Desk;
use wl_document::DocFault;
use wl_edge::{Attestor, Bell, Clock, EdgeFault, Gate, Listener, Ready, Signer, Upstream};
use wl_manager::Manager;
use wl_octets::{Memory, Octets};
use wl_worker::{AskHub, Seat, SeatAsks, Signing, TicketQueue, sign_asks};

/// Serves the seats, each of which has its pass, and ends the desk with them.
fn with_desk<
    L: Listener + Send,
    S: Signer + Send,
    A: Attestor + Send,
    C: Clock + Send,
    P: Ready<L::L> + Send,
    U: Upstream,
    G: Gate + Sync,
    B: Bell + Sync,
    R: Threads + Wait + Sync,
>(
    rt: &R,
    alloc: Global,
    desk: Desk<S::V>,
    hub: Arc<AskHub<S::V>>,
    gate: &G,
    bells: &[B],
    upkeep: &mut Upkeep<U, S, C>,
    seats: &mut [Seat<L, SeatAsks<S::V>, A, C, P>],
)
    requires some { 0 < length seats.old }
    requires ready { AllByRecursion IsReady (map ⟦<Seat<L, SeatAsks<S::V>, A, C, P> as SeatShown>⟧.shown seats.old) }
    requires signers { 0 < length upkeep.old.signers.items }
    ensures pulled { PulledAgain (U.told upkeep.old.upstream) (U.told upkeep.new.upstream) }
    ensures pull_faults { U.faults upkeep.old.upstream ≤ U.faults upkeep.new.upstream }
    ensures served { AllZip (Served S.V.token ((l : L.L) → IsSome (L.L.told l)))
        (map ⟦<Seat<L, SeatAsks<S::V>, A, C, P> as SeatShown>⟧.shown seats.old)
        (map ⟦<Seat<L, SeatAsks<S::V>, A, C, P> as SeatShown>⟧.shown seats.new) }
{
    let desk = Mutex::new(desk);
    let queue = TicketQueue::start(alloc, hub);
    serve_all(
        rt,
        alloc,
        &desk,
        &queue,
        gate,
        bells,
        &mut upkeep.upstream,
        &mut upkeep.puller,
        &mut upkeep.keeper,
        &|_, signing: &mut Signing<S, C>| {
            let Signing { signer, clock } = signing;
            sign_asks(rt, alloc, &desk, &queue, signer, clock, gate, bells)
        },
        upkeep.signers.as_mut_slice(),
        seats,
    );
    queue.end();
    desk.into_inner().end(rt);
}

/// Serves the seats from the manager's publication on. Out of memory no seat is served.
fn serve_manager<
    L: Listener + Send,
    S: Signer + Send,
    A: Attestor + Send,
    C: Clock + Send,
    P: Ready<L::L> + Send,
    U: Upstream,
    G: Gate + Sync,
    B: Bell + Sync,
    R: Threads + Wait + Sync,
>(
    rt: &R,
    alloc: Global,
    manager: Manager<S::V>,
    hub: &Arc<AskHub<S::V>>,
    gate: &G,
    bells: &[B],
    upkeep: &mut Upkeep<U, S, C>,
    seats: &mut [Seat<L, SeatAsks<S::V>, A, C, P>],
) -> Result<(), Memory>
    requires some { 0 < length seats.old }
    requires at_most { length seats.old ≤ 64 }
    requires idle { AllByRecursion IsIdle (map ⟦<Seat<L, SeatAsks<S::V>, A, C, P> as SeatShown>⟧.shown seats.old) }
    requires signers { 0 < length upkeep.old.signers.items }
    ensures pulled { OnOk result (PulledAgain (U.told upkeep.old.upstream) (U.told upkeep.new.upstream)) }
    ensures served { OnOk result (AllZip
        (ServedFrom S.V.token ((l : L.L) → IsSome (L.L.told l)) manager.stored.published)
        (map ⟦<Seat<L, SeatAsks<S::V>, A, C, P> as SeatShown>⟧.shown seats.old)
        (map ⟦<Seat<L, SeatAsks<S::V>, A, C, P> as SeatShown>⟧.shown seats.new)) }
    ensures err { OnErr result (seats.new ≡ seats.old) }
{
    let count = seats.len() as u32;
    let hub = Arc::try_clone(hub)?;
    let (publisher, passes) = first_passes(rt, alloc, &manager, count)?;
    give_passes(passes, seats);
    let desk = Desk::start(manager, publisher, count);
    with_desk(rt, alloc, desk, hub, gate, bells, upkeep, seats);
    Ok(())
}

/// Pulls the first document, has the host open its sockets, and serves the seats from the document's publication on.
fn serve_first<
    H: Binder,
    L: Listener + Send,
    S: Signer + Send,
    A: Attestor + Send,
    C: Clock + Send,
    P: Ready<L::L> + Send,
    U: Upstream,
    G: Gate + Sync,
    B: Bell + Sync,
    R: Threads + Wait + Sync,
>(
    rt: &R,
    alloc: Global,
    host: &mut H,
    hub: &Arc<AskHub<S::V>>,
    gate: &G,
    bells: &[B],
    upkeep: &mut Upkeep<U, S, C>,
    seats: &mut [Seat<L, SeatAsks<S::V>, A, C, P>],
) -> ServeEnd
    requires some { 0 < length seats.old }
    requires at_most { length seats.old ≤ 64 }
    requires idle { AllByRecursion IsIdle (map ⟦<Seat<L, SeatAsks<S::V>, A, C, P> as SeatShown>⟧.shown seats.old) }
    requires signers { 0 < length upkeep.old.signers.items }
    ensures { SatTells S.V.token ((l : L.L) → IsSome (L.L.told l))
        (H.faults host.old) (H.faults host.new)
        (U.told upkeep.old.upstream) (U.told upkeep.new.upstream)
        (U.faults upkeep.old.upstream) (U.faults upkeep.new.upstream)
        (map ⟦<Seat<L, SeatAsks<S::V>, A, C, P> as SeatShown>⟧.shown seats.old)
        (map ⟦<Seat<L, SeatAsks<S::V>, A, C, P> as SeatShown>⟧.shown seats.new) result }
{
    let mut document = Octets::empty(alloc);
    match upkeep.upstream.pull(&mut document) {
        Ok(()) => {}
        Err(EdgeFault::Failed) => return ServeEnd::NoDocument,
        Err(EdgeFault::Memory) => return ServeEnd::Memory,
    }
    let manager = match Manager::start_strict(alloc, document.as_slice()) {
        Ok(manager) => manager,
        Err(fault) => match fault {
            DocFault::Memory => return ServeEnd::Memory,
            fault => return ServeEnd::Document(fault),
        },
    };
    match host.open(alloc) {
        Ok(()) => {}
        Err(EdgeFault::Failed) => return ServeEnd::Unprepared,
        Err(EdgeFault::Memory) => return ServeEnd::Memory,
    }
    match serve_manager(rt, alloc, manager, hub, gate, bells, upkeep, seats) {
        Ok(()) => end_of_all(seats),
        Err(Memory) => ServeEnd::Memory,
    }
}

/// Serves what the host prepared.
fn serve_parts<B: Binder, R: Threads + Wait + Sync>(
    rt: &R,
    alloc: Global,
    host: &mut B,
    parts: &mut Parts<B>,
) -> ServeEnd
    requires some { 0 < length parts.old.seats.items }
    requires at_most { length parts.old.seats.items ≤ 64 }
    requires idle { AllByRecursion IsIdle (⟦<Parts<B> as PartsShown>⟧.shown parts.old).seats }
    requires signers { 0 < length parts.old.upkeep.signers.items }
    ensures { SatTells B.Sign.V.token ((l : B.Listen.L) → IsSome (B.Listen.L.told l))
        (B.faults host.old) (B.faults host.new)
        (⟦<Parts<B> as PartsShown>⟧.shown parts.old).upstream
        (⟦<Parts<B> as PartsShown>⟧.shown parts.new).upstream
        (⟦<Parts<B> as PartsShown>⟧.shown parts.old).upstream_faults
        (⟦<Parts<B> as PartsShown>⟧.shown parts.new).upstream_faults
        (⟦<Parts<B> as PartsShown>⟧.shown parts.old).seats
        (⟦<Parts<B> as PartsShown>⟧.shown parts.new).seats result }
{
    serve_first(
        rt,
        alloc,
        host,
        &parts.hub,
        &parts.gate,
        parts.bells.as_slice(),
        &mut parts.upkeep,
        parts.seats.as_mut_slice(),
    )
}

/// Reads a configuration, has the host prepare what it names, pulls and judges the first document, has the host open its
/// sockets, and serves each seat in a thread of its own, with upkeep beside them, until all have ended. The store is strict.
/// What was prepared is kept, for its counts and lists to be seen.
///
/// It may wait for as long as links stand, and returns once every seat has ended. After a seat that ended with a fault
/// point 5 of the gate is passed ([`AFTER_FAILED_SEAT`](crate::AFTER_FAILED_SEAT)), so that the host can have the others end.
pub fn serve<B: Binder, R: Threads + Wait + Sync>(
    rt: &R,
    alloc: Global,
    configuration: &[u8],
    host: &mut B,
    kept: &mut Option<Parts<B>>,
) -> ServeEnd
    requires { kept.old ≡ None }
    ensures { ServeTells B.Sign.V.token ((l : B.Listen.L) → IsSome (B.Listen.L.told l)) B.tells
        (configuration_of configuration.now) (B.faults host.old) (B.faults host.new)
        (option_map ⟦<Parts<B> as PartsShown>⟧.shown kept.new) result }
{
    let config = match read_config(alloc, configuration) {
        Ok(config) => config,
        Err(ConfigFault::Memory) => return ServeEnd::Memory,
        Err(fault) => return ServeEnd::Config(fault),
    };
    let mut parts = match host.prepare(rt, alloc, &config) {
        Ok(parts) => parts,
        Err(EdgeFault::Failed) => return ServeEnd::Unprepared,
        Err(EdgeFault::Memory) => return ServeEnd::Memory,
    };
    let end = serve_parts(rt, alloc, host, &mut parts);
    *kept = Some(parts);
    end
}
