//! A host in memory.

ghost use Rattle.std.specs.Prelude.{◌≡◌, ◌<◌, ◌≤◌, ⊤, IfOk, length};
ghost use Rattle.wl_edge.specs.Edge.{Rose};

use crate::binder::{Binder, Parts};
use crate::making::{SeatMaker, make_seats};
use crate::memory_ready::CountedReady;
use crate::upkeep::Upkeep;
use std::alloc::Global;
use std::sync::{Arc, Wait};
use std::thread::Threads;
use wl_config::{Config, SocketFact};
use wl_dealing::{deal, room_of, seat_count};
use wl_edge::{
    EdgeFault, Gate, ListenerPlan, MemoryAttestor, MemoryBell, MemoryClock, MemoryListener,
    MemorySigner, MemoryUpstream, Script,
};
use wl_entry::{Free, JwtToken, Signed};
use wl_octets::{Memory, Octets, Row};
use wl_selector::Selectors;
use wl_worker::{AskHub, Seat, SeatAsks, Signing};

/// What the things of one seat answer.
#[derive(Drop)]
pub struct SeatPlan {
    pub listener: ListenerPlan,
    pub selectors: Script<Selectors>,
    pub times: Row<u64>,
    /// The calls of its watcher that fail, by their numbers from 0.
    pub failing: Row<u64>,
}

/// What a host in memory prepares.
#[derive(Drop)]
pub struct HostPlan<G> {
    pub documents: Script<Octets>,
    /// What the one signer answers.
    pub identities: Script<Signed>,
    pub tokens: Script<JwtToken>,
    /// What the clocks of the puller, the keeper and the one signer give.
    pub puller_times: Row<u64>,
    pub keeper_times: Row<u64>,
    pub signer_times: Row<u64>,
    pub gate: G,
    /// Whether its sockets can't be opened.
    pub is_shut: bool,
    /// For each seat, that of the first one last. The links of a listener may come over several sockets.
    pub seats: Vec<SeatPlan>,
}

/// A host in memory, which prepares what it plans, once. Without a plan, and where more seats are needed than it plans, it
/// fails.
#[derive(Drop)]
pub struct MemoryHost<G> {
    plan: Option<HostPlan<G>>,
    /// Whether its sockets can't be opened.
    is_shut: bool,
    faults: u64,
}

/// A seat in memory.
type MemorySeat = Seat<MemoryListener, SeatAsks<Free>, MemoryAttestor, MemoryClock, CountedReady>;

/// What is left of a plan while seats are made: those of the seats that are still to be made, that of the next one last, and the
/// gate.
#[derive(Drop)]
struct SeatsLeft<G> {
    plans: Vec<SeatPlan>,
    hub: Arc<AskHub<Free>>,
    gate: G,
}

impl<G: Drop> SeatMaker for SeatsLeft<G> {
    type Seat = MemorySeat;

    type Ring = MemoryBell;

    ghost tells = { ⊤ };

    fn make_seat(
        &mut self,
        alloc: Global,
        seat: u32,
        seats: u32,
        sockets: &[SocketFact],
    ) -> Result<(MemorySeat, MemoryBell), EdgeFault> {
        let dealt = deal(alloc, sockets, seats, seat)?;
        let Some(plan) = self.plans.pop() else {
            return Err(EdgeFault::Failed);
        };
        let SeatPlan {
            listener,
            selectors,
            times,
            failing,
        } = plan;
        let seat = Seat {
            listener: MemoryListener::start(alloc, listener)?,
            asks: SeatAsks::start(alloc, &self.hub, seat)?,
            connections: 0,
            attestor: MemoryAttestor::start(alloc, selectors),
            clock: MemoryClock::start(times),
            pass: None,
            end: None,
            ready: CountedReady::start(alloc, failing),
            room: room_of(dealt.as_slice()),
            starved: 0,
            budget: u64::MAX,
        };
        Ok((seat, MemoryBell::start()))
    }
}

/// The posts of the sockets' seats, for one signer, with two owners.
fn two_owners(
    alloc: Global,
    config: &Config,
) -> Result<(Arc<AskHub<Free>>, Arc<AskHub<Free>>), Memory> {
    let sockets = config.sockets.as_slice();
    let hub = AskHub::start(
        alloc,
        seat_count(config.threads, sockets) as usize,
        sockets.len(),
        1,
    )?;
    let other = Arc::try_clone(&hub)?;
    Ok((hub, other))
}

/// The one signer, with its clock.
fn one_signer(
    alloc: Global,
    identities: Script<Signed>,
    tokens: Script<JwtToken>,
    times: Row<u64>,
) -> Result<Vec<Signing<MemorySigner, MemoryClock>>, Memory>
    ensures { IfOk result (λ s. 0 < length s.items) }
{
    let mut signers = Vec::new(alloc);
    signers.push(Signing {
        signer: MemorySigner::start(alloc, identities, tokens),
        clock: MemoryClock::start(times),
    })?;
    Ok(signers)
}

impl<G> MemoryHost<G> {
    /// A host of this plan, if any.
    pub fn start(plan: Option<HostPlan<G>>) -> MemoryHost<G> {
        let is_shut = match &plan {
            Some(plan) => plan.is_shut,
            None => false,
        };
        MemoryHost {
            plan,
            is_shut,
            faults: 0,
        }
    }

    /// One fault more.
    fn failed(&mut self) -> EdgeFault
        ensures failed { result ≡ EdgeFault.Failed }
        ensures count { Rose self.old.faults self.new.faults }
        ensures later { self.old.faults ≤ self.new.faults }
    {
        self.faults = self.faults.saturating_add(1);
        EdgeFault::Failed
    }
}

impl<G: Gate + Sync + Drop> Binder for MemoryHost<G> {
    type Up = MemoryUpstream;

    type Listen = MemoryListener;

    type Sign = MemorySigner;

    type Att = MemoryAttestor;

    type Time = MemoryClock;

    type Poll = CountedReady;

    type Door = G;

    type Ring = MemoryBell;

    ghost tells = { ⊤ };

    ghost faults = { λ h. h.faults };

    fn prepare<R: Threads + Wait + Sync>(
        &mut self,
        _rt: &R,
        alloc: Global,
        config: &Config,
    ) -> Result<Parts<MemoryHost<G>>, EdgeFault> {
        let Some(plan) = self.plan.take() else {
            return Err(self.failed());
        };
        let HostPlan {
            documents,
            identities,
            tokens,
            puller_times,
            keeper_times,
            signer_times,
            gate,
            is_shut: _,
            seats,
        } = plan;
        let (hub, shared) = two_owners(alloc, config)?;
        let mut left = SeatsLeft {
            plans: seats,
            hub: shared,
            gate,
        };
        let sockets = config.sockets.as_slice();
        let (seats, bells) = match make_seats(alloc, &mut left, config.threads, sockets) {
            Ok(both) => both,
            Err(EdgeFault::Failed) => return Err(self.failed()),
            Err(EdgeFault::Memory) => return Err(EdgeFault::Memory),
        };
        let signers = one_signer(alloc, identities, tokens, signer_times)?;
        let SeatsLeft { gate, .. } = left;
        Ok(Parts {
            upkeep: Upkeep {
                upstream: MemoryUpstream::start(alloc, documents),
                puller: MemoryClock::start(puller_times),
                keeper: MemoryClock::start(keeper_times),
                signers,
            },
            gate,
            hub,
            seats,
            bells,
        })
    }

    fn open(&mut self, _alloc: Global) -> Result<(), EdgeFault> {
        if self.is_shut {
            return Err(self.failed());
        }
        Ok(())
    }
}
