//! What a host prepares.

ghost use Rattle.std.specs.Prelude.{◌≡◌, ◌<◌, ◌≤◌, ℕ, IfOk, IsErrOf, length, map};
ghost use Rattle.wl_edge.specs.Edge.{Rose};
ghost use Rattle.wl_serve.specs.Views.{PartsView};
ghost use Rattle.wl_serve.specs.Prepared.{IsPrepared};

use crate::seats::SeatShown;
use crate::upkeep::Upkeep;
use ask_mail::TokenAsks;
use std::alloc::Global;
use std::sync::{Arc, Wait};
use std::thread::Threads;
use wl_config::Config;
use wl_edge::{Attestor, Bell, Clock, EdgeFault, Gate, Listener, Ready, Signer, Upstream};
use wl_octets::Row;
use wl_worker::{AskHub, Seat, SeatAsks};

/// What a host prepared: seats, to which the sockets of the configuration were dealt out, with a bell for each, and what upkeep
/// needs.
#[derive(Drop)]
pub struct Parts<B: Binder>
where
    SeatAsks<<B::Sign as Signer>::V>: TokenAsks,
{
    pub upkeep: Upkeep<B::Up, B::Sign, B::Time>,
    pub gate: B::Door,
    /// Over which the seats ask the signers.
    pub hub: Arc<AskHub<<B::Sign as Signer>::V>>,
    pub seats: Vec<Seat<B::Listen, SeatAsks<<B::Sign as Signer>::V>, B::Att, B::Time, B::Poll>>,
    pub bells: Row<B::Ring>,
}

/// What contracts see of what was prepared.
pub trait PartsShown {
    ghost shown: { Self → PartsView };
}

impl<B: Binder> PartsShown for Parts<B> {
    ghost shown = { λ p. record {
      upstream = B.Up.told p.upkeep.upstream;
      upstream_faults = B.Up.faults p.upkeep.upstream;
      seats = map ⟦<Seat<B::Listen, SeatAsks<<B::Sign as Signer>::V>, B::Att, B::Time, B::Poll> as SeatShown>⟧.shown p.seats.items;
    } };
}

/// Binds the sockets of a configuration, and makes all that serving needs. Peers find the sockets once they are opened.
pub trait Binder {
    type Up: Upstream + Drop;

    type Listen: Listener + Send + Drop;

    type Sign: Signer + Send + Drop;

    type Att: Attestor + Send + Drop;

    type Time: Clock + Send + Drop;

    type Poll: Ready<<Self::Listen as Listener>::L> + Send + Drop;

    type Door: Gate + Sync + Drop;

    type Ring: Bell + Sync + Drop;

    /// Whether all that it prepares tells its content.
    ghost tells: { Type 0 };

    /// How often a call has failed. It never falls; at 2^64-1 it stays.
    ghost faults: { Self → ℕ };

    /// Prepares what this configuration names. Nothing of it was used yet, no seat has its pass, and no peer finds the sockets.
    fn prepare<R: Threads + Wait + Sync>(
        &mut self,
        rt: &R,
        alloc: Global,
        config: &Config,
    ) -> Result<Parts<Self>, EdgeFault>
        ensures prepared { IfOk result (λ p. IsPrepared tells config.now (record {
          upstream = Self.Up.told p.upkeep.upstream;
          upstream_faults = Self.Up.faults p.upkeep.upstream;
          seats = map ⟦<Seat<Self::Listen, SeatAsks<<Self::Sign as Signer>::V>, Self::Att, Self::Time, Self::Poll> as SeatShown>⟧.shown p.seats.items;
        })) }
        ensures signers { IfOk result (λ p. 0 < length p.upkeep.signers.items) }
        ensures bells { IfOk result (λ p. length p.bells ≡ length p.seats.items) }
        ensures failed { IsErrOf result EdgeFault.Failed → Rose (faults self.old) (faults self.new) }
        ensures later { faults self.old ≤ faults self.new };

    /// From now on peers find the sockets that it prepared.
    fn open(&mut self, alloc: Global) -> Result<(), EdgeFault>
        ensures failed { IsErrOf result EdgeFault.Failed → Rose (faults self.old) (faults self.new) }
        ensures later { faults self.old ≤ faults self.new };
}
