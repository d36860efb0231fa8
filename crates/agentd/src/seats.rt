//! Seats of the real host.

ghost use Rattle.std.specs.Prelude.{◌≡◌, ◌<◌, ◌≤◌, ⊤, Some, IfOk, length, map};
ghost use Rattle.wl_config.specs.SocketPlaces.{name_of};
ghost use Rattle.wl_dealing.specs.Dealt.{dealt, socket_of};
ghost use Rattle.wl_serve.specs.Prepared.{IsSeat};

use crate::bells::SharedBell;
use crate::bound::Bound;
use crate::listening::listen_at_all;
use crate::owners::{copy_of, one_more};
use crate::signers::AgentVoucher;
use std::alloc::Global;
use std::fs::{File, Files};
use std::net::{Net, TcpListener, TcpStream};
use std::rt::Clock;
use std::sync::Arc;
use wl_config::{ConnectionLimits, MAX_ALL_CONNECTIONS, SocketAttestor, SocketFact};
use wl_dealing::deal;
use wl_edge::{EdgeFault, Listener};
use wl_edge_real::{BoundAt, Limits, RealBell, RealClock, RealListener, RealReady, Stop};
use wl_octets::Memory;
use wl_outlook::Outlook;
use wl_saying::SayingListener;
use wl_serve::{SeatMaker, SeatShown};
use wl_telling::{TellingAttestor, TellingClock};
use wl_worker::{AskHub, Seat, SeatAsks};

/// How many bytes a MiB has.
const MIB: u64 = 1_048_576;

/// Its attestor.
pub(crate) type HostAttestor = TellingAttestor<SocketAttestor>;

/// A clock of the real host.
pub(crate) type HostClock<R> = TellingClock<RealClock<R>>;

/// Its listener.
pub(crate) type HostListener = SayingListener<RealListener>;

/// A seat of the real host.
pub(crate) type RealSeat<R> = Seat<
    HostListener,
    SeatAsks<AgentVoucher>,
    HostAttestor,
    HostClock<R>,
    RealReady<R>,
>;

/// Makes the seats of a configuration.
#[derive(Drop)]
pub(crate) struct Seats<'a, R> {
    pub rt: &'a R,
    pub hub: &'a Arc<AskHub<AgentVoucher>>,
    pub outlook: &'a Arc<Outlook>,
    pub stop: &'a Arc<Stop>,
    pub limits: ConnectionLimits,
    /// What was bound for the seats so far.
    pub bound: Bound,
}

/// When a watcher gives up a link.
fn limits_of(limits: ConnectionLimits) -> Limits {
    Limits {
        stall_seconds: limits.stall_seconds,
        opening_seconds: limits.opening_seconds,
    }
}

impl<'a, R> Seats<'a, R> {
    /// Keeps the seat with this listener, whose bell has a second owner now.
    fn share_bell(
        &mut self,
        alloc: Global,
        listener: &RealListener,
        bell: RealBell,
    ) -> Result<SharedBell, Memory> {
        let Ok(changes) = listener.share_changes() else {
            return Err(Memory);
        };
        let Ok(bell) = Arc::new(alloc, bell) else {
            return Err(Memory);
        };
        let shared = SharedBell::share(&bell)?;
        self.bound.keep_seat(changes, bell)?;
        Ok(shared)
    }
}

impl<
    'a,
    R: Net<Listener = TcpListener, Stream = TcpStream> + Files<File = File> + Clock + Clone + Drop,
> SeatMaker for Seats<'a, R> {
    type Seat = RealSeat<R>;

    type Ring = SharedBell;

    ghost tells = { ⊤ };

    fn make_seat(
        &mut self,
        alloc: Global,
        seat: u32,
        seats: u32,
        sockets: &[SocketFact],
    ) -> Result<(RealSeat<R>, SharedBell), EdgeFault>
        requires seat { seat < seats }
        requires at_most { length sockets.now ≤ 4096 }
        ensures made { IfOk result (λ r. IsSeat ⊤ (dealt seats seat sockets.now) (⟦<RealSeat<R> as SeatShown>⟧.shown r.0)) }
        // its callers come over these sockets alone, each of which has its number and its selectors
        ensures sockets { IfOk result (λ r. ⟦<HostListener as Listener>⟧.sockets r.0.listener
            ≡ Some (map socket_of (dealt seats seat sockets.now))) }
        // the listener is the one at these sockets' own paths and addresses, in their order
        ensures paths { IfOk result (λ r. ⟦<HostListener as BoundAt>⟧.paths r.0.listener ≡ map (λ s. name_of s.1.place) (dealt seats seat sockets.now)) }
    {
        let rt = self.rt;
        let outlook = self.outlook;
        let dealt = deal(alloc, sockets, seats, seat)?;
        let mut listener = listen_at_all(
            rt,
            alloc,
            dealt.as_slice(),
            &mut self.bound,
            outlook.log(),
        )?;
        listener.obey(one_more(self.stop)?);
        let limits = Some(limits_of(self.limits));
        let Ok((ready, bell)) = RealReady::start(rt, alloc, &listener, limits) else {
            return Err(EdgeFault::Failed);
        };
        let bell = self.share_bell(alloc, &listener, bell)?;
        let seat = Seat {
            listener: SayingListener::start(listener, one_more(outlook)?),
            asks: SeatAsks::start(alloc, self.hub, seat)?,
            connections: 0,
            attestor: TellingAttestor::start(SocketAttestor::start(alloc)),
            clock: TellingClock::start(RealClock::start(copy_of(rt)?)),
            pass: None,
            end: None,
            ready,
            // its listener bounds what each socket serves at once, and may get more sockets
            room: MAX_ALL_CONNECTIONS,
            starved: 0,
            budget: u64::from(self.limits.memory_mib) * MIB,
        };
        Ok((seat, bell))
    }
}
