//! Sockets at which the host listens.

ghost use Rattle.std.specs.Prelude.{◌≡◌, ℕ, ◌++◌, [], ◌∷◌, map, None, Some, IfOk, IfSome, OnOk, string_bytes};
ghost use Rattle.wl_config.specs.SocketPlaces.{name_of};
ghost use Rattle.wl_config.specs.declared.config.SocketFact.{SocketFact};
ghost use Rattle.wl_dealing.specs.Dealt.{socket_of};

use crate::bound::Bound;
use crate::doors::{Door, say_unbound_at, say_unbound_port};
use log_output::Log;
use std::alloc::Global;
use std::fs::{File, Files};
use std::net::{Net, SocketAddr, TcpListener, TcpStream};
use std::string::{String, ToString};
use std::sync::Arc;
use wl_config::{MetricsPlace, SocketFact, SocketGuard, SocketPlace};
use wl_dealing::DealtSocket;
use wl_edge::{EdgeFault, Listener, Origin};
use wl_edge_real::{
    BoundAt, Guard, LoopbackListener, OpenLinks, PathListener, RealListener, bind, bind_loopback,
};
use wl_octets::{Memory, Octets};
use wl_selector::Selectors;

/// Who may read the pages: the agent's own user, and root.
const PAGES_GUARD: Guard = Guard {
    owner: None,
    group: None,
    mode: 0o600,
};

/// How many connections of readers of pages are open at most.
const PAGES_CONNECTIONS: u32 = 64;

/// The path as a text, which the paths of a configuration are.
pub(crate) fn text_of(alloc: Global, path: &Octets) -> Result<String, EdgeFault>
    ensures { IfOk result (λ text. string_bytes text ≡ path.now) }
{
    let Ok(path) = str::from_utf8(path.as_slice()) else {
        return Err(EdgeFault::Failed);
    };
    match String::from_str(alloc, path) {
        Ok(path) => Ok(path),
        Err(_) => Err(EdgeFault::Memory),
    }
}

/// Who may open the socket's file.
pub(crate) fn guard_of(guard: SocketGuard) -> Guard
    ensures owner { result.owner ≡ guard.owner }
    ensures group { result.group ≡ guard.group }
    ensures mode { result.mode ≡ guard.mode }
{
    Guard {
        owner: guard.owner,
        group: guard.group,
        mode: guard.mode,
    }
}

/// The origin of the callers of the socket of this number.
pub(crate) fn origin_of(alloc: Global, number: u32, fact: &SocketFact) -> Result<Origin, Memory>
    ensures { IfOk result (λ o. o ≡ record { selectors = fact.now.selectors; socket = number; uid = None }) }
{
    Origin::new(alloc, fact.selectors.copy(alloc)?, number, None)
}

/// The origin of the readers of pages, who have no selectors.
fn readers_origin(alloc: Global) -> Result<Origin, Memory> {
    let Ok(selectors) = Selectors::from_list(alloc, Vec::new(alloc), 0) else {
        return Err(Memory);
    };
    Origin::new(alloc, selectors, 0, None)
}

/// A listener at no socket yet, one of those that share the count of their open links.
fn start_listener(
    rt: &impl Net,
    alloc: Global,
    all: &Arc<OpenLinks>,
) -> Result<RealListener, EdgeFault>
    ensures sockets { IfOk result (λ l. ⟦<RealListener as Listener>⟧.sockets l ≡ Some []) }
    ensures paths { IfOk result (λ l. ⟦<RealListener as BoundAt>⟧.paths l ≡ []) }
    ensures fresh { IfOk result (λ l. ⟦<RealListener as Listener>⟧.faults l ≡ 0) }
    ensures told { IfOk result (λ l. ⟦<RealListener as Listener>⟧.told l ≡ Some (record { kinds = []; finished = [] })) }
{
    let Ok(all) = Arc::try_clone(all) else {
        return Err(EdgeFault::Memory);
    };
    match RealListener::start(rt, alloc, all) {
        Ok(listener) => Ok(listener),
        Err(_) => Err(EdgeFault::Failed),
    }
}

/// The Unix socket of this path, which peers don't find yet. The log says why it can't be bound.
fn bind_path<R: Files + Net>(
    rt: &R,
    alloc: Global,
    number: u32,
    fact: &SocketFact,
    path: &Octets,
    guard: SocketGuard,
    bound: &mut Bound,
    log: &Log,
) -> Result<PathListener, EdgeFault>
    ensures { IfOk result (λ s. string_bytes s.path ≡ path.now) }
{
    let text = text_of(alloc, path)?;
    match bound.bind(rt, alloc, number, fact, text.as_str(), guard_of(guard)) {
        Ok(socket) => Ok(socket),
        Err(fault) => Err(say_unbound_at(rt, alloc, log, text.as_str(), fault)),
    }
}

/// The port of this address, which this text names. Who connects waits until its seat serves. The log says why it can't be bound.
fn bind_port<R: Files<File = File> + Net<Listener = TcpListener, Stream = TcpStream>>(
    rt: &R,
    alloc: Global,
    number: u32,
    fact: &SocketFact,
    text: &Octets,
    address: SocketAddr,
    bound: &mut Bound,
    log: &Log,
) -> Result<(LoopbackListener, String), EdgeFault>
    ensures { IfOk result (λ r. string_bytes r.1 ≡ text.now) }
{
    let name = text_of(alloc, text)?;
    match bound.bind_port(rt, alloc, number, fact, address) {
        Ok(port) => Ok((port, name)),
        Err(fault) => Err(say_unbound_port(alloc, log, name.as_str(), fault)),
    }
}

/// Has the listener listen at one more socket, whose callers have this origin. The log says why nobody listens there.
fn listen_at<R: Files<File = File> + Net<Listener = TcpListener, Stream = TcpStream>>(
    rt: &R,
    alloc: Global,
    listener: &mut RealListener,
    fact: &SocketFact,
    origin: Origin,
    bound: &mut Bound,
    log: &Log,
) -> Result<(), EdgeFault>
    ensures sockets { OnOk result (IfSome (⟦<RealListener as Listener>⟧.sockets listener.old) (λ known.
        ⟦<RealListener as Listener>⟧.sockets listener.new
        ≡ Some (known ++ record { selectors = origin.selectors; number = origin.socket } ∷ []))) }
    ensures paths { OnOk result (⟦<RealListener as BoundAt>⟧.paths listener.new
        ≡ ⟦<RealListener as BoundAt>⟧.paths listener.old ++ name_of fact.now.place ∷ []) }
    ensures told { ⟦<RealListener as Listener>⟧.told listener.new ≡ ⟦<RealListener as Listener>⟧.told listener.old }
    ensures faults { ⟦<RealListener as Listener>⟧.faults listener.new ≡ ⟦<RealListener as Listener>⟧.faults listener.old }
{
    let added = match &fact.place {
        SocketPlace::Path { path, guard } => {
            let socket = bind_path(rt, alloc, origin.socket, fact, path, *guard, bound, log)?;
            listener.add(socket, origin, fact.connections)
        }
        SocketPlace::Loopback {
            text,
            address,
            connections_per_uid,
        } => {
            let number = origin.socket;
            let (port, name) = bind_port(rt, alloc, number, fact, text, *address, bound, log)?;
            listener.add_loopback(port, name, origin, fact.connections, *connections_per_uid)
        }
    };
    match added {
        Ok(()) => Ok(()),
        Err(_) => Err(EdgeFault::Failed),
    }
}

/// A listener at these sockets, each with its own number, selectors and name. Peers don't find the files of Unix sockets yet. The log
/// says at which of them nobody can listen.
pub(crate) fn listen_at_all<
    R: Files<File = File> + Net<Listener = TcpListener, Stream = TcpStream>,
>(
    rt: &R,
    alloc: Global,
    sockets: &[DealtSocket<'_>],
    bound: &mut Bound,
    log: &Log,
) -> Result<RealListener, EdgeFault>
    ensures sockets { IfOk result (λ l. ⟦<RealListener as Listener>⟧.sockets l
        ≡ Some (map socket_of (map (λ s. (s.number, s.fact.now)) sockets.now))) }
    ensures paths { IfOk result (λ l. ⟦<RealListener as BoundAt>⟧.paths l ≡ map (λ (s : ℕ × SocketFact). name_of s.1.place) (map (λ s. (s.number, s.fact.now)) sockets.now)) }
    ensures fresh { IfOk result (λ l. ⟦<RealListener as Listener>⟧.faults l ≡ 0) }
    ensures told { IfOk result (λ l. ⟦<RealListener as Listener>⟧.told l ≡ Some (record { kinds = []; finished = [] })) }
{
    let mut listener = start_listener(rt, alloc, bound.links())?;
    for socket in sockets {
        let fact = socket.fact;
        let origin = origin_of(alloc, socket.number, fact)?;
        listen_at(rt, alloc, &mut listener, fact, origin, bound, log)?;
    }
    Ok(listener)
}

/// A listener for the readers of pages, at no socket yet.
fn start_readers(rt: &impl Net, alloc: Global) -> Result<RealListener, EdgeFault> {
    let Ok(readers) = OpenLinks::share(alloc, PAGES_CONNECTIONS) else {
        return Err(EdgeFault::Memory);
    };
    start_listener(rt, alloc, &readers)
}

/// A listener for the readers of pages, at this path, and its door. Readers find it at once.
fn listen_for_readers_at_path<R: Files + Net>(
    rt: &R,
    alloc: Global,
    path: &Octets,
    log: &Log,
) -> Result<(RealListener, Door), EdgeFault> {
    let mut listener = start_readers(rt, alloc)?;
    let origin = readers_origin(alloc)?;
    let text = text_of(alloc, path)?;
    let socket = match bind(rt, alloc, text.as_str(), PAGES_GUARD) {
        Ok(socket) => socket,
        Err(fault) => return Err(say_unbound_at(rt, alloc, log, text.as_str(), fault)),
    };
    let door = Door::new(text, socket.file);
    match listener.add(socket, origin, PAGES_CONNECTIONS) {
        Ok(()) => Ok((listener, door)),
        Err(_) => Err(EdgeFault::Failed),
    }
}

/// A listener for the readers of pages, at this loopback address. All processes that reach it are readers.
fn listen_for_readers_at_port<
    R: Files<File = File> + Net<Listener = TcpListener, Stream = TcpStream>,
>(rt: &R, alloc: Global, address: SocketAddr, log: &Log) -> Result<RealListener, EdgeFault> {
    let mut listener = start_readers(rt, alloc)?;
    let origin = readers_origin(alloc)?;
    let Ok(name) = address.to_string(alloc) else {
        return Err(EdgeFault::Memory);
    };
    let port = match bind_loopback(rt, alloc, address) {
        Ok(port) => port,
        Err(fault) => return Err(say_unbound_port(alloc, log, name.as_str(), fault)),
    };
    match listener.add_loopback(port, name, origin, PAGES_CONNECTIONS, PAGES_CONNECTIONS) {
        Ok(()) => Ok(listener),
        Err(_) => Err(EdgeFault::Failed),
    }
}

/// A listener for the readers of pages, and its door where it is a Unix socket.
pub(crate) fn listen_for_readers<
    R: Files<File = File> + Net<Listener = TcpListener, Stream = TcpStream>,
>(
    rt: &R,
    alloc: Global,
    place: &MetricsPlace,
    log: &Log,
) -> Result<(RealListener, Option<Door>), EdgeFault> {
    match place {
        MetricsPlace::Path(path) => {
            let (listener, door) = listen_for_readers_at_path(rt, alloc, path, log)?;
            Ok((listener, Some(door)))
        }
        MetricsPlace::Loopback(address) => {
            let listener = listen_for_readers_at_port(rt, alloc, *address, log)?;
            Ok((listener, None))
        }
    }
}
