//! Links over TCP from this machine.

ghost use Rattle.std.specs.Prelude.{◌≡◌, [], Some, IfOk};
ghost use Rattle.wl_edge.specs.Listeners.{HasOpenLink};

use crate::many_tests::origin_of;
use crate::tests::{accepted, next_link, next_told, nowhere, told};
use std::alloc::{AllocGlobal, Global};
use std::fs::{File, Files};
use std::io::{ErrorKind, Read, Write};
use std::net::{IpAddr, Net, Shutdown, SocketAddr, TcpListener, TcpStream};
use std::test::Fail;
use wl_edge::{Accepted, Link, Listener, Origin, Ready, Received, TrySent};
use wl_edge_real::{BindFault, BoundAt, RealLink, RealListener, RealReady, Refusal, bind_loopback};

/// A free port of IPv4.
const ANY_V4: &str = "127.0.0.1:0";

/// A free port of IPv6.
const ANY_V6: &str = "[::1]:0";

/// The address that a text says.
fn address_of(text: &str) -> Result<SocketAddr, Fail> {
    Ok(text.parse().map_err(|_| "address")?)
}

/// The origin of a socket of this number.
fn web(alloc: Global, number: u32) -> Result<Origin, Fail> {
    origin_of(alloc, b"app:web", number)
}

/// Has a listener listen at a port, too: the port. So many links may be open, and so many of one uid.
fn listen_at_port<R>(
    rt: &R,
    listener: &mut RealListener,
    address: &str,
    origin: Origin,
    limits: (u32, u32),
) -> Result<SocketAddr, Fail>
where
    R: AllocGlobal + Files<File = File> + Net<Listener = TcpListener, Stream = TcpStream>,
    ensures { ⟦<RealListener as Listener>⟧.told listener.new ≡ ⟦<RealListener as Listener>⟧.told listener.old }
{
    let socket = bind_loopback(rt, rt.alloc(), address_of(address)?).map_err(|_| "bind")?;
    let at = socket.address()?;
    let name = String::from_str(rt.alloc(), address)?;
    listener.add_loopback(socket, name, origin, limits.0, limits.1)?;
    Ok(at)
}

/// Whether bytes go both ways, and then the end.
fn carries(link: &mut RealLink, peer: &mut TcpStream) -> Result<bool, Fail> {
    let mut room = [0; 8];
    peer.write_all(b"abc")?;
    let got = link.receive(&mut room);
    let sent = link.try_send(b"de");
    peer.read_exact(&mut room[..2])?;
    peer.shutdown(Shutdown::Write)?;
    let end = link.receive(&mut [0; 4]);
    let heard = (got, sent, end) == (Received::Got(3), TrySent::Took(2), Received::End);
    Ok(heard && room.starts_with(b"dec"))
}

/// The same end for an IPv6 socket.
fn mapped(end: SocketAddr) -> SocketAddr {
    match end.ip() {
        IpAddr::V4(address) => SocketAddr::new(IpAddr::V6(address.to_ipv6_mapped()), end.port()),
        IpAddr::V6(_) => end,
    }
}

/// Whether the caller from here to there is a link with the uid of this process, and bytes go both ways.
fn is_named(rt: &HostRuntime, address: &str, is_mapped: bool) -> Result<bool, Fail> {
    let mut listener = nowhere(rt)?;
    let at = listen_at_port(rt, &mut listener, address, web(rt.alloc(), 7)?, (8, 8))?;
    let to = if is_mapped { mapped(at) } else { at };
    let mut peer = TcpStream::connect(rt, to)?;
    let mut link = next_link(&mut listener)?;
    let origin = link.origin();
    let named = origin.uid == Some(libc::getuid()) && origin.socket == 7;
    let same = origin.selectors == web(rt.alloc(), 7)?.selectors;
    Ok(named && same && listener.last_refusal().is_none() && carries(&mut link, &mut peer)?)
}

#[test]
fn a_link_has_the_uid_of_its_caller(rt: HostRuntime) -> Result<(), Fail> {
    assert!(rt; is_named(&rt, ANY_V4, false)?);
    // Where the machine has IPv6, callers may have sockets of it.
    if TcpListener::bind(&rt, address_of(ANY_V6)?).is_ok() {
        assert!(rt; is_named(&rt, ANY_V4, true)?);
        assert!(rt; is_named(&rt, ANY_V6, false)?);
    }
    Ok(())
}

#[test]
fn only_a_free_port_of_this_machine_is_bound(rt: HostRuntime) -> Result<(), Fail> {
    let alloc = rt.alloc();
    let socket = bind_loopback(&rt, alloc, address_of(ANY_V4)?).map_err(|_| "bind")?;
    let again = bind_loopback(&rt, alloc, socket.address()?).err();
    assert!(rt; again == Some(BindFault::Taken));
    for text in ["0.0.0.0:0", "192.0.2.1:0", "[::]:0", "[::ffff:127.0.0.1]:0"] {
        let refused = bind_loopback(&rt, alloc, address_of(text)?).err();
        assert!(rt;
            refused == Some(BindFault::Refused(ErrorKind::AddrNotAvailable)),
            "{text}"
        );
    }
    Ok(())
}

/// Whether a peer hears its end, and nothing else.
fn is_closed(peer: &mut TcpStream) -> bool {
    match peer.read(&mut [0; 4]) {
        Ok(count) => count == 0,
        Err(error) => error.kind() == ErrorKind::ConnectionReset,
    }
}

/// What the next accept refuses, which gives no link.
fn next_refusal(listener: &mut RealListener) -> Option<Refusal> {
    match listener.accept() {
        Accepted::Idle => listener.last_refusal(),
        _ => None,
    }
}

#[test]
fn a_uid_has_so_many_links_at_once(rt: HostRuntime) -> Result<(), Fail> {
    let mut listener = nowhere(&rt)?;
    let at = listen_at_port(&rt, &mut listener, ANY_V4, web(rt.alloc(), 7)?, (8, 2))?;
    let _one = TcpStream::connect(&rt, at)?;
    let _two = TcpStream::connect(&rt, at)?;
    let mut three = TcpStream::connect(&rt, at)?;
    let first = next_link(&mut listener)?;
    let _second = next_link(&mut listener)?;
    let full = Refusal::UidFull {
        socket: 7,
        uid: libc::getuid(),
    };
    assert!(rt; next_refusal(&mut listener) == Some(full));
    assert!(rt; is_closed(&mut three));
    // Nothing is left of it, and a link that ends makes room.
    assert!(rt; next_refusal(&mut listener).is_none());
    drop(first);
    let _four = TcpStream::connect(&rt, at)?;
    let _third = next_link(&mut listener)?;
    assert!(rt; listener.last_refusal().is_none());
    Ok(())
}

#[test]
fn a_caller_whom_the_kernel_does_not_name_is_closed(rt: HostRuntime) -> Result<(), Fail> {
    let mut listener = nowhere(&rt)?;
    let at = listen_at_port(&rt, &mut listener, ANY_V4, web(rt.alloc(), 7)?, (8, 8))?;
    drop(TcpStream::connect(&rt, at)?);
    let mut peer = TcpStream::connect(&rt, at)?;
    let unnamed = Refusal::Unattested { socket: 7 };
    assert!(rt; next_refusal(&mut listener) == Some(unnamed));
    assert!(rt; carries(&mut next_link(&mut listener)?, &mut peer)?);
    Ok(())
}

/// Ends the first link of a port that may have one: whether its second caller is served then, and not before.
fn serves_the_second(listener: &mut RealListener) -> Result<bool, Fail>
    requires { ⟦<RealListener as Listener>⟧.told listener.old ≡ Some (record { kinds = []; finished = [] }) }
{
    let first = accepted(listener)?;
    listener.finish(first);
    let mut second = next_link(listener)?;
    Ok(second.receive(&mut [0; 4]) == Received::Got(1))
}

/// A watched listener and its watcher report callers of a port and what they send.
#[test]
fn a_watcher_tells_of_callers_of_a_port(rt: HostRuntime) -> Result<(), Fail> {
    let alloc = rt.alloc();
    let mut listener = nowhere(&rt)?;
    let at = listen_at_port(&rt, &mut listener, ANY_V4, web(alloc, 7)?, (1, 1))?;
    let (mut ready, bell) = RealReady::start(&rt, alloc, &listener, None)?;
    assert!(rt; matches!(listener.accept(), Accepted::Idle));
    let mut peer = TcpStream::connect(&rt, at)?;
    let mut other = TcpStream::connect(&rt, at)?;
    other.write_all(b"b")?;
    assert_eq!(rt; told(alloc, &mut ready)?.len(), 0);
    let mut link = next_link(&mut listener)?;
    // The other waits in the backlog.
    assert!(rt; next_refusal(&mut listener).is_none());
    assert_eq!(rt; ready.add(3, &mut link), Ok(()));
    assert_eq!(rt; told(alloc, &mut ready)?.as_slice(), [3].as_slice());
    assert_eq!(rt; link.receive(&mut [0; 4]), Received::Idle);
    let _ = told(alloc, &mut ready)?;
    peer.write_all(b"a")?;
    assert_eq!(rt; next_told(alloc, &mut ready)?.as_slice(), [3].as_slice());
    assert_eq!(rt; link.receive(&mut [0; 4]), Received::Got(1));
    ready.remove(3, &mut link);
    drop(bell);
    Ok(())
}

#[test]
fn a_full_port_has_its_callers_wait(rt: HostRuntime) -> Result<(), Fail> {
    let mut listener = nowhere(&rt)?;
    let at = listen_at_port(&rt, &mut listener, ANY_V4, web(rt.alloc(), 7)?, (1, 8))?;
    let _first = TcpStream::connect(&rt, at)?;
    let mut second = TcpStream::connect(&rt, at)?;
    second.write_all(b"b")?;
    assert!(rt; serves_the_second(&mut listener)?);
    Ok(())
}

#[test]
fn a_port_has_many_links(rt: HostRuntime) -> Result<(), Fail> {
    let alloc = rt.alloc();
    let mut listener = nowhere(&rt)?;
    let at = listen_at_port(&rt, &mut listener, ANY_V4, web(alloc, 7)?, (100, 100))?;
    let mut held = Vec::new(alloc);
    for _ in 0..100u32 {
        let mut peer = TcpStream::connect(&rt, at)?;
        let mut link = next_link(&mut listener)?;
        assert!(rt; carries(&mut link, &mut peer)?);
        held.push((peer, link))?;
    }
    assert!(rt; next_refusal(&mut listener).is_none());
    Ok(())
}
