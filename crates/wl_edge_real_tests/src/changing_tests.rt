//! Sockets that change while their listener runs.

use crate::many_tests::{joins, origin_of};
use crate::tests::{OWN, listen_at, next_link, nowhere, path_of, told};
use std::alloc::AllocGlobal;
use std::fs::Files;
use std::io::Write;
use std::net::Net;
use std::os::unix::net::{UnixListener, UnixStream};
use std::sync::Arc;
use std::test::Fail;
use std::{fs, thread};
use wl_edge::{Accepted, Link, Listener, Ready, Received};
use wl_edge_real::{BoundAt, Changes, RealReady, bind};

/// A new socket at this path, whose file was removed.
fn bind_anew<R: AllocGlobal + Files + Net>(rt: &R, path: &str) -> Result<UnixListener, Fail> {
    fs::remove_file(rt, path)?;
    let socket = bind(rt, rt.alloc(), path, OWN).map_err(|_| "bind")?;
    Ok(socket.listener)
}

#[test]
fn a_socket_takes_the_place_of_another(rt: HostRuntime) -> Result<(), Fail> {
    let (path, origin) = (
        path_of(&rt, "replaced")?,
        origin_of(rt.alloc(), b"app:web", 7)?,
    );
    let mut listener = nowhere(&rt)?;
    listen_at(&rt, &mut listener, path.as_str(), origin.share()?, 2)?;
    let changes = listener.share_changes()?;
    let mut early = UnixStream::connect(&rt, path.as_str())?;
    let mut first = next_link(&mut listener)?;
    let anew = bind_anew(&rt, path.as_str())?;
    assert!(rt; changes.replace(7, anew).is_ok());
    assert!(rt; matches!(listener.accept(), Accepted::Idle));
    let mut late = UnixStream::connect(&rt, path.as_str())?;
    let mut second = next_link(&mut listener)?;
    assert!(rt; joins(&mut second, &origin, &mut late)?);
    // The link that came over the other socket goes on, and counts among the two that may be open.
    assert!(rt; joins(&mut first, &origin, &mut early)?);
    let _third = UnixStream::connect(&rt, path.as_str())?;
    assert!(rt; matches!(listener.accept(), Accepted::Idle));
    fs::remove_file(&rt, path.as_str())?;
    Ok(())
}

#[test]
fn a_socket_without_a_place_is_closed(rt: HostRuntime) -> Result<(), Fail> {
    let path = path_of(&rt, "no-place")?;
    let origin = origin_of(rt.alloc(), b"app:web", 7)?;
    let mut listener = nowhere(&rt)?;
    listen_at(&rt, &mut listener, path.as_str(), origin.share()?, 2)?;
    let other = path_of(&rt, "no-place-either")?;
    let socket = bind(&rt, rt.alloc(), other.as_str(), OWN).map_err(|_| "bind")?;
    assert!(rt;
        listener
            .share_changes()?
            .replace(8, socket.listener)
            .is_ok()
    );
    let mut peer = UnixStream::connect(&rt, path.as_str())?;
    assert!(rt; matches!(listener.accept(), Accepted::Idle));
    assert!(rt; UnixStream::connect(&rt, other.as_str()).is_err());
    assert!(rt; joins(&mut next_link(&mut listener)?, &origin, &mut peer)?);
    fs::remove_file(&rt, path.as_str())?;
    fs::remove_file(&rt, other.as_str())?;
    Ok(())
}

/// Puts a new socket at this path into the place of number 7, and connects to it. None where it can't.
fn replace_and_call(rt: &HostRuntime, path: &str, changes: &Changes) -> Option<UnixStream> {
    fs::remove_file(rt, path).ok()?;
    let socket = bind(rt, rt.alloc(), path, OWN).ok()?;
    changes.replace(7, socket.listener).ok()?;
    UnixStream::connect(rt, path).ok()
}

/// A watched listener finds the callers of a socket that another thread put into a place.
#[test]
fn another_thread_replaces_a_watched_socket(rt: HostRuntime) -> Result<(), Fail> {
    let (path, origin) = (
        path_of(&rt, "watched")?,
        origin_of(rt.alloc(), b"app:web", 7)?,
    );
    let mut listener = nowhere(&rt)?;
    listen_at(&rt, &mut listener, path.as_str(), origin.share()?, 2)?;
    let (mut ready, bell) = RealReady::start(&rt, rt.alloc(), &listener, None)?;
    assert!(rt; matches!(listener.accept(), Accepted::Idle));
    let _ = told(rt.alloc(), &mut ready)?;
    let (changes, known) = (listener.share_changes()?, path.clone()?);
    let replacing = thread::spawn(&rt, move || {
        replace_and_call(&rt, known.as_str(), &changes)
    })?;
    let Some(mut peer) = replacing.join(&rt) else {
        return Err("no call")?;
    };
    let _ = told(rt.alloc(), &mut ready)?;
    assert!(rt; joins(&mut next_link(&mut listener)?, &origin, &mut peer)?);
    drop(bell);
    fs::remove_file(&rt, path.as_str())?;
    Ok(())
}

#[test]
fn a_socket_is_added(rt: HostRuntime) -> Result<(), Fail> {
    let (first, second) = (path_of(&rt, "first")?, path_of(&rt, "second")?);
    let origin = origin_of(rt.alloc(), b"app:late", 9)?;
    let mut listener = nowhere(&rt)?;
    let web = origin_of(rt.alloc(), b"app:web", 7)?;
    listen_at(&rt, &mut listener, first.as_str(), web.share()?, 2)?;
    let mut early = UnixStream::connect(&rt, first.as_str())?;
    let mut held = next_link(&mut listener)?;
    let changes = listener.share_changes()?;
    let socket = bind(&rt, rt.alloc(), second.as_str(), OWN).map_err(|_| "bind")?;
    let mut peer = UnixStream::connect(&rt, second.as_str())?;
    assert!(rt; changes.add(socket, origin.share()?, 1).is_ok());
    assert!(rt; joins(&mut next_link(&mut listener)?, &origin, &mut peer)?);
    assert_eq!(rt; listener.last_socket(), 9);
    // What came before goes on.
    assert!(rt; joins(&mut held, &web, &mut early)?);
    fs::remove_file(&rt, first.as_str())?;
    fs::remove_file(&rt, second.as_str())?;
    Ok(())
}

#[test]
fn a_socket_is_closed_with_its_links(rt: HostRuntime) -> Result<(), Fail> {
    let (first, second) = (path_of(&rt, "closes")?, path_of(&rt, "stays")?);
    let (closes, stays) = (
        origin_of(rt.alloc(), b"app:a", 3)?,
        origin_of(rt.alloc(), b"app:b", 4)?,
    );
    let mut listener = nowhere(&rt)?;
    listen_at(&rt, &mut listener, first.as_str(), closes.share()?, 2)?;
    listen_at(&rt, &mut listener, second.as_str(), stays.share()?, 2)?;
    let mut one = UnixStream::connect(&rt, first.as_str())?;
    let mut ending = next_link(&mut listener)?;
    let mut other = UnixStream::connect(&rt, second.as_str())?;
    let mut kept = next_link(&mut listener)?;
    let mut room = [0; 4];
    assert_eq!(rt; ending.receive(&mut room), Received::Idle);
    one.write_all(b"ab")?;
    assert!(rt; listener.share_changes()?.close(3).is_ok());
    assert!(rt; matches!(listener.accept(), Accepted::Idle));
    // Nothing is read of it any more, so that a peer that goes on sending doesn't keep it.
    assert_eq!(rt; ending.receive(&mut room), Received::End);
    assert!(rt; UnixStream::connect(&rt, first.as_str()).is_err());
    assert!(rt; joins(&mut kept, &stays, &mut other)?);
    // A socket is closed once.
    assert!(rt; listener.share_changes()?.close(3).is_ok());
    let _late = UnixStream::connect(&rt, second.as_str())?;
    let _link = next_link(&mut listener)?;
    fs::remove_file(&rt, first.as_str())?;
    fs::remove_file(&rt, second.as_str())?;
    Ok(())
}

/// A watched listener's links of a socket that another thread closed are listed.
#[test]
fn links_of_a_closed_socket_are_listed(rt: HostRuntime) -> Result<(), Fail> {
    let (path, origin) = (
        path_of(&rt, "listed")?,
        origin_of(rt.alloc(), b"app:web", 7)?,
    );
    let mut listener = nowhere(&rt)?;
    listen_at(&rt, &mut listener, path.as_str(), origin.share()?, 2)?;
    let (mut ready, bell) = RealReady::start(&rt, rt.alloc(), &listener, None)?;
    let _peer = UnixStream::connect(&rt, path.as_str())?;
    let mut link = next_link(&mut listener)?;
    ready.add(0, &mut link).map_err(|_| "watch")?;
    assert_eq!(rt; told(rt.alloc(), &mut ready)?.as_slice(), [0].as_slice());
    assert_eq!(rt; link.receive(&mut [0; 4]), Received::Idle);
    assert!(rt; listener.share_changes()?.close(7).is_ok());
    assert!(rt; matches!(listener.accept(), Accepted::Idle));
    assert_eq!(rt; told(rt.alloc(), &mut ready)?.as_slice(), [0].as_slice());
    assert_eq!(rt; link.receive(&mut [0; 4]), Received::End);
    drop(bell);
    fs::remove_file(&rt, path.as_str())?;
    Ok(())
}
