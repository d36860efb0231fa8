//! A listener over many sockets.

ghost use Rattle.std.specs.Prelude.{◌≡◌, [], Some, IfOk};
ghost use Rattle.wl_edge.specs.Listeners.{HasOpenLink};

use crate::tests::{OWN, accepted, listen_at, next_link, nowhere, path_of, told};
use std::alloc::{AllocGlobal, Global};
use std::fs;
use std::io::{Read, Write};
use std::os::unix::net::UnixStream;
use std::sync::Arc;
use std::test::Fail;
use std::time::{Duration, Instant};
use wl_edge::{Accepted, Link, Listener, Origin, Ready, Received};
use wl_edge_real::{OpenLinks, RealLink, RealListener, RealReady, bind};
use wl_selector::{Selector, Selectors};

/// How many milliseconds 1,000 sockets may take on a busy machine.
const BINDING: u64 = 10_000;

/// The origin of a socket of this number, which has this selector.
pub(crate) fn origin_of(alloc: Global, selector: &[u8], number: u32) -> Result<Origin, Fail> {
    let mut items = Vec::new(alloc);
    items.push(Selector::parse(alloc, selector).map_err(|_| "selector")?)?;
    let selectors = Selectors::from_list(alloc, items, 1).map_err(|_| "selectors")?;
    Ok(Origin::new(alloc, selectors, number, None)?)
}

/// Whether a link has this origin, and gives what this peer sends.
pub(crate) fn joins(
    link: &mut RealLink,
    origin: &Origin,
    peer: &mut UnixStream,
) -> Result<bool, Fail> {
    let mut room = [0; 8];
    peer.write_all(b"abc")?;
    Ok(link.origin() == origin && link.receive(&mut room) == Received::Got(3))
}

#[test]
fn each_link_has_the_origin_of_its_own_socket(rt: HostRuntime) -> Result<(), Fail> {
    let alloc = rt.alloc();
    let (one, two) = (path_of(&rt, "first")?, path_of(&rt, "second")?);
    let web = origin_of(alloc, b"app:web", 7)?;
    let shop = origin_of(alloc, b"app:shop", 3)?;
    let mut listener = nowhere(&rt)?;
    listen_at(&rt, &mut listener, one.as_str(), web.share()?, 2)?;
    let (mut ready, _bell) = RealReady::start(&rt, alloc, &listener, None)?;
    // A socket that is added later is watched, too.
    listen_at(&rt, &mut listener, two.as_str(), shop.share()?, 2)?;
    assert!(rt; matches!(listener.accept(), Accepted::Idle));
    let mut shopper = UnixStream::connect(&rt, two.as_str())?;
    assert_eq!(rt; told(alloc, &mut ready)?.len(), 0);
    assert!(rt; joins(&mut next_link(&mut listener)?, &shop, &mut shopper)?);
    let mut visitor = UnixStream::connect(&rt, one.as_str())?;
    assert_eq!(rt; told(alloc, &mut ready)?.len(), 0);
    assert!(rt; joins(&mut next_link(&mut listener)?, &web, &mut visitor)?);
    assert!(rt; matches!(listener.accept(), Accepted::Idle));
    fs::remove_file(&rt, one.as_str())?;
    fs::remove_file(&rt, two.as_str())?;
    Ok(())
}

/// The next answer of a listener that has an open link, and still has it.
fn accept_again(listener: &mut RealListener) -> Accepted<RealLink>
    requires { HasOpenLink (⟦<RealListener as Listener>⟧.told listener.old) }
    ensures { HasOpenLink (⟦<RealListener as Listener>⟧.told listener.new) }
{
    listener.accept()
}

/// Ends the first link of a socket that may have two, of which the second is open too: whether its third caller is served then,
/// and not before.
fn serves_the_third(listener: &mut RealListener) -> Result<bool, Fail>
    requires { ⟦<RealListener as Listener>⟧.told listener.old ≡ Some (record { kinds = []; finished = [] }) }
{
    let first = accepted(listener)?;
    let second = accept_again(listener);
    let waits = matches!(accept_again(listener), Accepted::Idle);
    listener.finish(first);
    let mut third = next_link(listener)?;
    let got = third.receive(&mut [0; 4]);
    let served = matches!(second, Accepted::Link(_));
    Ok(served && waits && got == Received::Got(1))
}

#[test]
fn a_full_socket_has_its_callers_wait(rt: HostRuntime) -> Result<(), Fail> {
    let path = path_of(&rt, "full")?;
    let mut listener = nowhere(&rt)?;
    listen_at(
        &rt,
        &mut listener,
        path.as_str(),
        Origin::nowhere(rt.alloc())?,
        2,
    )?;
    let (_ready, _bell) = RealReady::start(&rt, rt.alloc(), &listener, None)?;
    let _first = UnixStream::connect(&rt, path.as_str())?;
    let _second = UnixStream::connect(&rt, path.as_str())?;
    let mut third = UnixStream::connect(&rt, path.as_str())?;
    third.write_all(b"c")?;
    assert!(rt; serves_the_third(&mut listener)?);
    fs::remove_file(&rt, path.as_str())?;
    Ok(())
}

/// The numbers of the sockets of the next links.
fn next_sockets<const N: usize>(
    listener: &mut RealListener,
    links: &mut Vec<RealLink>,
) -> Result<[u32; N], Fail> {
    let mut numbers = [0; N];
    for number in numbers.iter_mut() {
        let link = next_link(listener)?;
        *number = link.origin().socket;
        links.push(link)?;
    }
    Ok(numbers)
}

/// Listens at a socket of the number 0 and one of the number 1.
fn listen_at_two(
    rt: &HostRuntime,
    listener: &mut RealListener,
    busy: &str,
    calm: &str,
) -> Result<(), Fail> {
    let alloc = rt.alloc();
    listen_at(rt, listener, busy, origin_of(alloc, b"app:busy", 0)?, 64)?;
    listen_at(rt, listener, calm, origin_of(alloc, b"app:calm", 1)?, 64)?;
    Ok(())
}

/// So many callers of the first of these sockets, and one of the second.
fn callers_of(
    rt: &HostRuntime,
    count: u32,
    busy: &str,
    calm: &str,
) -> Result<Vec<UnixStream>, Fail> {
    let mut peers = Vec::new(rt.alloc());
    for _ in 0..count {
        peers.push(UnixStream::connect(rt, busy)?)?;
    }
    peers.push(UnixStream::connect(rt, calm)?)?;
    Ok(peers)
}

#[test]
fn a_busy_socket_does_not_starve_another(rt: HostRuntime) -> Result<(), Fail> {
    let alloc = rt.alloc();
    let (busy, calm) = (path_of(&rt, "busy")?, path_of(&rt, "calm")?);
    let mut listener = nowhere(&rt)?;
    listen_at_two(&rt, &mut listener, busy.as_str(), calm.as_str())?;
    let _peers = callers_of(&rt, 20, busy.as_str(), calm.as_str())?;
    let mut links = Vec::new(alloc);
    let numbers: [u32; 4] = next_sockets(&mut listener, &mut links)?;
    assert!(rt; numbers.contains(&1));
    fs::remove_file(&rt, busy.as_str())?;
    fs::remove_file(&rt, calm.as_str())?;
    Ok(())
}

#[test]
fn a_wait_lists_a_link_of_each_socket(rt: HostRuntime) -> Result<(), Fail> {
    let alloc = rt.alloc();
    let (busy, calm) = (path_of(&rt, "turns_busy")?, path_of(&rt, "turns_calm")?);
    let mut listener = nowhere(&rt)?;
    listen_at_two(&rt, &mut listener, busy.as_str(), calm.as_str())?;
    let _peers = callers_of(&rt, 8, busy.as_str(), calm.as_str())?;
    let mut links = Vec::new(alloc);
    let sockets: [u32; 9] = next_sockets(&mut listener, &mut links)?;
    let (mut ready, _bell) = RealReady::start(&rt, alloc, &listener, None)?;
    let mut number: u32 = 0;
    for link in links.iter_mut() {
        assert_eq!(rt; ready.add(number, link), Ok(()));
        number = number.saturating_add(1);
    }
    // All nine are due.
    let listed = told(alloc, &mut ready)?;
    assert_eq!(rt; listed.len(), 2);
    let calm_one = sockets.iter().position(|socket| *socket == 1);
    let lists_calm = listed
        .as_slice()
        .iter()
        .any(|number| Some(*number as usize) == calm_one);
    assert!(rt; lists_calm);
    fs::remove_file(&rt, busy.as_str())?;
    fs::remove_file(&rt, calm.as_str())?;
    Ok(())
}

#[test]
fn one_link_too_many_is_closed_at_once(rt: HostRuntime) -> Result<(), Fail> {
    let alloc = rt.alloc();
    let path = path_of(&rt, "many")?;
    let all = OpenLinks::share(alloc, 1)?;
    let mut listener = RealListener::start(&rt, alloc, Arc::try_clone(&all)?)?;
    listen_at(
        &rt,
        &mut listener,
        path.as_str(),
        Origin::nowhere(alloc)?,
        8,
    )?;
    let _first = UnixStream::connect(&rt, path.as_str())?;
    let link = next_link(&mut listener)?;
    let mut second = UnixStream::connect(&rt, path.as_str())?;
    assert!(rt; matches!(listener.accept(), Accepted::Idle));
    assert_eq!(rt; second.read(&mut [0; 4])?, 0);
    assert_eq!(rt; (all.open(), all.refused()), (1, 1));
    drop(link);
    assert_eq!(rt; all.open(), 0);
    let _third = UnixStream::connect(&rt, path.as_str())?;
    let _link = next_link(&mut listener)?;
    fs::remove_file(&rt, path.as_str())?;
    Ok(())
}

#[test]
fn a_thousand_sockets_are_bound(rt: HostRuntime) -> Result<(), Fail> {
    let alloc = rt.alloc();
    let folder = path_of(&rt, "thousand")?;
    fs::create_dir(&rt, folder.as_str())?;
    let mut listener = nowhere(&rt)?;
    let begun = Instant::now(&rt)?;
    for number in 0..1_000u32 {
        let path = format!(in alloc; "{folder}/{number}.sock")?;
        let socket = bind(&rt, alloc, path.as_str(), OWN).map_err(|_| "bind")?;
        listener.add(socket, origin_of(alloc, b"app:web", number)?, 1)?;
    }
    assert!(rt; begun.elapsed(&rt)? < Duration::from_millis(BINDING));
    let path = format!(in alloc; "{folder}/999.sock")?;
    let mut peer = UnixStream::connect(&rt, path.as_str())?;
    let origin = origin_of(alloc, b"app:web", 999)?;
    assert!(rt; joins(&mut next_link(&mut listener)?, &origin, &mut peer)?);
    fs::remove_dir_all(&rt, folder.as_str())?;
    Ok(())
}
