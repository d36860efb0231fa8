//! Peers that read slowly, send slowly, do not accept, close and reset.

use crate::tests::path_of;
use std::alloc::{AllocError, AllocGlobal, Global};
use std::io::{Read, Write};
use std::net::Net;
use std::os::fd::{AsRawFd, OwnedFd};
use std::os::unix::net::{UnixListener, UnixStream};
use std::rt::Clock;
use std::test::Fail;
use std::time::{Duration, Instant};
use std::{fs, io, thread};
use timed_stream::Spare;
use wl_edge::{EdgeFault, Link, Origin, Received, Sent, TrySent, Upstream};
use wl_edge_real::{DialedLink, RealLink, RealUpstream};
use wl_octets::Octets;

/// How many milliseconds the pulls of these tests take at most.
const SHORT: u64 = 200;

/// How much later than its deadline a pull may end on a busy machine, in milliseconds.
const SLACK: u64 = 5_000;

/// How many descriptors a test takes at most.
const MANY: u32 = 100_000;

/// More bytes than a socket takes at once. None repeats within 251 places.
fn long_text(alloc: Global) -> Result<Vec<u8>, AllocError> {
    let mut text = Vec::new(alloc);
    for place in 0..1_000_000u32 {
        text.push((place % 251) as u8)?;
    }
    Ok(text)
}

/// Appends what a peer finds when it looks once.
fn read_some(peer: &mut UnixStream, into: &mut Vec<u8>) -> Result<(), Fail> {
    let mut room = [0; 5_000];
    if let Ok(count) = peer.read(&mut room)
        && let Some(piece) = room.get(..count)
    {
        into.extend_from_slice(piece)?;
    }
    Ok(())
}

/// Sends a text by `try_send` to a peer that reads a little whenever a sending is put off: how often one was, and how
/// often less was taken than was offered.
fn send_slowly(
    link: &mut RealLink,
    peer: &mut UnixStream,
    text: &[u8],
    into: &mut Vec<u8>,
) -> Result<(usize, usize), Fail> {
    let (mut rest, mut stalls, mut short) = (text, 0usize, 0usize);
    for _ in 0..10_000 {
        if rest.is_empty() {
            break;
        }
        match link.try_send(rest) {
            TrySent::Took(count) => {
                short = short.saturating_add(usize::from(count < rest.len()));
                rest = rest.get(count..).ok_or("count")?;
            }
            TrySent::Later => {
                stalls = stalls.saturating_add(1);
                read_some(peer, into)?;
            }
            TrySent::Failed => Err("sending")?,
        }
    }
    Ok((stalls, short))
}

#[test]
fn a_slow_reader_gets_each_byte_once(rt: HostRuntime) -> Result<(), Fail> {
    let (near, mut far) = UnixStream::pair(&rt)?;
    let origin = Origin::nowhere(rt.alloc())?;
    let mut link = RealLink::start(origin, near)?;
    far.set_nonblocking(true)?;
    let text = long_text(rt.alloc())?;
    let mut came = Vec::new(rt.alloc());
    let (stalls, short) = send_slowly(&mut link, &mut far, text.as_slice(), &mut came)?;
    drop(link);
    for _ in 0..1_000 {
        read_some(&mut far, &mut came)?;
    }
    assert!(rt; stalls > 0 && short > 0);
    assert!(rt; came.as_slice() == text.as_slice());
    Ok(())
}

/// A link to this path that has sent one byte.
fn dialed(rt: &HostRuntime, path: &str) -> Result<DialedLink<HostRuntime>, Fail> {
    let mut link = DialedLink::start(*rt, rt.alloc(), String::from_str(rt.alloc(), path)?)?;
    match link.send(b"a") {
        Sent::Took(1) => Ok(link),
        _ => Err("dial")?,
    }
}

#[test]
fn a_dialed_link_whose_peer_closes_and_resets(rt: HostRuntime) -> Result<(), Fail> {
    let path = path_of(&rt, "closes")?;
    let listener = UnixListener::bind(&rt, path.as_str())?;
    let mut room = [0; 8];

    // A peer that has read all closes: the end, however often one looks.
    let mut link = dialed(&rt, path.as_str())?;
    let (mut peer, _) = listener.accept()?;
    assert_eq!(rt; link.receive(&mut room), Received::Idle);
    assert_eq!(rt; peer.read(&mut room)?, 1);
    drop(peer);
    assert_eq!(rt; link.receive(&mut room), Received::End);
    assert_eq!(rt; link.receive(&mut room), Received::End);

    // A socket that is closed over bytes that nobody read resets.
    let mut link = dialed(&rt, path.as_str())?;
    let (peer, _) = listener.accept()?;
    drop(peer);
    assert_eq!(rt; link.receive(&mut room), Received::Failed);
    fs::remove_file(&rt, path.as_str())?;
    Ok(())
}

/// Connects until the backlog of a listener that has room for few is full.
fn fill_backlog(rt: &HostRuntime, path: &str, waiting: &mut Vec<UnixStream>) -> Result<(), Fail> {
    for _ in 0..4 {
        match timed_stream::connect(rt, path) {
            Ok(stream) => waiting.push(stream)?,
            Err(_) => return Ok(()),
        }
    }
    Err("backlog")?
}

#[test]
fn a_full_backlog_is_a_fault_at_once(rt: HostRuntime) -> Result<(), Fail> {
    let path = path_of(&rt, "backlog")?;
    let listener = UnixListener::bind(&rt, path.as_str())?;
    assert_eq!(rt; libc::net::listen(listener.as_raw_fd(), 0), 0);
    let mut waiting = Vec::new(rt.alloc());
    fill_backlog(&rt, path.as_str(), &mut waiting)?;
    let begun = Instant::now(&rt)?;
    let mut link = DialedLink::start(rt, rt.alloc(), String::from_str(rt.alloc(), path.as_str())?)?;
    assert_eq!(rt; link.send(b"a"), Sent::Failed);
    let mut upstream = RealUpstream::start(
        rt,
        rt.alloc(),
        String::from_str(rt.alloc(), path.as_str())?,
    );
    let mut into = Octets::empty(rt.alloc());
    assert_eq!(rt; upstream.pull(&mut into), Err(EdgeFault::Failed));
    assert!(rt; begun.elapsed(&rt)? < Duration::from_millis(SLACK));
    fs::remove_file(&rt, path.as_str())?;
    Ok(())
}

/// Takes descriptors until none is left. None where the process may have more than a test should take.
fn take_all(rt: &impl Net, alloc: Global) -> Result<Option<Vec<OwnedFd>>, Fail> {
    let mut taken = Vec::new(alloc);
    for _ in 0..MANY {
        match rt.unix_socket() {
            Ok(socket) => taken.push(socket)?,
            Err(_) => return Ok(Some(taken)),
        }
    }
    Ok(None)
}

#[test]
fn an_exchange_has_a_descriptor_of_its_own(rt: HostRuntime) -> Result<(), Fail> {
    let path = path_of(&rt, "spare")?;
    let _listener = UnixListener::bind(&rt, path.as_str())?;
    let mut spare = Spare::hold(&rt);
    let Some(taken) = take_all(&rt, rt.alloc())? else {
        return Ok(());
    };
    let refused = timed_stream::connect(&rt, path.as_str()).is_err();
    let first = spare.connect(&rt, path.as_str()).is_ok();
    spare.hold_again(&rt);
    let refused_again = timed_stream::connect(&rt, path.as_str()).is_err();
    let second = spare.connect(&rt, path.as_str()).is_ok();
    drop(taken);
    fs::remove_file(&rt, path.as_str())?;
    assert_eq!(rt; [refused, first, refused_again, second], [true; 4]);
    Ok(())
}

/// Answers one connection by a byte every few milliseconds, until it is gone.
fn drip(rt: &impl Clock, listener: &UnixListener) -> io::Result<()> {
    let (mut peer, _) = listener.accept()?;
    for _ in 0..10_000 {
        if peer.write_all(b" ").is_err() {
            return Ok(());
        }
        thread::sleep(rt, Duration::from_millis(10));
    }
    Err(io::Error::from(io::ErrorKind::TimedOut))
}

#[test]
fn an_upstream_that_drips_has_failed(rt: HostRuntime) -> Result<(), Fail> {
    let path = path_of(&rt, "drips")?;
    let listener = UnixListener::bind(&rt, path.as_str())?;
    let limit = Duration::from_millis(SHORT);
    let text = String::from_str(rt.alloc(), path.as_str())?;
    let mut upstream = RealUpstream::start_within(rt, rt.alloc(), text, limit);
    let mut into = Octets::from_slice(rt.alloc(), b"a")?;
    let begun = Instant::now(&rt)?;
    let (served, answer) = thread::join(
        &rt,
        || drip(&rt, &listener).is_ok(),
        || upstream.pull(&mut into),
    );
    let took = begun.elapsed(&rt)?;
    assert!(rt; served && answer == Err(EdgeFault::Failed) && into.as_slice() == b"a".as_slice());
    assert!(rt; took >= limit && took < Duration::from_millis(SHORT + SLACK));
    fs::remove_file(&rt, path.as_str())?;
    Ok(())
}
