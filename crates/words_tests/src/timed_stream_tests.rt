//! Deadlines, and streams whose peers are slow.

use std::alloc::AllocGlobal;
use std::io::{ErrorKind, Read, Write};
use std::os::fd::AsRawFd;
use std::os::unix::net::{UnixListener, UnixStream};
use std::rt::Clock;
use std::test::Fail;
use std::thread::{join, sleep};
use std::time::{Duration, Instant};
use std::{env, fs, io, process};
use timed_stream::{TimedStream, connect, deadline_after, time_left};

/// How many milliseconds the exchanges of these tests take at most.
const SHORT: u64 = 200;

/// How much later than its deadline an exchange may end on a busy machine, in milliseconds.
const SLACK: u64 = 5_000;

#[test]
fn time_left_until_a_deadline(rt: HostRuntime) -> Result<(), Fail> {
    let now = Instant::now(&rt)?;
    let later = now.checked_add(Duration::from_millis(3)).ok_or("time")?;
    assert_eq!(rt; time_left(later, now), Some(Duration::from_millis(3)));
    assert_eq!(rt; time_left(now, now), None);
    assert_eq!(rt; time_left(now, later), None);
    Ok(())
}

/// A path of this test's own at which nothing stands.
fn path_of(rt: &HostRuntime, name: &str) -> Result<String, Fail> {
    let directory = env::temp_dir(rt)?;
    let file = format!(in rt.alloc(); "timed-{}-{name}", process::id(rt.process()))?;
    let path = directory.join(rt.alloc(), file.as_str())?;
    let path = String::from_str(rt.alloc(), path.as_path().as_str())?;
    let _ = fs::remove_file(rt, path.as_str());
    Ok(path)
}

/// With what kind of fault connecting to this path ends; none where it is connected.
fn refusal(rt: &HostRuntime, path: &str) -> Option<ErrorKind> {
    match connect(rt, path) {
        Ok(_) => None,
        Err(error) => Some(error.kind()),
    }
}

#[test]
fn connecting_where_nobody_listens(rt: HostRuntime) -> Result<(), Fail> {
    let path = path_of(&rt, "gone")?;
    assert_eq!(rt; refusal(&rt, path.as_str()), Some(ErrorKind::NotFound));
    drop(UnixListener::bind(&rt, path.as_str())?);
    assert_eq!(rt;
        refusal(&rt, path.as_str()),
        Some(ErrorKind::ConnectionRefused)
    );
    fs::remove_file(&rt, path.as_str())?;
    Ok(())
}

/// With what kind of fault connecting ends once nobody accepts and the backlog is full, within so many tries.
fn full_refusal(
    rt: &HostRuntime,
    path: &str,
    waiting: &mut Vec<UnixStream>,
) -> Result<Option<ErrorKind>, Fail> {
    for _ in 0..4 {
        match connect(rt, path) {
            Ok(stream) => waiting.push(stream)?,
            Err(error) => return Ok(Some(error.kind())),
        }
    }
    Ok(None)
}

#[test]
fn a_full_backlog_is_a_fault_at_once(rt: HostRuntime) -> Result<(), Fail> {
    let path = path_of(&rt, "full")?;
    let listener = UnixListener::bind(&rt, path.as_str())?;
    assert_eq!(rt; libc::net::listen(listener.as_raw_fd(), 0), 0);
    let mut waiting = Vec::new(rt.alloc());
    let begun = Instant::now(&rt)?;
    let fault = full_refusal(&rt, path.as_str(), &mut waiting)?;
    assert_eq!(rt; fault, Some(ErrorKind::WouldBlock));
    assert!(rt; !waiting.is_empty() && begun.elapsed(&rt)? < Duration::from_millis(SLACK));
    fs::remove_file(&rt, path.as_str())?;
    Ok(())
}

/// Reads until a fault or the end: how many bytes came, and the kind of the fault.
fn read_on(stream: &mut impl Read) -> (usize, Option<ErrorKind>) {
    let mut room = [0u8; 16];
    let mut count: usize = 0;
    for _ in 0..100_000 {
        match stream.read(&mut room) {
            Ok(0) => return (count, None),
            Ok(more) => count = count.saturating_add(more),
            Err(error) => return (count, Some(error.kind())),
        }
    }
    (count, None)
}

/// Writes pieces until a fault, whose kind it is.
fn write_on(stream: &mut impl Write) -> Option<ErrorKind> {
    let piece = [1u8; 65_536];
    for _ in 0..10_000 {
        if let Err(error) = stream.write(&piece) {
            return Some(error.kind());
        }
    }
    None
}

/// Whether a fault is that of a time that is over.
fn is_late(fault: Option<ErrorKind>) -> bool {
    matches!(fault, Some(ErrorKind::WouldBlock | ErrorKind::TimedOut))
}

/// Whether the time since then is that of a deadline that was kept.
fn is_in_time(rt: &impl Clock, begun: Instant) -> io::Result<bool> {
    let took = begun.elapsed(rt)?;
    Ok(took >= Duration::from_millis(SHORT) && took < Duration::from_millis(SHORT + SLACK))
}

/// Sends a byte every few milliseconds until the peer is gone.
fn drip(rt: &impl Clock, peer: UnixStream) {
    let mut peer = peer;
    for _ in 0..10_000 {
        if peer.write_all(b".").is_err() {
            return;
        }
        sleep(rt, Duration::from_millis(10));
    }
}

#[test]
fn a_peer_that_drips(rt: HostRuntime) -> Result<(), Fail> {
    let (near, far) = UnixStream::pair(&rt)?;
    let begun = Instant::now(&rt)?;
    let deadline = deadline_after(&rt, Duration::from_millis(SHORT))?;
    let ((), (count, fault)) = join(
        &rt,
        move || drip(&rt, far),
        move || read_on(&mut TimedStream::start(&rt, &near, deadline)),
    );
    assert!(rt; count > 1 && is_late(fault) && is_in_time(&rt, begun)?);
    Ok(())
}

#[test]
fn peers_that_are_silent(rt: HostRuntime) -> Result<(), Fail> {
    let (near, _far) = UnixStream::pair(&rt)?;
    let begun = Instant::now(&rt)?;
    let deadline = deadline_after(&rt, Duration::from_millis(SHORT))?;
    let mut stream = TimedStream::start(&rt, &near, deadline);
    assert!(rt; is_late(write_on(&mut stream)) && is_in_time(&rt, begun)?);
    let (count, fault) = read_on(&mut stream);
    assert_eq!(rt; (count, fault), (0, Some(ErrorKind::TimedOut)));
    Ok(())
}

#[test]
fn a_peer_in_time(rt: HostRuntime) -> Result<(), Fail> {
    let (near, mut far) = UnixStream::pair(&rt)?;
    let deadline = deadline_after(&rt, Duration::from_secs(60))?;
    let mut stream = TimedStream::start(&rt, &near, deadline);
    far.write_all(b"abc")?;
    stream.write_all(b"de")?;
    stream.flush()?;
    let mut room = [0u8; 2];
    far.read_exact(&mut room)?;
    drop(far);
    assert!(rt; read_on(&mut stream) == (3, None) && room == *b"de");
    Ok(())
}
