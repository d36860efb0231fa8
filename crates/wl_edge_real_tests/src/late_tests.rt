//! Links whose time is over.

use crate::tests::{bound, fill, next_link, path_of, told};
use std::fs;
use std::os::unix::net::UnixStream;
use std::test::Fail;
use std::time::{Duration, Instant};
use wl_edge::{Link, Ready, Received, TrySent};
use wl_edge_real::{Lateness, Limits, LinkFailures, RealLink, RealReady};

/// What none of these tests waits for.
const LONG: u32 = 3_600;

/// For how many seconds these tests wait at most.
const PATIENCE_SECONDS: u64 = 20;

/// Whether a wait lists a link, which is the only one, within so long.
fn is_listed(
    rt: &HostRuntime,
    ready: &mut RealReady<HostRuntime>,
    limit: Duration,
) -> Result<bool, Fail> {
    let begun = Instant::now(rt)?;
    for _ in 0..1_000 {
        if told(rt.alloc(), ready)?.len() > 0 {
            return Ok(true);
        }
        if begun.elapsed(rt)? > limit {
            break;
        }
    }
    Ok(false)
}

/// A watched link that was found idle, and its peer.
struct Watching {
    ready: RealReady<HostRuntime>,
    link: RealLink,
    peer: UnixStream,
}

/// A link of a listener of its own whose watcher has these limits.
fn watch_one(rt: &HostRuntime, name: &str, limits: Limits) -> Result<Watching, Fail> {
    let path = path_of(rt, name)?;
    let mut listener = bound(rt, path.as_str())?;
    let (mut ready, bell) = RealReady::start(rt, rt.alloc(), &listener, Some(limits))?;
    let peer = UnixStream::connect(rt, path.as_str())?;
    let mut link = next_link(&mut listener)?;
    ready.add(2, &mut link).map_err(|_| "add")?;
    let _ = told(rt.alloc(), &mut ready)?;
    let _ = link.receive(&mut [0; 4]);
    fs::remove_file(rt, path.as_str())?;
    drop(bell);
    Ok(Watching { ready, link, peer })
}

#[test]
fn a_silent_link_is_given_up(rt: HostRuntime) -> Result<(), Fail> {
    let limits = Limits {
        stall_seconds: LONG,
        opening_seconds: 1,
    };
    let Watching {
        mut ready,
        mut link,
        peer,
    } = watch_one(&rt, "silent", limits)?;
    assert_eq!(rt; link.receive(&mut [0; 4]), Received::Idle);
    assert!(rt; is_listed(&rt, &mut ready, Duration::from_secs(PATIENCE_SECONDS))?);
    assert_eq!(rt; link.receive(&mut [0; 4]), Received::Failed);
    assert_eq!(rt; link.try_send(b"a"), TrySent::Failed);
    ready.remove(2, &mut link);
    assert_eq!(rt; link.lateness(), Some(Lateness::Silent));
    drop(peer);
    Ok(())
}

#[test]
fn a_link_that_had_a_call_stays(rt: HostRuntime) -> Result<(), Fail> {
    let limits = Limits {
        stall_seconds: 1,
        opening_seconds: 1,
    };
    let Watching {
        mut ready,
        mut link,
        peer,
    } = watch_one(&rt, "called", limits)?;
    link.note_call();
    assert!(rt; !is_listed(&rt, &mut ready, Duration::from_secs(3))?);
    assert_eq!(rt; link.try_send(b"a"), TrySent::Took(1));
    assert_eq!(rt; link.receive(&mut [0; 4]), Received::Idle);
    drop(peer);
    Ok(())
}

#[test]
fn a_stalled_link_is_given_up(rt: HostRuntime) -> Result<(), Fail> {
    let limits = Limits {
        stall_seconds: 1,
        opening_seconds: LONG,
    };
    let Watching {
        mut ready,
        mut link,
        peer,
    } = watch_one(&rt, "stands", limits)?;
    assert_eq!(rt; fill(&mut link), TrySent::Later);
    assert_eq!(rt; link.try_send(b"a"), TrySent::Later);
    assert!(rt; is_listed(&rt, &mut ready, Duration::from_secs(PATIENCE_SECONDS))?);
    assert_eq!(rt; link.try_send(b"a"), TrySent::Failed);
    assert_eq!(rt; link.lateness(), Some(Lateness::Stalled));
    drop(peer);
    Ok(())
}
