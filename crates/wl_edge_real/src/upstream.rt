//! Documents from a Unix socket.

ghost use Rattle.std.specs.Prelude.{◌≡◌, ◌++◌, ◌≤◌, None, OnOk, OnErr, IfOk, length};
ghost use Rattle.wl_edge.specs.declared.upstream.TheConstants.{MAX_PULLED};

use std::alloc::Global;
use std::io;
use std::net::Net;
use std::os::unix::net::UnixStream;
use std::rt::Clock;
use std::time::{Duration, Instant};
use timed_stream::{Spare, TimedStream, deadline_after};
use wl_edge::{EdgeFault, MAX_PULLED, ReadFault, RealSource, Upstream, read_all};
use wl_octets::{Memory, Octets};

/// How many seconds a pull may take, from connecting to the end.
pub const PULL_SECONDS: u64 = 30;

/// An upstream that connects to the Unix socket of a path at each pull, and reads to the end. It tells no content. A
/// pull that takes more than [`PULL_SECONDS`] has failed. It holds back one descriptor, which it gives up for a pull that finds none left.
#[derive(Drop)]
pub struct RealUpstream<R> {
    rt: R,
    alloc: Global,
    path: String,
    /// How long a pull may take.
    limit: Duration,
    /// What is given up for a pull that finds no descriptor.
    spare: Spare,
    faults: u64,
}

impl<R: Net + Clock + Drop> RealUpstream<R> {
    /// An upstream at this path. Nothing is opened yet, except the descriptor that is held back.
    pub fn start(rt: R, alloc: Global, path: String) -> RealUpstream<R>
        ensures untold { ⟦<RealUpstream<R> as Upstream>⟧.told result ≡ None }
        ensures fresh { ⟦<RealUpstream<R> as Upstream>⟧.faults result ≡ 0 }
    {
        RealUpstream::start_within(rt, alloc, path, Duration::from_secs(PULL_SECONDS))
    }

    /// The same, where a pull may take so long.
    pub fn start_within(rt: R, alloc: Global, path: String, limit: Duration) -> RealUpstream<R>
        ensures untold { ⟦<RealUpstream<R> as Upstream>⟧.told result ≡ None }
        ensures fresh { ⟦<RealUpstream<R> as Upstream>⟧.faults result ≡ 0 }
    {
        let spare = Spare::hold(&rt);
        RealUpstream {
            rt,
            alloc,
            path,
            limit,
            spare,
            faults: 0,
        }
    }
}

/// Connects to the socket of this path, without waiting, for a pull that takes at most so long.
fn connect_until(
    rt: &(impl Net + Clock),
    spare: &mut Spare,
    path: &str,
    limit: Duration,
) -> io::Result<(UnixStream, Instant)> {
    let deadline = deadline_after(rt, limit)?;
    Ok((spare.connect(rt, path)?, deadline))
}

/// Reads what the socket of this path gives, up to the most that a pull appends.
fn read_document<R: Net + Clock>(
    rt: &R,
    alloc: Global,
    spare: &mut Spare,
    path: &str,
    limit: Duration,
) -> Result<Vec<u8>, ReadFault>
    ensures { IfOk result (λ v. length v.items ≤ MAX_PULLED) }
{
    let Ok((stream, deadline)) = connect_until(rt, spare, path, limit) else {
        return Err(ReadFault::Failed);
    };
    let mut source = RealSource::start(TimedStream::start(rt, &stream, deadline));
    read_all(alloc, &mut source, MAX_PULLED)
}

/// Appends bytes, which are copied only where there are others before them.
pub(crate) fn append(into: &mut Octets, bytes: Vec<u8>) -> Result<(), Memory>
    ensures ok { OnOk result (into.new ≡ into.old ++ bytes.items) }
    ensures err { OnErr result (into.new ≡ into.old) }
{
    if into.len() > 0 {
        return into.push_slice(bytes.as_slice());
    }
    *into = Octets::from_vec(bytes);
    Ok(())
}

impl<R: Net + Clock + Drop> Upstream for RealUpstream<R> {
    ghost told = { λ u. None };

    ghost faults = { λ u. u.faults };

    fn pull(&mut self, into: &mut Octets) -> Result<(), EdgeFault> {
        let pulled = read_document(
            &self.rt,
            self.alloc,
            &mut self.spare,
            self.path.as_str(),
            self.limit,
        );
        self.spare.hold_again(&self.rt);
        match pulled {
            Ok(bytes) => Ok(append(into, bytes)?),
            Err(ReadFault::Memory) => Err(EdgeFault::Memory),
            Err(ReadFault::Failed) => {
                self.faults = self.faults.saturating_add(1);
                Err(EdgeFault::Failed)
            }
        }
    }
}
