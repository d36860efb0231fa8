//! Waiting for links with the operating system's poll.

ghost use Rattle.std.specs.Prelude.{◌≡◌, IfOk, IfErr};
ghost use Rattle.list_laws.specs.Lists.{BeginsWith};

use crate::arrivals::Arrivals;
use crate::bell::RealBell;
use crate::limits::{Limits, has_passed};
use crate::link::RealLink;
use crate::listener::RealListener;
use crate::stop::{Stop, is_asked};
use crate::watch::Watch;
use crate::watched::{Table, Watched, interest};
use mio::unix::SourceFd;
use mio::{Events, Interest, Poll, Token, Waker};
use std::alloc::Global;
use std::io;
use std::net::Net;
use std::os::fd::RawFd;
use std::rt::Clock;
use std::sync::Arc;
use std::time::{Duration, Instant};
use wl_edge::{EdgeFault, Link, Ready};
use wl_octets::Row;

/// The listener's token, which isn't a number of a link.
const LISTENER: Token = Token(usize::MAX);

/// The bell's token, which isn't a number of a link.
const BELL: Token = Token(usize::MAX - 1);

/// How many seconds a wait takes at most.
const SHORT_WHILE_SECONDS: u64 = 1;

/// How many seconds pass between two looks at all links.
const LOOK_SECONDS: u32 = 1;

/// How many events a wait takes at most; others are left for the next one.
const EVENTS: usize = 256;

/// What a watcher has beside its count.
#[derive(Drop)]
struct Watcher<R> {
    rt: R,
    alloc: Global,
    poll: Poll,
    events: Events<Global>,
    table: Table,
    /// What the listener shares.
    arrivals: Arc<Arrivals>,
    /// What has the listener and its links end.
    stop: Option<Arc<Stop>>,
    limits: Option<Limits>,
    /// When all links were looked at last.
    looked: Option<Instant>,
    /// Whether the bell rang since all links were listed.
    rung: bool,
}

/// Watches the links of a seat and its listener. It tells no content.
///
/// A link is due at its first wait, when the poll reports a change of it, as long as its last receive filled the whole buffer, and
/// when its time is over. A wait lists one due link of each socket, or two where one socket alone has any; the others stay due. After a
/// ring, and from a stop on, all links are listed. It has a place for each number up to the largest, so numbers
/// should be small.
#[derive(Drop)]
pub struct RealReady<R> {
    watcher: Watcher<R>,
    faults: u64,
}

impl<R: Net + Clock + Clone + Drop> RealReady<R> {
    /// A watcher of no links yet, with its bell. A wait ends also where a peer connects to the listener, and then
    /// appends nothing for that. After the listener's stop was asked for each wait appends all. A link that stands still for
    /// longer than its limits fails at its next call; where there are none it may for ever.
    pub fn start(
        rt: &R,
        alloc: Global,
        listener: &RealListener,
        limits: Option<Limits>,
    ) -> io::Result<(RealReady<R>, RealBell)>
        ensures fresh { IfOk result (λ pair. ⟦<RealReady<R> as Ready<RealLink>>⟧.faults pair.0 ≡ 0) }
    {
        let poll = Poll::new(rt)?;
        let sockets = listener.descriptor();
        poll.registry()
            .register(&mut SourceFd(&sockets), LISTENER, Interest::READABLE)?;
        let bell = RealBell::start(Waker::new(poll.registry(), BELL)?);
        let arrivals = listener.share_arrivals()?;
        arrivals.watch();
        let watcher = Watcher {
            rt: rt.clone()?,
            alloc,
            poll,
            events: Events::with_capacity(alloc, EVENTS)?,
            table: Table::start(alloc),
            arrivals,
            stop: listener.share_stop()?,
            limits,
            looked: None,
            rung: false,
        };
        let ready = RealReady { watcher, faults: 0 };
        Ok((ready, bell))
    }
}

impl<R: Clock + Drop> Watcher<R> {
    /// The time, where the system gives one.
    fn now(&self) -> Option<Instant> {
        Instant::now(&self.rt).ok()
    }

    /// Watches a link that came over the socket of the number `from`. None where there is no memory.
    fn insert(&mut self, number: u32, from: u32, socket: RawFd) -> Option<Arc<Watch>> {
        let watch = Arc::new(self.alloc, Watch::start()).ok()?;
        let shared = Arc::try_clone(&watch).ok()?;
        let link = Watched {
            number,
            from,
            socket,
            watch,
            came: self.now(),
            stands_since: None,
            is_due: false,
            tells_of_room: false,
        };
        self.table.insert(link).ok()?;
        Some(shared)
    }

    /// Has the poll report changes of this socket.
    fn register(&self, number: u32, socket: RawFd) -> io::Result<()> {
        let token = Token(number as usize);
        self.poll
            .registry()
            .register(&mut SourceFd(&socket), token, interest(false))
    }

    /// Once a second looks at all links.
    fn look_over(&mut self, now: Instant) -> io::Result<()> {
        if self.looked.is_some() && !has_passed(LOOK_SECONDS, self.looked, now) {
            return Ok(());
        }
        self.looked = Some(now);
        self.table.look_over(self.poll.registry(), self.limits, now)
    }

    /// Notes what came of the links' rounds, and says how long the poll may wait.
    fn prepare(&mut self) -> io::Result<Duration> {
        let now = self.now();
        self.table.follow(self.poll.registry(), now)?;
        if let Some(now) = now {
            self.look_over(now)?;
        }
        let hurries = self.arrivals.take_hurry();
        if hurries || self.rung || self.table.has_due() {
            return Ok(Duration::ZERO);
        }
        Ok(Duration::from_secs(SHORT_WHILE_SECONDS))
    }

    /// Waits until the poll reports something, and notes what.
    fn look(&mut self) -> io::Result<()> {
        let most = self.prepare()?;
        self.poll.poll(&mut self.events, Some(most))?;
        for event in self.events.iter() {
            match event.token() {
                BELL => self.rung = true,
                LISTENER => self.arrivals.note(),
                Token(number) => self.table.note_change(number, event.is_read_closed()),
            }
        }
        Ok(())
    }

    /// Appends the numbers of the links that may be ready.
    fn list(&mut self, into: &mut Row<u32>) -> Result<(), EdgeFault>
        ensures kept { BeginsWith into.new into.old }
        ensures fault { IfErr result (λ e. e ≡ EdgeFault.Memory) }
    {
        let all = self.arrivals.take_all() || self.rung || is_asked(&self.stop);
        self.table.list(all, into)?;
        self.rung = false;
        Ok(())
    }
}

impl<R: Clock + Drop> Ready<RealLink> for RealReady<R> {
    ghost faults = { λ r. r.faults };

    fn add(&mut self, number: u32, link: &mut RealLink) -> Result<(), EdgeFault> {
        let socket = link.descriptor();
        let Some(shared) = self.watcher.insert(number, link.origin().socket, socket) else {
            return Err(EdgeFault::Memory);
        };
        if self.watcher.register(number, socket).is_err() {
            self.watcher.table.remove(number);
            self.faults = self.faults.saturating_add(1);
            return Err(EdgeFault::Failed);
        }
        link.share(Some(shared));
        Ok(())
    }

    fn remove(&mut self, number: u32, link: &mut RealLink) {
        let socket = link.descriptor();
        if self
            .watcher
            .poll
            .registry()
            .deregister(&mut SourceFd(&socket))
            .is_err()
        {
            self.faults = self.faults.saturating_add(1);
        }
        link.share(None);
        self.watcher.table.remove(number);
    }

    fn wait(&mut self, into: &mut Row<u32>) -> Result<(), EdgeFault> {
        if self.watcher.look().is_err() {
            self.faults = self.faults.saturating_add(1);
            return Err(EdgeFault::Failed);
        }
        self.watcher.list(into)
    }
}
