//! Many peers on one thread.

pub use crate::peer::PATIENCE_SECONDS;
use crate::peer::Peer;
use figures::Shows;
use http_server::{Config, Connection};
use http1::Limits;
use status_pages::Pages;
use std::alloc::Global;
use std::hash::RandomState;
use std::net::Net;
use std::random::RandomSource;
use std::rt::Clock;
use std::sync::Arc;
use std::time::{Duration, Instant};
use std::{io, thread};
use wl_edge::{Accepted, Listener, Ready};
use wl_edge_real::{RealBell, RealListener, RealReady, Stop};
use wl_octets::{Memory, Row};

/// How many peers are served at once. Others wait in the socket's backlog.
pub const MAX_PEERS: usize = 16;

/// The largest number of a peer.
const MAX_NUMBER: u32 = MAX_PEERS as u32;

/// The most bytes of a request's head.
const MAX_HEAD: usize = 4_096;

/// How long the server rests after a round that failed.
const REST_SECONDS: u64 = 1;

/// The server of the pages.
#[derive(Drop)]
pub struct Server<S, W> {
    alloc: Global,
    listener: RealListener,
    ready: RealReady<W>,
    /// Kept, so that the poll keeps its waker.
    bell: RealBell,
    shown: Arc<S>,
    /// What a request for a stop asks. Where there is none, `/stop` is no page.
    stop: Option<Arc<Stop>>,
    peers: Vec<Peer>,
}

/// What a connection takes: a head of `MAX_HEAD` bytes and no body.
fn config() -> Config {
    Config {
        limits: Limits {
            max_head_len: MAX_HEAD,
            max_extensions_len: MAX_HEAD,
            max_trailers_len: MAX_HEAD,
        },
        max_body_len: 0,
        max_pending: MAX_HEAD,
        read_size: MAX_HEAD,
    }
}

impl<S: Shows + Drop, W: Net + Clock + Clone + Drop> Server<S, W> {
    /// A server at this listener, which shows this, and asks for this stop where there is one. It doesn't end with it.
    pub fn start(
        rt: &W,
        alloc: Global,
        listener: RealListener,
        shown: Arc<S>,
        stop: Option<Arc<Stop>>,
    ) -> io::Result<Server<S, W>> {
        // Its peers have a patience of their own.
        let (ready, bell) = RealReady::start(rt, alloc, &listener, None)?;
        Ok(Server {
            alloc,
            listener,
            ready,
            bell,
            shown,
            stop,
            peers: Vec::new(alloc),
        })
    }

    /// The smallest number that no peer has.
    fn free_number(&self) -> u32 {
        for number in 0..MAX_NUMBER {
            if !self.peers.iter().any(|peer| peer.number == number) {
                return number;
            }
        }
        MAX_NUMBER
    }

    /// Takes one peer. False where none is there, or it could not be taken.
    fn take_peer<R: RandomSource + Clock>(&mut self, rt: &R, now: Instant) -> bool {
        let Accepted::Link(mut link) = self.listener.accept() else {
            return false;
        };
        let number = self.free_number();
        let Ok(keys) = RandomState::new(rt) else {
            return false;
        };
        if self.ready.add(number, &mut link).is_err() {
            return false;
        }
        let connection = Connection::new(self.alloc, keys, config());
        self.peers
            .push(Peer::start(link, connection, number, now))
            .is_ok()
    }

    /// Takes the peers that came, as long as there is room.
    fn take_peers<R: RandomSource + Clock>(&mut self, rt: &R, now: Instant) {
        for _ in 0..MAX_PEERS {
            if self.peers.len() >= MAX_PEERS || !self.take_peer(rt, now) {
                return;
            }
        }
    }

    /// The pages as they stand now.
    fn pages(&self) -> Result<Pages, Memory> {
        Ok(Pages {
            alloc: self.alloc,
            figures: self.shown.figures()?,
            health: self.shown.health()?,
            takes_stop: self.stop.is_some(),
            is_stop_asked: false,
        })
    }

    /// Lets go of the peers that are over.
    fn let_go(&mut self) {
        for peer in self.peers.iter_mut() {
            if peer.is_over {
                self.ready.remove(peer.number, &mut peer.stream.link);
            }
        }
        self.peers.retain(|peer| !peer.is_over);
    }

    /// Goes on with each peer, and lets go of those that are over. A stop is asked for after its answer was sent.
    fn step_all(&mut self, now: Instant) -> Result<(), Memory> {
        let mut pages = self.pages()?;
        for peer in self.peers.iter_mut() {
            peer.step(&mut pages, now);
        }
        self.let_go();
        if let (true, Some(stop)) = (pages.is_stop_asked, &self.stop) {
            stop.ask();
        }
        Ok(())
    }

    /// Lets go of all peers.
    fn let_all_go(&mut self) {
        for peer in self.peers.iter_mut() {
            peer.is_over = true;
        }
        self.let_go();
    }

    /// Waits a short while for peers, and goes on with them.
    fn round<R: RandomSource + Clock>(&mut self, rt: &R) -> io::Result<()> {
        let mut ready = Row::empty(self.alloc);
        if self.ready.wait(&mut ready).is_err() {
            return Err(io::ErrorKind::Other.into());
        }
        let now = Instant::now(rt)?;
        self.take_peers(rt, now);
        if self.peers.is_empty() {
            return Ok(());
        }
        self.step_all(now)
            .map_err(|_| io::ErrorKind::OutOfMemory.into())
    }

    /// Serves for 2^64 rounds, of which each may take a second. Where a round fails, all peers are let go, and the next round begins a second later.
    pub fn serve<R: RandomSource + Clock>(mut self, rt: &R) {
        for _ in 0..u64::MAX {
            if self.round(rt).is_err() {
                self.let_all_go();
                thread::sleep(rt, Duration::from_secs(REST_SECONDS));
            }
        }
    }
}
