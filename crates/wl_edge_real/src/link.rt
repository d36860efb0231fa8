//! Links over sockets that do not block.

ghost use Rattle.std.specs.Prelude.{◌≡◌, ◌≤◌, ℕ, List, [], ◌++◌, take, Some, IfOk, OnErr, IsSome, MatchResult, length};
ghost use Rattle.wl_edge_real.specs.Pieces.{piece_of, pieces_of};
ghost use Rattle.wl_edge.specs.Edge.{Rose};
ghost use Rattle.wl_edge.specs.Links.{heard_of, IsFresh, IsWithin, OnFailed};

use crate::open_links::Counted;
use crate::stop::{Stop, is_asked, is_urgent};
use crate::stream::Stream;
use crate::telling::heard;
use crate::told_stream::ToldStream;
use crate::watch::{Lateness, Watch};
use std::io;
use std::io::ErrorKind;
use std::os::fd::RawFd;
use std::os::unix::net::UnixStream;
use std::sync::Arc;
use wl_edge::{Heard, Link, Origin, Received, Sent, TrySent};
use wl_told::Told;

/// How many bytes a read takes when a connection is closed.
const CLOSING_ROOM: usize = 4_096;

/// How many such reads there are at most.
const CLOSING_READS: usize = 64;

/// What a link holds as long as it is open: its place among the sockets of its listener, and that it is counted.
#[derive(Drop)]
pub(crate) struct Held {
    /// The place of its socket.
    pub(crate) at: u32,
    /// Among the links of its socket.
    pub(crate) of_socket: Counted,
    /// Among the links of its uid, where the kernel names that.
    pub(crate) of_uid: Option<Counted>,
    /// Among all.
    pub(crate) of_all: Counted,
    /// What has it end with its socket.
    pub(crate) closing: Arc<Stop>,
}

/// How many bytes went over a link. At 2^64-1 a count stays.
#[derive(Clone, Copy, Debug, Drop, PartialEq, Eq)]
pub struct Traffic {
    pub received: u64,
    pub sent: u64,
}

/// What came of the calls of a link.
pub trait LinkFailures {
    /// Whether a receive has failed.
    fn has_failed_receives(&self) -> bool;

    /// Whether a sending has failed.
    fn has_failed_sends(&self) -> bool;

    /// Why its watcher gave it up, where it did. Its calls have failed then, for that.
    fn lateness(&self) -> Option<Lateness>;

    /// With which error code (RFC 9113, section 7) the connection ended, where its peer broke a rule of HTTP/2.
    fn error_code(&self) -> Option<u32>;

    /// How many bytes it received and sent.
    fn traffic(&self) -> Traffic;
}

/// A link over a Unix socket or a loopback TCP connection. It tells what it gave and took, by lists that exist only in proofs. A receive that finds
/// nothing is idle at once, so that one who has nothing else to do waits with a `RealReady`.
#[derive(Drop)]
pub struct RealLink {
    pub(crate) origin: Origin,
    stream: ToldStream<Stream>,
    /// Shared with one who watches the link.
    watch: Option<Arc<Watch>>,
    /// What has it end.
    stop: Option<Arc<Stop>>,
    /// None where it came over no listener.
    held: Option<Held>,
    /// Why one who watched it gave it up.
    lateness: Option<Lateness>,
    error_code: Option<u32>,
    traffic: Traffic,
    failed_receives: u64,
    failed_sends: u64,
    stalls: u64,
    gave: Told<Heard>,
    /// The pieces that were given are what came of the stream.
    ghost whole: { pieces_of gave.list ≡ stream.got.list },
}

/// Whether a call did nothing because it would have waited, and may be made again.
pub(crate) fn is_pause(error: &io::Error) -> bool {
    matches!(
        error.kind(),
        ErrorKind::WouldBlock | ErrorKind::TimedOut | ErrorKind::Interrupted
    )
}

impl RealLink {
    /// A link from there over this Unix socket, which from now on does not block.
    pub fn start(origin: Origin, stream: UnixStream) -> io::Result<RealLink>
        ensures origin { IfOk result (λ l. ⟦<RealLink as Link>⟧.origin l ≡ origin) }
        ensures tells { (l : RealLink) → IsSome (⟦<RealLink as Link>⟧.told l) }
        ensures fresh { IfOk result (λ l. IsFresh (⟦<RealLink as Link>⟧.told l) (⟦<RealLink as Link>⟧.failed_receives l)
            (⟦<RealLink as Link>⟧.failed_sends l) (⟦<RealLink as Link>⟧.stalls l)) }
    {
        RealLink::start_over(origin, Stream::Unix(stream))
    }

    /// A link from there over this connection, which from now on does not block.
    pub(crate) fn start_over(origin: Origin, stream: Stream) -> io::Result<RealLink>
        ensures origin { IfOk result (λ l. ⟦<RealLink as Link>⟧.origin l ≡ origin) }
        ensures fresh { IfOk result (λ l. IsFresh (⟦<RealLink as Link>⟧.told l) (⟦<RealLink as Link>⟧.failed_receives l)
            (⟦<RealLink as Link>⟧.failed_sends l) (⟦<RealLink as Link>⟧.stalls l)) }
    {
        stream.set_nonblocking(true)?;
        Ok(RealLink {
            origin,
            stream: ToldStream::start(stream),
            watch: None,
            stop: None,
            held: None,
            lateness: None,
            error_code: None,
            traffic: Traffic {
                received: 0,
                sent: 0,
            },
            failed_receives: 0,
            failed_sends: 0,
            stalls: 0,
            gave: Told::new(),
        })
    }

    /// The socket.
    pub(crate) fn descriptor(&self) -> RawFd {
        self.stream.descriptor()
    }

    /// Closes the connection. Nothing more is written, and what the peer has sent is read away first, up to a bound:
    /// a socket that is closed over bytes that nobody read tells its peer of a reset, in place of the end that follows
    /// the last message.
    pub(crate) fn close(self) {
        let RealLink { mut stream, .. } = self;
        let _ = stream.shut();
        let mut room = [0; CLOSING_ROOM];
        for _ in 0..CLOSING_READS {
            match stream.read(&mut room) {
                Ok(count) if count > 0 => {}
                _ => return,
            }
        }
    }

    /// Has it shared with one who watches the link, or with nobody.
    pub(crate) fn share(&mut self, watch: Option<Arc<Watch>>)
        ensures told { ⟦<RealLink as Link>⟧.told self.new ≡ ⟦<RealLink as Link>⟧.told self.old }
        ensures receives { ⟦<RealLink as Link>⟧.failed_receives self.new ≡ ⟦<RealLink as Link>⟧.failed_receives self.old }
        ensures sends { ⟦<RealLink as Link>⟧.failed_sends self.new ≡ ⟦<RealLink as Link>⟧.failed_sends self.old }
        ensures stalls { ⟦<RealLink as Link>⟧.stalls self.new ≡ ⟦<RealLink as Link>⟧.stalls self.old }
        ensures origin { ⟦<RealLink as Link>⟧.origin self.new ≡ ⟦<RealLink as Link>⟧.origin self.old }
    {
        self.lateness = lateness(&self.watch).or(self.lateness);
        self.watch = watch;
    }

    /// Has it end once this stop is asked for.
    pub(crate) fn obey(&mut self, stop: Option<Arc<Stop>>)
        ensures told { ⟦<RealLink as Link>⟧.told self.new ≡ ⟦<RealLink as Link>⟧.told self.old }
        ensures receives { ⟦<RealLink as Link>⟧.failed_receives self.new ≡ ⟦<RealLink as Link>⟧.failed_receives self.old }
        ensures sends { ⟦<RealLink as Link>⟧.failed_sends self.new ≡ ⟦<RealLink as Link>⟧.failed_sends self.old }
        ensures stalls { ⟦<RealLink as Link>⟧.stalls self.new ≡ ⟦<RealLink as Link>⟧.stalls self.old }
        ensures origin { ⟦<RealLink as Link>⟧.origin self.new ≡ ⟦<RealLink as Link>⟧.origin self.old }
    {
        self.stop = stop;
    }

    /// Has it hold this as long as it is open.
    pub(crate) fn hold(&mut self, held: Held)
        ensures told { ⟦<RealLink as Link>⟧.told self.new ≡ ⟦<RealLink as Link>⟧.told self.old }
        ensures receives { ⟦<RealLink as Link>⟧.failed_receives self.new ≡ ⟦<RealLink as Link>⟧.failed_receives self.old }
        ensures sends { ⟦<RealLink as Link>⟧.failed_sends self.new ≡ ⟦<RealLink as Link>⟧.failed_sends self.old }
        ensures stalls { ⟦<RealLink as Link>⟧.stalls self.new ≡ ⟦<RealLink as Link>⟧.stalls self.old }
        ensures origin { ⟦<RealLink as Link>⟧.origin self.new ≡ ⟦<RealLink as Link>⟧.origin self.old }
    {
        self.held = Some(held);
    }

    /// The place of its socket among those of its listener.
    pub(crate) fn place(&self) -> Option<u32> {
        match &self.held {
            Some(held) => Some(held.at),
            None => None,
        }
    }

    /// Notes what a receive answered for one who watches it.
    fn note_answer(&self, answer: Received, lent: usize) {
        let Some(watch) = &self.watch else {
            return;
        };
        match answer {
            Received::Got(count) => watch.note_received(count, lent),
            _ => watch.note_nothing(),
        }
    }

    /// Notes that a sending took bytes.
    fn note_taken(&self) {
        if let Some(watch) = &self.watch {
            watch.note_taken();
        }
    }

    /// Notes that a sending stalled.
    fn note_stalled(&self) {
        if let Some(watch) = &self.watch {
            watch.note_stalled();
        }
    }

    /// Notes what a receive answered.
    fn note(&mut self, answer: Received, lent: usize)
        ensures failed { OnFailed answer (Rose self.old.failed_receives self.new.failed_receives) }
        ensures later { self.old.failed_receives ≤ self.new.failed_receives }
        ensures gave { self.new.gave ≡ self.old.gave }
        ensures stream { self.new.stream ≡ self.old.stream }
        ensures sends { self.new.failed_sends ≡ self.old.failed_sends }
        ensures stalls { self.new.stalls ≡ self.old.stalls }
        ensures origin { self.new.origin ≡ self.old.origin }
    {
        self.note_answer(answer, lent);
        match answer {
            Received::Got(count) => {
                self.traffic.received = self.traffic.received.saturating_add(count as u64);
            }
            Received::Failed => self.failed_receives = self.failed_receives.saturating_add(1),
            Received::Idle | Received::End => {}
        }
    }
}

/// What a receive answers for what a read gave.
pub(crate) fn answer_of(read: io::Result<usize>) -> Received
    ensures piece { MatchResult read (λ n. (into : List ℕ) → piece_of (heard_of result into) ≡ take n into)
        (λ e. (into : List ℕ) → piece_of (heard_of result into) ≡ []) }
    ensures within { (room : ℕ) → IfOk read (λ n. n ≤ room) → IsWithin room result }
{
    match read {
        Ok(count) if count > 0 => Received::Got(count),
        Ok(_) => Received::End,
        Err(error) if is_pause(&error) => Received::Idle,
        Err(_) => Received::Failed,
    }
}

/// Why one who watches a link gave it up, where one did.
fn lateness(watch: &Option<Arc<Watch>>) -> Option<Lateness> {
    match watch {
        Some(watch) => watch.lateness(),
        None => None,
    }
}

/// Whether the socket of a link is closed.
fn is_closing(held: &Option<Held>) -> bool {
    match held {
        Some(held) => held.closing.is_asked(),
        None => false,
    }
}

/// What a receive answers. After a stop was asked for one that finds nothing is the last. After an urgent one nothing is read, nor once
/// its socket was closed: a caller that goes on sending has no more calls. Nothing is read of a link that was given up.
fn receive_until(
    stop: &Option<Arc<Stop>>,
    held: &Option<Held>,
    watch: &Option<Arc<Watch>>,
    stream: &mut ToldStream<Stream>,
    into: &mut [u8],
) -> Received
    ensures room { length into.new ≡ length into.old }
    ensures within { IsWithin (length into.old) result }
    ensures got { stream.new.got.list ≡ stream.old.got.list ++ piece_of (heard_of result into.new) }
    ensures put { stream.new.put ≡ stream.old.put }
{
    if is_urgent(stop) || is_closing(held) {
        return Received::End;
    }
    if lateness(watch).is_some() {
        return Received::Failed;
    }
    match answer_of(stream.read(into)) {
        Received::Idle if is_asked(stop) => Received::End,
        answer => answer,
    }
}

/// Writes some of the bytes, and waits until that can be done.
fn write_waiting(stream: &mut ToldStream<Stream>, bytes: &[u8]) -> io::Result<usize>
    ensures within { IfOk result (λ count. count ≤ length bytes.now) }
    ensures put { IfOk result (λ n. stream.new.put.list ≡ stream.old.put.list ++ take n bytes.now) }
    ensures nothing { OnErr result (stream.new.put ≡ stream.old.put) }
    ensures got { stream.new.got ≡ stream.old.got }
{
    stream.set_nonblocking(false)?;
    let written = stream.write(bytes);
    // What was taken is answered, also where the mode could not be set back.
    let _ = stream.set_nonblocking(true);
    written
}

impl LinkFailures for RealLink {
    fn has_failed_receives(&self) -> bool {
        self.failed_receives > 0
    }

    fn has_failed_sends(&self) -> bool {
        self.failed_sends > 0
    }

    fn lateness(&self) -> Option<Lateness> {
        lateness(&self.watch).or(self.lateness)
    }

    fn error_code(&self) -> Option<u32> {
        self.error_code
    }

    fn traffic(&self) -> Traffic {
        self.traffic
    }
}

impl Link for RealLink {
    ghost origin = { λ l. l.origin };

    ghost told = { λ l. Some (record { gave = l.gave.list; took = l.stream.put.list }) };

    ghost failed_receives = { λ l. l.failed_receives };

    ghost failed_sends = { λ l. l.failed_sends };

    ghost stalls = { λ l. l.stalls };

    fn origin(&self) -> &Origin {
        &self.origin
    }

    fn note_call(&mut self) {
        if let Some(watch) = &self.watch {
            watch.note_call();
        }
    }

    fn note_error(&mut self, code: u32) {
        self.error_code = Some(code);
    }

    fn receive(&mut self, into: &mut [u8]) -> Received {
        let lent = into.len();
        let answer = receive_until(&self.stop, &self.held, &self.watch, &mut self.stream, into);
        self.gave = heard(&self.gave, into, answer);
        self.note(answer, lent);
        answer
    }

    fn send(&mut self, bytes: &[u8]) -> Sent {
        match write_waiting(&mut self.stream, bytes) {
            Ok(count) if count > 0 => {
                self.traffic.sent = self.traffic.sent.saturating_add(count as u64);
                Sent::Took(count)
            }
            _ => {
                self.failed_sends = self.failed_sends.saturating_add(1);
                Sent::Failed
            }
        }
    }

    fn try_send(&mut self, bytes: &[u8]) -> TrySent {
        if lateness(&self.watch).is_some() {
            self.failed_sends = self.failed_sends.saturating_add(1);
            return TrySent::Failed;
        }
        match self.stream.write(bytes) {
            Ok(count) if count > 0 => {
                self.traffic.sent = self.traffic.sent.saturating_add(count as u64);
                self.note_taken();
                TrySent::Took(count)
            }
            Err(error) if is_pause(&error) && !is_urgent(&self.stop) => {
                self.note_stalled();
                self.stalls = self.stalls.saturating_add(1);
                TrySent::Later
            }
            _ => {
                self.failed_sends = self.failed_sends.saturating_add(1);
                TrySent::Failed
            }
        }
    }
}
