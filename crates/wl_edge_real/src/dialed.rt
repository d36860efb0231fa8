//! A link of a client, which connects when it has something to say.

ghost use Rattle.std.specs.Prelude.{◌≡◌, ◌≤◌, ◌++◌, [], None, Some, take, length, IfOk, OnErr, IsSome};
ghost use Rattle.wl_edge.specs.Links.{heard_of, IsFresh, IsWithin};
ghost use Rattle.wl_edge_real.specs.Pieces.{piece_of, pieces_of};
ghost use Rattle.wl_edge_real.specs.Streams.{came_of, went_into};

use crate::link::answer_of;
use crate::telling::heard;
use crate::told_stream::ToldStream;
use std::alloc::{AllocError, Global};
use std::io;
use std::io::{Read, Write};
use std::net::{Net, OpenStream, SocketAddr};
use std::os::unix::net::UnixStream;
use std::time::Duration;
use timed_stream::connect;
use wl_edge::{Heard, Link, Origin, Received, Sent, TrySent};
use wl_octets::Memory;
use wl_told::Told;

/// How many seconds a receive waits for bytes before it is idle.
const PATIENCE_SECONDS: u64 = 1;

/// How many seconds a connection over TCP may take to be made.
const DIAL_SECONDS: u64 = 5;

/// Where a server is.
#[derive(Drop)]
pub enum Address {
    /// At the Unix socket of this path.
    Path(String),
    /// At this address and port.
    Tcp(SocketAddr),
}

impl Address {
    /// The same address.
    pub fn copy(&self) -> Result<Address, AllocError> {
        match self {
            Address::Path(path) => Ok(Address::Path(path.clone()?)),
            Address::Tcp(address) => Ok(Address::Tcp(*address)),
        }
    }
}

/// A connection.
#[derive(Drop)]
enum Dialed<T> {
    Unix(UnixStream),
    Tcp(T),
}

impl<T: Read + Drop> Read for Dialed<T> {
    fn read(&mut self, into: &mut [u8]) -> io::Result<usize> {
        match self {
            Dialed::Unix(stream) => stream.read(into),
            Dialed::Tcp(stream) => stream.read(into),
        }
    }
}

impl<T: Write + Drop> Write for Dialed<T> {
    fn write(&mut self, bytes: &[u8]) -> io::Result<usize> {
        match self {
            Dialed::Unix(stream) => stream.write(bytes),
            Dialed::Tcp(stream) => stream.write(bytes),
        }
    }

    fn flush(&mut self) -> io::Result<()> {
        match self {
            Dialed::Unix(stream) => stream.flush(),
            Dialed::Tcp(stream) => stream.flush(),
        }
    }
}

/// A link that connects to an address at its first sending. It tells what it gave and took, by lists that exist only in
/// proofs. Before that sending a receive is idle at once; afterwards one that finds nothing for a second is. Every
/// sending may wait.
#[derive(Drop)]
pub struct DialedLink<R: Net> {
    rt: R,
    /// That of a link over no socket of ours.
    origin: Origin,
    address: Address,
    stream: Option<ToldStream<Dialed<R::Stream>>>,
    failed_receives: u64,
    failed_sends: u64,
    gave: Told<Heard>,
    /// The pieces that were given are what came of the stream.
    ghost whole: { pieces_of gave.list ≡ came_of stream },
}

/// Connects to a Unix socket without waiting: a server whose backlog is full is a fault at once.
fn dial_unix(rt: &impl Net, path: &str) -> io::Result<UnixStream> {
    let stream = connect(rt, path)?;
    stream.set_read_timeout(Some(Duration::from_secs(PATIENCE_SECONDS)))?;
    Ok(stream)
}

/// Connects over TCP, which may take 5 seconds.
fn dial_tcp<R: Net>(rt: &R, address: SocketAddr) -> io::Result<R::Stream> {
    let stream = rt.connect_timeout(address, Duration::from_secs(DIAL_SECONDS))?;
    stream.set_read_timeout(Some(Duration::from_secs(PATIENCE_SECONDS)))?;
    Ok(stream)
}

fn dial<R: Net>(rt: &R, address: &Address) -> io::Result<ToldStream<Dialed<R::Stream>>>
    ensures got { IfOk result (λ s. s.got.list ≡ []) }
    ensures put { IfOk result (λ s. s.put.list ≡ []) }
{
    let stream = match address {
        Address::Path(path) => Dialed::Unix(dial_unix(rt, path.as_str())?),
        Address::Tcp(address) => Dialed::Tcp(dial_tcp(rt, *address)?),
    };
    Ok(ToldStream::start(stream))
}

impl<R: Net + Drop> DialedLink<R> {
    /// A link to the Unix socket of this path. Nothing is opened yet.
    pub fn start(rt: R, alloc: Global, path: String) -> Result<DialedLink<R>, Memory>
        ensures origin { IfOk result (λ l. ⟦<DialedLink<R> as Link>⟧.origin l ≡ record { selectors = []; socket = 0; uid = None }) }
        ensures tells { IfOk result (λ l. IsSome (⟦<DialedLink<R> as Link>⟧.told l)) }
        ensures fresh { IfOk result (λ l. IsFresh (⟦<DialedLink<R> as Link>⟧.told l) (⟦<DialedLink<R> as Link>⟧.failed_receives l)
            (⟦<DialedLink<R> as Link>⟧.failed_sends l) (⟦<DialedLink<R> as Link>⟧.stalls l)) }
    {
        DialedLink::start_at(rt, alloc, Address::Path(path))
    }

    /// A link to this address. Nothing is opened yet.
    pub fn start_at(rt: R, alloc: Global, address: Address) -> Result<DialedLink<R>, Memory>
        ensures origin { IfOk result (λ l. ⟦<DialedLink<R> as Link>⟧.origin l ≡ record { selectors = []; socket = 0; uid = None }) }
        ensures tells { IfOk result (λ l. IsSome (⟦<DialedLink<R> as Link>⟧.told l)) }
        ensures fresh { IfOk result (λ l. IsFresh (⟦<DialedLink<R> as Link>⟧.told l) (⟦<DialedLink<R> as Link>⟧.failed_receives l)
            (⟦<DialedLink<R> as Link>⟧.failed_sends l) (⟦<DialedLink<R> as Link>⟧.stalls l)) }
    {
        Ok(DialedLink {
            rt,
            origin: Origin::nowhere(alloc)?,
            address,
            stream: None,
            failed_receives: 0,
            failed_sends: 0,
            gave: Told::new(),
        })
    }
}

/// Writes some of the bytes to the stream, which is made first if it is not there.
fn write_dialed<R: Net>(
    rt: &R,
    address: &Address,
    stream: &mut Option<ToldStream<Dialed<R::Stream>>>,
    bytes: &[u8],
) -> io::Result<usize>
    ensures within { IfOk result (λ count. count ≤ length bytes.now) }
    ensures put { IfOk result (λ n. went_into stream.new ≡ went_into stream.old ++ take n bytes.now) }
    ensures nothing { OnErr result (went_into stream.new ≡ went_into stream.old) }
    ensures got { came_of stream.new ≡ came_of stream.old }
{
    if let Some(open) = stream {
        return open.write(bytes);
    }
    let mut open = dial(rt, address)?;
    let written = open.write(bytes);
    *stream = Some(open);
    written
}

/// What a receive over a stream answers that may not be there yet.
fn receive_from<S: Read + Write + Drop>(
    stream: &mut Option<ToldStream<S>>,
    into: &mut [u8],
) -> Received
    ensures room { length into.new ≡ length into.old }
    ensures within { IsWithin (length into.old) result }
    ensures got { came_of stream.new ≡ came_of stream.old ++ piece_of (heard_of result into.new) }
    ensures put { went_into stream.new ≡ went_into stream.old }
{
    match stream {
        Some(open) => answer_of(open.read(into)),
        None => Received::Idle,
    }
}

impl<R: Net + Drop> Link for DialedLink<R> {
    ghost origin = { λ l. l.origin };

    ghost told = { λ l. Some (record { gave = l.gave.list; took = went_into l.stream }) };

    ghost failed_receives = { λ l. l.failed_receives };

    ghost failed_sends = { λ l. l.failed_sends };

    ghost stalls = { λ l. 0 };

    fn origin(&self) -> &Origin {
        &self.origin
    }

    fn note_call(&mut self) {}

    fn note_error(&mut self, _code: u32) {}

    fn receive(&mut self, into: &mut [u8]) -> Received {
        let answer = receive_from(&mut self.stream, into);
        self.gave = heard(&self.gave, into, answer);
        if answer == Received::Failed {
            self.failed_receives = self.failed_receives.saturating_add(1);
        }
        answer
    }

    fn send(&mut self, bytes: &[u8]) -> Sent {
        match write_dialed(&self.rt, &self.address, &mut self.stream, bytes) {
            Ok(count) if count > 0 => Sent::Took(count),
            _ => {
                self.failed_sends = self.failed_sends.saturating_add(1);
                Sent::Failed
            }
        }
    }

    fn try_send(&mut self, bytes: &[u8]) -> TrySent {
        match self.send(bytes) {
            Sent::Took(count) => TrySent::Took(count),
            Sent::Failed => TrySent::Failed,
        }
    }
}
