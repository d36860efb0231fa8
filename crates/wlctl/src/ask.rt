//! One message of one call, over a connection of its own.

ghost use Rattle.std.specs.Prelude.{◌≡◌, ◌≤◌, ◌<◌, length, IfOk};

use grpc_wire::Method;
use std::alloc::Global;
use std::time::{Duration, Instant};
use wl_client::{Client, ClientFault, Heard};
use wl_edge::{Link, Received, Sent};
use wl_edge_real::{Address, DialedLink};
use wl_octets::{Memory, Octets, Row};

/// How many seconds an answer may take as a whole.
const ANSWER_SECONDS: u64 = 30;

/// How many bytes of a server are read at most.
const READ_LIMIT: usize = 16_777_216;

/// How many bytes one receive asks for at most.
const PIECE_LEN: usize = 65_536;

/// How many bytes the message of a call may have.
const MAX_MESSAGE_LEN: usize = 16_000;

/// Why there is no answer.
#[derive(Clone, Copy, Drop)]
pub enum AskFault {
    /// Memory ran out.
    Memory,
    /// The connection can't be made, or a sending failed.
    Unreachable,
    /// A receive failed.
    Broken,
    /// The server answered this status of gRPC.
    Denied(u32),
    /// The server's bytes or the connection have this fault.
    Faulted(ClientFault),
}

/// What is asked for.
#[derive(Clone, Copy, Drop)]
pub struct Ask<'a> {
    pub method: Method,
    pub message: &'a [u8],
    /// Whether the call is unary: its status 0 is awaited after the message.
    pub is_unary: bool,
}

/// What came of the answer.
#[derive(Drop)]
struct Answer {
    message: Option<Octets>,
    is_unary: bool,
    /// How many bytes may be read still.
    left: usize,
}

impl Answer {
    /// Counts bytes that were read.
    fn spend(&mut self, count: usize) -> Result<(), AskFault> {
        if count > self.left {
            return Err(AskFault::Faulted(ClientFault::TooMuch));
        }
        self.left -= count;
        Ok(())
    }

    /// Takes one part of the answer: whether all was had.
    fn take(&mut self, part: Heard) -> Result<bool, AskFault> {
        match part {
            Heard::Head => Ok(false),
            Heard::Message(message) => {
                if self.message.is_some() {
                    return Err(AskFault::Faulted(ClientFault::TooMany));
                }
                self.message = Some(message);
                Ok(!self.is_unary)
            }
            Heard::Status { code, .. } => {
                if code == 0 && self.message.is_some() {
                    Ok(true)
                } else {
                    Err(AskFault::Denied(code))
                }
            }
        }
    }

    /// Takes the parts in turn, up to the one that decides.
    fn take_all(&mut self, parts: Row<Heard>) -> Result<bool, AskFault> {
        for part in parts.into_vec() {
            if self.take(part)? {
                return Ok(true);
            }
        }
        Ok(false)
    }
}

/// Sends all of the bytes.
fn send_all<L: Link>(link: &mut L, bytes: &[u8]) -> Result<(), AskFault> {
    let mut rest = bytes;
    'sends: while !rest.is_empty() {
        match link.send(rest) {
            Sent::Took(count) => rest = rest.split_at(count).1,
            Sent::Failed => return Err(AskFault::Unreachable),
        }
    }
    Ok(())
}

/// Hears what a piece of the server's bytes says: whether all was had.
fn hear<L: Link>(
    alloc: Global,
    client: &mut Client,
    piece: &[u8],
    link: &mut L,
    answer: &mut Answer,
) -> Result<bool, AskFault> {
    let mut sent = Octets::empty(alloc);
    let mut parts = Row::empty(alloc);
    let fed = client.feed(piece, &mut sent, &mut parts);
    if answer.take_all(parts)? {
        return Ok(true);
    }
    match fed {
        Ok(()) => {}
        Err(ClientFault::Memory) => return Err(AskFault::Memory),
        Err(fault) => return Err(AskFault::Faulted(fault)),
    }
    send_all(link, sent.as_slice())?;
    Ok(false)
}

/// Receives into the room: how many bytes came.
fn receive<L: Link>(link: &mut L, room: &mut [u8], rest: usize) -> Result<usize, AskFault>
    requires { 0 < length room.old }
    ensures count { IfOk result (λ count. count ≤ length room.old) }
    ensures room { length room.new ≡ length room.old }
{
    match link.receive(room) {
        Received::Got(count) => Ok(count),
        Received::Idle => Ok(0),
        Received::End => Err(AskFault::Faulted(ClientFault::Cut(rest as u64))),
        Received::Failed => Err(AskFault::Broken),
    }
}

/// Whether the answer has taken too long. A clock that doesn't answer is one, too.
fn is_late(rt: &HostRuntime, start: &Instant) -> bool {
    match start.elapsed(rt) {
        Ok(elapsed) => elapsed >= Duration::from_secs(ANSWER_SECONDS),
        Err(_) => true,
    }
}

/// Receives once, and hears what came: whether all was had.
fn step<L: Link>(
    alloc: Global,
    client: &mut Client,
    room: &mut [u8],
    link: &mut L,
    answer: &mut Answer,
) -> Result<bool, AskFault>
    requires { 0 < length room.old }
    ensures { length room.new ≡ length room.old }
{
    let count = receive(link, room, client.rest())?;
    answer.spend(count)?;
    hear(alloc, client, room.split_at(count).0, link, answer)
}

/// Hears the server until all was had.
fn talk<L: Link>(
    rt: &HostRuntime,
    client: &mut Client,
    room: &mut [u8],
    link: &mut L,
    answer: &mut Answer,
) -> Result<(), AskFault>
    requires { 0 < length room.old }
{
    let Ok(start) = Instant::now(rt) else {
        return Err(AskFault::Faulted(ClientFault::Idle));
    };
    'receives: for _ in 0..u64::MAX {
        if is_late(rt, &start) {
            return Err(AskFault::Faulted(ClientFault::Idle));
        }
        if step(rt.alloc(), client, room, link, answer)? {
            return Ok(());
        }
    }
    Err(AskFault::Faulted(ClientFault::Idle))
}

impl From<Memory> for AskFault {
    fn from(_: Memory) -> AskFault {
        AskFault::Memory
    }
}

/// The first message of the answer. It may take 30 seconds and 16,777,216 bytes of the server.
pub fn answer_to(rt: &HostRuntime, address: &Address, ask: Ask<'_>) -> Result<Octets, AskFault> {
    let alloc = rt.alloc();
    if ask.message.len() > MAX_MESSAGE_LEN {
        return Err(AskFault::Memory);
    }
    let Ok(own) = rt.clone() else {
        return Err(AskFault::Memory);
    };
    let Ok(address) = address.copy() else {
        return Err(AskFault::Memory);
    };
    let mut link = DialedLink::start_at(own, alloc, address)?;
    let mut client = Client::start(alloc, ask.method, ask.message)?;
    let mut answer = Answer {
        message: None,
        is_unary: ask.is_unary,
        left: READ_LIMIT,
    };
    let Ok(mut room) = Vec::from_elem(alloc, 0, PIECE_LEN) else {
        return Err(AskFault::Memory);
    };
    send_all(&mut link, client.opening())?;
    talk(rt, &mut client, room.as_mut_slice(), &mut link, &mut answer)?;
    answer.message.ok_or(AskFault::Broken)
}
