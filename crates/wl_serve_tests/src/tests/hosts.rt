//! Hosts in memory, and what serving them comes to.

use super::bytes::{DOC, HEAD, LEAF, MESSAGE, ONE, OPENING};
use std::alloc::{AllocError, Global};
use std::sync::Wait;
use std::thread::Threads;
use wl_edge::{Gate, Heard, LinkPlan, ListenerPlan, Origin, Script};
use wl_entry::Signed;
use wl_octets::{Memory, Octets, Row};
use wl_selector::{Selector, SelectorFault, Selectors, SelectorsFault};
use wl_serve::{HostPlan, MemoryHost, Parts, SeatPlan, ServeEnd, serve};

/// Why a host cannot be made.
#[derive(Debug, Drop)]
pub enum Stop {
    Memory,
    Selector,
    /// What a link took is no frames.
    Frames,
}

impl From<Memory> for Stop {
    fn from(_: Memory) -> Stop {
        Stop::Memory
    }
}

impl From<AllocError> for Stop {
    fn from(_: AllocError) -> Stop {
        Stop::Memory
    }
}

/// What is served. Calls that fail are given by their numbers from 0.
#[derive(Clone, Copy, Drop)]
pub struct Trial {
    pub configuration: &'static [u8],
    pub document: &'static [u8],
    /// Whether the sockets can't be opened.
    pub is_shut: bool,
    pub seats: u32,
    /// How many links each seat gives.
    pub links: u32,
    /// The sockets over which they come, in turn.
    pub sockets: &'static [u32],
    /// What each of them gives.
    pub pieces: &'static [&'static [u8]],
    /// The chain that the signer gives.
    pub chain: &'static [u8],
    pub pulls: &'static [u64],
    pub accepts: &'static [u64],
    pub attests: &'static [u64],
    pub waits: &'static [u64],
    pub signs: &'static [u64],
    /// Those of each link.
    pub receives: &'static [u64],
    pub sends: &'static [u64],
}

/// One socket with two links that give nothing; no call fails.
pub const LINKS: Trial = Trial {
    configuration: ONE,
    document: DOC,
    is_shut: false,
    seats: 1,
    links: 2,
    sockets: &[0],
    pieces: &[],
    chain: LEAF,
    pulls: &[],
    accepts: &[],
    attests: &[],
    waits: &[],
    signs: &[],
    receives: &[],
    sends: &[],
};

/// The same where each link gives a call.
pub const CALLS: Trial = Trial {
    pieces: &[OPENING, HEAD, MESSAGE],
    ..LINKS
};

/// How many bytes a link has room for.
const ROOM: usize = 4_096;

pub fn numbers(alloc: Global, numbers: &[u64]) -> Result<Row<u64>, Memory> {
    Ok(Row::from_vec(Vec::from_slice(alloc, numbers)?))
}

/// A link of this origin that gives these pieces, with room for so many bytes.
pub fn smooth_link(
    alloc: Global,
    origin: Origin,
    pieces: &[&[u8]],
    room: usize,
) -> Result<LinkPlan, Memory> {
    let mut gives = Row::empty(alloc);
    for piece in pieces {
        gives.push(Heard::Piece(Octets::from_slice(alloc, piece)?))?;
    }
    Ok(LinkPlan::smooth(alloc, origin, gives, 64, room))
}

/// The link of this place, from 0.
fn link(alloc: Global, trial: &Trial, place: usize) -> Result<LinkPlan, Memory> {
    let socket = match trial.sockets.get(place % trial.sockets.len().max(1)) {
        Some(socket) => *socket,
        None => 0,
    };
    let nowhere = Origin::nowhere(alloc)?;
    let origin = Origin { socket, ..nowhere };
    let mut plan = smooth_link(alloc, origin, trial.pieces, ROOM)?;
    plan.failing_receives = numbers(alloc, trial.receives)?;
    plan.failing_sends = numbers(alloc, trial.sends)?;
    Ok(plan)
}

fn listener(alloc: Global, trial: &Trial) -> Result<ListenerPlan, Memory> {
    let mut links = Row::empty(alloc);
    for place in 0..trial.links as usize {
        links.push(link(alloc, trial, place)?)?;
    }
    Ok(ListenerPlan {
        links,
        idle: Row::empty(alloc),
        failing: numbers(alloc, trial.accepts)?,
        answers: 64,
    })
}

/// Puts an item after others.
pub fn push<T: Drop>(items: &mut Row<T>, item: T) -> Result<(), Memory> {
    items.push(item)?;
    Ok(())
}

fn selector(alloc: Global, text: &[u8]) -> Result<Selector, Stop> {
    match Selector::parse(alloc, text) {
        Ok(selector) => Ok(selector),
        Err(SelectorFault::Memory) => Err(Stop::Memory),
        Err(_) => Err(Stop::Selector),
    }
}

/// The selectors of a caller who has this one.
fn caller(alloc: Global, text: &[u8]) -> Result<Selectors, Stop> {
    let mut selectors = Row::empty(alloc);
    push(&mut selectors, selector(alloc, text)?)?;
    match Selectors::from_list(alloc, selectors.into_vec(), 1) {
        Ok(selectors) => Ok(selectors),
        Err(SelectorsFault::Memory) => Err(Stop::Memory),
        Err(_) => Err(Stop::Selector),
    }
}

/// An attestor's answers: callers who have this selector.
pub fn attested(alloc: Global, text: &[u8], failing: &[u64]) -> Result<Script<Selectors>, Stop> {
    let mut answers = Row::empty(alloc);
    push(&mut answers, caller(alloc, text)?)?;
    Ok(Script::start(answers, numbers(alloc, failing)?))
}

fn seat(alloc: Global, trial: &Trial) -> Result<SeatPlan, Stop> {
    Ok(SeatPlan {
        listener: listener(alloc, trial)?,
        selectors: attested(alloc, b"unix:uid:1", trial.attests)?,
        times: numbers(alloc, &[100])?,
        failing: numbers(alloc, trial.waits)?,
    })
}

/// Identities from 100 to 200.
fn identities(alloc: Global, trial: &Trial) -> Result<Script<Signed>, Memory> {
    let mut answers = Row::empty(alloc);
    answers.push(Signed {
        chain: Octets::from_slice(alloc, trial.chain)?,
        key: Octets::from_slice(alloc, b"\x02")?,
        not_before: 100,
        not_after: 200,
    })?;
    Ok(Script::start(answers, numbers(alloc, trial.signs)?))
}

fn documents(alloc: Global, trial: &Trial) -> Result<Script<Octets>, Memory> {
    let mut answers = Row::empty(alloc);
    answers.push(Octets::from_slice(alloc, trial.document)?)?;
    Ok(Script::start(answers, numbers(alloc, trial.pulls)?))
}

/// Seats, the last one first, that are all alike.
fn alike_seats(alloc: Global, trial: &Trial) -> Result<Row<SeatPlan>, Stop> {
    let mut seats = Row::empty(alloc);
    for _ in 0..trial.seats {
        push(&mut seats, seat(alloc, trial)?)?;
    }
    Ok(seats)
}

/// A seat of the first trial, and then one of the other.
fn two_seats(alloc: Global, first: &Trial, other: &Trial) -> Result<Row<SeatPlan>, Stop> {
    let mut seats = Row::empty(alloc);
    push(&mut seats, seat(alloc, other)?)?;
    push(&mut seats, seat(alloc, first)?)?;
    Ok(seats)
}

/// A host that prepares what is to be served, with these seats.
fn host_of<G>(
    alloc: Global,
    trial: &Trial,
    gate: G,
    seats: Row<SeatPlan>,
) -> Result<MemoryHost<G>, Stop>
where
    G: Drop,
{
    Ok(MemoryHost::start(Some(HostPlan {
        documents: documents(alloc, trial)?,
        tokens: Script::start(Row::empty(alloc), Row::empty(alloc)),
        identities: identities(alloc, trial)?,
        puller_times: numbers(alloc, &[100])?,
        keeper_times: numbers(alloc, &[100, 100, 101])?,
        signer_times: numbers(alloc, &[100])?,
        gate,
        is_shut: trial.is_shut,
        seats: seats.into_vec(),
    })))
}

/// Serves it, and gives its end and what was prepared.
pub fn served<G: Gate + Sync + Drop, R: Threads + Wait + Sync>(
    rt: &R,
    alloc: Global,
    trial: &Trial,
    gate: G,
) -> Result<(ServeEnd, Option<Parts<MemoryHost<G>>>), Stop> {
    let seats = alike_seats(alloc, trial)?;
    let mut host = host_of(alloc, trial, gate, seats)?;
    let mut kept = None;
    let end = serve(rt, alloc, trial.configuration, &mut host, &mut kept);
    Ok((end, kept))
}

/// Serves by two seats, which are those of the two trials, by the configuration of the first.
pub fn served_two<G: Gate + Sync + Drop, R: Threads + Wait + Sync>(
    rt: &R,
    alloc: Global,
    first: &Trial,
    other: &Trial,
    gate: G,
) -> Result<(ServeEnd, Option<Parts<MemoryHost<G>>>), Stop> {
    let seats = two_seats(alloc, first, other)?;
    let mut host = host_of(alloc, first, gate, seats)?;
    let mut kept = None;
    let end = serve(rt, alloc, first.configuration, &mut host, &mut kept);
    Ok((end, kept))
}
