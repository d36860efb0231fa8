//! The outside of a connection, in memory.

use ask_mail::DirectAsks;
use std::alloc::{AllocError, Global};
use wl_edge::{Heard, LinkPlan, MemoryAttestor, MemoryClock, MemorySigner, Origin, Script};
use wl_entry::JwtToken;
use wl_octets::{Memory, Octets, Row};
use wl_selector::{Selector, Selectors};

/// Why a test cannot go on.
#[derive(Debug, Drop)]
pub enum Stop {
    Memory,
    Document,
    NoTicket,
    NoPass,
    Selector,
    /// A link of the seat was finished before.
    Served,
}

impl From<Memory> for Stop {
    fn from(_: Memory) -> Stop {
        Stop::Memory
    }
}

impl From<AllocError> for Stop {
    fn from(_: AllocError) -> Stop {
        Stop::Memory
    }
}

/// All of these bytes, one after the other.
pub fn joined(alloc: Global, parts: &[&[u8]]) -> Result<Octets, Memory> {
    let mut all = Octets::empty(alloc);
    for part in parts {
        all.push_slice(part)?;
    }
    Ok(all)
}

/// Whether these bytes are the parts, one after the other.
pub fn are_parts(bytes: &[u8], parts: &[&[u8]]) -> bool {
    let mut rest = bytes;
    for part in parts {
        match rest.strip_prefix(*part) {
            Some(next) => rest = next,
            None => return false,
        }
    }
    rest.is_empty()
}

/// The list of these numbers.
pub fn numbers(alloc: Global, numbers: &[u64]) -> Result<Row<u64>, Memory> {
    Ok(Row::from_vec(Vec::from_slice(alloc, numbers)?))
}

/// A clock that says this, again and again.
fn times(alloc: Global, now: u64) -> Result<MemoryClock, Memory> {
    Ok(MemoryClock::start(numbers(alloc, &[now])?))
}

/// The list of one item.
fn alone<T: Drop>(alloc: Global, item: T) -> Result<Row<T>, Memory> {
    let mut row = Row::empty(alloc);
    row.push(item)?;
    Ok(row)
}

fn selector(alloc: Global, text: &[u8]) -> Result<Selector, Stop> {
    match Selector::parse(alloc, text) {
        Ok(selector) => Ok(selector),
        Err(_) => Err(Stop::Selector),
    }
}

/// The selectors of the entry's callers.
fn caller(alloc: Global) -> Result<Selectors, Stop> {
    let selector = selector(alloc, b"unix:uid:1")?;
    let items = alone(alloc, selector)?;
    match Selectors::from_list(alloc, items.into_vec(), 1) {
        Ok(selectors) => Ok(selectors),
        Err(_) => Err(Stop::Selector),
    }
}

/// An attestor that answers the selectors of the entry's callers, but at the calls of these numbers.
fn attestor(alloc: Global, failing: &[u64]) -> Result<MemoryAttestor, Stop> {
    let caller = caller(alloc)?;
    let answers = alone(alloc, caller)?;
    let failing = numbers(alloc, failing)?;
    Ok(MemoryAttestor::start(alloc, Script::start(answers, failing)))
}

/// Tokens of these texts, from 100 to 200.
fn tokens(alloc: Global, texts: &[&[u8]]) -> Result<Row<JwtToken>, Memory> {
    let mut tokens = Row::empty(alloc);
    for text in texts {
        tokens.push(JwtToken {
            token: Octets::from_slice(alloc, text)?,
            issued_at: 100,
            expires_at: 200,
        })?;
    }
    Ok(tokens)
}

/// A signer that gives the token t and then u, but at the calls of these numbers.
fn signer(alloc: Global, failing: &[u64]) -> Result<MemorySigner, Memory> {
    let tokens = tokens(alloc, &[b"t", b"u"])?;
    let script = Script::start(tokens, numbers(alloc, failing)?);
    let identities = Script::start(Row::empty(alloc), Row::empty(alloc));
    Ok(MemorySigner::start(alloc, identities, script))
}

/// A link that gives these pieces, each joined from its parts, with room for 64 answers and 4,096 bytes. A
/// piece without bytes is idle.
pub fn plan(alloc: Global, pieces: &[&[&[u8]]]) -> Result<LinkPlan, Memory> {
    let mut gives = Row::empty(alloc);
    for parts in pieces {
        gives.push(Heard::Piece(joined(alloc, parts)?))?;
    }
    Ok(LinkPlan::smooth(alloc, Origin::nowhere(alloc)?, gives, 64, 4096))
}

/// What stands around a link.
#[derive(Drop)]
pub struct Outside {
    pub attestor: MemoryAttestor,
    pub asks: DirectAsks<MemorySigner>,
    pub clock: MemoryClock,
}

/// An outside of this time, where the calls of these numbers fail.
pub fn memory_outside(
    alloc: Global,
    now: u64,
    unattested: &[u64],
    unsigned: &[u64],
) -> Result<Outside, Stop> {
    let attestor = attestor(alloc, unattested)?;
    let asks = DirectAsks {
        signer: signer(alloc, unsigned)?,
    };
    let clock = times(alloc, now)?;
    Ok(Outside {
        attestor,
        asks,
        clock,
    })
}
