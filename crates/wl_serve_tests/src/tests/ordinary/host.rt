//! The node's document, identities and links.

use super::super::hosts::{Stop, attested, numbers, push, smooth_link};
use super::Kept;
use super::answers::{digits, put_chain, put_key, put_often};
use super::bytes::{
    BUNDLE, CLIENTS, CONFIGURATION, Client, DOMAINS, Domain, ENTRIES, FIRST, NEXT, PIECES, SOCKETS,
    Signing,
};
use super::rows::Rows;
use std::alloc::Global;
use std::rt::Clock;
use std::sync::Wait;
use std::thread::Threads;
use wl_edge::{ListenerPlan, Origin, Script};
use wl_entry::Signed;
use wl_octets::{Memory, Octets, Row};
use wl_serve::{HostPlan, MemoryHost, SeatPlan, ServeEnd, serve};

/// For how many bytes each link has room.
const ROOM: usize = 200_000;

/// What stands before an item of an array.
fn comma(place: usize) -> &'static [u8] {
    if place == 0 { b"" } else { b"," }
}

/// Puts the end of a domain's bundles in the document.
fn put_jwks(into: &mut Octets, byte: u8) -> Result<(), Memory> {
    into.push_slice(b"\",\"jwks\":\"")?;
    put_often(into, &[byte; 10], BUNDLE)?;
    into.push_slice(b"\"}")
}

/// Puts the bundles of a domain: three bytes of the one are four in base64.
fn put_domain(into: &mut Octets, domain: &Domain) -> Result<(), Memory> {
    into.push_slice(b"{\"trust_domain\":\"")?;
    into.push_slice(domain.name)?;
    into.push_slice(b"\",\"x509\":\"")?;
    put_often(into, domain.base64, 10 * BUNDLE / 3)?;
    put_jwks(into, domain.jwt)
}

fn put_domains(into: &mut Octets) -> Result<(), Memory> {
    for (place, domain) in DOMAINS.iter().enumerate() {
        into.push_slice(comma(place))?;
        put_domain(into, domain)?;
    }
    Ok(())
}

/// Puts the end of an entry, for callers over its socket.
fn put_caller(into: &mut Octets, number: u8) -> Result<(), Memory> {
    into.push_slice(b"\",\"selectors\":[\"unix:uid:")?;
    into.push_slice(&[b'0' + number % SOCKETS])?;
    into.push_slice(b"\"],\"federates_with\":[\"c.d\",\"e.f\"]}")
}

fn put_entry(into: &mut Octets, number: u8) -> Result<(), Memory> {
    into.push_slice(b"{\"id\":\"e")?;
    into.push_slice(&digits(number))?;
    into.push_slice(b"\",\"spiffe_id\":\"spiffe://a.b/w")?;
    into.push_slice(&digits(number))?;
    put_caller(into, number)
}

fn put_entries(into: &mut Octets) -> Result<(), Memory> {
    for number in 0..ENTRIES {
        into.push_slice(comma(number as usize))?;
        put_entry(into, number)?;
    }
    Ok(())
}

fn put_document(into: &mut Octets) -> Result<(), Memory> {
    into.push_slice(b"{\"version\":1,\"trust_domain\":\"a.b\",\"bundles\":[")?;
    put_domains(into)?;
    into.push_slice(b"],\"entries\":[")?;
    put_entries(into)?;
    into.push_slice(b"]}")
}

/// The document, again and again.
fn documents(alloc: Global) -> Result<Script<Octets>, Stop> {
    let mut document = Octets::empty(alloc);
    put_document(&mut document)?;
    let mut answers = Row::empty(alloc);
    push(&mut answers, document)?;
    Ok(Script::start(answers, Row::empty(alloc)))
}

/// The identity of an entry.
fn signed(alloc: Global, number: u8, signing: &Signing) -> Result<Signed, Memory> {
    let mut chain = Octets::empty(alloc);
    put_chain(&mut chain, number, signing)?;
    let mut key = Octets::empty(alloc);
    put_key(&mut key, signing)?;
    Ok(Signed {
        chain,
        key,
        not_before: signing.from,
        not_after: signing.to,
    })
}

/// Puts an identity of each entry.
fn put_signed(alloc: Global, into: &mut Row<Signed>, signing: &Signing) -> Result<(), Memory> {
    for number in 0..ENTRIES {
        into.push(signed(alloc, number, signing)?)?;
    }
    Ok(())
}

/// An identity of each entry, and then another one of each.
fn identities(alloc: Global) -> Result<Script<Signed>, Memory> {
    let mut answers = Row::empty(alloc);
    put_signed(alloc, &mut answers, &FIRST)?;
    put_signed(alloc, &mut answers, &NEXT)?;
    Ok(Script::start(answers, Row::empty(alloc)))
}

/// How often an ask for an identity reads the clock: before it, as its answer is judged, and after it.
const READS: usize = 3;

/// The beginning of the first identities for each of them, then that of the next ones.
fn signer_times(alloc: Global) -> Result<Row<u64>, Memory> {
    let mut times = Vec::new(alloc);
    for _ in 0..ENTRIES as usize * READS {
        times.push(FIRST.from)?;
    }
    times.push(NEXT.from)?;
    Ok(Row::from_vec(times))
}

/// A listener of one link.
fn listener(alloc: Global) -> Result<ListenerPlan, Stop> {
    let mut links = Row::empty(alloc);
    push(
        &mut links,
        smooth_link(alloc, Origin::nowhere(alloc)?, &PIECES, ROOM)?,
    )?;
    Ok(ListenerPlan {
        links,
        idle: Row::empty(alloc),
        failing: Row::empty(alloc),
        answers: 64,
    })
}

fn seat(alloc: Global, client: &Client) -> Result<SeatPlan, Stop> {
    Ok(SeatPlan {
        listener: listener(alloc)?,
        selectors: attested(alloc, client.selector, &[])?,
        times: numbers(alloc, &[FIRST.from])?,
        failing: Row::empty(alloc),
    })
}

/// The seats, that of the first client last.
fn seats(alloc: Global) -> Result<Vec<SeatPlan>, Stop> {
    let mut seats = Row::empty(alloc);
    for client in CLIENTS.iter().rev() {
        push(&mut seats, seat(alloc, client)?)?;
    }
    Ok(seats.into_vec())
}

/// Serves the node, and gives its end and what was prepared.
pub fn serve_node<'a, R: Threads + Wait + Sync + Clock>(
    rt: &'a R,
    alloc: Global,
) -> Result<(ServeEnd, Kept<'a, R>), Stop> {
    let mut host = MemoryHost::start(Some(HostPlan {
        documents: documents(alloc)?,
        tokens: Script::start(Row::empty(alloc), Row::empty(alloc)),
        identities: identities(alloc)?,
        puller_times: numbers(alloc, &[FIRST.from])?,
        // two answers for each look
        keeper_times: numbers(alloc, &[FIRST.from, FIRST.from, NEXT.from])?,
        signer_times: signer_times(alloc)?,
        gate: Rows::start(rt),
        is_shut: false,
        seats: seats(alloc)?,
    }));
    let mut kept = None;
    let end = serve(rt, alloc, CONFIGURATION, &mut host, &mut kept);
    Ok((end, kept))
}
