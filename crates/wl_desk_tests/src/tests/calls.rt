//! Each call of a desk, with its note.

use super::{Stop, document, identity, last_ticket, number_in, open};
use spiffe_id::TrustDomain;
use std::alloc::{AllocGlobal, Global};
use std::sync::Wait;
use std::test::Fail;
use svid_cache::Installed;
use wl_desk::Desk;
use wl_document::read_state;
use wl_entry::{Ask, Free, JwtToken};
use wl_manager::Keeping;
use wl_octets::{Memory, Octets, Row};
use wl_publish::Pass;
use wl_store::Ticket;

impl From<Stop> for Fail {
    fn from(stop: Stop) -> Fail {
        match stop {
            Stop::Memory => Fail::from("out of memory"),
            Stop::Document => Fail::from("the document has a fault"),
            Stop::NoTicket => Fail::from("no ticket"),
        }
    }
}

/// Takes a ticket back at 100, with an identity from 100 to 200, and tells the number of the note.
fn sign<R: Wait>(
    rt: &R,
    alloc: Global,
    desk: &mut Desk<Free>,
    ticket: Ticket,
) -> Result<(Installed, Option<u64>), Stop> {
    match identity(alloc, 1, 100, 200) {
        Ok(signed) => {
            let (installed, note) = desk.signed(rt, alloc, ticket, signed, 100)?;
            Ok((installed, number_in(note)))
        }
        Err(stop) => {
            desk.failed(ticket);
            Err(stop)
        }
    }
}

/// Takes a document in which the entry has this id, and tells the number of the note.
fn sync<R: Wait>(
    rt: &R,
    alloc: Global,
    desk: &mut Desk<Free>,
    id: &str,
) -> Result<Option<u64>, Stop> {
    let document = document(alloc, id, 0)?;
    match desk.sync(rt, alloc, document.as_bytes()) {
        Ok(note) => Ok(number_in(note)),
        Err(_) => Err(Stop::Document),
    }
}

/// Takes what this document says, read with this domain as the own one, if any; and tells the number of the note.
fn sync_state<R: Wait>(
    rt: &R,
    alloc: Global,
    desk: &mut Desk<Free>,
    document: &[u8],
    domain: Option<&TrustDomain>,
) -> Result<Option<u64>, Stop> {
    match read_state(alloc, document, domain) {
        Ok(state) => Ok(number_in(desk.sync_state(rt, alloc, state)?)),
        Err(_) => Err(Stop::Document),
    }
}

/// The one ticket that is due.
fn claim<R: Wait>(rt: &R, alloc: Global, desk: &mut Desk<Free>, now: u64) -> Result<Ticket, Stop> {
    let (tickets, _) = desk.claim(rt, alloc, now)?;
    last_ticket(tickets)
}

/// Keeps a token for this ask, and tells whether none was found before and one is found then.
fn keeps_token(alloc: Global, desk: &mut Desk<Free>, ask: &Ask) -> Result<bool, Stop> {
    let audience = [Octets::from_slice(alloc, b"x")?];
    let none = desk.token(alloc, ask, &audience, 100)?.is_none();
    let token = JwtToken {
        token: Octets::from_slice(alloc, b"t")?,
        issued_at: 100,
        expires_at: 200,
    };
    let kept = desk.keep_token(alloc, ask, &audience, token, 100)?;
    let found = desk.token(alloc, ask, &audience, 100)?.is_some();
    Ok(none && kept == Keeping::Kept && found)
}

/// What became of an identity, in a word.
fn word(installed: &Installed) -> &'static str {
    match installed {
        Installed::Kept => "kept",
        Installed::NoSuchAsk => "unknown-ask",
        Installed::Spent => "spent",
        _ => "refused",
    }
}

/// A ticket of the desk's one entry comes back signed, and a token is kept; a later ticket comes back without an identity.
fn signs_and_fails<R: Wait>(rt: &R, alloc: Global, desk: &mut Desk<Free>) -> Result<String, Stop> {
    let first = desk.note(rt)?.number();
    let ticket = claim(rt, alloc, desk, 100)?;
    let ask = match ticket.ask.copy(alloc) {
        Ok(ask) => ask,
        Err(Memory) => {
            desk.failed(ticket);
            return Err(Stop::Memory);
        }
    };
    let (installed, note) = sign(rt, alloc, desk, ticket)?;
    let is_kept = keeps_token(alloc, desk, &ask)?;
    let ticket = claim(rt, alloc, desk, 150)?;
    desk.failed(ticket);
    let last = desk.note(rt)?.number();
    Ok(format!(in alloc;
        "{first}, {} {note:?}, token {is_kept}, failed, {last}",
        word(&installed)
    )?)
}

/// The entry gets another id while its ticket is out; the same document again, and one with a fault.
fn changes_the_ask<R: Wait>(rt: &R, alloc: Global, desk: &mut Desk<Free>) -> Result<String, Stop> {
    let ticket = claim(rt, alloc, desk, 100)?;
    let synced = match sync(rt, alloc, desk, "v") {
        Ok(note) => note,
        Err(stop) => {
            desk.failed(ticket);
            return Err(stop);
        }
    };
    let (installed, note) = sign(rt, alloc, desk, ticket)?;
    let again = sync(rt, alloc, desk, "v")?;
    let is_refused = sync(rt, alloc, desk, "%").is_err();
    let last = desk.note(rt)?.number();
    Ok(format!(in alloc;
        "{synced:?}, {} {note:?}, {again:?}, refused {is_refused}, {last}",
        word(&installed)
    )?)
}

/// A document of another domain.
const FOREIGN: &[u8] =
    b"{\"version\":1,\"trust_domain\":\"c.d\",\"bundles\":[{\"trust_domain\":\"c.d\",\"x509\":\"Aw==\"}],\"entries\":[]}";

/// The entry gets another id, by a document that is read first; the same again, in both ways; and a document of another
/// domain, read with the desk's domain as the own one, and with none.
fn takes_what_was_read<R: Wait>(
    rt: &R,
    alloc: Global,
    desk: &mut Desk<Free>,
) -> Result<String, Stop> {
    let own = match desk.domain().copy(alloc) {
        Ok(own) => own,
        Err(Memory) => return Err(Stop::Memory),
    };
    let document = document(alloc, "v", 0)?;
    let taken = sync_state(rt, alloc, desk, document.as_bytes(), Some(&own))?;
    let again = sync_state(rt, alloc, desk, document.as_bytes(), Some(&own))?;
    let whole = sync(rt, alloc, desk, "v")?;
    let is_refused = sync_state(rt, alloc, desk, FOREIGN, Some(&own)).is_err();
    let foreign = sync_state(rt, alloc, desk, FOREIGN, None)?;
    let is_kept = *desk.domain() == own;
    Ok(format!(in alloc;
        "{taken:?}, {again:?}, {whole:?}, refused {is_refused}, {foreign:?}, domain {is_kept}"
    )?)
}

/// The number that the first pass reads.
fn number_read(passes: Row<Pass<Free>>) -> Option<u64> {
    let mut pass = passes.into_vec().pop()?;
    match pass.read() {
        Ok(published_snapshot) => Some(published_snapshot.snapshot().number),
        Err(Memory) => None,
    }
}

#[test]
fn desk_calls(rt: HostRuntime) -> Result<(), Fail> {
    let alloc = rt.alloc();
    let (mut desk, passes) = open(&rt, alloc, 1)?;
    let said = signs_and_fails(&rt, alloc, &mut desk);
    let read = number_read(passes);
    desk.seat_ended();
    desk.seat_ended();
    let seats = desk.seats();
    desk.end(&rt);
    assert_eq!(rt; said?.as_str(), "0, kept Some(1), token true, failed, 1");
    assert_eq!(rt; read, Some(1));
    assert_eq!(rt; seats, 0);
    Ok(())
}

#[test]
fn desk_calls_of_a_changed_ask(rt: HostRuntime) -> Result<(), Fail> {
    let (mut desk, _) = open(&rt, rt.alloc(), 1)?;
    let said = changes_the_ask(&rt, rt.alloc(), &mut desk);
    desk.end(&rt);
    assert_eq!(rt;
        said?.as_str(),
        "Some(1), unknown-ask None, None, refused true, 1"
    );
    Ok(())
}

#[test]
fn desk_takes_what_was_read(rt: HostRuntime) -> Result<(), Fail> {
    let (mut desk, _) = open(&rt, rt.alloc(), 1)?;
    let said = takes_what_was_read(&rt, rt.alloc(), &mut desk);
    desk.end(&rt);
    assert_eq!(rt;
        said?.as_str(),
        "Some(1), None, None, refused true, Some(2), domain true"
    );
    Ok(())
}
