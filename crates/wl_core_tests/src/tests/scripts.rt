//! Events of the worked transcripts.

use std::alloc::Global;
use std::process::Abort;
use wl_core::Event;
use wl_entry::{JwtToken, Signed};
use wl_octets::Octets;
use wl_selector::{Selector, Selectors};

/// An event, as a table has it.
#[derive(Clone, Copy)]
pub enum Step {
    Sync(&'static [u8]),
    Claim(u64),
    /// A ticket, a chain, a key, when it begins and ends, and the time.
    Signed(u64, &'static [u8], &'static [u8], u64, u64, u64),
    Failed(u64),
    Join(u32, &'static [u8]),
    Name(u32, &'static [u8]),
    NameFail(u32),
    Feed(u32, &'static [&'static [u8]]),
    Turn(u32),
    /// A time, a token, and when it begins and ends.
    Token(u32, u64, &'static [u8], u64, u64),
    TokenFail(u32, u64),
    Close(u32),
}

/// The set of this selector alone.
pub fn selectors(rt: &impl Abort, alloc: Global, selector: &[u8]) -> Selectors {
    let mut items = Vec::new(alloc);
    let selector = Selector::parse(alloc, selector).expect(rt, "a selector");
    items.push(selector).expect(rt, "memory");
    Selectors::from_list(alloc, items, 64).expect(rt, "selectors")
}

/// These bytes, one part after the other.
fn joined(rt: &impl Abort, alloc: Global, parts: &[&[u8]]) -> Octets {
    let mut bytes = Octets::empty(alloc);
    for part in parts {
        bytes.push_slice(part).expect(rt, "memory");
    }
    bytes
}

pub fn octets(rt: &impl Abort, alloc: Global, bytes: &[u8]) -> Octets {
    Octets::from_slice(alloc, bytes).expect(rt, "memory")
}

impl Step {
    /// The event.
    pub fn event(self, rt: &impl Abort, alloc: Global) -> Event {
        match self {
            Step::Sync(document) => Event::Sync {
                document: octets(rt, alloc, document),
            },
            Step::Claim(now) => Event::Claim { now },
            Step::Signed(ticket, chain, key, not_before, not_after, now) => Event::Signed {
                ticket,
                signed: Signed {
                    chain: octets(rt, alloc, chain),
                    key: octets(rt, alloc, key),
                    not_before,
                    not_after,
                },
                now,
            },
            Step::Failed(ticket) => Event::Failed { ticket },
            step => step.event_of_connection(rt, alloc),
        }
    }

    /// The event of a step of a connection.
    fn event_of_connection(self, rt: &impl Abort, alloc: Global) -> Event {
        match self {
            Step::Join(conn, selector) => Event::Join {
                conn,
                selectors: selectors(rt, alloc, selector),
            },
            Step::Name(conn, selector) => Event::Name {
                conn,
                selectors: Some(selectors(rt, alloc, selector)),
            },
            Step::NameFail(conn) => Event::Name {
                conn,
                selectors: None,
            },
            Step::Feed(conn, parts) => Event::Feed {
                conn,
                piece: joined(rt, alloc, parts),
            },
            Step::Turn(conn) => Event::Turn { conn },
            Step::Token(conn, now, token, issued_at, expires_at) => Event::Token {
                conn,
                now,
                signed: Some(JwtToken {
                    token: octets(rt, alloc, token),
                    issued_at,
                    expires_at,
                }),
            },
            Step::TokenFail(conn, now) => Event::Token {
                conn,
                now,
                signed: None,
            },
            Step::Close(conn) => Event::Close { conn },
            _ => panic!(rt; "a step of no connection"),
        }
    }
}
