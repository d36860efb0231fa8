//! A client against a session of the core, in memory: what it hears of each method.

use crate::tests::apply;
use crate::tests::scripts::{octets, selectors};
use grpc_wire::Method;
use std::alloc::{AllocGlobal, Global};
use std::process::Abort;
use wl_client::{Client, Heard};
use wl_core::{Event, Line, World};
use wl_entry::{JwtToken, Signed};
use wl_octets::{Octets, Row};

/// One entry, for the caller of `unix:uid:1`, and a bundle of both kinds.
const DOC: &[u8] =
    b"{\"version\":1,\"trust_domain\":\"a.b\",\"bundles\":[{\"trust_domain\":\"a.b\",\"x509\":\"Aw==\",\"jwks\":\"k\"}],\"entries\":[{\"id\":\"e1\",\"spiffe_id\":\"spiffe://a.b/w\",\"selectors\":[\"unix:uid:1\"]}]}";

/// The connection of the caller.
const CONN: u32 = 0;

/// A call, and what is heard of it.
#[derive(Clone, Copy)]
struct Case {
    name: &'static str,
    selector: &'static [u8],
    method: Method,
    message: &'static [u8],
    heard: &'static [u8],
}

/// Messages as `workload.proto` and `health.proto` spell them.
const CASES: [Case; 8] = [
    Case {
        name: "FetchX509SVID",
        selector: b"unix:uid:1",
        method: Method::X509Svid,
        message: b"",
        heard: b"head;message \x0a\x19\x0a\x0espiffe://a.b/w\x12\x01\x01\x1a\x01\x02\x22\x01\x03;",
    },
    Case {
        name: "FetchX509Bundles",
        selector: b"unix:uid:1",
        method: Method::X509Bundles,
        message: b"",
        heard: b"head;message \x12\x11\x0a\x0cspiffe://a.b\x12\x01\x03;",
    },
    Case {
        name: "FetchJWTBundles",
        selector: b"unix:uid:1",
        method: Method::JwtBundles,
        message: b"",
        heard: b"head;message \x0a\x11\x0a\x0cspiffe://a.b\x12\x01k;",
    },
    Case {
        name: "FetchJWTSVID",
        selector: b"unix:uid:1",
        method: Method::JwtSvid,
        message: b"\x0a\x01x",
        heard: b"head;message \x0a\x13\x0a\x0espiffe://a.b/w\x12\x01t;status 0 ;",
    },
    Case {
        name: "Check",
        selector: b"unix:uid:1",
        method: Method::HealthCheck,
        message: b"",
        heard: b"head;message \x08\x01;status 0 ;",
    },
    Case {
        name: "Watch",
        selector: b"unix:uid:1",
        method: Method::HealthWatch,
        message: b"",
        heard: b"head;message \x08\x01;",
    },
    Case {
        name: "FetchX509SVID of a caller without an entry",
        selector: b"unix:uid:2",
        method: Method::X509Svid,
        message: b"",
        heard: b"status 7 no identity issued;",
    },
    Case {
        name: "FetchJWTSVID without an audience",
        selector: b"unix:uid:1",
        method: Method::JwtSvid,
        message: b"",
        heard: b"status 3 audience must be specified;",
    },
];

/// The ticket of the entry comes back with an identity.
fn signed(rt: &impl Abort, alloc: Global) -> Event {
    Event::Signed {
        ticket: 1,
        signed: Signed {
            chain: octets(rt, alloc, b"\x01"),
            key: octets(rt, alloc, b"\x02"),
            not_before: 100,
            not_after: 200,
        },
        now: 100,
    }
}

/// The signer answers with a token.
fn token(rt: &impl Abort, alloc: Global) -> Event {
    Event::Token {
        conn: CONN,
        now: 100,
        signed: Some(JwtToken {
            token: octets(rt, alloc, b"t"),
            issued_at: 100,
            expires_at: 200,
        }),
    }
}

/// A world whose entry has an identity, and to which a caller has come.
fn world(rt: &impl Abort, alloc: Global, selector: &[u8]) -> World {
    let mut world = World::start(alloc, DOC).expect(rt, "a document");
    let mut said = Row::empty(alloc);
    apply(rt, &mut world, Event::Claim { now: 100 }, &mut said);
    apply(rt, &mut world, signed(rt, alloc), &mut said);
    let join = Event::Join {
        conn: CONN,
        selectors: selectors(rt, alloc, selector),
    };
    apply(rt, &mut world, join, &mut said);
    world
}

/// The caller, and what it has heard so far.
#[derive(Drop)]
struct Caller {
    client: Client,
    heard: Row<Heard>,
}

impl Caller {
    /// A caller that has not sent anything yet.
    fn start(rt: &impl Abort, alloc: Global, case: &Case) -> Caller {
        assert!(rt; case.message.len() <= 16_000);
        Caller {
            client: Client::start(alloc, case.method, case.message).expect(rt, "memory"),
            heard: Row::empty(alloc),
        }
    }

    /// Hears what was written, and gives what is to be sent for it.
    fn hear(&mut self, rt: &impl Abort, alloc: Global, said: &[Line]) -> Octets {
        let mut out = Octets::empty(alloc);
        for line in said {
            if let Line::Out { bytes, .. } = line {
                let fed = self
                    .client
                    .feed(bytes.as_slice(), &mut out, &mut self.heard);
                fed.expect(rt, "frames");
            }
        }
        out
    }

    /// An event, and what is sent for what is written after it.
    fn pass(&mut self, rt: &impl Abort, alloc: Global, world: &mut World, event: Event) -> Octets {
        let mut said = Row::empty(alloc);
        apply(rt, world, event, &mut said);
        self.hear(rt, alloc, said.as_slice())
    }

    /// Sends bytes, and then what is to be sent for each answer.
    fn send(&mut self, rt: &impl Abort, alloc: Global, world: &mut World, bytes: Octets) {
        let mut piece = bytes;
        for _ in 0..4 {
            piece = self.pass(rt, alloc, world, Event::Feed { conn: CONN, piece });
        }
    }

    /// An event, and all that is sent for it.
    fn live(&mut self, rt: &impl Abort, alloc: Global, world: &mut World, event: Event) {
        let bytes = self.pass(rt, alloc, world, event);
        self.send(rt, alloc, world, bytes);
    }
}

/// Puts these after others.
fn put(rt: &impl Abort, text: &mut Octets, parts: &[&[u8]]) {
    for part in parts {
        text.push_slice(part).expect(rt, "memory");
    }
}

/// What was told, in one text.
fn text_of(rt: &impl Abort, alloc: Global, told: &[Heard]) -> Octets {
    let mut text = Octets::empty(alloc);
    for heard in told {
        match heard {
            Heard::Head => put(rt, &mut text, &[b"head;"]),
            Heard::Message(message) => put(rt, &mut text, &[b"message ", message.as_slice(), b";"]),
            Heard::Status { code, text: why } => {
                let code = code.to_string(alloc).expect(rt, "memory");
                let parts: [&[u8]; 5] = [b"status ", code.as_bytes(), b" ", why.as_slice(), b";"];
                put(rt, &mut text, &parts);
            }
        }
    }
    text
}

/// Asserts what the caller hears of its call, after a turn and a token.
fn hears(rt: &impl Abort, alloc: Global, case: &Case) {
    let mut world = world(rt, alloc, case.selector);
    let mut caller = Caller::start(rt, alloc, case);
    let opening = octets(rt, alloc, caller.client.opening());
    caller.send(rt, alloc, &mut world, opening);
    caller.live(rt, alloc, &mut world, Event::Turn { conn: CONN });
    caller.live(rt, alloc, &mut world, token(rt, alloc));
    let heard = text_of(rt, alloc, caller.heard.as_slice());
    assert_eq!(rt; heard.as_slice(), case.heard, "{}", case.name);
}

#[test]
fn client_to_server(rt: HostRuntime) {
    for case in &CASES {
        hears(&rt, rt.alloc(), case);
    }
}
