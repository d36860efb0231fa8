//! Connections of one seat over memory, whose asks go over the posts.

ghost use Rattle.std.specs.Prelude.{None};

use super::Step;
use crate::connection_tests::desks::open_all;
use crate::connection_tests::outside::{Outside, are_parts, memory_outside, numbers, plan};
use ask_mail::TokenAsks;
use std::alloc::Global;
use std::marker::Model;
use std::mem;
use std::process::Abort;
use std::sync::{Mutex, Wait};
use wl_desk::Desk;
use wl_edge::{
    EdgeFault, MemoryBell, MemoryClock, MemoryLink, MemorySigner, OpenGate, Script, Signer,
    SignerCall,
};
use wl_entry::{Ask, Free, JwtToken, Signed};
use wl_octets::{Octets, Row};
use wl_publish::Pass;
use wl_worker::{AskHub, Buffer, RoundEnd, SeatAsks, SeatPass, Served, TicketQueue, sign_next};

/// A PING, and its answer.
pub const PING: &[u8] = b"\x00\x00\x08\x06\x00\x00\x00\x00\x00pingping";

pub const PONG: &[u8] = b"\x00\x00\x08\x06\x01\x00\x00\x00\x00pingping";

/// The head of a FetchJWTSVID call on stream 1, and a request for the audience y.
pub const TOKEN_CALL_Y: &[u8] =
    b"\x00\x00g\x01\x04\x00\x00\x00\x01\x83\x86\x04\x1f/SpiffeWorkloadAPI/FetchJWTSVID\x01\x09localhost\x0f\x10\x10application/grpc\x00\x02te\x08trailers\x00\x12workload.spiffe.io\x04true\x00\x00\x08\x00\x01\x00\x00\x00\x01\x00\x00\x00\x00\x03\x0a\x01y";

/// The message of the token u on stream 1, and status 0.
pub const TOKEN_U: &[u8] =
    b"\x00\x00\x1a\x00\x00\x00\x00\x00\x01\x00\x00\x00\x00\x15\x0a\x13\x0a\x0espiffe://a.b/w\x12\x01u\x00\x00\x0f\x01\x05\x00\x00\x00\x01\x00\x0bgrpc-status\x010";

/// A connection with its link, and a pass of its own.
#[derive(Drop)]
struct Caller {
    link: MemoryLink,
    served: Served,
    buffer: Buffer,
    pass: SeatPass<Free>,
}

impl Model for Caller {
    ghost use Rattle.wl_worker.specs.Served.{HasSeenLast};
    ghost use Rattle.wl_session.specs.Sessions.{SessionState};

    ghost Value = { SessionState };

    ghost view = { λ c. c.served.session };

    ghost invariant = { λ c. HasSeenLast c.pass.seen c.served.session };
}

impl Caller {
    /// A round of the connection of this number.
    fn round<R: Wait>(
        &mut self,
        rt: &R,
        desk: &Mutex<Desk<Free>>,
        connection: u64,
        asks: &mut SeatAsks<Free>,
        outside: &mut Outside,
    ) -> RoundEnd {
        self.served.round(
            rt,
            desk,
            &mut self.pass,
            &mut self.link,
            &mut outside.attestor,
            connection,
            asks,
            &mut outside.clock,
            &OpenGate,
            &mut self.buffer,
        )
    }
}

/// A signer that gives nothing.
fn idle_signer(alloc: Global) -> MemorySigner {
    let identities = Script::start(Row::empty(alloc), Row::empty(alloc));
    let tokens = Script::start(Row::empty(alloc), Row::empty(alloc));
    MemorySigner::start(alloc, identities, tokens)
}

/// A signer in memory during whose calls a connection ends.
#[derive(Drop)]
struct Leaving<'a, R: Wait> {
    rt: &'a R,
    asks: &'a SeatAsks<Free>,
    connection: u64,
    signer: MemorySigner,
}

impl<'a, R: Wait> Signer for Leaving<'a, R> {
    type V = Free;

    ghost calls = { λ s. None };

    ghost faults = { λ s. 0 };

    fn sign_x509(&mut self, _ask: &Ask) -> Result<Signed, EdgeFault> {
        Err(EdgeFault::Memory)
    }

    fn sign_jwt(&mut self, ask: &Ask, audience: &[Octets]) -> Result<JwtToken, EdgeFault> {
        self.asks.forget(self.rt, self.connection);
        match self.signer.sign_jwt(ask, audience) {
            Ok(token) => Ok(token),
            Err(_) => Err(EdgeFault::Memory),
        }
    }
}

/// A signer in memory during whose calls another signer does an ask.
#[derive(Drop)]
struct Beside<'a, R: Wait> {
    rt: &'a R,
    alloc: Global,
    desk: &'a Mutex<Desk<Free>>,
    queue: &'a TicketQueue<Free>,
    bells: &'a [MemoryBell],
    signer: MemorySigner,
    other: MemorySigner,
    clock: MemoryClock,
}

impl<'a, R: Wait> Signer for Beside<'a, R> {
    type V = Free;

    ghost calls = { λ s. None };

    ghost faults = { λ s. 0 };

    fn sign_x509(&mut self, _ask: &Ask) -> Result<Signed, EdgeFault> {
        Err(EdgeFault::Memory)
    }

    fn sign_jwt(&mut self, ask: &Ask, audience: &[Octets]) -> Result<JwtToken, EdgeFault> {
        sign_next(
            self.rt,
            self.alloc,
            self.desk,
            self.queue,
            &mut self.other,
            &mut self.clock,
            self.bells,
        );
        match self.signer.sign_jwt(ask, audience) {
            Ok(token) => Ok(token),
            Err(_) => Err(EdgeFault::Memory),
        }
    }
}

/// A signer that fails, and counts its calls.
#[derive(Drop)]
struct Failing {
    faults: u64,
}

impl Signer for Failing {
    type V = Free;

    ghost calls = { λ s. None };

    ghost faults = { λ s. s.faults };

    fn sign_x509(&mut self, _ask: &Ask) -> Result<Signed, EdgeFault> {
        self.faults = self.faults.saturating_add(1);
        Err(EdgeFault::Failed)
    }

    fn sign_jwt(&mut self, _ask: &Ask, _audience: &[Octets]) -> Result<JwtToken, EdgeFault> {
        self.faults = self.faults.saturating_add(1);
        Err(EdgeFault::Failed)
    }
}

/// The connections of one seat, numbered in their order, and all that is around them.
/// Whether a signer was called once, for a token for this audience.
fn asked_once(calls: &[SignerCall], audience: &[u8]) -> bool {
    match calls {
        [SignerCall::Jwt(_, audiences, _)] => match audiences.as_slice() {
            [one] => one.as_slice() == audience,
            _ => false,
        },
        _ => false,
    }
}

pub struct Callers {
    alloc: Global,
    desk: Mutex<Desk<Free>>,
    callers: Vec<Caller>,
    asks: SeatAsks<Free>,
    queue: TicketQueue<Free>,
    outside: Outside,
    bells: [MemoryBell; 1],
}

fn start_caller(
    rt: &impl Abort,
    alloc: Global,
    socket: u32,
    pieces: &[&[&[u8]]],
    pass: Option<Pass<Free>>,
) -> Caller {
    let mut plan = plan(alloc, pieces).expect(rt, "memory");
    plan.origin.socket = socket;
    Caller {
        link: MemoryLink::start(alloc, plan).expect(rt, "memory"),
        served: Served::start(alloc).expect(rt, "memory"),
        buffer: Buffer::new(alloc).expect(rt, "memory"),
        pass: SeatPass::new(alloc, pass.expect(rt, "a pass")),
    }
}

impl Callers {
    /// Connections, three at most, at 100, with one signer of the tokens t and u, where there may be two. Each comes over
    /// a link from this socket, of two, that gives these pieces.
    pub fn start<R: Wait + Abort>(rt: &R, alloc: Global, links: &[(u32, &[&[&[u8]]])]) -> Callers {
        let hub = AskHub::start(alloc, 1, 2, 2).expect(rt, "memory");
        let asks = SeatAsks::start(alloc, &hub, 0).expect(rt, "memory");
        let outside = memory_outside(alloc, 100, &[], &[]).expect(rt, "an outside");
        let (desk, mut passes) = open_all(rt, alloc, 1).expect(rt, "a desk");
        let mut callers = Vec::new(alloc);
        for (socket, pieces) in links {
            let next = start_caller(rt, alloc, *socket, pieces, passes.pop());
            callers.push(next).expect(rt, "memory");
        }
        Callers {
            alloc,
            desk,
            callers,
            asks,
            queue: TicketQueue::start(alloc, hub),
            outside,
            bells: [MemoryBell::start()],
        }
    }

    /// A round of the connection of this number.
    fn round<R: Wait + Abort>(&mut self, rt: &R, connection: u64) -> RoundEnd {
        let caller = self
            .callers
            .get_mut(connection as usize)
            .expect(rt, "a connection");
        let (desk, asks) = (&self.desk, &mut self.asks);
        caller.round(rt, desk, connection, asks, &mut self.outside)
    }

    /// A signer does so many asks.
    fn sign<R: Wait>(&mut self, rt: &R, count: u64) {
        let signer = &mut self.outside.asks.signer;
        let clock = &mut self.outside.clock;
        let (desk, queue) = (&self.desk, &self.queue);
        for _ in 0..count {
            sign_next(rt, self.alloc, desk, queue, signer, clock, &self.bells);
        }
    }

    /// A signer does one ask, while this connection ends.
    fn sign_while_leaving<R: Wait>(&mut self, rt: &R, connection: u64) {
        let mut leaving = Leaving {
            rt,
            asks: &self.asks,
            connection,
            signer: mem::replace(&mut self.outside.asks.signer, idle_signer(self.alloc)),
        };
        let clock = &mut self.outside.clock;
        let (desk, queue) = (&self.desk, &self.queue);
        sign_next(
            rt,
            self.alloc,
            desk,
            queue,
            &mut leaving,
            clock,
            &self.bells,
        );
        self.outside.asks.signer = leaving.signer;
    }

    /// A signer does one ask, and while it does, another does one. Asserts for how many audiences, of this text each, the
    /// other was asked.
    fn sign_beside<R: Wait + Abort>(&mut self, rt: &R, audience: &[u8]) {
        let outside = memory_outside(self.alloc, 100, &[], &[]).expect(rt, "an outside");
        let mut beside = Beside {
            rt,
            alloc: self.alloc,
            desk: &self.desk,
            queue: &self.queue,
            bells: &self.bells,
            signer: mem::replace(&mut self.outside.asks.signer, idle_signer(self.alloc)),
            other: outside.asks.signer,
            clock: outside.clock,
        };
        let clock = &mut self.outside.clock;
        let (desk, queue) = (&self.desk, &self.queue);
        sign_next(rt, self.alloc, desk, queue, &mut beside, clock, &self.bells);
        assert!(rt; asked_once(beside.other.calls(), audience));
        self.outside.asks.signer = beside.signer;
    }

    /// A signer fails at one ask, from 100 to 110.
    fn sign_slowly<R: Wait + Abort>(&mut self, rt: &R) {
        let mut failing = Failing { faults: 0 };
        let times = numbers(self.alloc, &[100, 110]).expect(rt, "memory");
        let mut clock = MemoryClock::start(times);
        let (desk, queue) = (&self.desk, &self.queue);
        sign_next(
            rt,
            self.alloc,
            desk,
            queue,
            &mut failing,
            &mut clock,
            &self.bells,
        );
        assert_eq!(rt; failing.faults, 1);
    }

    /// Asserts what the link of this connection took: these, one after the other, and nothing else.
    fn took(&self, rt: &impl Abort, connection: usize, parts: &[&[u8]]) {
        let caller = self.callers.get(connection).expect(rt, "a connection");
        assert!(rt;
            are_parts(caller.link.took(), parts),
            "connection {connection}"
        );
    }

    /// Takes a step, and asserts what comes of it.
    pub fn take<R: Wait + Abort>(&mut self, rt: &R, step: &Step) {
        match *step {
            Step::Round(connection, end) => assert_eq!(rt; self.round(rt, connection), end),
            Step::Took(connection, parts) => self.took(rt, connection, parts),
            Step::Sign(count) => self.sign(rt, count),
            Step::SignWhileLeaving(connection) => self.sign_while_leaving(rt, connection),
            Step::SignBeside(audience) => self.sign_beside(rt, audience),
            Step::SignSlowly => self.sign_slowly(rt),
            Step::TellTime(now) => self.queue.tell_time(rt, now),
            Step::Signed(calls) => assert_eq!(rt; self.outside.asks.signer.calls().len(), calls),
            Step::Rang(rings) => assert_eq!(rt; self.bells[0].rings(), rings),
        }
    }

    /// All is let go.
    pub fn end<R: Wait>(self, rt: &R) {
        let Callers {
            alloc: _,
            desk,
            callers: _,
            asks: _,
            queue,
            outside: _,
            bells: _,
        } = self;
        queue.end();
        desk.into_inner().end(rt);
    }
}
