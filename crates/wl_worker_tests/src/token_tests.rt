//! Tokens that nobody waits for: connections of a seat that ask, and signers whose answers come late or never.

mod outside;

use crate::connection_tests::frames::{
    ACK, CREDIT_8, EMPTY, GREETING, HEAD, OPENING, RESPONSE, RESPONSE_HEAD, SERVER_SETTINGS, TOKEN,
    TOKEN_CALL, UNSIGNED_ONLY,
};
use outside::{Callers, PING, PONG, TOKEN_CALL_Y, TOKEN_U};
use std::alloc::Global;
use std::process::Abort;
use std::sync::Wait;
use wl_worker::{Ended, RoundEnd};

/// What happens to connections of one seat, or has to be so.
#[derive(Clone, Copy)]
pub enum Step {
    /// A round of the connection of this number, which ends so.
    Round(u64, RoundEnd),
    /// The link of this connection took these, one after the other, and nothing else.
    Took(usize, &'static [&'static [u8]]),
    /// The signer does so many asks.
    Sign(u64),
    /// The signer does one ask, while this connection ends.
    SignWhileLeaving(u64),
    /// A signer does one ask, and while it does, another does one, for this audience.
    SignBeside(&'static [u8]),
    /// A signer fails at one ask, from 100 to 110.
    SignSlowly,
    /// The signer was called so often.
    Signed(usize),
    /// The keeper tells the time.
    TellTime(u64),
    /// The seat's bell rang so often.
    Rang(u64),
}

/// A round after which the connection goes on.
const fn on(connection: u64) -> Step {
    Step::Round(connection, RoundEnd::On)
}

/// What a caller was sent whose ask waits, whose ask failed, and who was given the token t.
const ASKED: &[&[u8]] = &[SERVER_SETTINGS, ACK, CREDIT_8];

const UNSIGNED: &[&[u8]] = &[SERVER_SETTINGS, ACK, CREDIT_8, UNSIGNED_ONLY];

const GIVEN: &[&[u8]] = &[SERVER_SETTINGS, ACK, CREDIT_8, RESPONSE_HEAD, TOKEN];

/// Takes these steps with connections over one socket, whose links give these pieces.
fn play<R: Wait + Abort>(rt: &R, alloc: Global, links: &[&[&[&[u8]]]], steps: &[Step]) {
    let mut over = Vec::new(alloc);
    for pieces in links {
        over.push((0, *pieces)).expect(rt, "memory");
    }
    play_over(rt, alloc, over.as_slice(), steps);
}

/// The same with links from these sockets.
fn play_over<R: Wait + Abort>(rt: &R, alloc: Global, links: &[(u32, &[&[&[u8]]])], steps: &[Step]) {
    let mut callers = Callers::start(rt, alloc, links);
    for step in steps {
        callers.take(rt, step);
    }
    callers.end(rt);
}

/// An ask is never answered. A neighbour's PING and its call for identities are answered at once.
#[test]
fn held_signer(rt: HostRuntime) {
    let links: [&[&[&[u8]]]; 2] = [
        &[&[OPENING, TOKEN_CALL], &[], &[]],
        &[&[OPENING, HEAD, EMPTY], &[PING]],
    ];
    let steps = [
        on(0),
        on(1),
        on(0),
        on(1),
        on(0),
        Step::Took(0, ASKED),
        Step::Took(1, &[GREETING, RESPONSE, PONG]),
    ];
    play(&rt, rt.alloc(), &links, &steps);
}

/// Two connections ask, for different audiences; their answers are taken in the other order. Each gets its own.
#[test]
fn two_tokens(rt: HostRuntime) {
    let links: [&[&[&[u8]]]; 2] = [
        &[&[OPENING, TOKEN_CALL], &[]],
        &[&[OPENING, TOKEN_CALL_Y], &[]],
    ];
    let steps = [
        on(0),
        on(1),
        Step::Sign(2),
        Step::Signed(2),
        on(1),
        on(0),
        Step::Took(0, GIVEN),
        Step::Took(1, &[SERVER_SETTINGS, ACK, CREDIT_8, RESPONSE_HEAD, TOKEN_U]),
        Step::Rang(2),
    ];
    play(&rt, rt.alloc(), &links, &steps);
}

/// A caller of a socket that is none of the first two asks, too. Its ask has its turn as any other.
#[test]
fn added_socket(rt: HostRuntime) {
    let links: [(u32, &[&[&[u8]]]); 2] = [
        (7, &[&[OPENING, TOKEN_CALL], &[]]),
        (1, &[&[OPENING, TOKEN_CALL_Y], &[]]),
    ];
    let steps = [
        on(0),
        on(1),
        Step::Sign(2),
        Step::Signed(2),
        on(1),
        on(0),
        Step::Took(0, GIVEN),
        Step::Took(1, &[SERVER_SETTINGS, ACK, CREDIT_8, RESPONSE_HEAD, TOKEN_U]),
        Step::Rang(2),
    ];
    play_over(&rt, rt.alloc(), &links, &steps);
}

/// A token comes after its connection has ended. It is kept, and told to nobody; a later call gets it.
#[test]
fn late_token(rt: HostRuntime) {
    let links: [&[&[&[u8]]]; 2] = [&[&[OPENING, TOKEN_CALL]], &[&[OPENING, TOKEN_CALL], &[]]];
    let steps = [
        on(0),
        Step::SignWhileLeaving(0),
        Step::Signed(1),
        Step::Round(0, RoundEnd::Ended(Ended::Closed)),
        Step::Took(0, ASKED),
        on(1),
        Step::Took(1, GIVEN),
    ];
    play(&rt, rt.alloc(), &links, &steps);
}

/// After an exchange has ended by time asks fail at once for a while, and then wait again.
#[test]
fn silent_signer(rt: HostRuntime) {
    let links: [&[&[&[u8]]]; 3] = [&[&[OPENING, TOKEN_CALL], &[]]; 3];
    let steps = [
        on(0),
        Step::SignSlowly,
        on(0),
        on(1),
        Step::TellTime(115),
        on(2),
        Step::Took(0, UNSIGNED),
        Step::Took(1, UNSIGNED),
        Step::Took(2, ASKED),
    ];
    play(&rt, rt.alloc(), &links, &steps);
}

/// Two connections over one socket ask, and then one over another. While a signer does the first ask, another gets that of
/// the other socket, since the first socket has half of the signers.
#[test]
fn half_of_the_signers(rt: HostRuntime) {
    let links: [(u32, &[&[&[u8]]]); 3] = [
        (0, &[&[OPENING, TOKEN_CALL], &[]]),
        (0, &[&[OPENING, TOKEN_CALL], &[]]),
        (1, &[&[OPENING, TOKEN_CALL_Y], &[]]),
    ];
    let steps = [
        on(0),
        on(1),
        on(2),
        Step::SignBeside(b"y"),
        Step::Signed(1),
        on(0),
        on(2),
        Step::Took(0, GIVEN),
        Step::Took(2, GIVEN),
        Step::Rang(2),
    ];
    play_over(&rt, rt.alloc(), &links, &steps);
}
