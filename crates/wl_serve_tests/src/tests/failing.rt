//! The call of each number fails, of one trait after another.

use super::gates::Holding;
use super::hosts::{CALLS, Stop, Trial, served};
use super::serving::{LEAF_IN_MESSAGE, takers_at};
use std::alloc::Global;
use std::rt::Clock;
use std::sync::Wait;
use std::test::Fail;
use std::thread::Threads;
use wl_edge::BEFORE_SIGNING;
use wl_serve::ServeEnd;
use wl_serve::ServeEnd::{Done, HostFault, NoDocument};

/// Whose call fails.
#[derive(Clone, Copy, Debug)]
enum Failing {
    Upstream,
    Signer,
    Listener,
    Ready,
    Attestor,
    /// Each link's receive, and each link's sending.
    Receive,
    Sending,
}

use Failing::{Attestor, Listener, Ready, Receive, Sending, Signer, Upstream};

/// Numbers of one call each.
const NUMBERS: [&[u64]; 5] = [&[0], &[1], &[2], &[3], &[4]];

/// By whose call of number 0 to 4 fails: the end, and how many of the two links took their message. Where there is no
/// call of that number, none fails.
const ENDS: [(Failing, [(ServeEnd, usize); 5]); 7] = [
    // the first document; then upkeep goes on without
    (
        Upstream,
        [(NoDocument, 0), (Done, 2), (Done, 2), (Done, 2), (Done, 2)],
    ),
    // upkeep asks once more
    (Signer, [(Done, 2); 5]),
    // a link; a link; the end of the listener, once the links are finished
    (
        Listener,
        [
            (HostFault, 0),
            (HostFault, 0),
            (HostFault, 2),
            (Done, 2),
            (Done, 2),
        ],
    ),
    // a link is added; a link is added; a wait before each of their pieces
    (Ready, [(HostFault, 0); 5]),
    // the call of a link; that of the other
    (
        Attestor,
        [(Done, 1), (Done, 1), (Done, 2), (Done, 2), (Done, 2)],
    ),
    // a piece; a piece; the message; the end
    (
        Receive,
        [(Done, 0), (Done, 0), (Done, 0), (Done, 2), (Done, 2)],
    ),
    // the greeting; the answer
    (
        Sending,
        [(Done, 0), (Done, 0), (Done, 2), (Done, 2), (Done, 2)],
    ),
];

/// Two links with a call each, where this call of the outside fails.
fn trial(failing: Failing, numbers: &'static [u64]) -> Trial {
    let mut trial = CALLS;
    match failing {
        Upstream => trial.pulls = numbers,
        Signer => trial.signs = numbers,
        Listener => trial.accepts = numbers,
        Ready => trial.waits = numbers,
        Attestor => trial.attests = numbers,
        Receive => trial.receives = numbers,
        Sending => trial.sends = numbers,
    }
    trial
}

/// How often the signer begins to wait for an ask until the identity is signed, the first ask of which may fail.
fn asks_until_signed(trial: &Trial) -> u64 {
    if trial.signs == [0].as_slice() { 3 } else { 2 }
}

/// The end, and how many links took their message. Each turn is held until the identity is signed.
fn came_to<R: Threads + Wait + Sync + Clock>(
    rt: &R,
    alloc: Global,
    trial: &Trial,
) -> Result<(ServeEnd, usize), Stop> {
    let gate = Holding::start(rt, BEFORE_SIGNING, asks_until_signed(trial));
    let (end, kept) = served(rt, alloc, trial, gate)?;
    Ok((end, takers_at(&kept, 0, LEAF_IN_MESSAGE).unwrap_or(0)))
}

/// The first number of which something else comes than is due.
fn wrong_number<R: Threads + Wait + Sync + Clock>(
    rt: &R,
    alloc: Global,
    failing: Failing,
    due: &[(ServeEnd, usize); 5],
) -> Result<Option<(&'static [u64], (ServeEnd, usize))>, Stop> {
    for (numbers, due) in NUMBERS.iter().zip(due) {
        let came = came_to(rt, alloc, &trial(failing, numbers))?;
        if came != *due {
            return Ok(Some((*numbers, came)));
        }
    }
    Ok(None)
}

#[test]
fn each_call_fails_in_turn(rt: HostRuntime) -> Result<(), Fail> {
    for (failing, due) in &ENDS {
        assert_eq!(rt;
            wrong_number(&rt, rt.alloc(), *failing, due)?,
            None,
            "{failing:?}"
        );
    }
    Ok(())
}
