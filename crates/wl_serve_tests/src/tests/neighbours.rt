//! Two sockets, each in a thread of its own.

use super::bytes::{HEAD, MESSAGE, OPENING, TWO};
use super::gates::HoldingFirst;
use super::hosts::{LINKS, Trial, served};
use super::serving::{LEAF_IN_MESSAGE, takers_at};
use std::rt::Clock;
use std::sync::atomic::Ordering;
use std::test::Fail;
use wl_serve::{MemoryHost, Parts};

/// Two sockets with a link each, which is idle once after its call.
const TWO_LINKS: Trial = Trial {
    configuration: TWO,
    seats: 2,
    links: 1,
    pieces: &[OPENING, HEAD, MESSAGE, b""],
    ..LINKS
};

/// A link's turns are one for each piece. With the fourth its call was answered.
const TURNS: u64 = 4;

/// How many turns were let go although what they waited for had not come.
fn given_up<'a, R: Clock + Sync>(
    kept: &Option<Parts<MemoryHost<HoldingFirst<'a, R>>>>,
) -> Option<u64> {
    Some(kept.as_ref()?.gate.given_up.load(Ordering::SeqCst))
}

/// How many of the bells rang, which are as many as seats.
fn rung<'a, R: Clock + Sync>(kept: &Option<Parts<MemoryHost<HoldingFirst<'a, R>>>>) -> usize {
    match kept {
        Some(parts) => parts
            .bells
            .as_slice()
            .iter()
            .filter(|bell| bell.rings() > 0)
            .count(),
        None => 0,
    }
}

#[test]
fn one_call_is_held_until_the_other_is_answered(rt: HostRuntime) -> Result<(), Fail> {
    let gate = HoldingFirst::start(&rt, TURNS + 1);
    let (_, kept) = served(&rt, rt.alloc(), &TWO_LINKS, gate)?;
    assert_eq!(rt; given_up(&kept), Some(0));
    for seat in 0..2 {
        assert_eq!(rt; takers_at(&kept, seat, LEAF_IN_MESSAGE), Some(1));
    }
    // the identity was published while both sockets were served
    assert_eq!(rt; rung(&kept), 2);
    Ok(())
}
