//! Input that is cut off or changed.

use super::frames::{EMPTY, HEAD, OPENING, SERVER_SETTINGS};
use super::outside::{joined, plan};
use super::serve_well;
use output_parts::Output;
use std::alloc::{AllocGlobal, Global};
use std::process::Abort;
use std::sync::Wait;
use wl_octets::Octets;
use wl_session::{Session, SessionFault};
use wl_worker::Ended;

/// Asserts that these bytes, and then the end, close a connection.
fn close<R: Wait + Abort>(rt: &R, alloc: Global, bytes: &[u8]) {
    let plan = plan(alloc, &[&[bytes]]).expect(rt, "memory");
    let (end, _) = serve_well(rt, alloc, plan);
    assert!(rt; end == Ended::Closed, "{} bytes", bytes.len());
}

/// Each proper prefix of a caller's bytes closes the connection.
#[test]
fn cut_input_closes(rt: HostRuntime) {
    let bytes = joined(rt.alloc(), &[OPENING, HEAD, EMPTY]).expect(&rt, "memory");
    for count in 0..bytes.len() {
        close(&rt, rt.alloc(), bytes.as_slice().split_at(count).0);
    }
}

/// What a session writes on these bytes, which may be a fault, and in which no call becomes ready: its SETTINGS alone where no
/// frame came.
fn talked(rt: &impl Abort, alloc: Global, bytes: &[u8]) -> Octets {
    let mut session = Session::start(alloc).expect(rt, "memory");
    let mut out = Output::empty(alloc);
    let fed = session.feed(bytes, &mut out);
    assert!(rt; !matches!(fed, Err(SessionFault::Memory)));
    if out.len() == 0 {
        out.push_slice(SERVER_SETTINGS).expect(rt, "memory");
    }
    out.into_octets(alloc).expect(rt, "memory")
}

/// Asserts that a link that gives these bytes takes what a session writes.
fn talk<R: Wait + Abort>(rt: &R, alloc: Global, bytes: &[u8]) {
    let due = talked(rt, alloc, bytes);
    let plan = plan(alloc, &[&[bytes]]).expect(rt, "memory");
    let (_, link) = serve_well(rt, alloc, plan);
    assert!(rt; link.took() == due.as_slice());
}

/// The same bytes with another one at this place.
fn changed(rt: &impl Abort, alloc: Global, bytes: &[u8], at: usize) -> Octets {
    let mut all = Octets::empty(alloc);
    for (place, byte) in bytes.iter().enumerate() {
        let byte = if place == at { !*byte } else { *byte };
        all.push_slice(&[byte]).expect(rt, "memory");
    }
    all
}

/// So it is with each byte changed.
#[test]
fn changed_bytes_are_talked(rt: HostRuntime) {
    let bytes = joined(rt.alloc(), &[OPENING, HEAD]).expect(&rt, "memory");
    for at in 0..bytes.len() {
        let changed = changed(&rt, rt.alloc(), bytes.as_slice(), at);
        talk(&rt, rt.alloc(), changed.as_slice());
    }
}
