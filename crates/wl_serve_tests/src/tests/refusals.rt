//! Serving where an allocation may be refused.

use super::gates::Holding;
use super::hosts::{CALLS, Stop, served};
use std::alloc::Global;
use std::rt::Clock;
use std::sync::Wait;
use std::test::Fail;
use std::thread::Threads;
use wl_edge::{BEFORE_SIGNING, MemoryLink};
use wl_serve::{MemoryHost, Parts, ServeEnd};

/// What was prepared with a gate that holds turns.
type Kept<'a, R> = Option<Parts<MemoryHost<Holding<'a, R>>>>;

/// The end, and what was prepared.
fn serve_calls<'a, R: Threads + Wait + Sync + Clock>(
    rt: &'a R,
    alloc: Global,
) -> Result<(ServeEnd, Kept<'a, R>), Stop> {
    served(rt, alloc, &CALLS, Holding::start(rt, BEFORE_SIGNING, 2))
}

/// The links that were finished.
fn links<'k, 'a, R: Sync + Clock>(kept: &'k Kept<'a, R>) -> &'k [MemoryLink] {
    match kept {
        Some(parts) => match parts.seats.first() {
            Some(seat) => seat.listener.finished(),
            None => &[],
        },
        None => &[],
    }
}

/// Whether one of the two is a prefix of the other.
fn are_parted(one: &[u8], other: &[u8]) -> bool {
    one.starts_with(other) || other.starts_with(one)
}

/// Whether no link took more than a prefix of what those of another run took.
fn agree(some: &[MemoryLink], others: &[MemoryLink]) -> bool {
    some.iter().all(|link| others
        .iter()
        .all(|other| are_parted(link.took(), other.took())))
}

/// Where an allocation is refused, one of two runs meets it: it ends with `Memory`, or as without it, and its links took a
/// prefix of what is due.
#[test]
fn a_refused_allocation_ends_no_other_way(rt: HostRuntime) -> Result<(), Fail> {
    let first = serve_calls(&rt, rt.alloc());
    let second = serve_calls(&rt, rt.alloc());
    let (Ok((end, kept)), Ok((other_end, other_kept))) = (first, second) else {
        return Ok(());
    };
    assert!(rt; matches!(end, ServeEnd::Done | ServeEnd::Memory));
    assert!(rt; matches!(other_end, ServeEnd::Done | ServeEnd::Memory));
    assert!(rt; end == ServeEnd::Done || other_end == ServeEnd::Done);
    assert!(rt; agree(links(&kept), links(&other_kept)));
    Ok(())
}
