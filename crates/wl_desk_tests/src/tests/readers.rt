//! Four readers beside a desk that syncs, claims and installs.

ghost use Rattle.std.specs.Prelude.{◌<◌};

use super::{Stop, document, identity, last_ticket, number_in, open};
use std::alloc::{AllocError, AllocGlobal, Global};
use std::sync::{Mutex, Wait};
use std::test::Fail;
use std::thread::{join, map_vec};
use wl_desk::Desk;
use wl_entry::Free;
use wl_octets::Octets;
use wl_publish::Pass;
use wl_snapshot::Snapshot;

/// How often the desk claims, installs and syncs.
const ROUNDS: u64 = 10_000;

/// How often each reader reads.
const READS: u32 = 200_000;

/// Whether the text is this number's digits.
fn says(alloc: Global, text: &Octets, number: u64) -> Result<bool, AllocError> {
    let digits = format!(in alloc; "{number}")?;
    Ok(text.as_slice() == digits.as_bytes())
}

/// Whether it is one publication: of the entry's hint and the chain of its SVID the later says its number, and the other
/// the number before.
fn is_whole(alloc: Global, snapshot: &Snapshot) -> Result<bool, AllocError> {
    let Some(before) = snapshot.number.checked_sub(1) else {
        return Ok(true);
    };
    let Some(entry) = snapshot.entries.part().get(0) else {
        return Ok(false);
    };
    let Some(svid) = snapshot.svids.find(entry.part().id.as_slice()) else {
        return Ok(false);
    };
    let hint = &entry.part().hint;
    let chain = &svid.part().signed.chain;
    if says(alloc, hint, snapshot.number)? {
        return says(alloc, chain, before);
    }
    Ok(says(alloc, hint, before)? && says(alloc, chain, snapshot.number)?)
}

/// Whether the numbers of all reads do not fall, and each is of one publication.
fn reads_well(alloc: Global, pass: &mut Pass<Free>) -> bool {
    let mut last = 0;
    for _ in 0..READS {
        let Ok(read) = pass.read() else {
            return false;
        };
        let snapshot = read.snapshot();
        if snapshot.number < last || !matches!(is_whole(alloc, snapshot), Ok(true)) {
            return false;
        }
        last = snapshot.number;
    }
    true
}

/// Claims and installs, which is one publication, and syncs, which is the next.
fn change<R: Wait>(rt: &R, alloc: Global, desk: &Mutex<Desk<Free>>, round: u64) -> Result<(), Stop>
    requires { round < 10000 }
{
    let now = 100 * round;
    let number = 2 * round + 1;
    let (tickets, _) = desk.lock(rt).claim(rt, alloc, now)?;
    let ticket = last_ticket(tickets)?;
    match identity(alloc, number, now, now + 200) {
        Ok(signed) => {
            desk.lock(rt).signed(rt, alloc, ticket, signed, now)?;
        }
        Err(stop) => {
            desk.lock(rt).failed(ticket);
            return Err(stop);
        }
    }
    let document = document(alloc, "w", number + 1)?;
    match desk.lock(rt).sync(rt, alloc, document.as_bytes()) {
        Ok(_) => Ok(()),
        Err(_) => Err(Stop::Document),
    }
}

/// Changes the desk in each round.
fn changes_all<R: Wait>(rt: &R, alloc: Global, desk: &Mutex<Desk<Free>>) -> bool {
    for round in 0..ROUNDS {
        if change(rt, alloc, desk, round).is_err() {
            return false;
        }
    }
    true
}

#[test]
fn four_readers(rt: HostRuntime) -> Result<(), Fail> {
    let alloc = rt.alloc();
    let (desk, passes) = open(&rt, alloc, 4)?;
    let desk = Mutex::new(desk);
    let passes = passes.into_vec();
    let (changed, read) = join(
        &rt,
        || changes_all(&rt, alloc, &desk),
        || map_vec(&rt, passes, &|mut pass| reads_well(alloc, &mut pass)),
    );
    let mut desk = desk.into_inner();
    let last = number_in(desk.note(&rt).ok());
    desk.end(&rt);
    assert!(rt; changed);
    assert!(rt; read?.iter().all(|is_well| *is_well));
    assert_eq!(rt; last, Some(2 * ROUNDS));
    Ok(())
}
