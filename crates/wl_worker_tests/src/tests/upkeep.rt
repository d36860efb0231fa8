//! Documents, identities, and the loops of upkeep.

ghost use Rattle.std.specs.Prelude.{◌≡◌};

use super::documents::{DOC, FOREIGN, TWO};
use super::gates::{Closing, Starved};
use std::alloc::{AllocGlobal, Global};
use std::process::Abort;
use std::rt::Clock;
use std::sync::atomic::{AtomicU64, Ordering};
use std::sync::{Arc, Mutex, Wait};
use std::thread::{Threads, join_mut};
use wl_desk::{Desk, last_snapshot};
use wl_edge::{
    BEFORE_KEEPING, BEFORE_UPKEEP, EdgeFault, MemoryBell, MemoryClock, MemorySigner,
    MemoryUpstream, OpenGate, Script, Signer, SignerCall, Upstream,
};
use wl_entry::{Free, Signed};
use wl_manager::Manager;
use wl_octets::{Octets, Row};
use wl_publish::start;
use wl_store::Ticket;
use wl_worker::{
    AskHub, Asked, Kept, Synced, TicketQueue, keep_once, keep_time, pull_documents, sign_asks,
    sign_next, sign_once, sync_once,
};

/// A desk of this document, for so many seats.
fn open<R: Wait + Abort>(rt: &R, alloc: Global, document: &[u8], seats: u32) -> Mutex<Desk<Free>> {
    let manager: Manager<Free> = Manager::start(alloc, document).expect(rt, "a document");
    let first = last_snapshot(alloc, &manager).expect(rt, "memory");
    let (publisher, _) = start(rt, alloc, first, 1).expect(rt, "memory");
    Mutex::new(Desk::start(manager, publisher, seats))
}

fn numbers(rt: &impl Abort, alloc: Global, numbers: &[u64]) -> Row<u64> {
    Row::from_vec(Vec::from_slice(alloc, numbers).expect(rt, "memory"))
}

/// A clock of these times.
fn clock(rt: &impl Abort, alloc: Global, times: &[u64]) -> MemoryClock {
    MemoryClock::start(numbers(rt, alloc, times))
}

fn octets(rt: &impl Abort, alloc: Global, bytes: &[u8]) -> Octets {
    Octets::from_slice(alloc, bytes).expect(rt, "memory")
}

/// An upstream that gives these documents, and then the last one again; the pull of this number fails.
fn upstream(rt: &impl Abort, alloc: Global, documents: &[&[u8]], failing: u64) -> MemoryUpstream {
    let mut answers = Vec::new(alloc);
    for document in documents {
        answers
            .push(octets(rt, alloc, document))
            .expect(rt, "memory");
    }
    let failing = numbers(rt, alloc, &[failing]);
    MemoryUpstream::start(alloc, Script::start(Row::from_vec(answers), failing))
}

/// An identity of these times.
fn signed(rt: &impl Abort, alloc: Global, (not_before, not_after): (u64, u64)) -> Signed {
    Signed {
        chain: octets(rt, alloc, b"c"),
        key: octets(rt, alloc, b"k"),
        not_before,
        not_after,
    }
}

/// A signer of identities of these times; the call of this number fails.
fn signer(rt: &impl Abort, alloc: Global, times: &[(u64, u64)], failing: u64) -> MemorySigner {
    let mut answers = Vec::new(alloc);
    for times in times {
        answers.push(signed(rt, alloc, *times)).expect(rt, "memory");
    }
    let failing = numbers(rt, alloc, &[failing]);
    let identities = Script::start(Row::from_vec(answers), failing);
    let tokens = Script::start(Row::empty(alloc), Row::empty(alloc));
    MemorySigner::start(alloc, identities, tokens)
}

/// What became of a document, in words.
fn sync_words(rt: &impl Abort, alloc: Global, synced: Synced<Free>) -> String {
    let words = match synced {
        Synced::Done(note) => format!(in alloc; "done {}", note.number()),
        Synced::Refused(fault, note) => format!(in alloc; "{fault:?} {}", note.number()),
        Synced::Same => format!(in alloc; "same"),
        Synced::Failed => format!(in alloc; "failed"),
        Synced::Memory => format!(in alloc; "memory"),
    };
    words.expect(rt, "memory")
}

/// Syncs, and what becomes of each.
fn sync_all<R: Wait + Abort>(
    rt: &R,
    alloc: Global,
    desk: &Mutex<Desk<Free>>,
    upstream: &mut MemoryUpstream,
    due: &[&str],
) {
    let mut last = None;
    for due in due {
        let synced = sync_once(rt, alloc, desk, upstream, &mut last);
        let words = sync_words(rt, alloc, synced);
        assert_eq!(rt; words.as_str(), *due);
    }
}

#[test]
fn a_document_is_taken_or_refused(rt: HostRuntime) {
    let alloc = rt.alloc();
    let mut upstream = upstream(&rt, alloc, &[DOC, FOREIGN, DOC, TWO], 2);
    let desk = open(&rt, alloc, DOC, 0);
    let due = [
        "done 0",
        "ForeignDomain(Place { part: 0, index: 0, field: 2, item: 0 }) 0",
        "failed",
        "done 1",
        "same",
    ];
    sync_all(&rt, alloc, &desk, &mut upstream, &due);
    desk.into_inner().end(&rt);
}

/// The number of the last publication, and how many tickets of a look were kept, refused, failed and starved.
#[derive(Clone, Copy)]
struct Counts {
    number: u64,
    kept: u64,
    refused: u64,
    failed: u64,
    starved: u64,
}

/// Asks for one ticket; one that failed goes back to the desk.
fn ask<R: Wait, S: Signer<V = Free>>(
    rt: &R,
    alloc: Global,
    desk: &Mutex<Desk<Free>>,
    signer: &mut S,
    clock: &mut MemoryClock,
    ticket: Ticket,
    counts: &mut Counts,
) {
    match sign_once(rt, alloc, desk, signer, clock, ticket) {
        Asked::Kept(note, _) => {
            counts.number = note.number();
            counts.kept = counts.kept.saturating_add(1);
        }
        Asked::Refused | Asked::Memory => counts.refused = counts.refused.saturating_add(1),
        Asked::Failed(ticket) => {
            counts.failed = counts.failed.saturating_add(1);
            desk.lock(rt).failed(ticket);
        }
        Asked::Starved(ticket) => {
            counts.starved = counts.starved.saturating_add(1);
            desk.lock(rt).failed(ticket);
        }
    }
}

/// A look of the keeper, and an ask for each of its tickets: the number and the counts, in their order.
fn rotation<R: Wait, S: Signer<V = Free>>(
    rt: &R,
    alloc: Global,
    desk: &Mutex<Desk<Free>>,
    signer: &mut S,
    clock: &mut MemoryClock,
) -> [u64; 5] {
    let mut counts = Counts {
        number: 0,
        kept: 0,
        refused: 0,
        failed: 0,
        starved: 0,
    };
    match keep_once(rt, alloc, desk, clock) {
        Kept::Done(note, tickets) => {
            counts.number = note.number();
            let mut left = tickets.into_vec();
            left.reverse();
            'left: while let Some(ticket) = left.pop() {
                ask(rt, alloc, desk, signer, clock, ticket, &mut counts);
            }
            left.destroy_empty();
        }
        Kept::Memory => {}
    }
    let Counts {
        number,
        kept,
        refused,
        failed,
        starved,
    } = counts;
    [number, kept, refused, failed, starved]
}

/// Asserts what comes of three rotations, at these times: a look and each of its asks read the clock.
fn rotate<R: Wait + Abort, S: Signer<V = Free>>(
    rt: &R,
    alloc: Global,
    document: &[u8],
    signer: &mut S,
    times: &[u64],
    due: &[[u64; 5]; 3],
) {
    let mut clock = clock(rt, alloc, times);
    let desk = open(rt, alloc, document, 0);
    for due in due {
        assert_eq!(rt; rotation(rt, alloc, &desk, signer, &mut clock), *due);
    }
    desk.into_inner().end(rt);
}

/// Asserts for which entries identities were asked for.
fn were_asked(rt: &impl Abort, signer: &MemorySigner, entries: &[&[u8]]) {
    assert_eq!(rt; signer.calls().len(), entries.len());
    for (call, entry) in signer.calls().iter().zip(entries) {
        let asked = match call {
            SignerCall::X509(ask, _) => ask.entry_id.as_slice(),
            SignerCall::Jwt(_, _, _) => b"",
        };
        assert_eq!(rt; asked, *entry);
    }
}

/// Three rotations by a signer.
#[derive(Clone, Copy)]
struct Case {
    document: &'static [u8],
    /// The times of its identities, and the number of the call that fails.
    identities: &'static [(u64, u64)],
    failing: u64,
    times: &'static [u64],
    /// Of each: the number of the last publication, and how many tickets were kept, refused, failed and starved.
    counts: [[u64; 5]; 3],
    /// For which entries it is asked.
    asked: &'static [&'static [u8]],
}

/// Asserts what comes of a signer's rotations.
fn rotate_case<R: Wait + Abort>(rt: &R, alloc: Global, case: &Case) {
    let mut signer = signer(rt, alloc, case.identities, case.failing);
    rotate(
        rt,
        alloc,
        case.document,
        &mut signer,
        case.times,
        &case.counts,
    );
    were_asked(rt, &signer, case.asked);
}

const FAILS_ONCE: Case = Case {
    document: TWO,
    identities: &[(100, 200)],
    failing: 0,
    times: &[100],
    counts: [[1, 1, 0, 1, 0], [2, 1, 0, 0, 0], [2, 0, 0, 0, 0]],
    asked: &[b"e1", b"e2", b"e1"],
};

#[test]
fn a_signer_fails_once(rt: HostRuntime) {
    rotate_case(&rt, rt.alloc(), &FAILS_ONCE);
}

const OVER: Case = Case {
    document: TWO,
    identities: &[(0, 50), (100, 200)],
    failing: 9,
    times: &[100],
    counts: [[1, 1, 1, 0, 0], [2, 1, 0, 0, 0], [2, 0, 0, 0, 0]],
    asked: &[b"e1", b"e2", b"e1"],
};

#[test]
fn an_identity_that_is_over_is_refused(rt: HostRuntime) {
    rotate_case(&rt, rt.alloc(), &OVER);
}

#[test]
fn a_ticket_comes_back_where_memory_runs_out(rt: HostRuntime) {
    let due = [[0, 0, 0, 0, 2]; 3];
    rotate(&rt, rt.alloc(), TWO, &mut Starved, &[100], &due);
}

/// An identity until 200 is shown at 199 and no more at 200, whatever the signer does: the second ask, at 199, and each later one
/// fails or is too old. A look and an answer at 100; a look at 199; a look and an answer at 200.
const ENDED: Case = Case {
    document: DOC,
    identities: &[(100, 200)],
    failing: 1,
    times: &[100, 100, 199, 200],
    counts: [[1, 1, 0, 0, 0], [1, 0, 0, 1, 0], [2, 0, 1, 0, 0]],
    asked: &[b"e1", b"e1", b"e1"],
};

#[test]
fn what_has_ended_is_gone_at_the_next_look(rt: HostRuntime) {
    rotate_case(&rt, rt.alloc(), &ENDED);
}

/// The keeper, whose second look is a second later, and a signer, until the signer has waited so often; then the seat ends. Whether
/// it came to that.
fn keep_and_sign<R: Threads + Wait + Clock + Sync + Abort>(
    rt: &R,
    alloc: Global,
    desk: &Mutex<Desk<Free>>,
    signer: &mut MemorySigner,
    bells: &[MemoryBell; 2],
    asks: u64,
) -> bool {
    let gate = Closing::start(rt, desk, BEFORE_KEEPING, asks);
    let queue = TicketQueue::start(alloc, AskHub::start(alloc, 2, 2, 1).expect(rt, "memory"));
    let mut signing = clock(rt, alloc, &[100]);
    let mut keeper = clock(rt, alloc, &[100, 100, 101]);
    join_mut(
        rt,
        &mut || sign_asks(rt, alloc, desk, &queue, signer, &mut signing, &gate, bells),
        &mut || keep_time(rt, alloc, desk, &queue, &mut keeper, &gate, bells),
    );
    queue.end();
    gate.came.load(Ordering::SeqCst) == 1
}

#[test]
fn a_failed_ask_is_asked_again_after_a_pause(rt: HostRuntime) {
    let alloc = rt.alloc();
    let mut signer = signer(&rt, alloc, &[(100, 200)], 0);
    let bells = [MemoryBell::start(), MemoryBell::start()];
    let desk = open(&rt, alloc, TWO, 1);
    // before e1, which fails; before e2; before e1 again; and once more
    assert!(rt; keep_and_sign(&rt, alloc, &desk, &mut signer, &bells, 4));
    desk.into_inner().end(&rt);
    were_asked(&rt, &signer, &[b"e1", b"e2", b"e1"]);
    // the keeper rings at its first look, and the signer after each identity
    assert!(rt; bells[0].rings() >= 3 && bells[1].rings() >= 3);
}

/// Puts the tickets of a look into the queue. A look reads the clock twice.
fn queue_due<R: Wait>(
    rt: &R,
    alloc: Global,
    desk: &Mutex<Desk<Free>>,
    queue: &TicketQueue<Free>,
    keeper: &mut MemoryClock,
) {
    queue.tell_time(rt, wl_edge::Clock::now(keeper));
    match keep_once(rt, alloc, desk, keeper) {
        Kept::Done(note, tickets) => {
            drop(note);
            let mut left = tickets.into_vec();
            left.reverse();
            'left: while let Some(ticket) = left.pop() {
                if let Some(ticket) = queue.put(rt, ticket) {
                    desk.lock(rt).failed(ticket);
                }
            }
            left.destroy_empty();
        }
        Kept::Memory => {}
    }
}

/// The looks and asks of a seat: how many asks follow each look. Before, at and after the first ask; before and after the second,
/// which fails; and so on.
fn look_and_ask<R: Wait + Abort>(
    rt: &R,
    alloc: Global,
    desk: &Mutex<Desk<Free>>,
    signer: &mut MemorySigner,
    asks: [u32; 4],
) {
    let queue = TicketQueue::start(alloc, AskHub::start(alloc, 2, 2, 1).expect(rt, "memory"));
    let bells = [MemoryBell::start()];
    let mut signing = clock(rt, alloc, &[150, 150, 150, 150, 150, 152, 152, 152, 162]);
    let mut keeper = clock(rt, alloc, &[150, 150, 151, 151, 152, 152, 162]);
    for count in asks {
        queue_due(rt, alloc, desk, &queue, &mut keeper);
        for _ in 0..count {
            sign_next(rt, alloc, desk, &queue, signer, &mut signing, &bells);
        }
    }
    queue.end();
}

/// Identities from 0 to 200 come at 150, 152 and 162. The first one's ask rests until 162, so that the ask that failed at
/// 150 goes before it.
#[test]
fn an_identity_that_is_due_at_once_rests(rt: HostRuntime) {
    let alloc = rt.alloc();
    let mut signer = signer(&rt, alloc, &[(0, 200)], 1);
    let desk = open(&rt, alloc, TWO, 1);
    look_and_ask(&rt, alloc, &desk, &mut signer, [2, 0, 1, 1]);
    desk.into_inner().end(&rt);
    were_asked(&rt, &signer, &[b"e1", b"e2", b"e2", b"e1"]);
}

/// Pulls beside the seats of a desk, until there is none or the third round.
fn pull<R: Wait + Abort, U: Upstream>(
    rt: &R,
    alloc: Global,
    desk: &Mutex<Desk<Free>>,
    upstream: &mut U,
) {
    let mut clock = clock(rt, alloc, &[100]);
    let queue = TicketQueue::start(alloc, AskHub::start(alloc, 2, 2, 1).expect(rt, "memory"));
    let gate = Closing::start(rt, desk, BEFORE_UPKEEP, 3);
    let bells = [MemoryBell::start(), MemoryBell::start()];
    pull_documents(rt, alloc, desk, &queue, upstream, &mut clock, &gate, &bells);
    drop(gate);
    queue.end();
}

#[test]
fn documents_are_pulled_until_no_seat_serves(rt: HostRuntime) {
    let alloc = rt.alloc();
    for (seats, pulls) in [(0, 1), (1, 3)] {
        let desk = open(&rt, alloc, DOC, seats);
        let mut upstream = upstream(&rt, alloc, &[DOC, TWO], 9);
        pull(&rt, alloc, &desk, &mut upstream);
        assert_eq!(rt; upstream.number(), pulls);
        desk.into_inner().end(&rt);
    }
}

/// An upstream says in three rounds that nothing has changed. A document that is in use is pulled once; one that was refused, and one
/// that did not come, are pulled again.
#[test]
fn a_document_at_rest_is_pulled_once(rt: HostRuntime) {
    let alloc = rt.alloc();
    for (document, failing, pulls) in [(DOC, 9, 1), (FOREIGN, 9, 3), (DOC, 0, 2)] {
        let desk = open(&rt, alloc, DOC, 1);
        let mut upstream = upstream(&rt, alloc, &[document], failing);
        upstream.rests = true;
        pull(&rt, alloc, &desk, &mut upstream);
        assert_eq!(rt; upstream.number(), pulls);
        desk.into_inner().end(&rt);
    }
}

/// An upstream that says once that nothing has changed.
#[derive(Drop)]
struct Changing {
    inner: MemoryUpstream,
    asked: AtomicU64,
}

impl Upstream for Changing {
    ghost told = { λ u. ⟦<MemoryUpstream as Upstream>⟧.told u.inner };

    ghost faults = { λ u. ⟦<MemoryUpstream as Upstream>⟧.faults u.inner };

    fn pull(&mut self, into: &mut Octets) -> Result<(), EdgeFault> {
        self.inner.pull(into)
    }

    fn is_unchanged(&self) -> bool {
        self.asked.fetch_add(1, Ordering::SeqCst) == 0
    }
}

/// The first round pulls, the second rests, and the third pulls again.
#[test]
fn a_changed_document_is_pulled_again(rt: HostRuntime) {
    let alloc = rt.alloc();
    let desk = open(&rt, alloc, DOC, 1);
    let mut upstream = Changing {
        inner: upstream(&rt, alloc, &[DOC, TWO], 9),
        asked: AtomicU64::new(0),
    };
    pull(&rt, alloc, &desk, &mut upstream);
    assert_eq!(rt; upstream.inner.number(), 2);
    desk.into_inner().end(&rt);
}
