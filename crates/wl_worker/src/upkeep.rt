//! Upkeep goes on beside the seats: a keeper, a puller and signers, each in a thread of its own. None of them holds the
//! desk's lock while it waits for the outside.

ghost use Rattle.std.specs.Prelude.{◌≡◌, ◌≤◌};
ghost use Rattle.wl_worker.specs.Upkeep.{AskedOn, PulledAgain};

use crate::documents::{Synced, sync_if_changed};
use crate::keeper::{Kept, keep_once};
use crate::queue::{QueuedTicket, TicketQueue, Work};
use crate::signing::{Asked, sign_once};
use ask_mail::{Answered, sign};
use std::alloc::Global;
use std::sync::{Mutex, Wait};
use wl_desk::Desk;
use wl_edge::{BEFORE_KEEPING, BEFORE_SIGNING, BEFORE_UPKEEP, Bell, Clock, Gate, Signer, Upstream};
use wl_entry::{Ask, Voucher};
use wl_octets::{Memory, Row};
use wl_publish::Note;
use wl_store::Ticket;

/// A failed exchange with a signer that took so many seconds has ended by time.
const LONG_EXCHANGE: u64 = 10;

/// Lets go of what has ended and puts what is due into the queue, round for round, at least once, until no seat serves;
/// then it closes the queue. Point 3 of the gate is passed before each round. Bells ring after a new publication.
pub fn keep_time<V: Voucher, C: Clock, G: Gate, B: Bell, R: Wait>(
    rt: &R,
    alloc: Global,
    desk: &Mutex<Desk<V>>,
    queue: &TicketQueue<V>,
    clock: &mut C,
    gate: &G,
    bells: &[B],
) {
    let mut rung = None;
    for _ in rt.forever() {
        gate.pass(BEFORE_KEEPING);
        rung = keep_round(rt, alloc, desk, queue, clock, bells, rung);
        note_last(gate, rung);
        if desk.lock(rt).seats() == 0 {
            queue.close(rt);
            return;
        }
    }
    unreachable!()
}

/// Takes the present document, round for round, at least once, until no seat serves. What a document makes due is put
/// into the queue at once. Point 2 of the gate is passed before each round. Bells ring after a new publication. Faults
/// and out of memory end nothing: the next round tries again. A document that is in use is not pulled again where the
/// upstream says that nothing has changed.
pub fn pull_documents<V: Voucher, U: Upstream, C: Clock, G: Gate, B: Bell, R: Wait>(
    rt: &R,
    alloc: Global,
    desk: &Mutex<Desk<V>>,
    queue: &TicketQueue<V>,
    upstream: &mut U,
    clock: &mut C,
    gate: &G,
    bells: &[B],
)
    ensures pulled { PulledAgain (U.told upstream.old) (U.told upstream.new) }
    ensures faults { U.faults upstream.old ≤ U.faults upstream.new }
{
    let mut rung = None;
    let mut last = None;
    let mut is_in_use = false;
    for _ in rt.forever() {
        gate.pass(BEFORE_UPKEEP);
        let synced = sync_if_changed(rt, alloc, desk, upstream, &mut last, is_in_use);
        is_in_use = synced.is_in_use();
        note_taken(upstream, &synced);
        rung = ring_synced(bells, rung, synced);
        rung = keep_round(rt, alloc, desk, queue, clock, bells, rung);
        note_last(gate, rung);
        if desk.lock(rt).seats() == 0 {
            return;
        }
    }
    unreachable!()
}

/// Asks for one token or identity after the other from the queue, until it is closed. Point 4 of the gate is passed before
/// each. An ask for an identity that failed is put back; bells ring after each identity that was kept. After a token the
/// bell of its seat rings.
pub fn sign_asks<S: Signer, C: Clock, G: Gate, B: Bell, R: Wait>(
    rt: &R,
    alloc: Global,
    desk: &Mutex<Desk<S::V>>,
    queue: &TicketQueue<S::V>,
    signer: &mut S,
    clock: &mut C,
    gate: &G,
    bells: &[B],
)
    ensures told { AskedOn (S.calls signer.old) (S.calls signer.new) }
    ensures faults { S.faults signer.old ≤ S.faults signer.new }
{
    for _ in rt.forever() {
        gate.pass(BEFORE_SIGNING);
        if !sign_next(rt, alloc, desk, queue, signer, clock, bells) {
            return;
        }
    }
    unreachable!()
}

/// Waits for one ask for a token or an identity, and has it signed; an ask for an identity that failed is put back. False
/// where the queue is closed.
pub fn sign_next<S: Signer, C: Clock, B: Bell, R: Wait>(
    rt: &R,
    alloc: Global,
    desk: &Mutex<Desk<S::V>>,
    queue: &TicketQueue<S::V>,
    signer: &mut S,
    clock: &mut C,
    bells: &[B],
) -> bool
    ensures told { AskedOn (S.calls signer.old) (S.calls signer.new) }
    ensures faults { S.faults signer.old ≤ S.faults signer.new }
{
    match queue.next(rt) {
        Some(Work::Identity(queued)) => {
            sign_identity(rt, alloc, desk, queue, signer, clock, bells, queued);
            true
        }
        Some(Work::Token(ask)) => {
            sign_token(rt, alloc, desk, queue, signer, clock, bells, ask);
            true
        }
        None => false,
    }
}

/// One look at the desk. It answers the number of the last publication, up to which the bells have rung.
fn keep_round<V: Voucher, C: Clock, B: Bell, R: Wait>(
    rt: &R,
    alloc: Global,
    desk: &Mutex<Desk<V>>,
    queue: &TicketQueue<V>,
    clock: &mut C,
    bells: &[B],
    rung: Option<u64>,
) -> Option<u64> {
    queue.tell_time(rt, clock.now());
    match keep_once(rt, alloc, desk, clock) {
        Kept::Done(note, tickets) => {
            let last = ring_news(bells, rung, &note);
            put_all(rt, desk, queue, tickets);
            last
        }
        Kept::Memory => rung,
    }
}

/// Puts tickets into the queue. Those for which there is no memory go back to the desk, and are claimed again.
fn put_all<V: Voucher, R: Wait>(
    rt: &R,
    desk: &Mutex<Desk<V>>,
    queue: &TicketQueue<V>,
    tickets: Row<Ticket>,
) {
    let mut left = tickets.into_vec();
    left.reverse();
    'left: while let Some(ticket) = left.pop() {
        if let Some(ticket) = queue.put(rt, ticket) {
            desk.lock(rt).failed(ticket);
        }
    }
    left.destroy_empty();
}

/// Asks for the identity of one ticket. Where no entry has its ask any more the ticket goes back without that.
fn sign_identity<S: Signer, C: Clock, B: Bell, R: Wait>(
    rt: &R,
    alloc: Global,
    desk: &Mutex<Desk<S::V>>,
    queue: &TicketQueue<S::V>,
    signer: &mut S,
    clock: &mut C,
    bells: &[B],
    queued: QueuedTicket,
)
    ensures told { AskedOn (S.calls signer.old) (S.calls signer.new) }
    ensures faults { S.faults signer.old ≤ S.faults signer.new }
{
    let QueuedTicket { ticket, pause } = queued;
    if !desk.lock(rt).lists(&ticket.ask) {
        desk.lock(rt).failed(ticket);
        return;
    }
    let ask = ticket.ask.copy(alloc).ok();
    let before = clock.now();
    let asked = sign_once(rt, alloc, desk, signer, clock, ticket);
    let now = clock.now();
    if matches!(&asked, Asked::Failed(_)) {
        end_by_time(rt, queue, bells, before, now);
    }
    pace(rt, queue, ask, &asked, now);
    settle(rt, desk, queue, bells, asked, pause, now);
}

/// Has a token signed for a connection of a seat, puts the answer into the mailbox, and rings the seat. The token of a
/// connection that awaits it no more is offered to those that are kept, and told to nobody.
fn sign_token<S: Signer, C: Clock, B: Bell, R: Wait>(
    rt: &R,
    alloc: Global,
    desk: &Mutex<Desk<S::V>>,
    queue: &TicketQueue<S::V>,
    signer: &mut S,
    clock: &mut C,
    bells: &[B],
    ask: ask_mail::Asked,
)
    ensures told { AskedOn (S.calls signer.old) (S.calls signer.new) }
    ensures faults { S.faults signer.old ≤ S.faults signer.new }
{
    let seat = ask.seat;
    let before = clock.now();
    let letter = sign(signer, ask);
    let now = clock.now();
    let failed = !letter.has_token();
    if let Some(late) = queue.hub().answered(rt, letter) {
        keep_late(rt, alloc, desk, late, now);
    }
    if failed {
        end_by_time(rt, queue, bells, before, now);
    }
    ring_seat(bells, seat);
}

/// A token that came too late is offered to those that are kept.
fn keep_late<V: Voucher, R: Wait>(
    rt: &R,
    alloc: Global,
    desk: &Mutex<Desk<V>>,
    letter: Answered<V>,
    now: u64,
) {
    let (ask, audience, answer) = letter.into_parts();
    let Some(token) = answer else { return };
    if token.unfit(now).is_some() {
        return;
    }
    match desk
        .lock(rt)
        .keep_token(alloc, &ask, audience.as_slice(), token, now)
    {
        Ok(_) | Err(Memory) => {}
    }
}

/// Where a failed exchange with a signer took from one second to the other it has ended by time: then asks for tokens fail
/// for a while, those that wait too.
fn end_by_time<V: Voucher, B: Bell, R: Wait>(
    rt: &R,
    queue: &TicketQueue<V>,
    bells: &[B],
    before: u64,
    now: u64,
) {
    if now.saturating_sub(before) >= LONG_EXCHANGE {
        queue.hub().silence(rt, now);
        ring_all(bells);
    }
}

/// An ask whose answer was not kept is slowed down, until one is kept; and so is one whose answer is due again at once.
fn pace<V: Voucher, R: Wait>(
    rt: &R,
    queue: &TicketQueue<V>,
    ask: Option<Ask>,
    asked: &Asked<V>,
    now: u64,
) {
    let Some(ask) = ask else { return };
    match asked {
        Asked::Kept(_, rest) => queue.rest(rt, ask, now, *rest),
        Asked::Refused => queue.slow_down(rt, ask, now),
        Asked::Failed(_) | Asked::Starved(_) | Asked::Memory => {}
    }
}

/// What is to be done after an ask, at this time: bells ring after an identity that was kept, and an ask that failed is
/// put back for so many seconds.
fn settle<V: Voucher, B: Bell, R: Wait>(
    rt: &R,
    desk: &Mutex<Desk<V>>,
    queue: &TicketQueue<V>,
    bells: &[B],
    asked: Asked<V>,
    pause: u64,
    now: u64,
) {
    match asked {
        Asked::Kept(note, _) => {
            drop(note);
            ring_all(bells);
        }
        Asked::Refused | Asked::Memory => {}
        Asked::Failed(ticket) | Asked::Starved(ticket) => {
            if let Some(ticket) = queue.put_back(rt, ticket, pause, now) {
                desk.lock(rt).failed(ticket);
            }
        }
    }
}

/// Rings where a document made a publication after the one with this number.
fn ring_synced<V: Voucher, B: Bell>(
    bells: &[B],
    rung: Option<u64>,
    synced: Synced<V>,
) -> Option<u64> {
    match synced {
        Synced::Done(note) | Synced::Refused(_, note) => ring_news(bells, rung, &note),
        Synced::Same | Synced::Failed | Synced::Memory => rung,
    }
}

/// Rings all bells where the note's last publication is another than the one with this number, and answers its number.
fn ring_news<V: Voucher, B: Bell>(bells: &[B], rung: Option<u64>, note: &Note<V>) -> Option<u64> {
    let last = Some(note.number());
    if last != rung {
        ring_all(bells);
    }
    last
}

/// Hands on the number of the last publication, where one is known.
fn note_last<G: Gate>(gate: &G, last: Option<u64>) {
    if let Some(number) = last {
        gate.note_publication(number);
    }
}

/// Hands on the number of the publication that shows a document that was taken.
fn note_taken<V: Voucher, U: Upstream>(upstream: &U, synced: &Synced<V>) {
    if let Synced::Done(note) = synced {
        upstream.note_taken(note.number());
    }
}

/// Rings the bell of a seat.
fn ring_seat<B: Bell>(bells: &[B], seat: u32) {
    if let Some(bell) = bells.get(seat as usize) {
        bell.ring();
    }
}

/// Rings all bells.
fn ring_all<B: Bell>(bells: &[B]) {
    for bell in bells {
        bell.ring();
    }
}
