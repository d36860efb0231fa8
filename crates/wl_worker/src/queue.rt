//! What waits for a signer: tickets, and asks for tokens.

use crate::asks::{AskHub, Turn};
use ask_mail::Asked;
use std::alloc::{AllocFailed, Global};
use std::collections::VecDeque;
use std::sync::{Arc, Mutex, Wait};
use wl_entry::{Ask, Voucher};
use wl_store::Ticket;

/// How many seconds an ask waits after its first failure.
const FIRST_PAUSE: u64 = 1;

/// How many seconds an ask waits after a failure at most.
const LONGEST_PAUSE: u64 = 60;

/// A ticket, and how many seconds it is to wait after its next failure.
pub struct QueuedTicket {
    pub(crate) ticket: Ticket,
    pub(crate) pause: u64,
}

/// What a signer is to do.
pub(crate) enum Work {
    /// This ask for a token.
    Token(Asked),
    /// This ticket.
    Identity(QueuedTicket),
}

/// A ticket that waits until this second.
struct Held {
    until: u64,
    queued: QueuedTicket,
}

/// How soon an ask may be made again, since its answer was not kept, or was due again at once.
#[derive(Drop)]
struct Pace {
    ask: Ask,
    until: u64,
    /// The seconds that it waits after the next answer that is not kept.
    pause: u64,
}

/// The tickets that wait, as they stand under the lock.
struct Tickets {
    /// Those that may be asked for now, the oldest first.
    due: VecDeque<QueuedTicket>,
    /// Those whose ask failed, or is slowed down.
    held: Vec<Held>,
    paces: Vec<Pace>,
    /// The time, as the keeper last read it.
    now: u64,
}

impl Tickets {
    /// The second from which on this ask may be made.
    fn earliest(&self, ask: &Ask) -> u64 {
        match self.paces.iter().find(|pace| pace.ask == *ask) {
            Some(pace) => pace.until,
            None => 0,
        }
    }

    /// Puts a ticket at the end, or where its ask is slowed down among those that are held. It comes back where memory
    /// ran out.
    fn put(&mut self, ticket: Ticket) -> Option<Ticket> {
        let until = self.earliest(&ticket.ask);
        let queued = QueuedTicket {
            ticket,
            pause: FIRST_PAUSE,
        };
        if until > self.now {
            return self.hold(Held { until, queued });
        }
        match self.due.push_back(queued) {
            Ok(()) => None,
            Err(AllocFailed { value }) => Some(ticket_of(value)),
        }
    }

    /// Holds a ticket. It comes back where memory ran out.
    fn hold(&mut self, held: Held) -> Option<Ticket> {
        match self.held.push(held) {
            Ok(()) => None,
            Err(AllocFailed { value }) => {
                let Held { until: _, queued } = value;
                Some(ticket_of(queued))
            }
        }
    }

    /// The pace of this ask leaves.
    fn take_pace(&mut self, ask: &Ask) -> Option<Pace> {
        let at = self.paces.iter().position(|pace| pace.ask == *ask)?;
        Some(self.paces.swap_remove(at))
    }

    /// Whether there is one that may be asked for.
    fn is_ready(&self) -> bool {
        !self.due.is_empty() || self.held.iter().any(|held| held.until <= self.now)
    }

    /// One that may be asked for: the oldest, or else one whose pause is over.
    fn take(&mut self) -> Option<QueuedTicket> {
        match self.due.pop_front() {
            Some(queued) => Some(queued),
            None => self.take_held(),
        }
    }

    /// One whose pause is over.
    fn take_held(&mut self) -> Option<QueuedTicket> {
        let at = self.held.iter().position(|held| held.until <= self.now)?;
        let Held { until: _, queued } = self.held.swap_remove(at);
        Some(queued)
    }
}

/// Tickets on their way from the keeper to the signers, beside the asks for tokens, which go first. `next` waits for
/// either; the other calls wait for a lock alone.
pub struct TicketQueue<V: Voucher> {
    tickets: Mutex<Tickets>,
    hub: Arc<AskHub<V>>,
}

impl<V: Voucher> TicketQueue<V> {
    /// A queue of no tickets, beside these asks.
    pub fn start(alloc: Global, hub: Arc<AskHub<V>>) -> TicketQueue<V> {
        TicketQueue {
            tickets: Mutex::new(Tickets {
                due: VecDeque::new(alloc),
                held: Vec::new(alloc),
                paces: Vec::new(alloc),
                now: 0,
            }),
            hub,
        }
    }

    /// The asks for tokens.
    pub(crate) fn hub(&self) -> &AskHub<V> {
        &self.hub
    }

    /// Puts a ticket at the end. It comes back where memory ran out.
    pub fn put<R: Wait>(&self, rt: &R, ticket: Ticket) -> Option<Ticket> {
        let back = self.tickets.lock(rt).put(ticket);
        self.hub.nudge(rt);
        back
    }

    /// Puts back a ticket whose ask failed at this second: it waits for its pause, and twice as long the next time. It comes
    /// back where memory ran out.
    pub fn put_back<R: Wait>(
        &self,
        rt: &R,
        ticket: Ticket,
        pause: u64,
        now: u64,
    ) -> Option<Ticket> {
        let held = Held {
            until: now.saturating_add(pause),
            queued: QueuedTicket {
                ticket,
                pause: pause.saturating_mul(2).min(LONGEST_PAUSE),
            },
        };
        self.tickets.lock(rt).hold(held)
    }

    /// Says that the answer to this ask was not kept at this second: its next ticket waits for a second, and twice as long
    /// after each further one.
    pub fn slow_down<R: Wait>(&self, rt: &R, ask: Ask, now: u64) {
        let mut tickets = self.tickets.lock(rt);
        let pause = match tickets.take_pace(&ask) {
            Some(pace) => pace.pause,
            None => FIRST_PAUSE,
        };
        // out of memory it is not slowed down
        let _ = tickets.paces.push(Pace {
            ask,
            until: now.saturating_add(pause),
            pause: pause.saturating_mul(2).min(LONGEST_PAUSE),
        });
    }

    /// Says that the answer to this ask was kept at this second: its next ticket waits for so many seconds.
    pub fn rest<R: Wait>(&self, rt: &R, ask: Ask, now: u64, seconds: u64) {
        let mut tickets = self.tickets.lock(rt);
        drop(tickets.take_pace(&ask));
        if seconds > 0 {
            // out of memory it doesn't wait
            let _ = tickets.paces.push(Pace {
                ask,
                until: now.saturating_add(seconds),
                pause: FIRST_PAUSE,
            });
        }
    }

    /// Says what time it is, so that pauses end.
    pub fn tell_time<R: Wait>(&self, rt: &R, now: u64) {
        let mut tickets = self.tickets.lock(rt);
        tickets.now = now;
        // an ask that was slowed down long ago may be gone
        tickets
            .paces
            .retain(|pace| pace.until.saturating_add(LONGEST_PAUSE) > now);
        let ready = tickets.is_ready();
        drop(tickets);
        self.hub.tell_time(rt, now);
        if ready {
            self.hub.nudge(rt);
        }
    }

    /// Says to all who wait that there will be no more.
    pub fn close<R: Wait>(&self, rt: &R) {
        self.hub.close(rt);
    }

    /// Waits for something to do. After `close` there is nothing.
    pub(crate) fn next<R: Wait>(&self, rt: &R) -> Option<Work> {
        for _ in rt.forever() {
            match self.hub.next(rt) {
                Turn::Over => return None,
                Turn::Ask(ask) => return Some(Work::Token(ask)),
                Turn::Ticket => {
                    if let Some(queued) = self.take(rt) {
                        return Some(Work::Identity(queued));
                    }
                }
            }
        }
        unreachable!()
    }

    /// A ticket that may be asked for. Where more are left another signer is woken.
    fn take<R: Wait>(&self, rt: &R) -> Option<QueuedTicket> {
        let mut tickets = self.tickets.lock(rt);
        let taken = tickets.take();
        let more = tickets.is_ready();
        drop(tickets);
        if more {
            self.hub.nudge(rt);
        }
        taken
    }

    /// Gives up the tickets that are left; what is in flight stays as it is.
    pub fn end(self) {
        let TicketQueue { tickets, hub: _ } = self;
        let Tickets {
            due,
            held,
            paces: _,
            now: _,
        } = tickets.into_inner();
        abandon_due(due);
        abandon_held(held);
    }
}

/// The ticket alone.
fn ticket_of(queued: QueuedTicket) -> Ticket {
    let QueuedTicket { ticket, pause: _ } = queued;
    ticket
}

fn abandon_due(due: VecDeque<QueuedTicket>) {
    let mut left = due;
    'left: while let Some(queued) = left.pop_front() {
        ticket_of(queued).abandon();
    }
    left.destroy_empty();
}

fn abandon_held(held: Vec<Held>) {
    let mut left = held;
    'left: while let Some(Held { until: _, queued }) = left.pop() {
        ticket_of(queued).abandon();
    }
    left.destroy_empty();
}
