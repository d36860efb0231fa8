//! The links that are watched, by their numbers.

ghost use Rattle.std.specs.Prelude.{◌≡◌, IfErr};
ghost use Rattle.list_laws.specs.Lists.{BeginsWith};

use crate::limits::{Limits, has_passed};
use crate::turns::Turns;
use crate::watch::{Lateness, Watch};
use mio::unix::SourceFd;
use mio::{Interest, Registry, Token};
use std::alloc::Global;
use std::os::fd::RawFd;
use std::sync::Arc;
use std::time::Instant;
use std::{io, mem};
use wl_edge::EdgeFault;
use wl_octets::{Memory, Row};

/// What the poll is to report of a link.
pub(crate) fn interest(tells_of_room: bool) -> Interest {
    if tells_of_room {
        Interest::READABLE | Interest::WRITABLE
    } else {
        Interest::READABLE
    }
}

/// A link that is watched.
#[derive(Drop)]
pub(crate) struct Watched {
    pub(crate) number: u32,
    /// The number of the socket over which it came.
    pub(crate) from: u32,
    pub(crate) socket: RawFd,
    pub(crate) watch: Arc<Watch>,
    /// When it came, where the clock said so.
    pub(crate) came: Option<Instant>,
    /// Since when it stands with unsent bytes.
    pub(crate) stands_since: Option<Instant>,
    /// Whether it stands among those that are due.
    pub(crate) is_due: bool,
    /// Whether the poll is to report that its peer has read: while a sending is stalled.
    pub(crate) tells_of_room: bool,
}

impl Watched {
    /// Notes that its peer sends no more.
    fn note_closing(&self) {
        self.watch.note_closing();
    }

    /// Whether a receive may find something that the poll does not report.
    fn has_more(&self) -> bool {
        self.watch.has_more()
    }

    /// Notes what came of its round: has the poll report what it is to report now, and notes since when it stands.
    fn follow(&mut self, registry: &Registry, now: Option<Instant>) -> io::Result<()> {
        let is_stalled = self.watch.is_stalled();
        if self.watch.take_progress() || self.stands_since.is_none() {
            self.stands_since = now;
        }
        if !is_stalled {
            self.stands_since = None;
        }
        if is_stalled != self.tells_of_room {
            let socket = self.socket;
            let token = Token(self.number as usize);
            registry.reregister(&mut SourceFd(&socket), token, interest(is_stalled))?;
            self.tells_of_room = is_stalled;
        }
        Ok(())
    }

    /// Puts it among those that are due, where it is not there. False where there is no memory.
    fn become_due(&mut self, due: &mut Turns) -> bool {
        if self.is_due {
            return true;
        }
        self.is_due = due.push(self.from, self.number).is_ok();
        self.is_due
    }

    /// Whether it stands still for longer than it may. Then its next call fails.
    fn is_over(&self, limits: Limits, now: Instant) -> bool {
        if has_passed(limits.stall_seconds, self.stands_since, now) {
            self.watch.give_up(Lateness::Stalled);
        }
        if !self.watch.has_call() && has_passed(limits.opening_seconds, self.came, now) {
            self.watch.give_up(Lateness::Silent);
        }
        self.watch.lateness().is_some()
    }
}

/// The links by their numbers, with those that are to be listed.
#[derive(Drop)]
pub(crate) struct Table {
    links: Vec<Option<Watched>>,
    /// Those that are due, each once.
    due: Turns,
    /// The numbers of those whose turn it is.
    turn: Vec<u32>,
    /// The numbers that were listed last, whose links had a round since.
    listed: Vec<u32>,
    /// Whether all are due: there was no memory to say which.
    is_short: bool,
}

impl Table {
    /// No links.
    pub(crate) fn start(alloc: Global) -> Table {
        Table {
            links: Vec::new(alloc),
            due: Turns::start(alloc),
            turn: Vec::new(alloc),
            listed: Vec::new(alloc),
            is_short: false,
        }
    }

    /// Whether a link is due.
    pub(crate) fn has_due(&self) -> bool {
        self.is_short || !self.due.is_empty() || !self.turn.is_empty()
    }

    /// Makes room for a link of this number.
    fn make_room(&mut self, number: u32) -> Result<(), Memory> {
        let count = (number as usize).saturating_add(1);
        self.turn.reserve(count)?;
        self.listed.reserve(count)?;
        for _ in self.links.len()..count {
            self.links.push(None)?;
        }
        Ok(())
    }

    /// Watches one more link, which is due.
    pub(crate) fn insert(&mut self, link: Watched) -> Result<(), Memory> {
        let number = link.number;
        self.make_room(number)?;
        self.due.make_queue(link.from)?;
        if let Some(place) = self.links.get_mut(number as usize) {
            *place = Some(link);
        }
        self.note_change(number as usize, false);
        Ok(())
    }

    /// Watches the link of this number no more.
    pub(crate) fn remove(&mut self, number: u32) {
        let Some(place) = self.links.get_mut(number as usize) else {
            return;
        };
        if let Some(link) = place.take() {
            self.due.remove(link.from, number);
        }
        self.turn.retain(|other| *other != number);
    }

    /// Notes that the link of this number changed, if it is watched, and whether its peer sends no more.
    pub(crate) fn note_change(&mut self, number: usize, is_closing: bool) {
        let Some(Some(link)) = self.links.get_mut(number) else {
            return;
        };
        if is_closing {
            link.note_closing();
        }
        if !link.become_due(&mut self.due) {
            self.is_short = true;
        }
    }

    /// Notes what came of the rounds of those that were listed last: one that has more to read is due again.
    pub(crate) fn follow(&mut self, registry: &Registry, now: Option<Instant>) -> io::Result<()> {
        for number in self.listed.as_slice() {
            let Some(Some(link)) = self.links.get_mut(*number as usize) else {
                continue;
            };
            link.follow(registry, now)?;
            if link.has_more() && !link.become_due(&mut self.due) {
                self.is_short = true;
            }
        }
        self.listed.clear();
        Ok(())
    }

    /// Looks at all links. One that has more to read or stands still for longer than it may is due.
    pub(crate) fn look_over(
        &mut self,
        registry: &Registry,
        limits: Option<Limits>,
        now: Instant,
    ) -> io::Result<()> {
        for place in self.links.iter_mut() {
            let Some(link) = place else {
                continue;
            };
            link.follow(registry, Some(now))?;
            let is_over = match limits {
                Some(limits) => link.is_over(limits, now),
                None => false,
            };
            if (is_over || link.has_more()) && !link.become_due(&mut self.due) {
                self.is_short = true;
            }
        }
        Ok(())
    }

    /// It is the turn of all links.
    fn take_all(&mut self) -> Result<(), Memory> {
        self.due.clear();
        self.turn.clear();
        for place in self.links.iter_mut() {
            if let Some(link) = place {
                link.is_due = true;
                self.turn.push(link.number)?;
            }
        }
        self.is_short = false;
        Ok(())
    }

    /// It is the turn of some of those that are due.
    fn take_turn(&mut self) {
        if self.due.take(&mut self.turn).is_err() {
            self.is_short = true;
        }
    }

    /// Notes that those whose turn it was are listed now.
    fn hand_over(&mut self) {
        for number in self.turn.as_slice() {
            if let Some(Some(link)) = self.links.get_mut(*number as usize) {
                link.is_due = false;
            }
        }
        mem::swap(&mut self.turn, &mut self.listed);
        self.turn.clear();
    }

    /// Appends the numbers of all links, or of those that are due and whose turn it is.
    pub(crate) fn list(&mut self, all: bool, into: &mut Row<u32>) -> Result<(), EdgeFault>
        ensures kept { BeginsWith into.new into.old }
        ensures fault { IfErr result (λ e. e ≡ EdgeFault.Memory) }
    {
        if all || self.is_short {
            self.is_short = true;
            self.take_all()?;
        } else {
            self.take_turn();
        }
        append(self.turn.as_slice(), into)?;
        self.hand_over();
        Ok(())
    }
}

/// Puts these numbers after others, as far as there is memory.
fn append(numbers: &[u32], into: &mut Row<u32>) -> Result<(), EdgeFault>
    ensures kept { BeginsWith into.new into.old }
    ensures fault { IfErr result (λ e. e ≡ EdgeFault.Memory) }
{
    for number in numbers {
        into.push(*number)?;
    }
    Ok(())
}
