//! Which sessions are marked: a publication since their last turn shows one of their callers something else.

ghost use Rattle.std.specs.Prelude.{◌≡◌, ◌<◌, map, length, IfOk, OnOk};
ghost use Rattle.std.specs.List.{list_any};
ghost use Rattle.wl_snapshot.specs.Untouched.{SameBut};
ghost use Rattle.wl_subscribe.specs.Filed.{has_number};
ghost use Rattle.wl_subscribe.specs.Subscribed.{without_member};
ghost use Rattle.wl_core.specs.declared.events.TheConstants.{CONNS};
ghost use Rattle.wl_core.specs.Events.{IsWithin};
ghost use Rattle.wl_core.specs.Seats.{seat_at};
ghost use Rattle.wl_core.specs.Marks.{no_mark, mark_at, none_marked, with_caller, marked_as, without_members, without_callers, marked_by, marked_after, noted, noted_join, noted_name, IsTurnMarked};

use crate::events::{CONNS, Event};
use crate::seats::Seats;
use std::alloc::Global;
use std::marker::Model;
use std::mem;
use wl_octets::{Memory, Octets, Row};
use wl_selector::Selectors;
use wl_snapshot::Snapshot;
use wl_subscribe::{SubId, Subscribers};

/// The numbers of a connection's callers among the subscribers, and whether its session is marked.
#[derive(Drop)]
pub struct Mark {
    pub ids: Row<SubId>,
    pub is_marked: bool,
}

impl Mark {
    fn start(alloc: Global) -> Mark
        ensures { result ≡ no_mark }
    {
        Mark {
            ids: Row::empty(alloc),
            is_marked: true,
        }
    }
}

/// The callers of all sessions, and which sessions are marked.
#[derive(Drop)]
pub struct Marks {
    alloc: Global,
    subscribers: Subscribers,
    marks: Vec<Mark>,
}

impl Model for Marks {
    ghost use Rattle.wl_core.specs.Marks.{Marked};

    ghost Value = { Marked };

    ghost view = { λ m. record { subscribed = m.subscribers; marks = m.marks.items } };
}

fn has_id(ids: &[SubId], id: &SubId) -> bool
    ensures { result ≡ has_number ids.now id.now }
{
    ids.iter().any(|other| *other == *id)
}

/// Whether one of these is among the others.
fn has_one(ids: &[SubId], among: &[SubId]) -> bool
    ensures { result ≡ list_any (has_number among.now) ids.now }
{
    ids.iter().any(|id| has_id(among, id))
}

/// The session is marked where one of its callers is among these.
fn mark_by(mark: &mut Mark, affected: &[SubId])
    ensures { mark.new ≡ marked_by affected.now mark.old }
{
    if has_one(mark.ids.as_slice(), affected) {
        mark.is_marked = true;
    }
}

/// Each session is.
fn mark_all(marks: &mut [Mark], affected: &[SubId])
    ensures { marks.new ≡ map (marked_by affected.now) marks.old }
{
    for mark in marks.iter_mut() {
        mark_by(mark, affected);
    }
}

/// Each of these leaves.
#[tactic(auto, unfolding(crate::specs::Marks::without_members))]
fn leave_all(subscribers: &mut Subscribers, ids: Row<SubId>)
    ensures { subscribers.new ≡ without_members ids subscribers.old }
{
    for id in ids.into_vec() {
        subscribers.leave(id);
    }
}

fn start_marks(alloc: Global) -> Result<Vec<Mark>, Memory>
    ensures { IfOk result (λ m. m.items ≡ none_marked.marks) }
{
    let mut marks = Vec::with_capacity(alloc, CONNS as usize)?;
    for _ in 0..CONNS {
        marks.push(Mark::start(alloc))?;
    }
    Ok(marks)
}

impl Marks {
    /// Nobody is subscribed.
    pub fn start(alloc: Global) -> Result<Marks, Memory>
        ensures { IfOk result (λ m. m ≡ none_marked) }
    {
        Ok(Marks {
            alloc,
            subscribers: Subscribers::start(alloc),
            marks: start_marks(alloc)?,
        })
    }

    /// A caller of a connection is one subscriber more.
    fn join(&mut self, conn: u32, selectors: &Selectors) -> Result<(), Memory>
        requires { conn < length self.old.marks }
        ensures { OnOk result (self.new ≡ with_caller conn selectors.now self.old) }
    {
        let id = self.subscribers.join(selectors.copy(self.alloc)?)?;
        self.marks[conn as usize].ids.push(id)?;
        Ok(())
    }

    /// The session is marked, or not any more; tells whether it was.
    fn mark(&mut self, conn: u32, is_marked: bool) -> bool
        requires { conn < length self.old.marks }
        ensures was { result ≡ (mark_at self.old.marks conn).is_marked }
        ensures now { self.new ≡ marked_as is_marked conn self.old }
    {
        mem::replace(&mut self.marks[conn as usize].is_marked, is_marked)
    }

    /// The callers of a connection leave.
    fn leave(&mut self, conn: u32)
        requires { conn < length self.old.marks }
        ensures { self.new ≡ without_callers conn self.old }
    {
        let mark = mem::replace(&mut self.marks[conn as usize], Mark::start(self.alloc));
        leave_all(&mut self.subscribers, mark.ids);
    }

    fn note_join(&mut self, seats: &Seats, conn: u32, selectors: &Selectors) -> Result<(), Memory>
        requires room { conn < length self.old.marks }
        requires taken { conn < length seats.now.seats.items }
        ensures { OnOk result (self.new ≡ noted_join (seat_at seats.now.seats.items conn) conn selectors.now self.old) }
    {
        if !seats.is_taken(conn) {
            self.join(conn, selectors)?;
            self.mark(conn, true);
        }
        Ok(())
    }

    fn note_name(
        &mut self,
        seats: &Seats,
        conn: u32,
        caller: &Option<Selectors>,
    ) -> Result<(), Memory>
        requires room { conn < length self.old.marks }
        requires taken { conn < length seats.now.seats.items }
        ensures { OnOk result (self.new ≡ noted_name (seat_at seats.now.seats.items conn) conn caller.now self.old) }
    {
        if seats.is_taken(conn) {
            if let Some(selectors) = caller {
                self.join(conn, selectors)?;
            }
        }
        Ok(())
    }

    /// Takes note of an event before it is taken; tells of a turn whether its session is marked.
    pub fn note(&mut self, seats: &Seats, event: &Event) -> Result<bool, Memory>
        requires within { IsWithin event.now }
        requires room { length self.old.marks ≡ CONNS }
        requires taken { length seats.now.seats.items ≡ CONNS }
        ensures now { OnOk result (self.new ≡ noted event.now seats.now.seats.items self.old) }
        ensures turn { IfOk result (λ is. IsTurnMarked is event.now self.old.marks) }
    {
        match event {
            Event::Join { conn, selectors } => self.note_join(seats, *conn, selectors)?,
            Event::Name { conn, selectors } => self.note_name(seats, *conn, selectors)?,
            Event::Turn { conn } => return Ok(self.mark(*conn, false)),
            Event::Close { conn } => self.leave(*conn),
            _ => {}
        }
        Ok(true)
    }

    /// After a publication the sessions are marked of whose callers one sees something else. It differs from the one
    /// before at no other entry ids than those touched.
    pub fn note_publication(
        &mut self,
        old: &Snapshot,
        new: &Snapshot,
        touched: &[Octets],
    ) -> Result<(), Memory>
        requires { SameBut touched.now old.now new.now }
        ensures { OnOk result (self.new ≡ marked_after old.now new.now self.old) }
    {
        if old.number != new.number {
            let affected = self.subscribers.affected_at(self.alloc, old, new, touched)?;
            mark_all(&mut self.marks, affected.as_slice());
        }
        Ok(())
    }
}
