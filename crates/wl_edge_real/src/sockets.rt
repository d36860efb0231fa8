//! The sockets of a listener, under one poll.

ghost use Rattle.std.specs.Prelude.{◌≡◌, ◌++◌, ◌∷◌, [], map, Contains, IfOk, IfSome, OnOk, OnErr, string_bytes};
ghost use mathlib.Core.List.{IsPrefix};
ghost use Rattle.wl_edge.specs.Links.{IsFresh};
ghost use Rattle.wl_edge_real.specs.Places.{socket_of};

use crate::arrivals::Arrivals;
use crate::changes::{Added, Change, Changes, MOST_WAITING, Replacement};
use crate::doors::{Caller, Door};
use crate::link::{Held, RealLink};
use crate::missed::{Missed, no_memory};
use crate::open_links::OpenLinks;
use crate::stop::{Stop, share_stop};
use mio::unix::SourceFd;
use mio::{Events, Interest, Poll, Registry, Token};
use std::alloc::Global;
use std::collections::VecDeque;
use std::io;
use std::io::ErrorKind;
use std::net::Net;
use std::os::fd::{AsRawFd, RawFd};
use std::sync::Arc;
use std::sync::atomic::{AtomicBool, Ordering};
use std::time::Duration;
use wl_edge::{Link, Origin};

/// How many events a look lists at most; others are left for the next one.
const EVENTS: usize = 256;

/// How many sockets an accept tries at most.
const TRIES: u32 = 1_024;

/// How many links a watched listener gives before a wait: those that were accepted have a round before more come.
const SHARE: u32 = 2;

/// One of the sockets.
#[derive(Drop)]
pub(crate) struct Place {
    /// Its place in the list, from 0.
    at: u32,
    /// Its path, or the text of its address.
    pub(crate) name: String,
    /// From where its links come.
    pub(crate) origin: Origin,
    /// Its links that are open.
    open: Arc<OpenLinks>,
    /// What has its links end once it is closed.
    closing: Arc<Stop>,
    /// Whether it stands in the list of those that are due.
    is_due: AtomicBool,
    /// Whether peers may wait until one of its links ends.
    is_full: AtomicBool,
}

impl Place {
    /// The next connection of its socket, one of these, as a link.
    fn next_link(
        &self,
        doors: &mut [Option<Door>],
        all: &Arc<OpenLinks>,
        stop: &Option<Arc<Stop>>,
    ) -> Result<RealLink, Missed>
        ensures origin { IfOk result (λ l. socket_of (⟦<RealLink as Link>⟧.origin l) ≡ socket_of self.now.origin) }
        ensures fresh { IfOk result (λ l. IsFresh (⟦<RealLink as Link>⟧.told l) (⟦<RealLink as Link>⟧.failed_receives l)
            (⟦<RealLink as Link>⟧.failed_sends l) (⟦<RealLink as Link>⟧.stalls l)) }
    {
        let Some(Some(door)) = doors.get_mut(self.at as usize) else {
            return Err(Missed::Nobody);
        };
        let Some(of_socket) = OpenLinks::enter(&self.open) else {
            return Err(Missed::Full);
        };
        let origin = self.origin.share().map_err(no_memory)?;
        let closing = Arc::try_clone(&self.closing).map_err(no_memory)?;
        let stop = share_stop(stop)?;
        let Some(of_all) = OpenLinks::enter(all) else {
            door.turn_away()?;
            all.note_refused();
            return Err(Missed::Again);
        };
        let Caller {
            stream,
            origin,
            of_uid,
        } = door.accept(origin)?;
        let mut link = RealLink::start_over(origin, stream)?;
        link.obey(stop);
        link.hold(Held {
            at: self.at,
            of_socket,
            of_uid,
            of_all,
            closing,
        });
        Ok(link)
    }

    /// Notes that the socket is due, and says whether it was not.
    fn become_due(&self) -> bool {
        !self.is_due.swap(true, Ordering::SeqCst)
    }

    /// Notes what an accept found, and says whether the socket stays due.
    fn stays_due(&self, found: &Result<RealLink, Missed>) -> bool {
        let is_full = matches!(found, Err(Missed::Full));
        let stays = !is_full && !matches!(found, Err(Missed::Nobody));
        self.is_due.store(stays, Ordering::SeqCst);
        if is_full {
            self.is_full.store(true, Ordering::SeqCst);
        }
        stays
    }
}

/// Sockets under a poll of their own, whose descriptor is readable while one of them has a peer of whom it has not heard.
#[derive(Drop)]
pub(crate) struct Sockets {
    alloc: Global,
    poll: Poll,
    events: Events<Global>,
    pub(crate) places: Vec<Place>,
    /// The sockets themselves, in the same order: one may take the place of another, and none is left of one that was closed.
    doors: Vec<Option<Door>>,
    /// What is to change while others wait for them.
    changes: Arc<Changes>,
    /// The places of those that may have a peer and room for it, each once, in turn.
    due: VecDeque<u32>,
    /// The number of the socket that was tried last.
    tried: u32,
    /// How many links were given since an accept found none.
    given: u32,
    /// Shared with one who watches them.
    arrivals: Arc<Arrivals>,
}

/// Notes that the socket of this token is due.
fn note_due(places: &[Place], due: &mut VecDeque<u32>, token: Token) {
    let Token(at) = token;
    if let Some(place) = places.get(at)
        && place.become_due()
    {
        // There is room for each place.
        let _ = due.push_back(place.at);
    }
}

/// Notes which sockets are due after these events.
fn note_all(events: &Events<Global>, places: &[Place], due: &mut VecDeque<u32>) {
    for event in events.iter() {
        note_due(places, due, event.token());
    }
}

/// The next connection at this place as a link.
fn link_at(
    places: &[Place],
    doors: &mut [Option<Door>],
    at: u32,
    all: &Arc<OpenLinks>,
    stop: &Option<Arc<Stop>>,
) -> Result<RealLink, Missed>
    ensures origin { IfOk result (λ l. Contains (map (λ p. socket_of p.origin) places.now)
        (socket_of (⟦<RealLink as Link>⟧.origin l))) }
    ensures fresh { IfOk result (λ l. IsFresh (⟦<RealLink as Link>⟧.told l) (⟦<RealLink as Link>⟧.failed_receives l)
        (⟦<RealLink as Link>⟧.failed_sends l) (⟦<RealLink as Link>⟧.stalls l)) }
{
    match places.get(at as usize) {
        Some(place) => place.next_link(doors, all, stop),
        None => Err(Missed::Nobody),
    }
}

/// Notes what an accept found at this place, and says whether it stays due.
fn stays_due_at(places: &[Place], at: u32, found: &Result<RealLink, Missed>) -> bool {
    match places.get(at as usize) {
        Some(place) => place.stays_due(found),
        None => false,
    }
}

/// Has the poll report the peers of the socket at this place.
fn register(registry: &Registry, socket: RawFd, at: u32) -> io::Result<()> {
    let token = Token(at as usize);
    registry.register(&mut SourceFd(&socket), token, Interest::READABLE)
}

/// The number of the socket at this place.
fn number_at(places: &[Place], at: u32) -> u32 {
    match places.get(at as usize) {
        Some(place) => place.origin.socket,
        None => 0,
    }
}

/// The place of the socket of this number.
fn place_of(places: &[Place], number: u32) -> io::Result<u32> {
    match places.iter().find(|place| place.origin.socket == number) {
        Some(place) => Ok(place.at),
        None => Err(io::Error::from(ErrorKind::NotFound)),
    }
}

/// Has the links of the socket at this place end.
fn end_links(places: &[Place], at: u32) {
    if let Some(place) = places.get(at as usize) {
        place.closing.ask();
    }
}

impl Sockets {
    /// No sockets yet.
    pub(crate) fn start(rt: &impl Net, alloc: Global) -> io::Result<Sockets>
        ensures { IfOk result (λ s. s.places.items ≡ []) }
    {
        let arrivals = Arc::new(alloc, Arrivals::start()).map_err(no_memory)?;
        let shared = Arc::try_clone(&arrivals).map_err(no_memory)?;
        let changes = Changes::start(alloc, shared);
        Ok(Sockets {
            alloc,
            poll: Poll::new(rt)?,
            events: Events::with_capacity(alloc, EVENTS).map_err(no_memory)?,
            places: Vec::new(alloc),
            doors: Vec::new(alloc),
            changes: Arc::new(alloc, changes).map_err(no_memory)?,
            due: VecDeque::new(alloc),
            tried: 0,
            given: 0,
            arrivals,
        })
    }

    /// What one who waits for peers watches.
    pub(crate) fn descriptor(&self) -> RawFd {
        self.poll.as_raw_fd()
    }

    /// What one who watches them shares.
    pub(crate) fn share_arrivals(&self) -> io::Result<Arc<Arrivals>> {
        Arc::try_clone(&self.arrivals).map_err(no_memory)
    }

    /// What one who changes them shares.
    pub(crate) fn share_changes(&self) -> io::Result<Arc<Changes>> {
        Arc::try_clone(&self.changes).map_err(no_memory)
    }

    /// Whether an accept may find a link.
    pub(crate) fn may_have_arrivals(&self) -> bool {
        !self.due.is_empty() || self.arrivals.are_there()
    }

    /// The number of the socket that was tried last, 0 at first.
    pub(crate) fn tried(&self) -> u32 {
        self.tried
    }

    /// One more socket.
    pub(crate) fn add(&mut self, added: Added) -> io::Result<()>
        ensures added { OnOk result (map (λ p. socket_of p.origin) self.new.places.items
            ≡ map (λ p. socket_of p.origin) self.old.places.items ++ socket_of added.origin ∷ []) }
        ensures named { OnOk result (map (λ p. string_bytes p.name) self.new.places.items
            ≡ map (λ p. string_bytes p.name) self.old.places.items ++ string_bytes added.name ∷ []) }
        ensures kept { OnErr result (self.new.places.items ≡ self.old.places.items) }
    {
        let Added {
            door,
            name,
            origin,
            connections,
        } = added;
        door.set_nonblocking(true)?;
        let at = u32::try_from(self.places.len()).map_err(no_memory)?;
        self.due
            .reserve(self.places.len().saturating_add(1))
            .map_err(no_memory)?;
        self.doors.reserve(1).map_err(no_memory)?;
        let open = OpenLinks::share(self.alloc, connections).map_err(no_memory)?;
        let closing = Arc::new(self.alloc, Stop::start()).map_err(no_memory)?;
        let place = Place {
            at,
            name,
            origin,
            open,
            closing,
            is_due: AtomicBool::new(false),
            is_full: AtomicBool::new(false),
        };
        register(self.poll.registry(), door.descriptor(), at)?;
        // A socket for which there is no memory is closed, and so leaves the poll.
        self.places.push(place).map_err(no_memory)?;
        // There is room for it.
        let _ = self.doors.push(Some(door));
        Ok(())
    }

    /// What its memory is taken from.
    pub(crate) fn alloc(&self) -> Global {
        self.alloc
    }

    /// Puts a Unix socket in the place of another. If the system refuses that, the other stays.
    fn replace(&mut self, replacement: Replacement) -> io::Result<()>
        ensures { self.new.places ≡ self.old.places }
    {
        let Replacement { number, listener } = replacement;
        let at = place_of(self.places.as_slice(), number)?;
        let Some(Some(Door::Unix(other))) = self.doors.get_mut(at as usize) else {
            return Err(io::Error::from(ErrorKind::NotFound));
        };
        listener.set_nonblocking(true)?;
        register(self.poll.registry(), listener.as_raw_fd(), at)?;
        // The other leaves the poll as it is closed.
        *other = listener;
        self.arrivals.note();
        Ok(())
    }

    /// Closes the socket of this number, and has its links end.
    fn close(&mut self, number: u32) -> io::Result<()>
        ensures { self.new.places ≡ self.old.places }
    {
        let at = place_of(self.places.as_slice(), number)?;
        end_links(self.places.as_slice(), at);
        if let Some(door) = self.doors.get_mut(at as usize) {
            // It leaves the poll as it is closed.
            *door = None;
        }
        self.arrivals.list_all();
        Ok(())
    }

    /// Makes a change. After a fault all is as it was.
    fn change(&mut self, change: Change) -> io::Result<()>
        ensures { IsPrefix (map (λ p. socket_of p.origin) self.old.places.items) (map (λ p. socket_of p.origin) self.new.places.items) }
    {
        match change {
            Change::Add(added) => {
                self.add(added)?;
                self.arrivals.note();
                Ok(())
            }
            Change::Replace(replacement) => self.replace(replacement),
            Change::Close(number) => self.close(number),
        }
    }

    /// Makes the changes that wait. So many were refused.
    pub(crate) fn change_all(&mut self) -> u64
        ensures { IsPrefix (map (λ p. socket_of p.origin) self.old.places.items) (map (λ p. socket_of p.origin) self.new.places.items) }
    {
        let mut refused: u64 = 0;
        for _ in 0..MOST_WAITING {
            let Some(change) = self.changes.take() else {
                break;
            };
            if self.change(change).is_err() {
                refused = refused.saturating_add(1);
            }
        }
        if refused > 0 {
            self.arrivals.hurry();
        }
        refused
    }

    /// Notes which sockets have peers.
    fn look(&mut self) -> io::Result<()>
        ensures { self.new.places ≡ self.old.places }
    {
        self.poll.poll(&mut self.events, Some(Duration::ZERO))?;
        if self.events.is_empty() {
            self.arrivals.note_none();
        }
        note_all(&self.events, self.places.as_slice(), &mut self.due);
        Ok(())
    }

    /// The place of the next socket that is due. None where a look lists none.
    fn next_due(&mut self) -> io::Result<Option<u32>>
        ensures { self.new.places ≡ self.old.places }
    {
        if self.arrivals.are_there() {
            self.look()?;
        }
        Ok(self.due.pop_front())
    }

    /// The next connection at this place, which is due from now on only where another peer may wait.
    fn accept_at(
        &mut self,
        at: u32,
        all: &Arc<OpenLinks>,
        stop: &Option<Arc<Stop>>,
    ) -> Result<RealLink, Missed>
        ensures places { self.new.places ≡ self.old.places }
        ensures origin { IfOk result (λ l. Contains (map (λ p. socket_of p.origin) self.old.places.items)
            (socket_of (⟦<RealLink as Link>⟧.origin l))) }
        ensures fresh { IfOk result (λ l. IsFresh (⟦<RealLink as Link>⟧.told l) (⟦<RealLink as Link>⟧.failed_receives l)
            (⟦<RealLink as Link>⟧.failed_sends l) (⟦<RealLink as Link>⟧.stalls l)) }
    {
        self.tried = number_at(self.places.as_slice(), at);
        let found = link_at(
            self.places.as_slice(),
            self.doors.as_mut_slice(),
            at,
            all,
            stop,
        );
        if stays_due_at(self.places.as_slice(), at, &found) {
            // There is room for each place.
            let _ = self.due.push_back(at);
        }
        found
    }

    /// The next connection as a link, from the sockets in turn. Nobody where there is none, or none for which there is room.
    fn next_link(
        &mut self,
        all: &Arc<OpenLinks>,
        stop: &Option<Arc<Stop>>,
    ) -> Result<RealLink, Missed>
        ensures places { self.new.places ≡ self.old.places }
        ensures origin { IfOk result (λ l. Contains (map (λ p. socket_of p.origin) self.old.places.items)
            (socket_of (⟦<RealLink as Link>⟧.origin l))) }
        ensures fresh { IfOk result (λ l. IsFresh (⟦<RealLink as Link>⟧.told l) (⟦<RealLink as Link>⟧.failed_receives l)
            (⟦<RealLink as Link>⟧.failed_sends l) (⟦<RealLink as Link>⟧.stalls l)) }
    {
        for _ in 0..TRIES {
            let Some(at) = self.next_due()? else {
                return Err(Missed::Nobody);
            };
            match self.accept_at(at, all, stop) {
                Err(Missed::Nobody | Missed::Again | Missed::Full) => {}
                Err(Missed::Refused(refusal)) => {
                    self.arrivals.hurry();
                    return Err(Missed::Refused(refusal));
                }
                answer => return answer,
            }
        }
        // The others are tried after a wait, which finds what else is to be done.
        self.arrivals.hurry();
        Err(Missed::Nobody)
    }

    /// The next connection as a link, as far as it is there and this wait's share isn't used up; then the next wait ends at once.
    pub(crate) fn accept(
        &mut self,
        all: &Arc<OpenLinks>,
        stop: &Option<Arc<Stop>>,
    ) -> Result<RealLink, Missed>
        ensures places { self.new.places ≡ self.old.places }
        ensures origin { IfOk result (λ l. Contains (map (λ p. socket_of p.origin) self.old.places.items)
            (socket_of (⟦<RealLink as Link>⟧.origin l))) }
        ensures fresh { IfOk result (λ l. IsFresh (⟦<RealLink as Link>⟧.told l) (⟦<RealLink as Link>⟧.failed_receives l)
            (⟦<RealLink as Link>⟧.failed_sends l) (⟦<RealLink as Link>⟧.stalls l)) }
    {
        if self.given >= SHARE && self.arrivals.is_watched() {
            self.given = 0;
            self.arrivals.hurry();
            return Err(Missed::Nobody);
        }
        let found = self.next_link(all, stop);
        self.given = if found.is_ok() {
            self.given.saturating_add(1)
        } else {
            0
        };
        found
    }

    /// Notes that a link of the socket at this place has ended: it is due where peers may wait for that.
    pub(crate) fn make_room(&mut self, at: u32)
        ensures { self.new.places ≡ self.old.places }
    {
        if let Some(place) = self.places.as_slice().get(at as usize)
            && place.is_full.swap(false, Ordering::SeqCst)
            && place.become_due()
        {
            // There is room for each place.
            let _ = self.due.push_back(at);
        }
        if self.may_have_arrivals() {
            self.arrivals.hurry();
        }
    }
}
