//! The sockets of the agent, as its configuration has them.

use crate::agent_socket::{AgentSocket, SeatHandle};
use crate::doors::Door;
use event_log::SocketChanges;
use log_output::Log;
use std::alloc::Global;
use std::fs::{File, Files};
use std::net::{Net, TcpListener, TcpStream};
use std::sync::{Arc, Mutex};
use wl_config::SocketFact;
use wl_octets::Memory;
use wl_outlook::Outlook;

/// The sockets of the agent, its seats, and the file of its pages. One thread at a time changes them.
#[derive(Drop)]
pub(crate) struct AgentSockets {
    sockets: Mutex<Vec<AgentSocket>>,
    seats: Vec<SeatHandle>,
    pages: Option<Door>,
}

/// Puts what is said of sockets in the order of their names.
fn sort_by_name(facts: &mut [&SocketFact]) {
    facts.sort_unstable_by(|one, other| {
        one.place
            .name()
            .as_slice()
            .cmp(other.place.name().as_slice())
    });
}

/// What a configuration says of sockets, by ascending name.
fn sorted_facts(alloc: Global, facts: &[SocketFact]) -> Result<Vec<&SocketFact>, Memory> {
    let mut all = Vec::new(alloc);
    for fact in facts {
        all.push(fact)?;
    }
    sort_by_name(all.as_mut_slice());
    Ok(all)
}

/// What is said of these sockets, by ascending name.
fn sorted_known(alloc: Global, sockets: &[AgentSocket]) -> Result<Vec<&SocketFact>, Memory> {
    let mut all = Vec::new(alloc);
    for socket in sockets {
        all.push(socket.fact())?;
    }
    sort_by_name(all.as_mut_slice());
    Ok(all)
}

/// What is said of the socket of this name.
fn find<'a>(facts: &[&'a SocketFact], name: &[u8]) -> Option<&'a SocketFact> {
    let at = facts
        .binary_search_by(|fact| fact.place.name().as_slice().cmp(name))
        .ok()?;
    facts.get(at).copied()
}

/// The seat of the socket of this number: sockets are dealt out to seats in turn.
fn seat_of(seats: &[SeatHandle], number: u32) -> Option<&SeatHandle> {
    let at = number.checked_rem(u32::try_from(seats.len()).ok()?)?;
    seats.get(at as usize)
}

/// What is wanted of sockets that are not there.
fn missing<'a>(
    alloc: Global,
    wanted: &'a [SocketFact],
    sockets: &[AgentSocket],
) -> Result<Vec<&'a SocketFact>, Memory> {
    let known = sorted_known(alloc, sockets)?;
    let mut missing = Vec::new(alloc);
    for fact in wanted {
        if find(known.as_slice(), fact.place.name().as_slice()).is_none() {
            missing.push(fact)?;
        }
    }
    Ok(missing)
}

impl AgentSockets {
    /// These sockets, for several owners.
    pub(crate) fn share(
        alloc: Global,
        sockets: Vec<AgentSocket>,
        seats: Vec<SeatHandle>,
        pages: Option<Door>,
    ) -> Result<Arc<AgentSockets>, Memory> {
        let sockets = AgentSockets {
            sockets: Mutex::new(sockets),
            seats,
            pages,
        };
        Arc::new(alloc, sockets).map_err(|_| Memory)
    }

    /// Closes a socket, and says whether that was done.
    fn close(
        &self,
        rt: &impl Files,
        alloc: Global,
        outlook: &Outlook,
        socket: &AgentSocket,
    ) -> bool {
        let Some(seat) = seat_of(self.seats.as_slice(), socket.number()) else {
            return false;
        };
        if socket.close(rt, alloc, outlook.log(), seat).is_err() {
            return false;
        }
        outlook.remove_socket(socket.number());
        true
    }

    /// Closes those of which this is no more said, and tells how many.
    fn close_unwanted(
        &self,
        rt: &impl Files,
        alloc: Global,
        outlook: &Outlook,
        wanted: &[SocketFact],
        sockets: &mut Vec<AgentSocket>,
    ) -> Result<u32, Memory> {
        let wanted = sorted_facts(alloc, wanted)?;
        let before = sockets.len();
        sockets.retain(|socket| {
            let name = socket.fact().place.name().as_slice();
            let is_wanted = find(wanted.as_slice(), name).is_some_and(|fact| fact == socket.fact());
            is_wanted || !self.close(rt, alloc, outlook, socket)
        });
        Ok(u32::try_from(before.saturating_sub(sockets.len())).unwrap_or(u32::MAX))
    }

    /// Adds those that are not there, which are bound as the sockets are mended, and tells how many.
    fn add_missing(
        &self,
        alloc: Global,
        outlook: &Outlook,
        wanted: &[SocketFact],
        sockets: &mut Vec<AgentSocket>,
    ) -> Result<u32, Memory> {
        let missing = missing(alloc, wanted, sockets.as_slice())?;
        let now = outlook.log().now();
        let mut added = 0_u32;
        for fact in missing {
            sockets.reserve(1)?;
            let own = fact.copy(alloc)?;
            let number = outlook.add_socket(own.place.name(), &own.selectors)?;
            // There is room for it.
            let _ = sockets.push(AgentSocket::unbound(number, own, now));
            added = added.saturating_add(1);
        }
        Ok(added)
    }

    /// Has the agent serve these sockets, and no others. A socket of which something else is said than before is closed, and another is
    /// bound in its place. None where others change them; out of memory some of it is done, and the rest by another call.
    pub(crate) fn serve(
        &self,
        rt: &impl Files,
        alloc: Global,
        outlook: &Outlook,
        wanted: &[SocketFact],
    ) -> Option<Result<SocketChanges, Memory>> {
        let mut sockets = self.sockets.try_lock()?;
        Some(self.change(rt, alloc, outlook, wanted, &mut sockets))
    }

    /// Makes these sockets those that are wanted. Out of memory some are.
    fn change(
        &self,
        rt: &impl Files,
        alloc: Global,
        outlook: &Outlook,
        wanted: &[SocketFact],
        sockets: &mut Vec<AgentSocket>,
    ) -> Result<SocketChanges, Memory> {
        let removed = self.close_unwanted(rt, alloc, outlook, wanted, sockets)?;
        let added = self.add_missing(alloc, outlook, wanted, sockets)?;
        Ok(SocketChanges { added, removed })
    }

    /// Binds each socket that peers don't find.
    pub(crate) fn mend<R>(&self, rt: &R, alloc: Global, log: &Log)
    where
        R: Files<File = File> + Net<Listener = TcpListener, Stream = TcpStream>,
    {
        let Some(mut sockets) = self.sockets.try_lock() else {
            return;
        };
        for socket in sockets.iter_mut() {
            if let Some(seat) = seat_of(self.seats.as_slice(), socket.number()) {
                socket.mend(rt, alloc, log, seat);
            }
        }
    }

    /// Says of each socket that every user may connect to, that this is so.
    pub(crate) fn say_open_to_all(&self, alloc: Global, log: &Log) {
        if let Some(sockets) = self.sockets.try_lock() {
            for socket in sockets.iter() {
                socket.say_if_open_to_all(alloc, log);
            }
        }
    }

    /// Removes the files that are still the agent's own.
    pub(crate) fn remove_files(&self, rt: &impl Files) {
        if let Some(sockets) = self.sockets.try_lock() {
            for socket in sockets.iter() {
                socket.remove_file(rt);
            }
        }
        if let Some(pages) = &self.pages {
            pages.remove(rt);
        }
    }
}
