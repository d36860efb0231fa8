//! The files by which peers find the sockets.

use log_output::Log;
use std::alloc::Global;
use std::fs;
use std::fs::Files;
use std::net::Net;
use std::os::unix::fs::FileTypeExt;
use std::string::String;
use wl_edge::EdgeFault;
use wl_edge_real::{BindFault, FileId, Unnamed};
use wl_octets::Octets;
use wl_saying::say_unbound;

/// A path under which peers find a socket of the agent, and the file that the agent put there.
#[derive(Drop)]
pub(crate) struct Door {
    path: String,
    file: FileId,
}

impl Door {
    /// A door at this path, whose file this is.
    pub(crate) fn new(path: String, file: FileId) -> Door {
        Door { path, file }
    }

    /// Whether its file stands there.
    pub(crate) fn stands(&self, rt: &impl Files) -> bool {
        self.file.stands_at(rt, self.path.as_str())
    }

    /// Removes the file, where it is still the agent's own.
    pub(crate) fn remove(&self, rt: &impl Files) {
        if self.stands(rt) {
            let _ = fs::remove_file(rt, self.path.as_str());
        }
    }
}

/// Whether a socket stands at this path.
fn is_socket(rt: &impl Files, path: &str) -> bool {
    match fs::symlink_metadata(rt, path) {
        Ok(found) => found.file_type().is_socket(),
        Err(_) => false,
    }
}

/// Whether memory ran out.
fn fault_of(fault: BindFault) -> EdgeFault {
    match fault {
        BindFault::Memory => EdgeFault::Memory,
        _ => EdgeFault::Failed,
    }
}

/// Says that nobody listens at the port of this name, and gives whether memory ran out.
pub(crate) fn say_unbound_port(
    alloc: Global,
    log: &Log,
    name: &str,
    fault: BindFault,
) -> EdgeFault {
    let Ok(bytes) = Octets::from_slice(alloc, name.as_bytes()) else {
        return EdgeFault::Memory;
    };
    say_unbound(log, alloc, &bytes, fault, false);
    fault_of(fault)
}

/// Says that nobody listens at this path, and gives whether memory ran out.
pub(crate) fn say_unbound_at(
    rt: &impl Files,
    alloc: Global,
    log: &Log,
    path: &str,
    fault: BindFault,
) -> EdgeFault {
    let Ok(bytes) = Octets::from_slice(alloc, path.as_bytes()) else {
        return EdgeFault::Memory;
    };
    say_unbound(log, alloc, &bytes, fault, is_socket(rt, path));
    fault_of(fault)
}

/// Has peers find this socket. The log says why they can't.
fn open_one(
    rt: &(impl Files + Net),
    alloc: Global,
    unnamed: Unnamed,
    log: &Log,
) -> Result<(), EdgeFault> {
    let Ok(path) = String::from_str(alloc, unnamed.path()) else {
        unnamed.discard(rt);
        return Err(EdgeFault::Memory);
    };
    match unnamed.open(rt) {
        Ok(()) => Ok(()),
        Err(fault) => Err(say_unbound_at(rt, alloc, log, path.as_str(), fault)),
    }
}

/// Has peers find these sockets, up to the first fault, which the log names. Nothing hidden is left of any of them.
pub(crate) fn open_all(
    rt: &(impl Files + Net),
    alloc: Global,
    unnamed: Vec<Unnamed>,
    log: &Log,
) -> Result<(), EdgeFault> {
    let mut opened = Ok(());
    for socket in unnamed {
        if opened.is_ok() {
            opened = open_one(rt, alloc, socket, log);
        } else {
            socket.discard(rt);
        }
    }
    opened
}

/// Removes what is hidden of these sockets, which no peer is to find.
pub(crate) fn discard_all(rt: &impl Files, unnamed: Vec<Unnamed>) {
    for socket in unnamed {
        socket.discard(rt);
    }
}
