//! Why a socket can't be bound.

use event_log::{BindCause, Event, PathText, Reason};
use log_output::Log;
use std::alloc::Global;
use std::io::ErrorKind;
use wl_edge_real::BindFault;
use wl_octets::Octets;

/// Why a path could not be bound, in the log's words; nothing where memory ran out. Who may not connect to the socket that stands
/// there has no permission.
fn bind_cause(fault: BindFault, is_socket: bool) -> Option<BindCause> {
    match fault {
        BindFault::Taken => Some(BindCause::Taken),
        BindFault::NotASocket => Some(BindCause::NotASocket),
        BindFault::Refused(ErrorKind::PermissionDenied) if is_socket => {
            Some(BindCause::StaleOfOtherUser)
        }
        BindFault::Guard(kind) | BindFault::Refused(kind) => Some(BindCause::Refused(
            Reason::of_kind(kind),
        )),
        BindFault::Memory => None,
    }
}

/// Says that nobody listens at this path, for this fault, and whether a socket stands there all the same.
pub fn say_unbound(log: &Log, alloc: Global, path: &Octets, fault: BindFault, is_socket: bool) {
    let Some(cause) = bind_cause(fault, is_socket) else {
        log.say(&Event::OutOfMemory);
        return;
    };
    if let Ok(path) = PathText::of_configuration(alloc, path) {
        log.say(&Event::BindFailed(&path, cause));
    }
}
