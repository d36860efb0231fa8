//! Messages to a supervisor: datagrams of sd_notify(3) to the socket that `NOTIFY_SOCKET` names.

use libc::net as c;
use std::alloc::{AllocGlobal, Global};
use std::env;
use wl_octets::Octets;

/// The variable that names the supervisor's socket.
const NOTIFY_SOCKET: &str = "NOTIFY_SOCKET";

/// The most bytes of a socket's name: `sun_path` of unix(7) without its last one.
const NAME_LIMIT: usize = 107;

/// A supervisor's socket: a path, or an abstract name that begins with `@`. Threads may share it.
#[derive(Drop)]
pub struct Notifier {
    name: Octets,
}

impl Notifier {
    /// The socket that the environment names; nothing where it names none.
    pub fn of_environment(rt: &HostRuntime) -> Option<Notifier> {
        let name = env::var(rt, NOTIFY_SOCKET).ok()?;
        Notifier::at(rt.alloc(), name.as_bytes())
    }

    /// The socket of this name; nothing where it can't be a name, and where memory runs out.
    pub fn at(alloc: Global, name: &[u8]) -> Option<Notifier> {
        if name.is_empty() || name.len() > NAME_LIMIT {
            return None;
        }
        let name = Octets::from_slice(alloc, name).ok()?;
        Some(Notifier { name })
    }

    /// Sends a message, which never waits, and says whether it went.
    pub fn tell(&self, message: &[u8]) -> bool {
        let name = self.name.as_slice();
        if name.is_empty() || name.len() > NAME_LIMIT {
            return false;
        }
        let mut address = [0u8; c::_SS_SIZE];
        address[0] = c::AF_UNIX as u8;
        address[2..2 + name.len()].copy_from_slice(name);
        if name[0] == b'@' {
            address[2] = 0;
        }
        let kind = c::SOCK_DGRAM | c::SOCK_CLOEXEC | c::SOCK_NONBLOCK;
        let socket = unsafe { c::socket(c::AF_UNIX, kind, 0) };
        if socket < 0 {
            return false;
        }
        let length = 2 + name.len() as u32;
        let sent = unsafe { c::sendto(socket, message, c::MSG_NOSIGNAL, &address, length) };
        libc::close(socket);
        sent >= 0
    }
}
