//! The kernel's tables of TCP connections, which name who has the other end of one.

ghost use Rattle.std.specs.Prelude.{◌≡◌};
ghost use Rattle.kernel_table.specs.Rows.{uid_of};
ghost use Rattle.wl_edge_real.specs.Places.{socket_of};

use kernel_table::uid_of;
use std::alloc::Global;
use std::fs::{File, Files};
use std::io;
use std::io::ErrorKind;
use std::net::{IpAddr, SocketAddr};
use std::os::unix::fs::FileExt;
use wl_edge::Origin;

/// The table of connections between IPv4 sockets (Linux, Documentation/networking/proc_net_tcp).
const TABLE_V4: &str = "/proc/net/tcp";

/// The table of connections of IPv6 sockets.
const TABLE_V6: &str = "/proc/net/tcp6";

/// The most bytes of a table that are read: some 28,000 rows. A longer table names nobody.
const MAX_TABLE: usize = 4_194_304;

/// How many reads that takes at most. The kernel gives 27 rows a read.
const MOST_READS: u32 = 4_096;

/// How many bytes a read may give.
const PIECE: usize = 4_096;

/// The tables in which the callers of one address stand. They are opened once, and read from their beginning at each look.
#[derive(Drop)]
pub(crate) struct Tables {
    /// That of the address's own family.
    own: File,
    /// That of IPv6, for an IPv4 address: there its callers over IPv6 sockets stand, with IPv4-mapped addresses. None where
    /// the kernel has no IPv6.
    mapped: Option<File>,
    /// What was read last. Its memory is kept.
    text: Vec<u8>,
}

/// Opens a table. None where the kernel has none.
fn open_if_there<R: Files<File = File>>(rt: &R, path: &str) -> io::Result<Option<File>> {
    match File::open(rt, path) {
        Ok(file) => Ok(Some(file)),
        Err(error) if error.kind() == ErrorKind::NotFound => Ok(None),
        Err(error) => Err(error),
    }
}

/// Appends what a table says now.
fn read_to_end(table: &File, text: &mut Vec<u8>) -> io::Result<()> {
    let mut piece = [0; PIECE];
    for _ in 0..MOST_READS {
        let count = table.read_at(&mut piece, text.len() as u64)?;
        if count == 0 {
            return Ok(());
        }
        if text.len() >= MAX_TABLE {
            return Err(io::Error::from(ErrorKind::FileTooLarge));
        }
        if let Some(bytes) = piece.get(..count) {
            text.extend_from_slice(bytes)?;
        }
    }
    Err(io::Error::from(ErrorKind::FileTooLarge))
}

/// Reads what a table says now: nothing where that fails.
fn read(table: &File, text: &mut Vec<u8>) {
    text.clear();
    if read_to_end(table, text).is_err() {
        text.clear();
    }
}

/// The end of an IPv4 connection as an IPv6 socket has it: an IPv4-mapped address (RFC 4291, 2.5.5.2).
fn mapped(end: SocketAddr) -> SocketAddr {
    match end.ip() {
        IpAddr::V4(address) => { SocketAddr::new(IpAddr::V6(address.to_ipv6_mapped()), end.port()) }
        IpAddr::V6(_) => end,
    }
}

/// The origin of a connection, with the uid that a table names as the owner of its caller's end.
fn attest(origin: Origin, table: &[u8], caller: SocketAddr, own: SocketAddr) -> Origin
    ensures { result ≡ record { selectors = origin.selectors; socket = origin.socket; uid = uid_of table.now caller own } }
{
    Origin {
        selectors: origin.selectors,
        socket: origin.socket,
        uid: uid_of(table, caller, own),
    }
}

impl Tables {
    /// Opens the tables for the callers of this address.
    pub(crate) fn open<R: Files<File = File>>(
        rt: &R,
        alloc: Global,
        address: SocketAddr,
    ) -> io::Result<Tables> {
        let (own, mapped) = match address {
            SocketAddr::V4(_) => (File::open(rt, TABLE_V4)?, open_if_there(rt, TABLE_V6)?),
            SocketAddr::V6(_) => (File::open(rt, TABLE_V6)?, None),
        };
        let text = Vec::new(alloc);
        Ok(Tables { own, mapped, text })
    }

    /// The origin of an open connection, with the uid of its caller as the tables say it now. No uid where no table, or more than one
    /// row, names it.
    fn look(&mut self, origin: Origin, caller: SocketAddr, own: SocketAddr) -> Origin
        ensures { socket_of result ≡ socket_of origin }
    {
        read(&self.own, &mut self.text);
        let origin = attest(origin, self.text.as_slice(), caller, own);
        let Some(table) = &self.mapped else {
            return origin;
        };
        if origin.uid.is_some() {
            return origin;
        }
        read(table, &mut self.text);
        attest(origin, self.text.as_slice(), mapped(caller), mapped(own))
    }

    /// The origin of an open connection, with the uid of its caller. No uid where two looks at the tables find none: one alone may miss
    /// a row, since a table is read in pieces, and connections come and go meanwhile.
    pub(crate) fn attest(&mut self, origin: Origin, caller: SocketAddr, own: SocketAddr) -> Origin
        ensures { socket_of result ≡ socket_of origin }
    {
        let origin = self.look(origin, caller, own);
        if origin.uid.is_some() {
            return origin;
        }
        self.look(origin, caller, own)
    }
}
