//! Listening at a TCP port of this machine, for callers that the kernel names.

ghost use Rattle.std.specs.Prelude.{◌≡◌, IfOk};
ghost use Rattle.wl_edge_real.specs.Places.{socket_of};

use crate::binding::BindFault;
use crate::doors::Caller;
use crate::missed::{Missed, no_memory};
use crate::open_links::{Counted, OpenLinks};
use crate::refusal::Refusal;
use crate::stream::Stream;
use crate::tables::Tables;
use std::alloc::{AllocError, Global};
use std::fs::{File, Files};
use std::io;
use std::io::ErrorKind;
use std::net::{Net, SocketAddr, TcpListener, TcpStream};
use std::os::fd::{AsRawFd, RawFd};
use std::sync::Arc;
use wl_edge::Origin;

/// The errors of a new connection that accept(2) gives on Linux: ENONET, EPROTO, ENOPROTOOPT, EOPNOTSUPP, ENETDOWN, ENETUNREACH,
/// EHOSTDOWN, EHOSTUNREACH.
const OF_THE_CALLER: [i32; 8] = [64, 71, 92, 95, 100, 101, 112, 113];

/// A TCP port that listens at an address of this machine alone, with the kernel's tables of who calls there.
#[derive(Drop)]
pub struct LoopbackListener {
    listener: TcpListener,
    tables: Tables,
}

impl LoopbackListener {
    /// The address and port at which it listens.
    pub fn address(&self) -> io::Result<SocketAddr> {
        self.listener.local_addr()
    }
}

/// Listens at a loopback address (127.0.0.0/8 or ::1) and port; at port 0 the system chooses one. Any other address is
/// Refused(AddrNotAvailable). A port at which somebody listens is Taken.
pub fn bind_loopback<R: Files<File = File> + Net<Listener = TcpListener, Stream = TcpStream>>(
    rt: &R,
    alloc: Global,
    address: SocketAddr,
) -> Result<LoopbackListener, BindFault> {
    if !address.ip().is_loopback() {
        return Err(BindFault::Refused(ErrorKind::AddrNotAvailable));
    }
    let listener = match rt.bind(address) {
        Ok(listener) => listener,
        Err(error) if error.kind() == ErrorKind::AddrInUse => return Err(BindFault::Taken),
        Err(error) => return Err(BindFault::Refused(error.kind())),
    };
    let tables = Tables::open(rt, alloc, address)?;
    Ok(LoopbackListener { listener, tables })
}

/// The open links of one uid.
#[derive(Drop)]
struct UidLinks {
    uid: u32,
    open: Arc<OpenLinks>,
}

/// How many links of each uid are open, of a number that may be.
#[derive(Drop)]
struct Uids {
    alloc: Global,
    most: u32,
    known: Vec<UidLinks>,
}

impl Uids {
    /// One more link of this uid is open, until what it gives is dropped. None where so many are open as may be.
    fn enter(&mut self, uid: u32) -> Result<Option<Counted>, AllocError> {
        if let Some(links) = self.known.iter().find(|links| links.uid == uid) {
            return Ok(OpenLinks::enter(&links.open));
        }
        // Of those that are left each has an open link: no more than the socket may have.
        self.known.retain(|links| links.open.open() > 0);
        let open = OpenLinks::share(self.alloc, self.most)?;
        let counted = OpenLinks::enter(&open);
        self.known.push(UidLinks { uid, open })?;
        Ok(counted)
    }
}

/// A port as one of the sockets of a listener.
#[derive(Drop)]
pub(crate) struct Loopback {
    socket: LoopbackListener,
    uids: Uids,
}

/// Why an accept failed. An error of the caller's network is none of the socket's.
fn missed(error: io::Error) -> Missed {
    match error.raw_os_error() {
        Some(number) if OF_THE_CALLER.contains(&number) => Missed::Again,
        _ => Missed::from(error),
    }
}

impl Loopback {
    /// Over this socket. So many links of one uid may be open at once.
    pub(crate) fn start(alloc: Global, socket: LoopbackListener, most_of_uid: u32) -> Loopback {
        let uids = Uids {
            alloc,
            most: most_of_uid,
            known: Vec::new(alloc),
        };
        Loopback { socket, uids }
    }

    /// Has its calls wait, or not.
    pub(crate) fn set_nonblocking(&self, nonblocking: bool) -> io::Result<()> {
        self.socket.listener.set_nonblocking(nonblocking)
    }

    /// The socket.
    pub(crate) fn descriptor(&self) -> RawFd {
        self.socket.listener.as_raw_fd()
    }

    /// Closes the next caller, of whom nothing is asked.
    pub(crate) fn turn_away(&self) -> Result<(), Missed> {
        let _ = self.socket.listener.accept().map_err(missed)?;
        Ok(())
    }

    /// The next caller, of whom the kernel names the uid. Any other is closed.
    pub(crate) fn accept(&mut self, origin: Origin) -> Result<Caller, Missed>
        ensures { IfOk result (λ c. socket_of c.origin ≡ socket_of origin) }
    {
        let (stream, caller) = self.socket.listener.accept().map_err(missed)?;
        let Ok(own) = stream.local_addr() else {
            return Err(Missed::Again);
        };
        let origin = self.socket.tables.attest(origin, caller, own);
        let socket = origin.socket;
        let Some(uid) = origin.uid else {
            return Err(Missed::Refused(Refusal::Unattested { socket }));
        };
        let Some(of_uid) = self.uids.enter(uid).map_err(no_memory)? else {
            return Err(Missed::Refused(Refusal::UidFull { socket, uid }));
        };
        // Without it answers come later, and nothing else.
        let _ = stream.set_nodelay(true);
        Ok(Caller {
            stream: Stream::Tcp(stream),
            origin,
            of_uid: Some(of_uid),
        })
    }
}
