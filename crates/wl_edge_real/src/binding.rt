//! Listening at the paths of Unix sockets.

ghost use Rattle.std.specs.Prelude.{◌≡◌, IfOk, string_bytes};

use crate::hidden::Hidden;
use mio::net::UnixStream;
use std::alloc::Global;
use std::fs::{Files, Metadata, Permissions};
use std::io::ErrorKind;
use std::net::Net;
use std::os::fd::{AsFd, AsRawFd, OwnedFd};
use std::os::unix::fs::{FileTypeExt, MetadataExt, PermissionsExt, lchown};
use std::os::unix::net::{SocketAddr, UnixListener};
use std::{fs, io};

/// How many connections may wait to be accepted.
const BACKLOG: i32 = 128;

/// The mode of a socket's file until it has its own: read and write for its owner.
const FIRST_MODE: u32 = 0o600;

/// Who may open a socket's file, and so connect to it.
#[derive(Clone, Copy, Debug, Drop, PartialEq, Eq)]
pub struct Guard {
    /// The uid that owns the file; that of the process where there is none.
    pub owner: Option<u32>,
    /// Its group; that of the process where there is none.
    pub group: Option<u32>,
    /// Its permission bits.
    pub mode: u32,
}

/// Why nobody listens at a path.
#[derive(Clone, Copy, Debug, Drop, PartialEq, Eq)]
pub enum BindFault {
    /// Somebody else listens there.
    Taken,
    /// What stands there is no socket. It is left as it is.
    NotASocket,
    /// The operating system refused to give the file its owner, group or mode, for this reason.
    Guard(ErrorKind),
    /// The operating system refused something else, for this reason.
    Refused(ErrorKind),
    /// Memory ran out.
    Memory,
}

impl From<io::Error> for BindFault {
    fn from(error: io::Error) -> BindFault {
        BindFault::Refused(error.kind())
    }
}

/// Sees to it that nothing stands at the path: a socket at which nobody listens any more is removed.
fn clear(rt: &(impl Files + Net), path: &str) -> Result<(), BindFault> {
    match fs::symlink_metadata(rt, path) {
        Err(error) if error.kind() == ErrorKind::NotFound => return Ok(()),
        Err(error) => return Err(BindFault::Refused(error.kind())),
        Ok(found) if found.file_type().is_socket() => {}
        Ok(_) => return Err(BindFault::NotASocket),
    }
    match UnixStream::connect(rt, path) {
        Err(error) if error.kind() == ErrorKind::ConnectionRefused => {
            fs::remove_file(rt, path).map_err(|e| BindFault::Refused(e.kind()))
        }
        Err(error) if error.kind() == ErrorKind::WouldBlock => Err(BindFault::Taken),
        Err(error) => Err(BindFault::Refused(error.kind())),
        Ok(_) => Err(BindFault::Taken),
    }
}

/// Gives the file at this path its owner, group and mode: the mode by its name, since what a socket has before it is bound
/// loses the bits of the umask.
fn guard_file(rt: &impl Files, file: &str, guard: Guard) -> io::Result<()> {
    if guard.owner.is_some() || guard.group.is_some() {
        lchown(rt, file, guard.owner, guard.group)?;
    }
    fs::set_permissions(rt, file, Permissions::from_mode(guard.mode))
}

/// A socket bound at this path, whose file only the process's own user may open.
fn bind_private(rt: &(impl Files + Net), file: &str) -> io::Result<OwnedFd> {
    let socket = rt.unix_socket()?;
    if libc::fchmod(socket.as_raw_fd(), FIRST_MODE) != 0 {
        return Err(io::Error::from(ErrorKind::Other));
    }
    rt.bind_unix(socket.as_fd(), &SocketAddr::from_pathname(file)?)?;
    Ok(socket)
}

/// Which file stands at a path: its device, and its number there.
#[derive(Clone, Copy, Debug, Drop, PartialEq, Eq)]
pub struct FileId {
    pub device: u64,
    pub inode: u64,
}

impl FileId {
    /// The file that stands at this path. A link there is a file of its own.
    pub fn at(rt: &impl Files, path: &str) -> io::Result<FileId> {
        Ok(FileId::of(&fs::symlink_metadata(rt, path)?))
    }

    /// The file of which the system says this.
    pub(crate) fn of(found: &Metadata) -> FileId {
        FileId {
            device: found.dev(),
            inode: found.ino(),
        }
    }

    /// Whether this file stands at this path.
    pub fn stands_at(self, rt: &impl Files, path: &str) -> bool {
        matches!(FileId::at(rt, path), Ok(found) if found == self)
    }
}

/// Listens at this hidden file, which gets its guard.
fn listen(
    rt: &(impl Files + Net),
    file: &str,
    guard: Guard,
) -> Result<(UnixListener, FileId), BindFault> {
    let socket = bind_private(rt, file)?;
    guard_file(rt, file, guard).map_err(|e| BindFault::Guard(e.kind()))?;
    if libc::net::listen(socket.as_raw_fd(), BACKLOG) != 0 {
        return Err(BindFault::Refused(ErrorKind::Other));
    }
    let id = FileId::at(rt, file)?;
    Ok((UnixListener::from(socket), id))
}

/// A Unix socket that listens, and the path of its file.
#[derive(Drop)]
pub struct PathListener {
    pub listener: UnixListener,
    pub path: String,
    /// Its file, under whatever name.
    pub file: FileId,
}

/// The file of a socket that listens already, which no peer finds yet: it stands in a folder of mode 0700 beside its path. It is
/// given its name, or discarded; until then it and its folder stay.
#[derive(Drop)]
pub struct Unnamed {
    hidden: Hidden,
    path: String,
}

/// A hidden place for the file of this path, in a folder of the others where one stands beside the path.
fn hide(rt: &impl Files, alloc: Global, path: &str, others: &[Unnamed]) -> io::Result<Hidden> {
    for other in others.iter().rev() {
        if other.hidden.is_beside(path) {
            return other.hidden.next(alloc);
        }
    }
    Hidden::make(rt, alloc, path)
}

impl Unnamed {
    /// The path under which peers are to find the socket.
    pub fn path(&self) -> &str {
        self.path.as_str()
    }

    /// Gives the file its name. Nothing that stands there is replaced, except a socket at which nobody listens any more.
    fn name(&self, rt: &(impl Files + Net)) -> Result<(), BindFault> {
        clear(rt, self.path.as_str())?;
        match fs::hard_link(rt, self.hidden.file(), self.path.as_str()) {
            Ok(()) => Ok(()),
            Err(error) if error.kind() == ErrorKind::AlreadyExists => Err(BindFault::Taken),
            Err(error) => Err(BindFault::Refused(error.kind())),
        }
    }

    /// Gives the file its name, so that peers find the socket. After a fault they don't, and nothing of the file is left.
    pub fn open(self, rt: &(impl Files + Net)) -> Result<(), BindFault> {
        let named = self.name(rt);
        self.hidden.remove(rt);
        named
    }

    /// Removes the file, and its folder where no other file stands in it.
    pub fn discard(self, rt: &impl Files) {
        self.hidden.remove(rt);
    }
}

/// Listens at a Unix socket that peers don't find before its file is given its name, this path. The file has the guard's owner,
/// group and mode, whatever the umask is. It shares the hidden folder of the last of the others that stands beside the path, if
/// any. A socket at which nobody listens any more is removed from the path; nothing else is ever removed.
pub fn bind_unnamed<R: Files + Net>(
    rt: &R,
    alloc: Global,
    path: &str,
    guard: Guard,
    others: &[Unnamed],
) -> Result<(PathListener, Unnamed), BindFault>
    ensures path { IfOk result (λ r. string_bytes r.0.path ≡ path.now) }
{
    let (Ok(text), Ok(name)) = (String::from_str(alloc, path), String::from_str(alloc, path)) else {
        return Err(BindFault::Memory);
    };
    clear(rt, path)?;
    let hidden = hide(rt, alloc, path, others)?;
    let unnamed = Unnamed { hidden, path: name };
    match listen(rt, unnamed.hidden.file(), guard) {
        Ok((listener, file)) => {
            let socket = PathListener {
                listener,
                path: text,
                file,
            };
            Ok((socket, unnamed))
        }
        Err(fault) => {
            unnamed.discard(rt);
            Err(fault)
        }
    }
}

/// Listens at the path of a Unix socket. Its file has the guard's owner, group and mode, whatever the umask is, before it
/// has this name: until then it stands in a folder of mode 0700 beside the path, which is removed. A socket at which nobody
/// listens any more is replaced; nothing else is ever removed. Peers that connect find a server that listens.
pub fn bind<R: Files + Net>(
    rt: &R,
    alloc: Global,
    path: &str,
    guard: Guard,
) -> Result<PathListener, BindFault>
    ensures path { IfOk result (λ s. string_bytes s.path ≡ path.now) }
{
    let (socket, unnamed) = bind_unnamed(rt, alloc, path, guard, &[])?;
    unnamed.open(rt)?;
    Ok(socket)
}
