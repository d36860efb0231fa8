//! Sockets whose files get their names later.

use crate::tests::{OWN, path_of};
use std::fs;
use std::os::unix::net::UnixStream;
use std::test::Fail;
use wl_edge_real::{BindFault, FileId, PathListener, Unnamed, bind_unnamed};

/// How many things stand in a folder.
fn count_in(rt: &HostRuntime, folder: &str) -> Result<u32, Fail> {
    let mut count: u32 = 0;
    for entry in fs::read_dir(rt, folder)? {
        entry?;
        count = count.saturating_add(1);
    }
    Ok(count)
}

/// An empty folder of this test's own.
fn folder_of(rt: &HostRuntime, name: &str) -> Result<String, Fail> {
    let folder = path_of(rt, name)?;
    fs::create_dir(rt, folder.as_str())?;
    Ok(folder)
}

/// The path of a socket in a folder.
fn socket_in(rt: &HostRuntime, folder: &str, name: &str) -> Result<String, Fail> {
    Ok(format!(in rt.alloc(); "{folder}/{name}")?)
}

/// A socket at this path whose file has no name yet.
fn unnamed(
    rt: &HostRuntime,
    path: &str,
    others: &[Unnamed],
) -> Result<(PathListener, Unnamed), Fail> {
    match bind_unnamed(rt, rt.alloc(), path, OWN, others) {
        Ok(both) => Ok(both),
        Err(_) => Err("bind")?,
    }
}

/// Two sockets share one hidden folder. Nobody finds them until their files have their names, and nothing hidden is left then.
#[test]
fn sockets_get_their_names_later(rt: HostRuntime) -> Result<(), Fail> {
    let folder = folder_of(&rt, "unnamed")?;
    let first = socket_in(&rt, folder.as_str(), "a")?;
    let other = socket_in(&rt, folder.as_str(), "b")?;
    let (first_socket, first_name) = unnamed(&rt, first.as_str(), &[])?;
    let others = [first_name];
    let (_other_socket, other_name) = unnamed(&rt, other.as_str(), &others)?;
    let [first_name] = others;
    assert_eq!(rt; count_in(&rt, folder.as_str())?, 1);
    assert!(rt; UnixStream::connect(&rt, first.as_str()).is_err());
    assert!(rt; first_name.open(&rt).is_ok());
    assert!(rt; UnixStream::connect(&rt, first.as_str()).is_ok());
    assert!(rt; first_socket.file.stands_at(&rt, first.as_str()));
    assert_eq!(rt; count_in(&rt, folder.as_str())?, 2);
    other_name.discard(&rt);
    assert_eq!(rt; count_in(&rt, folder.as_str())?, 1);
    fs::remove_file(&rt, first.as_str())?;
    fs::remove_dir(&rt, folder.as_str())?;
    Ok(())
}

/// What came to the path in the meantime stays, and is another file.
#[test]
fn what_came_meanwhile_stays(rt: HostRuntime) -> Result<(), Fail> {
    let folder = folder_of(&rt, "came")?;
    let path = socket_in(&rt, folder.as_str(), "a")?;
    let (socket, name) = unnamed(&rt, path.as_str(), &[])?;
    fs::write(&rt, path.as_str(), "abc")?;
    assert!(rt; name.open(&rt) == Err(BindFault::NotASocket));
    assert!(rt; !socket.file.stands_at(&rt, path.as_str()));
    assert_eq!(rt; count_in(&rt, folder.as_str())?, 1);
    assert_eq!(rt; fs::read_to_string(&rt, path.as_str())?.as_str(), "abc");
    fs::remove_file(&rt, path.as_str())?;
    assert!(rt; FileId::at(&rt, path.as_str()).is_err());
    fs::remove_dir(&rt, folder.as_str())?;
    Ok(())
}
