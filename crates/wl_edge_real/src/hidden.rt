//! A place where the files of sockets stand before they have their names.

use std::alloc::Global;
use std::fs::{DirBuilder, Files};
use std::io::ErrorKind;
use std::os::unix::fs::DirBuilderExt;
use std::path::{Path, PathBuf};
use std::{fs, io};

/// How many names of a folder are tried. One that a killed process left stays where it is.
const NAMES: u32 = 1_000;

/// Only the process's own user enters the folder.
const FOLDER_MODE: u32 = 0o700;

/// The path of a file in a folder of its own, or in one that it shares with others.
#[derive(Drop)]
pub(crate) struct Hidden {
    folder: PathBuf,
    file: PathBuf,
    /// The number of the file in its folder, which is its name.
    number: u32,
}

/// The folder of this number beside a path, on its file system: a link leads from the one to the other.
fn folder_beside(alloc: Global, path: &str, number: u32) -> io::Result<PathBuf> {
    let name = format!(in alloc; ".agentd-{number}")?;
    Ok(Path::new(path).with_file_name(alloc, name.as_str())?)
}

impl Hidden {
    /// The file of this number in a folder.
    fn within(alloc: Global, folder: PathBuf, number: u32) -> io::Result<Hidden> {
        let name = format!(in alloc; "{number:x}")?;
        let file = folder.as_path().join(alloc, name.as_str())?;
        Ok(Hidden {
            folder,
            file,
            number,
        })
    }

    /// Makes a folder beside the path, under the first name that is free.
    pub(crate) fn make(rt: &impl Files, alloc: Global, path: &str) -> io::Result<Hidden> {
        for number in 0..NAMES {
            let hidden = Hidden::within(alloc, folder_beside(alloc, path, number)?, 0)?;
            let made = DirBuilder::new()
                .mode(FOLDER_MODE)
                .create(rt, hidden.folder.as_path());
            match made {
                Err(error) if error.kind() == ErrorKind::AlreadyExists => {}
                Err(error) => return Err(error),
                Ok(()) => return Ok(hidden),
            }
        }
        Err(io::Error::from(ErrorKind::AlreadyExists))
    }

    /// Whether its folder stands beside the path.
    pub(crate) fn is_beside(&self, path: &str) -> bool {
        match (self.folder.parent(), Path::new(path).parent()) {
            (Some(own), Some(other)) => own.as_str() == other.as_str(),
            _ => false,
        }
    }

    /// The next file of the same folder.
    pub(crate) fn next(&self, alloc: Global) -> io::Result<Hidden> {
        let folder = PathBuf::from_str(alloc, self.folder.as_path().as_str())?;
        Hidden::within(alloc, folder, self.number.saturating_add(1))
    }

    /// The path of the file, which is not made here.
    pub(crate) fn file(&self) -> &str {
        self.file.as_path().as_str()
    }

    /// Removes the file, where it was made, and the folder, where no other file stands in it.
    pub(crate) fn remove(self, rt: &impl Files) {
        let _ = fs::remove_file(rt, self.file.as_path());
        let _ = fs::remove_dir(rt, self.folder.as_path());
    }
}
