//! A shelf in a folder of the system.

ghost use Rattle.std.specs.Prelude.{◌≡◌, None, false};
ghost use Rattle.file_sets.specs.Sets.{mode_of};

use crate::set::File;
use crate::shelf::{Shelf, ShelfFault};
use std::alloc::Global;
use std::fs::{Files, OpenOptions};
use std::io::Write;
use std::os::unix::fs::{OpenOptionsExt, PermissionsExt, symlink};
use std::{fs, io, str};

/// The folder at a path, in which `..data` is the link, and `..data-N` are the folders. It tells nothing.
#[derive(Drop)]
pub struct RealShelf {
    rt: HostRuntime,
    alloc: Global,
    path: String,
    fault: Option<io::Error>,
}

/// The mode of a file: what is secret is for its owner alone.
fn mode_of(is_secret: bool) -> u32
    ensures { result ≡ mode_of is_secret }
{
    if is_secret { 0o600 } else { 0o644 }
}

impl RealShelf {
    /// The folder at this path. Nothing is opened yet.
    pub fn start(rt: HostRuntime, alloc: Global, path: String) -> RealShelf {
        RealShelf {
            rt,
            alloc,
            path,
            fault: None,
        }
    }

    /// Why the last call that failed did; none where none has since this was taken.
    pub fn take_fault(&mut self) -> Option<io::Error> {
        self.fault.take()
    }

    /// Notes why a call failed.
    fn note(&mut self, done: io::Result<()>) -> Result<(), ShelfFault> {
        match done {
            Ok(()) => Ok(()),
            Err(error) => {
                self.fault = Some(error);
                Err(ShelfFault)
            }
        }
    }

    fn folder(&self, number: u64) -> io::Result<String> {
        Ok(format!(in self.alloc; "{}/..data-{number}", self.path.as_str())?)
    }

    fn make_folder(&self, number: u64) -> io::Result<()> {
        fs::create_dir(&self.rt, self.folder(number)?.as_str())
    }

    /// Makes the folder of a file whose name has one.
    fn make_parent(&self, folder: &str, name: &str) -> io::Result<()> {
        let Some((parent, _)) = name.rsplit_once('/') else {
            return Ok(());
        };
        let path = format!(in self.alloc; "{folder}/{parent}")?;
        match fs::create_dir(&self.rt, path.as_str()) {
            Err(error) if error.kind() != io::ErrorKind::AlreadyExists => Err(error),
            _ => self.sync_folder(folder),
        }
    }

    fn put_file(&self, number: u64, file: &File) -> io::Result<()> {
        let folder = self.folder(number)?;
        let Ok(name) = str::from_utf8(file.name.as_slice()) else {
            return Err(io::ErrorKind::InvalidInput.into());
        };
        self.make_parent(folder.as_str(), name)?;
        let path = format!(in self.alloc; "{}/{name}", folder.as_str())?;
        let mode = mode_of(file.is_secret);
        let mut opened = OpenOptions::new()
            .write(true)
            .create_new(true)
            .mode(0o600)
            .open(&self.rt, path.as_str())?;
        opened.write_all(file.bytes.as_slice())?;
        opened.set_permissions(fs::Permissions::from_mode(mode))?;
        opened.sync_all()?;
        match path.as_str().rsplit_once('/') {
            Some((parent, _)) => self.sync_folder(parent),
            None => Ok(()),
        }
    }

    fn sync_folder(&self, path: &str) -> io::Result<()> {
        fs::File::open(&self.rt, path)?.sync_all()
    }

    fn exchange_link(&self, number: u64) -> io::Result<()> {
        let target = format!(in self.alloc; "..data-{number}")?;
        let fresh = format!(in self.alloc; "{}/..data-next", self.path.as_str())?;
        let link = format!(in self.alloc; "{}/..data", self.path.as_str())?;
        match fs::remove_file(&self.rt, fresh.as_str()) {
            Err(error) if error.kind() != io::ErrorKind::NotFound => return Err(error),
            _ => {}
        }
        symlink(&self.rt, target.as_str(), fresh.as_str())?;
        fs::rename(&self.rt, fresh.as_str(), link.as_str())?;
        self.sync_folder(self.path.as_str())
    }

    fn sync_both(&self, number: u64) -> io::Result<()> {
        self.sync_folder(self.folder(number)?.as_str())?;
        self.sync_folder(self.path.as_str())
    }
}

impl Shelf for RealShelf {
    ghost tells = { λ s. false };

    ghost link = { λ s. None };

    ghost holds = { λ s n. None };

    ghost synced = { λ s n. false };

    ghost turns = { λ s. 0 };

    fn make(&mut self, number: u64) -> Result<(), ShelfFault> {
        let made = self.make_folder(number);
        self.note(made)
    }

    fn put(&mut self, number: u64, file: &File) -> Result<(), ShelfFault> {
        let put = self.put_file(number, file);
        self.note(put)
    }

    fn sync(&mut self, number: u64) -> Result<(), ShelfFault> {
        let synced = self.sync_both(number);
        self.note(synced)
    }

    fn point(&mut self, number: u64) -> Result<(), ShelfFault> {
        let exchanged = self.exchange_link(number);
        self.note(exchanged)
    }
}
