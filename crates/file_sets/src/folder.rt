//! The names in a real folder: those of the sets, and those by which their files are read.

use crate::set::File;
use std::alloc::Global;
use std::os::unix::fs::symlink;
use std::{fs, io, str};

/// How the link to the set is called that is seen.
const SEEN: &str = "..data";

/// How a set's folder is called, before its number.
const SET_PREFIX: &str = "..data-";

/// The folder at a path, whose sets are seen through the link `..data`, and each file through a link of its own name. It
/// tells nothing.
#[derive(Drop)]
pub struct Folder<'a> {
    pub rt: &'a HostRuntime,
    pub alloc: Global,
    pub path: &'a str,
}

/// The name of a file in the folder: the first part of a longer one.
fn first_part(name: &[u8]) -> &[u8] {
    match name.iter().position(|byte| *byte == b'/') {
        Some(at) if at < name.len() => name.split_at(at).0,
        _ => name,
    }
}

/// The number of a set, by the name of its folder.
fn number_in(name: &str) -> Option<u64> {
    name.strip_prefix(SET_PREFIX)?.parse::<u64>().ok()
}

/// Whether this is the name of a set's folder.
fn is_set(name: Option<&str>) -> bool {
    match name {
        Some(name) => number_in(name).is_some(),
        None => false,
    }
}

impl Folder<'_> {
    fn place(&self, name: &str) -> io::Result<String> {
        Ok(format!(in self.alloc; "{}/{name}", self.path)?)
    }

    fn entries(&self) -> io::Result<fs::ReadDir<HostRuntime>> {
        fs::read_dir(self.rt, self.path)
    }

    /// A number that no set in the folder has, above all of them.
    pub fn next_number(&self) -> io::Result<u64> {
        let mut next: u64 = 1;
        for entry in self.entries()? {
            let entry = entry?;
            if let Some(number) = number_in(entry.file_name()) {
                next = next.max(number.saturating_add(1));
            }
        }
        Ok(next)
    }

    /// Whether this name is that of a link through `..data`.
    fn is_own_link(&self, name: &str) -> io::Result<bool> {
        match fs::read_link(self.rt, self.place(name)?.as_str()) {
            Ok(target) => {
                let wanted = format!(in self.alloc; "..data/{name}")?;
                Ok(target.as_path().to_str() == Some(wanted.as_str()))
            }
            Err(error) if error.kind() == io::ErrorKind::InvalidInput => Ok(false),
            Err(error) => Err(error),
        }
    }

    /// Whether the name is taken by a file that isn't such a link.
    fn is_foreign(&self, name: &str) -> io::Result<bool> {
        match self.is_own_link(name) {
            Ok(own) => Ok(!own),
            Err(error) if error.kind() == io::ErrorKind::NotFound => Ok(false),
            Err(error) => Err(error),
        }
    }

    /// Whether the name `..data` is taken by a file that isn't a link to a set.
    fn is_seen_foreign(&self) -> io::Result<bool> {
        match fs::read_link(self.rt, self.place(SEEN)?.as_str()) {
            Ok(target) => Ok(!is_set(target.as_path().to_str())),
            Err(error) if error.kind() == io::ErrorKind::NotFound => Ok(false),
            Err(error) if error.kind() == io::ErrorKind::InvalidInput => Ok(true),
            Err(error) => Err(error),
        }
    }

    /// Whether one of these files' names is taken by a file that isn't a link through `..data`, or `..data` by one that isn't a
    /// link to a set.
    pub fn has_foreign(&self, files: &[File]) -> io::Result<bool> {
        if self.is_seen_foreign()? {
            return Ok(true);
        }
        for file in files {
            let Ok(name) = str::from_utf8(first_part(file.name.as_slice())) else {
                return Ok(true);
            };
            if self.is_foreign(name)? {
                return Ok(true);
            }
        }
        Ok(false)
    }

    fn link(&self, name: &str) -> io::Result<()> {
        let target = format!(in self.alloc; "..data/{name}")?;
        match symlink(self.rt, target.as_str(), self.place(name)?.as_str()) {
            Err(error) if error.kind() != io::ErrorKind::AlreadyExists => Err(error),
            _ => Ok(()),
        }
    }

    /// Has each of these files be seen under its own name.
    pub fn link_names(&self, files: &[File]) -> io::Result<()> {
        for file in files {
            if let Ok(name) = str::from_utf8(first_part(file.name.as_slice())) {
                self.link(name)?;
            }
        }
        Ok(())
    }

    /// Removes what this entry names, where it is a set before the last two, or a link to a file that the set of this
    /// number doesn't have.
    fn remove_entry(&self, number: u64, name: &str) -> io::Result<()> {
        let place = self.place(name)?;
        if let Some(old) = number_in(name) {
            if old.saturating_add(1) < number {
                return fs::remove_dir_all(self.rt, place.as_str());
            }
            return Ok(());
        }
        if self.is_own_link(name)? {
            if !fs::exists(self.rt, place.as_str())? {
                return fs::remove_file(self.rt, place.as_str());
            }
        }
        Ok(())
    }

    /// Removes the sets before the last two, of which this is the last one's number, and the links to files that it doesn't
    /// have.
    pub fn remove_old(&self, number: u64) -> io::Result<()> {
        for entry in self.entries()? {
            let entry = entry?;
            self.remove_entry(number, entry.file_name())?;
        }
        Ok(())
    }
}
