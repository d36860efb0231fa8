//! Sets of files in a folder of the system.

use crate::content::Content;
use crate::saying::{KeepLog, shortened};
use crate::written_set::set_of_message;
use file_sets::{Folder, RealShelf};
use keep_log::KeepEvent;
use std::alloc::Global;
use std::string::String;
use std::{fs, io};
use wl_octets::{Memory, Octets};

/// Which files are wanted, and where.
#[derive(Drop)]
pub struct Wanted {
    /// The folder's path.
    pub path: String,
    /// The same path where Envoy's file is due too.
    pub envoy: Option<Octets>,
}

impl Wanted {
    /// Files in the folder of this path.
    pub fn start(alloc: Global, path: &str, for_envoy: bool) -> Result<Wanted, Memory> {
        let envoy = if for_envoy {
            Some(Octets::from_slice(alloc, path.as_bytes())?)
        } else {
            None
        };
        let path = String::from_str(alloc, path)?;
        Ok(Wanted { path, envoy })
    }
}

/// Why files aren't written where a file of another kind stands.
const FOREIGN: &str = "a file of its own stands where a link is due; it was left as it is";

/// Writes files into a folder.
#[derive(Drop)]
pub struct FolderWriter<'a> {
    rt: HostRuntime,
    alloc: Global,
    log: &'a KeepLog,
    path: String,
    envoy: Option<Octets>,
    is_kept: bool,
    written: u64,
    is_refused: bool,
}

impl<'a> FolderWriter<'a> {
    /// A writer into the folder that is wanted. Where it is kept, each set is reported.
    pub fn start(
        rt: HostRuntime,
        log: &'a KeepLog,
        wanted: Wanted,
        is_kept: bool,
    ) -> FolderWriter<'a> {
        let alloc = rt.alloc();
        FolderWriter {
            rt,
            alloc,
            log,
            path: wanted.path,
            envoy: wanted.envoy,
            is_kept,
            written: 0,
            is_refused: false,
        }
    }

    /// The log, in which events of these files are reported.
    pub fn log(&self) -> &'a KeepLog {
        self.log
    }

    /// How many sets were written.
    pub fn written(&self) -> u64 {
        self.written
    }

    /// Whether a file that isn't a link of this folder stood where one is due.
    pub fn is_refused(&self) -> bool {
        self.is_refused
    }

    /// Removes the set of this number, unless it is the one that is seen: else each failure would leave one.
    fn remove_unseen(&self, number: u64) -> io::Result<()> {
        let path = self.path.as_str();
        let own = format!(in self.alloc; "..data-{number}")?;
        let link = format!(in self.alloc; "{path}/..data")?;
        let seen = match fs::read_link(&self.rt, link.as_str()) {
            Ok(target) => target.as_path().to_str() == Some(own.as_str()),
            Err(error) if error.kind() == io::ErrorKind::NotFound => false,
            Err(error) => return Err(error),
        };
        if !seen {
            let set = format!(in self.alloc; "{path}/..data-{number}")?;
            return fs::remove_dir_all(&self.rt, set.as_str());
        }
        Ok(())
    }

    /// Reports the set of this number, of so many files.
    fn report(&self, number: u64, count: usize, content: &Content<'_>) {
        if let (true, Content::Svids { message, .. }) = (self.is_kept, content) {
            let set = set_of_message(self.alloc, number, count as u64, message);
            self.log.say(set.map(KeepEvent::Written));
        }
    }

    /// Has the files be seen as the set of this number.
    fn show(&self, number: u64, content: &Content<'_>) -> io::Result<()> {
        let mut shelf = RealShelf::start(self.rt.clone()?, self.alloc, self.path.clone()?);
        match content.show(self.alloc, &mut shelf, number, &self.envoy) {
            Ok(()) => Ok(()),
            Err(_) => Err(shelf.take_fault().unwrap_or(io::ErrorKind::Other.into())),
        }
    }

    /// Writes the files of these messages.
    pub fn publish(&mut self, content: &Content<'_>) -> io::Result<()> {
        let Ok(Some(files)) = content.files(self.alloc, &self.envoy) else {
            return Err(io::ErrorKind::InvalidData.into());
        };
        let folder = Folder {
            rt: &self.rt,
            alloc: self.alloc,
            path: self.path.as_str(),
        };
        let number = folder.next_number()?;
        if folder.has_foreign(files.as_slice())? {
            self.is_refused = true;
            return Err(io::ErrorKind::AlreadyExists.into());
        }
        if let Err(error) = self.show(number, content) {
            // (What can't be removed now goes with the next set but one.)
            let _ = self.remove_unseen(number);
            return Err(error);
        }
        folder.link_names(files.as_slice())?;
        folder.remove_old(number)?;
        self.written = self.written.saturating_add(1);
        self.report(number, files.len(), content);
        Ok(())
    }

    /// Why the files weren't written.
    fn reason(&self, error: &io::Error) -> Result<String, Memory> {
        if self.is_refused {
            return Ok(String::from_str(self.alloc, FOREIGN)?);
        }
        Ok(format!(in self.alloc; "{error}")?)
    }

    fn not_written(&self, reason: &str) -> Result<KeepEvent, Memory> {
        Ok(KeepEvent::NotWritten {
            path: shortened(self.alloc, self.path.as_bytes())?,
            reason: shortened(self.alloc, reason.as_bytes())?,
        })
    }

    /// Says why the files weren't written: an event where they are kept, else a sentence.
    pub fn say(&self, error: &io::Error) {
        let Ok(reason) = self.reason(error) else {
            return;
        };
        let reason = reason.as_str();
        if self.is_kept {
            self.log.say(self.not_written(reason));
        } else {
            let path = self.path.as_str();
            let _ = eprintln!(self.rt; "error: the files can't be written into {path}: {reason}");
        }
    }
}
