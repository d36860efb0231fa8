//! Documents from a file.

ghost use Rattle.std.specs.Prelude.{◌≡◌, ◌≤◌, None, IfOk, length};
ghost use Rattle.wl_edge.specs.declared.upstream.TheConstants.{MAX_PULLED};

use crate::clock::seconds;
use crate::mark::Mark;
use crate::upstream::append;
use std::alloc::Global;
use std::fs::{File, Files, OpenFile};
use std::io::ErrorKind;
use std::rt::Clock;
use std::{fs, io};
use wl_edge::{EdgeFault, MAX_PULLED, ReadFault, RealSource, Upstream, read_all};
use wl_octets::Octets;

/// An upstream that reads the file of a path at each pull. It tells no content. Put a new document there by a rename, so that no
/// pull reads half of it. What isn't a plain file (a folder, a pipe) fails the pull.
///
/// It is unchanged where the path leads to the file that the last pull read, of the same length and the same times of writing and of
/// change (`st_mtime` and `st_ctime` of stat(2)), and that change was more than two seconds old when the pull began.
#[derive(Drop)]
pub struct FileUpstream<R> {
    rt: R,
    alloc: Global,
    path: String,
    /// The settled mark of the file that the last pull read, where it gave a document.
    mark: Option<Mark>,
    faults: u64,
}

impl<R: Files + Clock + Drop> FileUpstream<R> {
    /// An upstream at this path. Nothing is opened yet.
    pub fn start(rt: R, alloc: Global, path: String) -> FileUpstream<R>
        ensures untold { ⟦<FileUpstream<R> as Upstream>⟧.told result ≡ None }
        ensures fresh { ⟦<FileUpstream<R> as Upstream>⟧.faults result ≡ 0 }
    {
        FileUpstream {
            rt,
            alloc,
            path,
            mark: None,
            faults: 0,
        }
    }
}

/// What a file held, and its mark just before it was read, where it was settled then.
struct FileRead {
    bytes: Vec<u8>,
    mark: Option<Mark>,
}

/// Opens a plain file. Opening a pipe could wait for ever.
fn open_file<R: Files>(rt: &R, path: &str) -> io::Result<R::File> {
    if !fs::metadata(rt, path)?.is_file() {
        return Err(io::Error::from(ErrorKind::InvalidInput));
    }
    File::open(rt, path)
}

/// The mark of an open file, where each change from now on makes another.
fn settled_mark(rt: &impl Clock, file: &impl OpenFile) -> Option<Mark> {
    let second = seconds(rt)?;
    let mark = Mark::of(&file.metadata().ok()?);
    mark.is_settled(second).then_some(mark)
}

/// Reads the file of this path, up to the most that a pull appends.
fn read_file<R: Files + Clock>(rt: &R, alloc: Global, path: &str) -> Result<FileRead, ReadFault>
    ensures { IfOk result (λ r. length r.bytes.items ≤ MAX_PULLED) }
{
    let Ok(file) = open_file(rt, path) else {
        return Err(ReadFault::Failed);
    };
    let mark = settled_mark(rt, &file);
    let mut source = RealSource::start(file);
    let bytes = read_all(alloc, &mut source, MAX_PULLED)?;
    Ok(FileRead { bytes, mark })
}

impl<R: Files + Clock + Drop> Upstream for FileUpstream<R> {
    ghost told = { λ u. None };

    ghost faults = { λ u. u.faults };

    fn pull(&mut self, into: &mut Octets) -> Result<(), EdgeFault> {
        self.mark = None;
        match read_file(&self.rt, self.alloc, self.path.as_str()) {
            Ok(FileRead { bytes, mark }) => {
                append(into, bytes)?;
                self.mark = mark;
                Ok(())
            }
            Err(ReadFault::Memory) => Err(EdgeFault::Memory),
            Err(ReadFault::Failed) => {
                self.faults = self.faults.saturating_add(1);
                Err(EdgeFault::Failed)
            }
        }
    }

    fn is_unchanged(&self) -> bool {
        let Some(mark) = &self.mark else { return false };
        match fs::metadata(&self.rt, self.path.as_str()) {
            Ok(found) => Mark::of(&found) == *mark,
            Err(_) => false,
        }
    }
}
