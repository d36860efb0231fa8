//! What a file at rest is known by.

use crate::binding::FileId;
use std::fs::Metadata;
use std::os::unix::fs::MetadataExt;

/// A change has a later time than one that is older than so many seconds: no file system's clock ticks more slowly.
const SETTLED_SECONDS: u64 = 2;

/// A time that a file has, since 1970.
#[derive(Clone, Copy, Debug, Drop, PartialEq, Eq)]
struct FileTime {
    seconds: i64,
    nanoseconds: i64,
}

/// Which file it is, how long, and when it was written and changed last. A file that is written, or another in its place, has another
/// mark, once the mark is settled.
#[derive(Clone, Copy, Debug, Drop, PartialEq, Eq)]
pub(crate) struct Mark {
    file: FileId,
    length: u64,
    written: FileTime,
    /// When its bytes, its name, its owner or its mode changed last: who may write the file can't choose this time.
    changed: FileTime,
}

impl Mark {
    /// The mark of a file of which the system says this.
    pub(crate) fn of(found: &Metadata) -> Mark {
        Mark {
            file: FileId::of(found),
            length: found.len(),
            written: FileTime {
                seconds: found.mtime(),
                nanoseconds: found.mtime_nsec(),
            },
            changed: FileTime {
                seconds: found.ctime(),
                nanoseconds: found.ctime_nsec(),
            },
        }
    }

    /// Whether each change from this second on, in Unix time, makes another mark.
    pub(crate) fn is_settled(&self, second: u64) -> bool {
        match u64::try_from(self.changed.seconds) {
            Ok(changed) => changed.saturating_add(SETTLED_SECONDS) < second,
            Err(_) => false,
        }
    }
}
