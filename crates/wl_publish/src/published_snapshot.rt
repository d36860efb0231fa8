//! A publication as readers get it.

ghost use Rattle.std.specs.Prelude.{◌≡◌, IfOk};

use std::alloc::Global;
use std::marker::Model;
use wl_match::Index;
use wl_octets::{Memory, Shared};
use wl_snapshot::Snapshot;

/// A publication and the index of its entries.
#[derive(Drop)]
struct Parts {
    snapshot: Shared<Snapshot>,
    index: Shared<Index>,
}

impl Model for Parts {
    ghost use Rattle.std.specs.Prelude.{◌≡◌};
    ghost use Rattle.wl_snapshot.specs.Snapshots.{Publication};

    ghost Value = { Publication };

    ghost view = { λ p. p.snapshot };

    ghost invariant = { λ p. p.index ≡ p.snapshot.entries };
}

/// A publication with the index of its entries. A contract sees the publication.
///
/// Both are shared with every published snapshot of that publication. How many owners a published snapshot has is counted apart for each that
/// `new` and `copy` make, so threads with copies of their own do not write to one count.
#[derive(Drop)]
pub struct PublishedSnapshot {
    parts: Shared<Parts>,
}

impl Model for PublishedSnapshot {
    ghost use Rattle.wl_snapshot.specs.Snapshots.{Publication};

    ghost Value = { Publication };

    ghost view = { λ e. e.parts };
}

impl PublishedSnapshot {
    /// A publication with the index of its entries.
    pub fn new(
        alloc: Global,
        snapshot: Shared<Snapshot>,
        index: Shared<Index>,
    ) -> Result<PublishedSnapshot, Memory>
        requires { index ≡ snapshot.entries }
        ensures { IfOk result (λ e. e ≡ snapshot) }
    {
        match Shared::new(alloc, Parts { snapshot, index }) {
            Ok(parts) => Ok(PublishedSnapshot { parts }),
            Err((_, Memory)) => Err(Memory),
        }
    }

    /// The publication.
    pub fn snapshot(&self) -> &Snapshot
        ensures { result.now ≡ self.now }
    {
        self.parts.part().snapshot.part()
    }

    /// The index of its entries.
    pub fn index(&self) -> &Index
        ensures { result.now ≡ self.now.entries }
    {
        self.parts.part().index.part()
    }

    /// One more owner of this published snapshot.
    pub fn share(&self) -> Result<PublishedSnapshot, Memory>
        ensures { IfOk result (λ e. e ≡ self.now) }
    {
        Ok(PublishedSnapshot {
            parts: self.parts.share()?,
        })
    }

    /// A published snapshot of the same publication and index, whose owners are counted apart.
    pub fn copy(&self, alloc: Global) -> Result<PublishedSnapshot, Memory>
        ensures { IfOk result (λ e. e ≡ self.now) }
    {
        let parts = self.parts.part();
        let snapshot = parts.snapshot.share()?;
        let index = parts.index.share()?;
        let copy = PublishedSnapshot::new(alloc, snapshot, index)?;
        Ok(copy)
    }
}
