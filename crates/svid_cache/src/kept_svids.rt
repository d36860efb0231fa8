//! A timetable with its SVIDs.

ghost use Rattle.std.specs.Prelude.{◌≡◌, IfOk};
ghost use Rattle.svid_cache.specs.Caches.{due_asks, IsCached};
ghost use Rattle.svid_cache.specs.Timetables.{cached_by, IsAbout};

use crate::timetable::Timetable;
use sorted_blocks::SortedBlocks;
use std::alloc::Global;
use std::marker::Model;
use wl_entry::{Ask, Svid};
use wl_octets::{Memory, Row};

/// The asks of the entries, and at most one SVID for each, in blocks that are shared with those before the last change.
#[derive(Drop)]
pub struct KeptSvids {
    pub(crate) table: Timetable,
    pub(crate) svids: SortedBlocks<Svid>,
}

impl Model for KeptSvids {
    ghost use Rattle.svid_cache.specs.Caches.{Cached};
    ghost use Rattle.svid_cache.specs.Timetables.{cached_by, IsAbout};

    ghost Value = { Cached };

    ghost view = { λ k. cached_by k.table k.svids };

    ghost invariant = { λ k. IsAbout k.table k.svids };
}

impl KeptSvids {
    /// The timetable, and the SVIDs that it is about. It takes no memory.
    pub fn into_parts(self) -> (Timetable, SortedBlocks<Svid>)
        ensures value { cached_by result.0 result.1 ≡ self }
        ensures about { IsAbout result.0 result.1 }
    {
        let KeptSvids { table, svids } = self;
        (table, svids)
    }

    /// The kept SVIDs by ascending entry id.
    pub fn svids(&self) -> &SortedBlocks<Svid>
        ensures svids { result.now ≡ self.now.svids }
        ensures facts { IsCached self.now }
    {
        &self.svids
    }

    /// The asks that are due, by ascending entry id.
    pub fn due(&self, alloc: Global, now: u64) -> Result<Row<Ask>, Memory>
        ensures { IfOk result (λ r. r ≡ due_asks now self.now) }
    {
        self.table.due(alloc, &self.svids, now)
    }
}
