//! The cache.

ghost use Rattle.std.specs.Prelude.{◌≡◌, ◌+◌, ◌<◌, ◌^◌, false, [], is_none, length, map, unwrap_or, IfOk, OnOk, OnErr};
ghost use Rattle.list_laws.specs.Lists.{Rises};
ghost use Rattle.wl_entry.specs.Keys.{ask_key};
ghost use Rattle.svid_cache.specs.Caches.{is_listed, due_asks, with_asks, has_ended, without_ended, install, after_install, IsCached};
ghost use Rattle.svid_cache.specs.Timetables.{cached_by, IsAbout};

use crate::install::Installed;
use crate::kept::any_ended;
use crate::kept_svids::KeptSvids;
use crate::timetable::Timetable;
use sorted_blocks::SortedBlocks;
use std::alloc::Global;
use std::marker::Model;
use wl_entry::{Ask, Svid};
use wl_octets::{Memory, Row, Shared, share_all};

/// The asks of the entries, and at most one SVID for each. Times are Unix seconds. After any answer but `Ok` it is
/// as it was.
#[derive(Drop)]
pub struct Cache {
    pub(crate) table: Timetable,
    pub(crate) svids: Vec<Shared<Svid>>,
}

impl Model for Cache {
    ghost use Rattle.svid_cache.specs.Caches.{Cached};
    ghost use Rattle.svid_cache.specs.Timetables.{cached_by, IsAbout};

    ghost Value = { Cached };

    ghost view = { λ c. cached_by c.table c.svids.items };

    ghost invariant = { λ c. IsAbout c.table c.svids.items };
}

impl Cache {
    /// A cache without asks. It takes no memory.
    pub fn start(alloc: Global) -> Cache
        ensures { result ≡ record { asks = []; svids = []; renew_before = 0 } }
    {
        Cache {
            table: Timetable::start(alloc),
            svids: Vec::new(alloc),
        }
    }

    /// A copy of the cache, which shares the asks and SVIDs.
    pub fn copy(&self, alloc: Global) -> Result<Cache, Memory>
        ensures { IfOk result (λ c. c ≡ self.now) }
    {
        let table = self.table.copy(alloc)?;
        let svids = share_all(alloc, self.svids.as_slice())?.into_vec();
        Ok(Cache { table, svids })
    }

    /// The cache of these asks and SVIDs, which it shares one by one.
    fn of(alloc: Global, kept: KeptSvids) -> Result<Cache, Memory>
        ensures { IfOk result (λ c. c ≡ kept) }
    {
        let (table, svids) = kept.into_parts();
        let svids = svids.to_row(alloc)?.into_vec();
        Ok(Cache { table, svids })
    }

    /// The SVIDs in blocks, shared one by one.
    fn blocks(&self, alloc: Global) -> Result<SortedBlocks<Svid>, Memory>
        ensures svids { IfOk result (λ b. b ≡ self.now.svids) }
    {
        SortedBlocks::of(alloc, self.svids.as_slice())
    }

    /// The asks by ascending entry id.
    pub fn asks(&self) -> &[Ask]
        ensures asks { result.now ≡ self.now.asks }
        ensures facts { IsCached self.now }
    {
        self.table.asks()
    }

    /// The kept SVIDs by ascending entry id.
    pub fn svids(&self) -> &[Shared<Svid>]
        ensures svids { result.now ≡ self.now.svids }
        ensures facts { IsCached self.now }
    {
        self.svids.as_slice()
    }

    /// Whether the ask is one of the asks.
    pub fn lists(&self, ask: &Ask) -> bool
        ensures { result ≡ is_listed self.now.asks ask.now }
    {
        self.table.lists(ask)
    }

    /// The cache with other asks and another second since which an SVID has to be signed. The SVIDs stay whose ask is
    /// among the asks.
    pub fn prepare_sync(
        &self,
        alloc: Global,
        asks: Row<Ask>,
        renew_before: u64,
    ) -> Result<Cache, Memory>
        requires rises { Rises (map ask_key asks) }
        requires at_most { length asks < 2 ^ 32 }
        ensures { IfOk result (λ c. c ≡ with_asks asks renew_before self.now) }
    {
        let svids = self.blocks(alloc)?;
        Cache::of(
            alloc,
            self.table.prepare_sync(alloc, &svids, asks, renew_before)?,
        )
    }

    /// Takes other asks and another second since which an SVID has to be signed. The SVIDs stay whose ask is among the
    /// asks.
    pub fn sync(&mut self, alloc: Global, asks: Row<Ask>, renew_before: u64) -> Result<(), Memory>
        requires rises { Rises (map ask_key asks) }
        requires at_most { length asks < 2 ^ 32 }
        ensures ok { OnOk result (self.new ≡ with_asks asks renew_before self.old) }
        ensures err { OnErr result (self.new ≡ self.old) }
    {
        *self = self.prepare_sync(alloc, asks, renew_before)?;
        Ok(())
    }

    /// Whether one of the SVIDs has expired, so that a sweep lets go of it. It takes no memory.
    pub fn has_ended(&self, now: u64) -> bool
        ensures ended { result ≡ has_ended now self.now }
        ensures kept { result ≡ false → without_ended now self.now ≡ self.now }
    {
        self.table.may_have_ended(now) && any_ended(self.svids.as_slice(), now)
    }

    /// Lets go of the SVIDs that have expired, and answers how many these were. It takes no memory.
    pub fn sweep(&mut self, now: u64) -> u32
        ensures swept { self.new ≡ without_ended now self.old }
        ensures count { result + length self.new.svids ≡ length self.old.svids }
    {
        if !self.has_ended(now) {
            return 0;
        }
        let before = self.svids.len();
        self.svids.retain(|svid| now < svid.part().signed.not_after);
        self.table.sweep(now);
        (before - self.svids.len()) as u32
    }

    /// The asks that are due, by ascending entry id.
    pub fn due(&self, alloc: Global, now: u64) -> Result<Row<Ask>, Memory>
        ensures { IfOk result (λ r. r ≡ due_asks now self.now) }
    {
        let svids = self.blocks(alloc)?;
        self.table.due(alloc, &svids, now)
    }

    /// What becomes of a new SVID, and the cache with it where it is kept.
    pub fn prepare_install(
        &self,
        alloc: Global,
        svid: Svid,
        now: u64,
    ) -> Result<(Option<Cache>, Installed), Memory>
        ensures answer { IfOk result (λ r. r.1 ≡ install now svid self.now) }
        ensures next { IfOk result (λ r. unwrap_or r.0 self.now ≡ after_install r.1 svid self.now) }
    {
        let svids = self.blocks(alloc)?;
        let (next, installed) = self.table.prepare_install(alloc, &svids, svid, now)?;
        match next {
            Some(next) => Ok((Some(Cache::of(alloc, next)?), installed)),
            None => Ok((None, installed)),
        }
    }

    /// Takes a new SVID in, where nothing stands against it.
    pub fn install(&mut self, alloc: Global, svid: Svid, now: u64) -> Result<Installed, Memory>
        ensures answer { IfOk result (λ i. i ≡ install now svid self.old) }
        ensures kept { IfOk result (λ i. self.new ≡ after_install i svid self.old) }
        ensures err { OnErr result (self.new ≡ self.old) }
    {
        let (next, installed) = self.prepare_install(alloc, svid, now)?;
        if let Some(next) = next {
            *self = next;
        }
        Ok(installed)
    }
}
