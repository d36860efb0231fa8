//! When asks come due and SVIDs end.

ghost use Rattle.std.specs.Prelude.{◌≡◌, ◌<◌, false, [], map, filter, List, IfOk};
ghost use Rattle.list_laws.specs.Lists.{Rises};
ghost use Rattle.wl_entry.specs.Keys.{ask_key};
ghost use Rattle.wl_entry.specs.declared.signing.Svid.{Svid};
ghost use Rattle.svid_cache.specs.Inside.{asks_in};
ghost use Rattle.svid_cache.specs.Caches.{is_listed, due_asks, lasts, has_ended, without_ended, IsCached};
ghost use Rattle.svid_cache.specs.Timetables.{cached_by, IsAbout};

use crate::asks::lists;
use crate::kept::{any_ended_in, first_end_in, last_begin_in};
use crate::queue::{clear_until, due_among, due_of, file_all, least};
use sorted_blocks::SortedBlocks;
use std::alloc::Global;
use std::marker::Model;
use wl_entry::{Ask, Svid};
use wl_octets::{Memory, Row, Shared};

/// How many asks stand in a block of the queue.
pub(crate) const BLOCK: usize = 64;

/// The asks of the entries, and when the SVIDs that are kept for them come due and end. The SVIDs themselves are its
/// owner's, who lends them to each call. Times are Unix seconds.
#[derive(Drop)]
pub struct Timetable {
    /// None before the first are reported.
    pub(crate) asks: Option<Shared<Row<Ask>>>,
    /// A second for each block of asks, before which none of them is due once the SVIDs have begun.
    pub(crate) firsts: Vec<u64>,
    /// None of the asks is due before this second once the SVIDs have begun.
    pub(crate) next: u64,
    /// None of the SVIDs has expired before this second.
    pub(crate) end: u64,
    /// All of the SVIDs have begun at this second. Before it one may have been signed while a clock was ahead.
    pub(crate) begins: u64,
    /// An SVID that begins before this second is to be replaced.
    pub(crate) renew_before: u64,
}

impl Model for Timetable {
    ghost use Rattle.svid_cache.specs.Inside.{asks_in};
    ghost use Rattle.svid_cache.specs.Timetables.{Times};

    ghost Value = { Times };

    ghost view = { λ t. record { asks = asks_in t.asks; firsts = t.firsts.items; next = t.next; end = t.end; begins = t.begins; renew_before = t.renew_before } };
}

impl Timetable {
    /// A timetable of no asks and no SVIDs. It takes no memory.
    pub fn start(alloc: Global) -> Timetable
        ensures asks { result.asks ≡ [] }
        ensures renew_before { result.renew_before ≡ 0 }
        ensures about { IsAbout result [] }
    {
        Timetable {
            asks: None,
            firsts: Vec::new(alloc),
            next: u64::MAX,
            end: u64::MAX,
            begins: 0,
            renew_before: 0,
        }
    }

    /// The timetable of these asks and the SVIDs that are kept for them.
    pub(crate) fn of(
        alloc: Global,
        asks: Row<Ask>,
        renew_before: u64,
        svids: &SortedBlocks<Svid>,
    ) -> Result<Timetable, Memory>
        requires { IsCached (record { asks = asks; svids = svids.now; renew_before = renew_before }) }
        ensures asks { IfOk result (λ t. t.asks ≡ asks) }
        ensures renew_before { IfOk result (λ t. t.renew_before ≡ renew_before) }
        ensures about { IfOk result (λ t. IsAbout t svids.now) }
    {
        let firsts = file_all(alloc, BLOCK, asks.as_slice(), svids, renew_before)?;
        Ok(Timetable {
            asks: Some(Shared::new(alloc, asks)?),
            next: least(firsts.as_slice()),
            firsts,
            end: first_end_in(svids.blocks()),
            begins: last_begin_in(svids.blocks()),
            renew_before,
        })
    }

    /// A copy, which shares the asks.
    pub(crate) fn copy(&self, alloc: Global) -> Result<Timetable, Memory>
        ensures { IfOk result (λ t. t ≡ self.now) }
    {
        Ok(Timetable {
            asks: self.share_asks()?,
            firsts: Vec::from_slice(alloc, self.firsts.as_slice())?,
            next: self.next,
            end: self.end,
            begins: self.begins,
            renew_before: self.renew_before,
        })
    }

    /// The asks, shared.
    pub(crate) fn share_asks(&self) -> Result<Option<Shared<Row<Ask>>>, Memory>
        ensures { IfOk result (λ asks. asks_in asks ≡ self.now.asks) }
    {
        match &self.asks {
            Some(asks) => Ok(Some(asks.share()?)),
            None => Ok(None),
        }
    }

    /// The asks by ascending entry id.
    pub fn asks(&self) -> &[Ask]
        ensures { result.now ≡ self.now.asks }
    {
        match &self.asks {
            Some(asks) => asks.part().as_slice(),
            None => &[],
        }
    }

    /// The second since which an SVID has to be signed, or else it is to be replaced.
    pub fn renew_before(&self) -> u64
        ensures { result ≡ self.now.renew_before }
    {
        self.renew_before
    }

    /// Whether the ask is one of the asks.
    pub fn lists(&self, ask: &Ask) -> bool
        requires { Rises (map ask_key self.now.asks) }
        ensures { result ≡ is_listed self.now.asks ask.now }
    {
        lists(self.asks(), ask)
    }

    /// Whether the second has come before which none of the SVIDs has expired. It takes no memory.
    pub(crate) fn may_have_ended(&self, now: u64) -> bool
        ensures { (svids : List Svid) → IsAbout self.now svids → result ≡ false → has_ended now (cached_by self.now svids) ≡ false }
    {
        self.end <= now
    }

    /// Whether one of the SVIDs has expired, so that a sweep lets go of it. It takes no memory, and looks at no SVID before
    /// the first one can have.
    pub fn has_ended(&self, svids: &SortedBlocks<Svid>, now: u64) -> bool
        requires { IsAbout self.now svids.now }
        ensures ended { result ≡ has_ended now (cached_by self.now svids.now) }
        ensures kept { result ≡ false → without_ended now (cached_by self.now svids.now) ≡ cached_by self.now svids.now }
    {
        self.may_have_ended(now) && any_ended_in(svids.blocks(), now)
    }

    /// Lets go of the times of the SVIDs that have expired. It takes no memory.
    pub(crate) fn sweep(&mut self, now: u64)
        ensures asks { self.new.asks ≡ self.old.asks }
        ensures renew_before { self.new.renew_before ≡ self.old.renew_before }
        ensures about { (svids : List Svid) → IsAbout self.old svids → IsAbout self.new (filter (lasts now) svids) }
    {
        clear_until(self.firsts.as_mut_slice(), now);
        self.next = least(self.firsts.as_slice());
    }

    /// The asks that are due, by ascending entry id. Each ask is looked at only while an SVID may begin after now.
    pub fn due(
        &self,
        alloc: Global,
        svids: &SortedBlocks<Svid>,
        now: u64,
    ) -> Result<Row<Ask>, Memory>
        requires { IsAbout self.now svids.now }
        ensures { IfOk result (λ r. r ≡ due_asks now (cached_by self.now svids.now)) }
    {
        if now < self.begins {
            return due_among(alloc, self.asks(), svids, self.renew_before, now);
        }
        if now < self.next {
            return Ok(Row::empty(alloc));
        }
        due_of(
            alloc,
            BLOCK,
            self.firsts.as_slice(),
            self.asks(),
            svids,
            self.renew_before,
            now,
        )
    }
}
