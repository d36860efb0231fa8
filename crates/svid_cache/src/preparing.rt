//! What becomes of a timetable and the SVIDs that it is about.

ghost use Rattle.std.specs.Prelude.{◌≡◌, ◌<◌, ◌^◌, ◌||◌, max, min, true, is_none, length, map, unwrap_or, IfOk};
ghost use Rattle.std.specs.Cmp.Lexicographic.{pointwise};
ghost use Rattle.list_laws.specs.Lists.{Rises};
ghost use Rattle.wl_entry.specs.Limits.{SignedWithin};
ghost use Rattle.wl_entry.specs.Keys.{ask_key, svid_key};
ghost use Rattle.wl_entry.specs.Same.{same_svid};
ghost use Rattle.svid_cache.specs.Caches.{is_listed, with_asks, without_ended, install, after_install, is_refused, keeps};
ghost use Rattle.svid_cache.specs.Queue.{NoneEndsBefore, AllBegunBy};
ghost use Rattle.svid_cache.specs.Timetables.{cached_by, IsAbout};

use crate::install::Installed;
use crate::kept::{
    find_kept, first_end_in, judge_end, keeps, last_begin_in, share_lasting, share_listed,
};
use crate::kept_svids::KeptSvids;
use crate::queue::{least, refile};
use crate::timetable::{BLOCK, Timetable};
use sorted_blocks::SortedBlocks;
use std::alloc::Global;
use wl_entry::{Ask, Svid};
use wl_octets::{Memory, Row};

/// Whether this answer to an SVID leaves the SVIDs as they are: it is not kept, or was kept before.
fn leaves_as_is(svids: &SortedBlocks<Svid>, installed: &Installed, svid: &Svid) -> bool
    requires { Rises (map svid_key svids.now) }
    ensures { result ≡ (is_refused installed.now || keeps svids.now svid.now) }
{
    match installed {
        Installed::Kept => keeps(svids, svid),
        _ => true,
    }
}

impl Timetable {
    /// Other asks and another second since which an SVID has to be signed, and those of the SVIDs whose ask is among
    /// the asks.
    pub fn prepare_sync(
        &self,
        alloc: Global,
        svids: &SortedBlocks<Svid>,
        asks: Row<Ask>,
        renew_before: u64,
    ) -> Result<KeptSvids, Memory>
        requires about { IsAbout self.now svids.now }
        requires rises { Rises (map ask_key asks) }
        requires at_most { length asks < 2 ^ 32 }
        ensures { IfOk result (λ c. c ≡ with_asks asks renew_before (cached_by self.now svids.now)) }
    {
        let all = svids.to_row(alloc)?;
        let listed = share_listed(alloc, all.as_slice(), asks.as_slice())?;
        let svids = SortedBlocks::of(alloc, listed.as_slice())?;
        let table = Timetable::of(alloc, asks, renew_before, &svids)?;
        Ok(KeptSvids { table, svids })
    }

    /// The asks, and those of the SVIDs that have not expired.
    pub fn prepare_sweep(
        &self,
        alloc: Global,
        svids: &SortedBlocks<Svid>,
        now: u64,
    ) -> Result<KeptSvids, Memory>
        requires { IsAbout self.now svids.now }
        ensures { IfOk result (λ c. c ≡ without_ended now (cached_by self.now svids.now)) }
    {
        let all = svids.to_row(alloc)?;
        let lasting = share_lasting(alloc, all.as_slice(), now)?;
        let svids = SortedBlocks::of(alloc, lasting.as_slice())?;
        let mut table = self.copy(alloc)?;
        table.sweep(now);
        table.end = first_end_in(svids.blocks());
        table.begins = last_begin_in(svids.blocks());
        Ok(KeptSvids { table, svids })
    }

    /// What becomes of a new SVID, and the asks and SVIDs with it where it is kept and was not before.
    pub fn prepare_install(
        &self,
        alloc: Global,
        svids: &SortedBlocks<Svid>,
        svid: Svid,
        now: u64,
    ) -> Result<(Option<KeptSvids>, Installed), Memory>
        requires { IsAbout self.now svids.now }
        ensures answer { IfOk result (λ r. r.1 ≡ install now svid (cached_by self.now svids.now)) }
        ensures next { IfOk result (λ r. unwrap_or r.0 (cached_by self.now svids.now)
            ≡ after_install r.1 svid (cached_by self.now svids.now)) }
        // There are none exactly where the SVIDs stay as they are.
        ensures none { IfOk result (λ r. is_none r.0
            ≡ pointwise same_svid svids.now (after_install r.1 svid (cached_by self.now svids.now)).svids) }
    {
        let installed = self.judge(svids, &svid, now);
        if leaves_as_is(svids, &installed, &svid) {
            return Ok((None, installed));
        }
        let next = self.with_svid(alloc, svids, svid, now)?;
        Ok((Some(next), Installed::Kept))
    }

    /// A second before which none of these SVIDs has expired, where none of them has before this table's and the one at
    /// which a new one ends. The SVIDs are looked at only where this table's has come.
    fn end_with(&self, svids: &SortedBlocks<Svid>, not_after: u64, now: u64) -> u64
        requires { NoneEndsBefore (min self.now.end not_after) svids.now }
        ensures { NoneEndsBefore result svids.now }
    {
        if self.may_have_ended(now) {
            first_end_in(svids.blocks())
        } else {
            self.end.min(not_after)
        }
    }

    /// A second at which all of these SVIDs have begun, where all have at the later of this table's and the one at which
    /// a new one begins. The SVIDs are looked at only where this table's has not come.
    fn begins_with(&self, svids: &SortedBlocks<Svid>, not_before: u64, now: u64) -> u64
        requires { AllBegunBy (max self.now.begins not_before) svids.now }
        ensures { AllBegunBy result svids.now }
    {
        if now < self.begins {
            last_begin_in(svids.blocks())
        } else {
            self.begins.max(not_before)
        }
    }

    /// The asks and SVIDs with an SVID in the place of its entry's.
    fn with_svid(
        &self,
        alloc: Global,
        svids: &SortedBlocks<Svid>,
        svid: Svid,
        now: u64,
    ) -> Result<KeptSvids, Memory>
        requires about { IsAbout self.now svids.now }
        requires listed { is_listed self.now.asks svid.ask ≡ true }
        requires within { SignedWithin svid.signed }
        ensures { IfOk result (λ c. c ≡ after_install Installed.Kept svid (cached_by self.now svids.now)) }
    {
        let id = svid.ask.entry_id.copy(alloc)?;
        let (not_before, not_after) = (svid.signed.not_before, svid.signed.not_after);
        let asks = self.share_asks()?;
        let svids = svids.with(alloc, svid)?;
        let firsts = refile(
            alloc,
            BLOCK,
            self.firsts.as_slice(),
            self.asks(),
            &svids,
            self.renew_before,
            &id,
        )?;
        let table = Timetable {
            asks,
            next: least(firsts.as_slice()),
            firsts,
            end: self.end_with(&svids, not_after, now),
            begins: self.begins_with(&svids, not_before, now),
            renew_before: self.renew_before,
        };
        Ok(KeptSvids { table, svids })
    }

    /// What is to become of a new SVID.
    #[tactic(auto, using(crate::proofs::CacheFacts::install_listed, crate::proofs::CacheFacts::install_within), unfolding(crate::specs::Caches::install))]
    fn judge(&self, svids: &SortedBlocks<Svid>, svid: &Svid, now: u64) -> Installed
        requires { IsAbout self.now svids.now }
        ensures answer { result ≡ install now svid.now (cached_by self.now svids.now) }
        ensures listed { result ≡ Installed.Kept → is_listed self.now.asks svid.now.ask ≡ true }
        ensures within { result ≡ Installed.Kept → SignedWithin svid.now.signed }
    {
        if !self.lists(&svid.ask) {
            return Installed::NoSuchAsk;
        }
        match svid.signed.unfit(now) {
            Some(unfit) => Installed::Unfit(unfit),
            None => {
                let kept = find_kept(svids, &svid.ask);
                judge_end(kept, &svid.signed, self.renew_before, now)
            }
        }
    }
}
