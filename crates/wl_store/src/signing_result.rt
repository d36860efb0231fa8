//! Tickets that come back with a signed identity.

ghost use Rattle.std.specs.Prelude.{◌≡◌, true, false, if◌then◌else◌, [], ◌∷◌, is_none, unwrap_or, Ok, None, Some, IfOk, OnOk, OnErr};
ghost use Rattle.std.specs.Cmp.Lexicographic.{pointwise};
ghost use Rattle.wl_entry.specs.Same.{same_svid};
ghost use Rattle.wl_x509.specs.Leaves.{NamesAsk};
ghost use Rattle.wl_store.specs.Steps.{stored_after, change_to, after_failed, IsInstalled, kept_after};
ghost use Rattle.wl_store.specs.Stores.{cached_of, has_ticket, after_signed, install, leaf_judged, refusal};
ghost use Rattle.wl_snapshot.specs.Untouched.{SameBut};
ghost use Rattle.svid_cache.specs.Caches.{after_install};

use crate::preparing::Prepared;
use crate::store::Store;
use crate::tickets::{Adopted, Change, Ticket, abandon_all};
use std::alloc::Global;
use svid_cache::{Installed, KeptSvids};
use wl_entry::{Ask, Signed, Svid, Unfit, Voucher};
use wl_octets::{Memory, Octets, Row};
use wl_x509::leaf_unfit;

/// The id of the entry that a signing touches: none, where the SVIDs stay as they are.
fn id_touched(alloc: Global, id: Octets, is_same: bool) -> Result<Row<Octets>, Memory>
    ensures { IfOk result (λ ids. ids ≡ (if is_same then [] else id ∷ [])) }
{
    let mut ids = Row::empty(alloc);
    if !is_same {
        ids.push(id)?;
    }
    Ok(ids)
}

impl<V: Voucher> Store<V> {
    /// The first reason that the leaf gives, in a strict store.
    fn judge_leaf(&self, alloc: Global, ask: &Ask, signed: &Signed) -> Result<Option<Unfit>, Memory>
        ensures value { IfOk result (λ u. u ≡ leaf_judged self.now.store.strict ask.now signed.now) }
        ensures named { IfOk result
            (λ u. u ≡ None → self.now.store.strict ≡ true → NamesAsk ask.now signed.now) }
    {
        if self.strict {
            let unfit = leaf_unfit(alloc, ask, signed)?;
            Ok(unfit)
        } else {
            Ok(None)
        }
    }

    /// The first reason against a signed identity that does not hang on the kept one.
    #[tactic(auto, unfolding(crate::specs::Stores::refusal))]
    fn refuse(
        &self,
        alloc: Global,
        ask: &Ask,
        signed: &Signed,
        now: u64,
    ) -> Result<Option<Installed>, Memory>
        ensures value { IfOk result (λ r. r ≡ refusal now ask.now signed.now self.now.store) }
        ensures named { IfOk result
            (λ r. r ≡ None → self.now.store.strict ≡ true → NamesAsk ask.now signed.now) }
    {
        if !self.lists(ask) {
            return Ok(Some(Installed::NoSuchAsk));
        }
        if let Some(unfit) = signed.unfit(now) {
            return Ok(Some(Installed::Unfit(unfit)));
        }
        match self.judge_leaf(alloc, ask, signed)? {
            Some(unfit) => Ok(Some(Installed::Unfit(unfit))),
            None => Ok(None),
        }
    }

    /// What becomes of an SVID against which nothing stands yet, and the asks and SVIDs with it where it is kept and was
    /// not before.
    fn install_cache(
        &self,
        alloc: Global,
        svid: Svid,
        now: u64,
    ) -> Result<(Option<KeptSvids>, Installed), Memory>
        requires { refusal now svid.ask svid.signed self.now.store ≡ None }
        ensures answer { IfOk result (λ r. r.1 ≡ install now svid.ask svid.signed self.now.store) }
        ensures cache { IfOk result
            (λ r. kept_after r.0 self.now.store ≡ after_install r.1 svid (cached_of self.now.store)) }
        ensures none { IfOk result (λ r. is_none r.0
            ≡ pointwise same_svid self.now.store.svids (kept_after r.0 self.now.store).svids) }
    {
        let svids = self.svids();
        let both = self.table().prepare_install(alloc, svids, svid, now)?;
        Ok(both)
    }

    /// What becomes of a signed identity, and the asks and SVIDs with it where it is kept and was not before.
    fn installed_cache(
        &self,
        alloc: Global,
        svid: Svid,
        now: u64,
    ) -> Result<(Option<KeptSvids>, Installed), Memory>
        requires { V.signed svid.ask svid.signed }
        ensures answer { IfOk result (λ r. r.1 ≡ install now svid.ask svid.signed self.now.store) }
        ensures gives { IfOk result
            (λ r. IsInstalled V.signed self.now.store svid r.1 (kept_after r.0 self.now.store)) }
        ensures none { IfOk result (λ r. is_none r.0
            ≡ pointwise same_svid self.now.store.svids (kept_after r.0 self.now.store).svids) }
    {
        // a field that is read tells the proof what the type keeps
        let _ = &self.last_ticket;
        match self.refuse(alloc, &svid.ask, &svid.signed, now)? {
            Some(refusal) => Ok((None, refusal)),
            None => {
                let both = self.install_cache(alloc, svid, now)?;
                Ok(both)
            }
        }
    }

    /// The step of a ticket in flight that comes back with a signed identity.
    #[tactic(auto, unfolding(crate::specs::Stores::after_signed))]
    fn signed_step(
        &self,
        alloc: Global,
        number: u64,
        svid: Svid,
        now: u64,
    ) -> Result<Prepared<V>, Memory>
        requires { V.signed svid.ask svid.signed }
        ensures next { IfOk result
            (λ p. p.next
            ≡ stored_after (after_signed now number svid.ask svid.signed self.now.store) self.now) }
        ensures change { IfOk result
            (λ p. p.answer.change
            ≡ change_to (after_signed now number svid.ask svid.signed self.now.store) self.now) }
        ensures tickets { IfOk result (λ p. p.answer.tickets ≡ []) }
        ensures installed { IfOk result
            (λ p. p.answer.installed ≡ Some (install now svid.ask svid.signed self.now.store)) }
        ensures touched { IfOk result (λ p. SameBut p.answer.touched self.now.published p.next.published) }
    {
        // a field that is read tells the proof what the type keeps
        let _ = &self.last_ticket;
        let mut in_flight = self.copy_flights(alloc)?;
        in_flight.remove(number);
        let id = svid.ask.entry_id.copy(alloc)?;
        let (cache, installed) = self.installed_cache(alloc, svid, now)?;
        let is_same = cache.is_none();
        let touched = id_touched(alloc, id, is_same)?;
        let stock = self.shared_stock()?;
        let (next, change) = self.settle(alloc, stock, cache, in_flight, self.last_number())?;
        Ok(Prepared {
            next,
            answer: Adopted {
                change,
                tickets: Row::empty(alloc),
                installed: Some(installed),
                touched,
            },
        })
    }

    /// The step of a ticket that is not in flight, which changes nothing.
    fn unchanged(&self, alloc: Global) -> Result<Prepared<V>, Memory>
        ensures next { IfOk result (λ p. p.next ≡ self.now) }
        ensures change { IfOk result (λ p. p.answer.change ≡ Change.Same) }
        ensures tickets { IfOk result (λ p. p.answer.tickets ≡ []) }
        ensures installed { IfOk result (λ p. p.answer.installed ≡ Some Installed.Spent) }
        ensures touched { IfOk result (λ p. p.answer.touched ≡ []) }
    {
        // a field that is read tells the proof what the type keeps
        let _ = &self.last_ticket;
        let in_flight = self.copy_flights(alloc)?;
        let next = self.keep_published(in_flight, self.last_number())?;
        Ok(Prepared {
            next,
            answer: Adopted {
                change: Change::Same,
                tickets: Row::empty(alloc),
                installed: Some(Installed::Spent),
                touched: Row::empty(alloc),
            },
        })
    }

    /// A copy of the ask and the identity, as an SVID.
    fn copy_svid(&self, alloc: Global, ask: &Ask, signed: &Signed) -> Result<Svid, Memory>
        ensures { IfOk result (λ s. s ≡ record { ask = ask.now; signed = signed.now }) }
    {
        Ok(Svid {
            ask: ask.copy(alloc)?,
            signed: signed.copy(alloc)?,
        })
    }

    /// Prepares that a ticket comes back with a signed identity, which has to be vouched for the ticket's ask.
    pub fn prepare_signed(
        &self,
        alloc: Global,
        ticket: &Ticket,
        signed: &Signed,
        now: u64,
    ) -> Result<Prepared<V>, Memory>
        requires { V.signed ticket.now.ask signed.now }

        // A ticket that is not in flight changes nothing.
        ensures spent { has_ticket ticket.now.number ticket.now.ask self.now.store.in_flight ≡ false →
            IfOk result (λ p. (p.next ≡ self.now) × (p.answer.change ≡ Change.Same) × (p.answer.installed ≡ Some Installed.Spent)) }

        // The ticket leaves, and the answer is that of Install.
        ensures next { has_ticket ticket.now.number ticket.now.ask self.now.store.in_flight ≡ true
            → IfOk result (λ p. p.next
            ≡ stored_after (after_signed now ticket.now.number ticket.now.ask signed.now self.now.store) self.now) }
        ensures change { has_ticket ticket.now.number ticket.now.ask self.now.store.in_flight ≡ true
            → IfOk result (λ p. p.answer.change
            ≡ change_to (after_signed now ticket.now.number ticket.now.ask signed.now self.now.store) self.now) }
        ensures installed { has_ticket ticket.now.number ticket.now.ask self.now.store.in_flight ≡ true
            → IfOk result (λ p. p.answer.installed
            ≡ Some (install now ticket.now.ask signed.now self.now.store)) }
        ensures tickets { IfOk result (λ p. p.answer.tickets ≡ []) }
        ensures touched { IfOk result (λ p. SameBut p.answer.touched self.now.published p.next.published) }
    {
        if self.in_flight.has_ticket(ticket) {
            let svid = self.copy_svid(alloc, &ticket.ask, signed)?;
            let prepared = self.signed_step(alloc, ticket.number, svid, now)?;
            Ok(prepared)
        } else {
            let prepared = self.unchanged(alloc)?;
            Ok(prepared)
        }
    }

    /// Takes a ticket back with a signed identity, which has to be vouched for the ticket's ask, and tells what became
    /// of it. The ticket is spent in each case; if memory runs out nothing else changes.
    #[tactic(auto, unfolding(crate::specs::Stores::without_ticket))]
    pub fn signed(
        &mut self,
        alloc: Global,
        ticket: Ticket,
        signed: Signed,
        now: u64,
    ) -> Result<Installed, Memory>
        requires { V.signed ticket.ask signed }

        // A ticket that is not in flight changes nothing.
        ensures spent { has_ticket ticket.number ticket.ask self.old.store.in_flight ≡ false →
            (result ≡ Ok Installed.Spent) × (self.new ≡ self.old) }

        // The ticket leaves, and the answer is that of Install.
        ensures ok { has_ticket ticket.number ticket.ask self.old.store.in_flight ≡ true → OnOk result
            (self.new ≡ stored_after (after_signed now ticket.number ticket.ask signed self.old.store) self.old) }
        ensures installed { has_ticket ticket.number ticket.ask self.old.store.in_flight ≡ true → IfOk result
            (λ i. i ≡ install now ticket.ask signed self.old.store) }
        ensures err { OnErr result (self.new ≡ after_failed ticket.number self.old) }
    {
        if !self.in_flight.has_ticket(&ticket) {
            ticket.abandon();
            return Ok(Installed::Spent);
        }
        let Ticket { number, ask } = ticket;
        match self.signed_step(alloc, number, Svid { ask, signed }, now) {
            Ok(prepared) => Ok(self.take(prepared)),
            Err(memory) => {
                self.in_flight.remove(number);
                Err(memory)
            }
        }
    }

    /// Takes a prepared step, and tells what became of the identity.
    fn take(&mut self, prepared: Prepared<V>) -> Installed
        ensures new { self.new ≡ prepared.next }
        ensures answer { result ≡ unwrap_or prepared.answer.installed Installed.Spent }
    {
        let Adopted {
            change: _,
            tickets,
            installed,
            touched: _,
        } = self.adopt(prepared);
        abandon_all(tickets);
        match installed {
            Some(installed) => installed,
            None => Installed::Spent,
        }
    }
}
