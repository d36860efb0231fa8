//! A prepared step is published, and then adopted.

ghost use Rattle.std.specs.Prelude.{◌≡◌, [], List, IfOk, OnOk, OnErr};
ghost use Rattle.jwt_cache.specs.declared.rings.CachedToken.{CachedToken};
ghost use Rattle.jwt_cache.specs.Rings.{StandsFor};
ghost use Rattle.wl_manager.specs.Tokens.{without_all};
ghost use Rattle.wl_publish.specs.Listings.{listing};
ghost use Rattle.wl_desk.specs.Desks.{Follows, grown, noted};

use crate::desk::Desk;
use crate::published_snapshots::published_snapshot_of;
use std::alloc::Global;
use std::sync::Wait;
use wl_entry::Voucher;
use wl_manager::Prepared;
use wl_octets::Memory;
use wl_publish::Note;
use wl_store::Adopted;

impl<V: Voucher> Desk<V> {
    /// Publishes what a prepared step publishes, and adopts it. Out of memory neither is done.
    pub(crate) fn settle<R: Wait>(
        &mut self,
        rt: &R,
        alloc: Global,
        prepared: Prepared<V>,
    ) -> Result<(Adopted, Option<Note<V>>), Memory>
        requires { Follows self.old.managed.stored.published prepared.step.answer.change prepared.step.next.published }
        ensures stored { OnOk result (self.new.managed.stored ≡ prepared.step.next) }
        ensures answer { IfOk result (λ r. r.0 ≡ prepared.step.answer) }
        ensures list { OnOk result
            (self.new.list ≡ grown self.old.list prepared.step.answer.change prepared.step.next.published) }
        ensures note { IfOk result
            (λ r. r.1 ≡ noted prepared.step.answer.change (listing self.new.store self.new.list)) }
        ensures history { (history : List CachedToken) → StandsFor self.old.managed.tokens history
            → OnOk result (StandsFor self.new.managed.tokens (without_all prepared.dropped history)) }
        ensures tokens { prepared.dropped ≡ [] → self.new.managed.tokens ≡ self.old.managed.tokens }
        ensures rest { (self.new.store ≡ self.old.store) × (self.new.seats ≡ self.old.seats) }
        ensures err { OnErr result (self.new ≡ self.old) }
    {
        let published_snapshot = match published_snapshot_of(alloc, &prepared) {
            Ok(published_snapshot) => published_snapshot,
            Err(Memory) => {
                prepared.abandon();
                return Err(Memory);
            }
        };
        let Some(published_snapshot) = published_snapshot else {
            let adopted = self.manager.adopt(prepared);
            return Ok((adopted, None));
        };
        match self.publisher.publish(rt, published_snapshot) {
            Ok(note) => {
                let adopted = self.manager.adopt(prepared);
                Ok((adopted, Some(note)))
            }
            Err(_) => {
                prepared.abandon();
                Err(Memory)
            }
        }
    }
}
