//! The tokens that are kept.

ghost use Rattle.std.specs.Prelude.{◌≡◌, ◌∷◌, [], ◌++◌, List, IfOk, IfSome, OnErr};
ghost use Rattle.wl_selector.specs.Selectors.{sorted_texts};
ghost use Rattle.jwt_cache.specs.History.{find_in, cached_token_of};
ghost use Rattle.jwt_cache.specs.Rings.{StandsFor};
ghost use Rattle.jwt_cache.specs.declared.rings.CachedToken.{CachedToken};
ghost use Rattle.wl_store.specs.Stores.{asks_of};
ghost use Rattle.wl_manager.specs.Tokens.{keep_verdict};
ghost use Rattle.wl_manager.specs.declared.keeping.Keeping.TheVariants as Keeping;

use crate::desk::Desk;
use std::alloc::Global;
use wl_entry::{Ask, JwtToken, Voucher};
use wl_manager::Keeping;
use wl_octets::{Memory, Octets};

impl<V: Voucher> Desk<V> {
    /// The newest kept token for this ask and these audiences that was issued since the last document's `renew_before` and
    /// at this time at the latest, and of which less than half of the time has passed.
    pub fn token(
        &self,
        alloc: Global,
        ask: &Ask,
        audience: &[Octets],
        now: u64,
    ) -> Result<Option<JwtToken>, Memory>
        ensures history { (history : List CachedToken) → StandsFor self.now.managed.tokens history
            → IfOk result (λ t. t
            ≡ find_in history ask.now (sorted_texts audience.now) self.now.managed.stored.store.renew_before now) }
        ensures vouched { IfOk result (λ t. IfSome t (V.token ask.now (sorted_texts audience.now))) }
    {
        let token = self.manager.token(alloc, ask, audience, now)?;
        Ok(token)
    }

    /// Keeps a token, which has to be vouched for the ask and the audiences, where nothing stands against it. Else, and out
    /// of memory, nothing changes.
    pub fn keep_token(
        &mut self,
        alloc: Global,
        ask: &Ask,
        audience: &[Octets],
        token: JwtToken,
        now: u64,
    ) -> Result<Keeping, Memory>
        requires { V.token ask.now (sorted_texts audience.now) token }
        ensures answer { IfOk result
            (λ k. k
            ≡ keep_verdict now (asks_of self.old.managed.stored.store.entries) ask.now audience.now token) }
        ensures kept { (history : List CachedToken) → StandsFor self.old.managed.tokens history
            → IfOk result (λ k. k ≡ Keeping.Kept
            → StandsFor self.new.managed.tokens (history ++ cached_token_of ask.now audience.now token ∷ [])) }
        ensures refused { IfOk result (λ k. (k ≡ Keeping.Kept → ⊥) → self.new ≡ self.old) }
        ensures rest { (self.new.managed.stored ≡ self.old.managed.stored)
            × (self.new.store ≡ self.old.store) × (self.new.list ≡ self.old.list)
            × (self.new.seats ≡ self.old.seats) }
        ensures err { OnErr result (self.new ≡ self.old) }
    {
        self.manager.keep_token(alloc, ask, audience, token, now)
    }
}
