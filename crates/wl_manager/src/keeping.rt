//! Keeping and finding tokens.

ghost use Rattle.std.specs.Prelude.{◌≡◌, ◌∷◌, [], ◌++◌, ℕ, List, min, sum, map, length, IfOk, IfSome, OnErr};
ghost use Rattle.wl_selector.specs.Selectors.{sorted_texts};
ghost use Rattle.jwt_cache.specs.History.{find_among, find_in, cached_token_of};
ghost use Rattle.jwt_cache.specs.Rings.{tokens_for, StandsFor};
ghost use Rattle.jwt_cache.specs.declared.rings.CachedToken.{CachedToken};
ghost use Rattle.wl_store.specs.Stores.{asks_of};
ghost use Rattle.wl_manager.specs.Tokens.{size_of, keep_verdict};

use crate::manager::Manager;
use jwt_cache::sort_audience;
use std::alloc::Global;
use wl_entry::{Ask, JwtToken, JwtUnfit, Voucher};
use wl_octets::{Memory, Octets};

/// The most bytes of the audiences of a kept token, together and each once.
const AUDIENCE_LIMIT: u64 = 4096;

/// What became of a token.
#[derive(Clone, Copy, Debug, PartialEq, Eq)]
pub enum Keeping {
    /// It is the newest kept token of its entry now.
    Kept,
    /// No entry has the ask, or not any more.
    NoSuchAsk,
    /// Its audiences, each once, have so many bytes together, more than 4,096.
    AudienceLong(u64),
    /// It is of no use, for this reason.
    Unfit(JwtUnfit),
}

/// The bytes of audiences together; the count stands still at its type's end.
#[tactic(auto, unfolding(crate::specs::Tokens::size_of))]
fn size_of(audience: &[Octets]) -> u64
    ensures { result ≡ size_of audience.now }
{
    let mut size: u64 = 0;
    for one in audience {
        size = size.saturating_add(one.len() as u64);
    }
    size
}

impl<V: Voucher> Manager<V> {
    /// The newest token that is kept for this ask and these audiences, was issued since the store's `renew_before` and at
    /// this time at the latest, and of which less than half of the time has passed. In what order and how often the
    /// audiences are named is all the same.
    pub fn token(
        &self,
        alloc: Global,
        ask: &Ask,
        audience: &[Octets],
        now: u64,
    ) -> Result<Option<JwtToken>, Memory>
        ensures found { IfOk result
            (λ t. t
            ≡ find_among ask.now (sorted_texts audience.now) self.now.stored.store.renew_before now
            (tokens_for self.now.tokens ask.now.entry_id)) }
        ensures history { (history : List CachedToken) → StandsFor self.now.tokens history
            → IfOk result
            (λ t. t ≡ find_in history ask.now (sorted_texts audience.now) self.now.stored.store.renew_before now) }
        ensures vouched { IfOk result (λ t. IfSome t (V.token ask.now (sorted_texts audience.now))) }
    {
        let renew_before = self.store.renew_before();
        let token = self.tokens.find(alloc, ask, audience, renew_before, now)?;
        Ok(token)
    }

    /// What is to become of a token.
    #[tactic(auto, unfolding(crate::specs::Tokens::keep_verdict))]
    fn judge_token(
        &self,
        alloc: Global,
        ask: &Ask,
        audience: &[Octets],
        token: &JwtToken,
        now: u64,
    ) -> Result<Keeping, Memory>
        ensures { IfOk result
            (λ k. k
            ≡ keep_verdict now (asks_of self.now.stored.store.entries) ask.now audience.now token.now) }
    {
        if let Some(unfit) = token.unfit(now) {
            return Ok(Keeping::Unfit(unfit));
        }
        if !self.store.lists(ask) {
            return Ok(Keeping::NoSuchAsk);
        }
        let sort_audience = sort_audience(alloc, audience)?;
        let size = size_of(sort_audience.as_slice());
        if size > AUDIENCE_LIMIT {
            return Ok(Keeping::AudienceLong(size));
        }
        Ok(Keeping::Kept)
    }

    /// Keeps a token, which has to be vouched for the ask and the audiences, where nothing stands against it. A
    /// seventeenth of the entry pushes out the oldest. Else, and if memory runs out, nothing changes.
    pub fn keep_token(
        &mut self,
        alloc: Global,
        ask: &Ask,
        audience: &[Octets],
        token: JwtToken,
        now: u64,
    ) -> Result<Keeping, Memory>
        requires { V.token ask.now (sorted_texts audience.now) token }
        ensures answer { IfOk result
            (λ k. k ≡ keep_verdict now (asks_of self.old.stored.store.entries) ask.now audience.now token) }
        ensures kept { (history : List CachedToken) → StandsFor self.old.tokens history
            → IfOk result
            (λ k. k ≡ Keeping.Kept
            → StandsFor self.new.tokens (history ++ cached_token_of ask.now audience.now token ∷ [])) }
        ensures refused { IfOk result (λ k. (k ≡ Keeping.Kept → ⊥) → self.new ≡ self.old) }
        ensures stored { self.new.stored ≡ self.old.stored }
        ensures err { OnErr result (self.new ≡ self.old) }
    {
        let verdict = self.judge_token(alloc, ask, audience, &token, now)?;
        if verdict == Keeping::Kept {
            self.tokens.keep(alloc, ask, audience, token)?;
        }
        Ok(verdict)
    }
}
