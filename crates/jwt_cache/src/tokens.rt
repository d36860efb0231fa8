//! The tokens of all entries.

ghost use Rattle.std.specs.Prelude.{◌≡◌, ℕ, List, [], ◌∷◌, ◌++◌, map, if◌then◌else◌, None, IfOk, OnOk, OnErr};
ghost use Rattle.std.specs.Map.{lookup};
ghost use Rattle.std.specs.Str.{bytes_eq};
ghost use Rattle.wl_selector.specs.Selectors.{sorted_texts};
ghost use Rattle.jwt_cache.specs.History.{with_token, cached_token_of, find_among, find_in, without_entry};
ghost use Rattle.jwt_cache.specs.Rings.{ring_at, tokens_for, StandsFor};
ghost use Rattle.jwt_cache.specs.declared.rings.CachedToken.{CachedToken};

use crate::rings::{CachedToken, Ring};
use crate::sorting::sort_audience;
use std::alloc::Global;
use std::collections::BTreeMap;
use std::marker::Model;
use wl_entry::{Ask, JwtToken};
use wl_octets::{Memory, Octets};

/// The last sixteen tokens of each entry.
#[derive(Drop)]
pub struct Tokens {
    rings: BTreeMap<Vec<u8>, Ring>,
}

impl Model for Tokens {
    ghost use Rattle.std.specs.Prelude.{List, ℕ, map};
    ghost use Rattle.jwt_cache.specs.declared.rings.CachedToken.{CachedToken};

    ghost Value = { List (List ℕ × List CachedToken) };

    ghost view = { λ t. map (λ e. (e.0.items, e.1)) t.rings.entries };
}

/// The rings of the entries, by the entry's id.
type Rings = BTreeMap<Vec<u8>, Ring>;

/// Keeps one more.
fn put(alloc: Global, rings: &mut Rings, kept: CachedToken) -> Result<(), Memory>
    ensures ok { OnOk result
        ((q : List ℕ) → ring_at rings.new.entries q ≡ with_token kept q (ring_at rings.old.entries q)) }
    ensures err { OnErr result (rings.new.entries ≡ rings.old.entries) }
{
    match rings.get_mut(kept.ask.entry_id.as_slice()) {
        Some(ring) => ring.push(kept),
        None => {
            let id = kept.ask.entry_id.copy(alloc)?.into_vec();
            let mut ring = Ring::start(alloc)?;
            ring.push(kept);
            rings.insert(id, ring)?;
        }
    }
    Ok(())
}

impl Tokens {
    /// No tokens. It takes no memory.
    pub fn start(alloc: Global) -> Tokens
        ensures value { result ≡ [] }
        ensures stands { StandsFor result [] }
    {
        Tokens {
            rings: BTreeMap::new(alloc),
        }
    }

    /// The newest token that is kept for this ask and these audiences, in whatever order and however often each is
    /// named, and is of use.
    fn find_kept(
        &self,
        alloc: Global,
        ask: &Ask,
        audience: &[Octets],
        renew_before: u64,
        now: u64,
    ) -> Result<Option<JwtToken>, Memory>
        ensures { IfOk result
            (λ t. t
            ≡ find_among ask.now (sorted_texts audience.now) renew_before now
            (tokens_for self.now ask.now.entry_id)) }
    {
        let Some(ring) = self.rings.get(ask.entry_id.as_slice()) else {
            return Ok(None);
        };
        let wanted = sort_audience(alloc, audience)?;
        match ring.newest(ask, &wanted, renew_before, now) {
            Some(kept) => Ok(Some(kept.token.copy(alloc)?)),
            None => Ok(None),
        }
    }

    /// Keeps one more.
    fn keep_one(
        &mut self,
        alloc: Global,
        ask: &Ask,
        audience: &[Octets],
        token: JwtToken,
    ) -> Result<(), Memory>
        ensures ok { OnOk result
            ((q : List ℕ)
            → tokens_for self.new q
            ≡ with_token (cached_token_of ask.now audience.now token) q (tokens_for self.old q)) }
        ensures err { OnErr result (self.new ≡ self.old) }
    {
        let kept = CachedToken {
            ask: ask.copy(alloc)?,
            audience: sort_audience(alloc, audience)?,
            token,
        };
        put(alloc, &mut self.rings, kept)?;
        Ok(())
    }

    /// The newest token that is kept for this ask and these audiences, was issued since the second `renew_before` and at
    /// this time at the latest, and of which less than half of the time has passed. In what order and how often the
    /// audiences are named is all the same. Times are Unix seconds.
    pub fn find(
        &self,
        alloc: Global,
        ask: &Ask,
        audience: &[Octets],
        renew_before: u64,
        now: u64,
    ) -> Result<Option<JwtToken>, Memory>
        ensures found { IfOk result
            (λ t. t
            ≡ find_among ask.now (sorted_texts audience.now) renew_before now
            (tokens_for self.now ask.now.entry_id)) }
        // Where the cache holds what a history leaves, it is the one that is found in them.
        ensures history { (history : List CachedToken) → StandsFor self.now history
            → IfOk result (λ t. t ≡ find_in history ask.now (sorted_texts audience.now) renew_before now) }
    {
        let token = self.find_kept(alloc, ask, audience, renew_before, now)?;
        Ok(token)
    }

    /// Keeps a token for an ask and audiences. A seventeenth of the entry pushes out the oldest. If memory runs out the
    /// cache is as it was.
    pub fn keep(
        &mut self,
        alloc: Global,
        ask: &Ask,
        audience: &[Octets],
        token: JwtToken,
    ) -> Result<(), Memory>
        ensures ok { OnOk result
            ((q : List ℕ)
            → tokens_for self.new q
            ≡ with_token (cached_token_of ask.now audience.now token) q (tokens_for self.old q)) }
        ensures history { (history : List CachedToken) → StandsFor self.old history
            → OnOk result (StandsFor self.new (history ++ cached_token_of ask.now audience.now token ∷ [])) }
        ensures err { OnErr result (self.new ≡ self.old) }
    {
        self.keep_one(alloc, ask, audience, token)?;
        Ok(())
    }

    /// Drops the tokens of an entry. It takes no memory.
    fn drop_ring(&mut self, entry_id: &[u8])
        ensures rings { (q : List ℕ)
            → tokens_for self.new q ≡ (if bytes_eq q entry_id.now then [] else tokens_for self.old q) }
        // Not even an empty list stays of it.
        ensures gone { lookup (bytes_eq entry_id.now) self.new ≡ None }
    {
        self.rings.remove(entry_id);
    }

    /// Drops the tokens of an entry. It takes no memory.
    pub fn forget(&mut self, entry_id: &[u8])
        ensures rings { (q : List ℕ)
            → tokens_for self.new q ≡ (if bytes_eq q entry_id.now then [] else tokens_for self.old q) }
        // Not even an empty list stays of it.
        ensures gone { lookup (bytes_eq entry_id.now) self.new ≡ None }
        ensures history { (history : List CachedToken) → StandsFor self.old history
            → StandsFor self.new (without_entry entry_id.now history) }
    {
        self.drop_ring(entry_id);
    }
}
