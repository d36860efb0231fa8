//! The tokens of one entry.

ghost use Rattle.std.specs.Prelude.{◌≡◌, [], ◌∷◌, ◌++◌, option_map, IfOk};
ghost use Rattle.jwt_cache.specs.History.{last_of, is_of_use, newest};

use circular_buffer::HeapCircularBuffer;
use std::alloc::Global;
use std::marker::Model;
use wl_entry::{Ask, JwtToken};
use wl_octets::{Memory, Octets, Row};

/// How many tokens of an entry are kept.
const RING: usize = 16;

/// A token, with the ask and the audiences for which it is kept.
#[derive(Drop)]
pub struct CachedToken {
    pub ask: Ask,
    /// By ascending bytes, each once.
    pub audience: Row<Octets>,
    pub token: JwtToken,
}

impl CachedToken {
    /// Whether the token is for this ask and these audiences, was issued since the second `renew_before` and at this
    /// time at the latest, and less than half of its time has passed.
    #[tactic(auto, unfolding(crate::specs::History::is_of_use))]
    fn is_of_use(&self, ask: &Ask, audience: &Row<Octets>, renew_before: u64, now: u64) -> bool
        ensures { result ≡ is_of_use ask.now audience.now renew_before now self.now }
    {
        self.ask == *ask
            && self.audience == *audience
            && renew_before <= self.token.issued_at
            && self.token.is_fresh(now)
    }
}

/// The last sixteen tokens of an entry.
#[derive(Drop)]
pub struct Ring {
    items: HeapCircularBuffer<CachedToken>,
}

impl Model for Ring {
    ghost use Rattle.std.specs.Prelude.{◌≡◌, List};
    ghost use Rattle.jwt_cache.specs.declared.rings.CachedToken.{CachedToken};

    ghost Value = { List CachedToken };

    ghost view = { λ r. r.items.items };

    ghost invariant = { λ r. r.items.capacity ≡ 16 };
}

impl Ring {
    /// A ring without tokens.
    pub fn start(alloc: Global) -> Result<Ring, Memory>
        ensures { IfOk result (λ r. r ≡ []) }
    {
        Ok(Ring {
            items: HeapCircularBuffer::with_capacity(alloc, RING)?,
        })
    }

    /// Keeps one more; a seventeenth pushes out the oldest. It takes no memory.
    pub fn push(&mut self, kept: CachedToken)
        ensures { self.new ≡ last_of 16 (self.old ++ kept ∷ []) }
    {
        self.items.push_back(kept);
    }

    /// The newest of those that are of use.
    pub fn newest(
        &self,
        ask: &Ask,
        audience: &Row<Octets>,
        renew_before: u64,
        now: u64,
    ) -> Option<&CachedToken>
        ensures { option_map (λ k. k.now) result
            ≡ newest (is_of_use ask.now audience.now renew_before now) self.now }
    {
        let mut found: Option<&CachedToken> = None;
        for i in 0..self.items.len() {
            if let Some(kept) = self.items.get(i) {
                if kept.is_of_use(ask, audience, renew_before, now) {
                    found = Some(kept);
                }
            }
        }
        found
    }
}
