//! An entry of the document in use, and what is known of its identity.

use crate::asking::{Asking, UnderWay};
use figures::IdentityState;
use std::alloc::Global;
use wl_entry::{Ask, Signed};
use wl_octets::{Memory, Octets};
use wl_selector::Selectors;

/// How many seconds an entry may have no identity before it is said that a caller waits for it.
const WAIT_SECONDS: u64 = 10;

/// From when to when an identity is valid, in Unix seconds.
#[derive(Clone, Copy, Debug, Drop)]
struct Times {
    not_before: u64,
    not_after: u64,
}

/// What is known of the identities that were signed for an ask.
#[derive(Clone, Copy, Debug, Drop)]
pub(crate) struct Known {
    /// From when on there is none, in Unix seconds: when the ask came, or when the last that was signed ends.
    pub(crate) lacks_from: u64,
    /// The times of the last that was signed.
    last: Option<Times>,
    /// Whether one was signed whose end wasn't said.
    pub(crate) was_signed: bool,
    /// Whether it was said that a caller waits for one.
    pub(crate) was_awaited: bool,
}

/// An entry of the document in use.
#[derive(Drop)]
pub(crate) struct Stand {
    pub(crate) ask: Ask,
    /// What a caller has to have.
    pub(crate) selectors: Selectors,
    pub(crate) known: Known,
    /// The signers that are asked for it.
    pub(crate) asking: Asking,
}

impl Times {
    /// Whether an identity of these times is to be renewed, by the rule of the agent's store. What it holds does not matter.
    fn are_due(self, alloc: Global, renew_before: u64, now: u64) -> bool {
        let signed = Signed {
            chain: Octets::empty(alloc),
            key: Octets::empty(alloc),
            not_before: self.not_before,
            not_after: self.not_after,
        };
        !signed.is_wanted(renew_before, now) || signed.is_due(now)
    }
}

impl Known {
    /// Nothing was signed for an ask that came at this time.
    pub(crate) fn start(now: u64) -> Known {
        Known {
            lacks_from: now,
            last: None,
            was_signed: false,
            was_awaited: false,
        }
    }

    /// This identity was signed.
    pub(crate) fn note_signed(&mut self, signed: &Signed) {
        self.lacks_from = signed.not_after;
        self.last = Some(Times {
            not_before: signed.not_before,
            not_after: signed.not_after,
        });
        self.was_signed = true;
        self.was_awaited = false;
    }

    /// The times of the identity that there is at this time.
    fn identity(&self, now: u64) -> Option<Times> {
        match self.last {
            Some(times) if times.not_after > now => Some(times),
            _ => None,
        }
    }

    /// How many seconds are left of the identity that there is at this time.
    pub(crate) fn seconds_left(&self, now: u64) -> Option<u64> {
        let times = self.identity(now)?;
        Some(times.not_after.saturating_sub(now))
    }

    /// Whether there has been none for long, and nothing was said of a caller that waits.
    pub(crate) fn is_unsaid(&self, now: u64) -> bool {
        !self.was_awaited && now.saturating_sub(self.lacks_from) >= WAIT_SECONDS
    }
}

impl Stand {
    /// How it does for an identity at this time. One that was signed before the second `renew_before` is to be renewed.
    pub(crate) fn state(&self, alloc: Global, renew_before: u64, now: u64) -> IdentityState {
        if self.asking.is_under_way() {
            return IdentityState::InFlight;
        }
        match self.known.identity(now) {
            Some(times) if times.are_due(alloc, renew_before, now) => IdentityState::Due,
            Some(_) => IdentityState::Kept,
            None => IdentityState::Missing,
        }
    }

    /// A signer is asked for it.
    pub(crate) fn begin_ask(&self) -> UnderWay {
        match self.asking.share() {
            Ok(asking) => UnderWay::begin(asking),
            Err(Memory) => UnderWay::uncounted(),
        }
    }
}
