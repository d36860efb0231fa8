//! One selector.

ghost use Rattle.std.specs.Prelude.{◌≡◌, ◌==◌, ◌<◌, None, length, position, IfOk, IfSome};
ghost use Rattle.std.specs.Str.{is_utf8};
ghost use Rattle.wl_selector.specs.Selectors.{selector_fault, Reads};

use crate::faults::SelectorFault;
use std::alloc::Global;
use std::marker::Model;
use wl_octets::{Memory, Octets, TryClone};

/// A selector `type:value` (SPIRE registration entries): UTF-8 with something on each side of the
/// first colon. Two are ordered by their bytes.
#[derive(Drop, PartialEq, Eq, PartialOrd, Ord)]
pub struct Selector {
    text: Octets,
}

impl Model for Selector {
    ghost use Rattle.std.specs.Prelude.{◌≡◌, List, ℕ, None};
    ghost use Rattle.wl_selector.specs.Selectors.{selector_fault};

    ghost Value = { List ℕ };

    ghost view = { λ s. s.text };

    ghost invariant = { λ s. selector_fault s.text ≡ None };

    ghost inverse = { λ text. record { text = text } };
}

/// Where the first colon stands.
fn colon(text: &[u8]) -> Option<usize>
    ensures place { result ≡ position (λ b. b == 58) text.now }
    ensures bound { IfSome result (λ at. at < length text.now) }
{
    text.iter().position(|byte| *byte == b':')
}

/// Whether the bytes are UTF-8.
fn is_text(bytes: &[u8]) -> bool
    ensures { result ≡ is_utf8 bytes.now }
{
    str::from_utf8(bytes).is_ok()
}

/// The first fault of a text.
#[tactic(auto, unfolding(crate::specs::Selectors::selector_fault))]
fn fault_of(text: &[u8]) -> Option<SelectorFault>
    ensures { result ≡ selector_fault text.now }
{
    if !is_text(text) {
        return Some(SelectorFault::NotUtf8);
    }
    match colon(text) {
        None => Some(SelectorFault::NoColon),
        Some(0) => Some(SelectorFault::EmptyKind),
        Some(at) if at + 1 == text.len() => Some(SelectorFault::EmptyValue),
        Some(_) => None,
    }
}

impl Selector {
    /// Reads a selector. A text that is none has its first fault.
    pub fn parse(alloc: Global, text: &[u8]) -> Result<Selector, SelectorFault>
        ensures { Reads text.now (selector_fault text.now) result }
    {
        match fault_of(text) {
            Some(fault) => Err(fault),
            None => Ok(Selector {
                text: Octets::from_slice(alloc, text)?,
            }),
        }
    }

    /// The bytes of the selector.
    pub fn as_bytes(&self) -> &[u8]
        ensures value { result.now ≡ self.now }
        ensures sound { selector_fault self.now ≡ None }
    {
        self.text.as_slice()
    }

    /// A copy.
    pub fn copy(&self, alloc: Global) -> Result<Selector, Memory>
        ensures { IfOk result (λ s. s ≡ self.now) }
    {
        Ok(Selector {
            text: self.text.copy(alloc)?,
        })
    }
}

impl TryClone for Selector {
    fn try_clone(&self, alloc: Global) -> Result<Selector, Memory> {
        self.copy(alloc)
    }
}
