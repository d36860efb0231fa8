//! Events of many keys, each of which is said once a minute.

use event_log::Slot;
use std::alloc::Global;
use wl_octets::Octets;

/// How many keys are kept apart. Where so many were said within a minute, others wait until one of them is a minute old.
const MAX_KEYS: usize = 64;

/// A key, with what was said of it.
#[derive(Drop)]
struct Key {
    name: Octets,
    slot: Slot,
}

/// What was said of each of at most [`MAX_KEYS`] keys.
#[derive(Drop)]
pub(crate) struct Repeats {
    alloc: Global,
    keys: Vec<Key>,
}

impl Repeats {
    /// Nothing was said.
    pub(crate) fn start(alloc: Global) -> Repeats {
        Repeats {
            alloc,
            keys: Vec::new(alloc),
        }
    }

    /// The place of this key.
    fn place_of(&self, name: &Octets) -> Option<usize> {
        for (at, key) in self.keys.as_slice().iter().enumerate() {
            if key.name == *name {
                return Some(at);
            }
        }
        None
    }

    /// The place of a key of which a line would be written now.
    fn old_place(&self, now: u64) -> Option<usize> {
        for (at, key) in self.keys.as_slice().iter().enumerate() {
            if key.slot.is_due(now) {
                return Some(at);
            }
        }
        None
    }

    /// Keeps a key that isn't kept yet, of which nothing was said. Nothing where there is no room for it.
    fn keep(&mut self, name: &Octets, now: u64) -> Option<usize> {
        let key = Key {
            name: name.copy(self.alloc).ok()?,
            slot: Slot::empty(),
        };
        if self.keys.len() < MAX_KEYS {
            let at = self.keys.len();
            self.keys.push(key).ok()?;
            return Some(at);
        }
        let at = self.old_place(now)?;
        let place = self.keys.get_mut(at)?;
        *place = key;
        Some(at)
    }

    /// Whether a line of this key is to be written now, and then how many were held back before it.
    pub(crate) fn admit(&mut self, name: &Octets, now: u64) -> Option<u64> {
        let at = match self.place_of(name) {
            Some(at) => at,
            None => self.keep(name, now)?,
        };
        self.keys.get_mut(at)?.slot.admit(now)
    }

    /// The same of a number as a key.
    pub(crate) fn admit_number(&mut self, number: u64, now: u64) -> Option<u64> {
        let name = Octets::from_slice(self.alloc, &number.to_be_bytes()).ok()?;
        self.admit(&name, now)
    }
}
