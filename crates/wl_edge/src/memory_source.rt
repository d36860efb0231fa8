//! A source in memory.

ghost use Rattle.std.specs.Prelude.{Some, drop, take, length, ◌<◌, ◌≤◌, ◌≡◌};

use crate::source::{Source, Taken};
use wl_octets::{Octets, Row};

/// A source over bytes that it holds. Some of its reads are to fail, by their number from 0.
#[derive(Drop)]
pub struct MemorySource {
    pub(crate) bytes: Octets,
    pub(crate) at: usize,
    pub(crate) piece: usize,
    pub(crate) failing: Row<u64>,
    pub(crate) reads: u64,
    pub(crate) faults: u64,
}

impl MemorySource {
    /// A source of these bytes, of which a read gives at most `piece` (at least 1), and whose reads of these
    /// numbers fail.
    pub fn start(bytes: Octets, piece: usize, failing: Row<u64>) -> MemorySource
        ensures whole { ⟦<MemorySource as Source>⟧.left result ≡ Some bytes }
        ensures fresh { ⟦<MemorySource as Source>⟧.faults result ≡ 0 }
    {
        MemorySource {
            bytes,
            at: 0,
            piece,
            failing,
            reads: 0,
            faults: 0,
        }
    }
}

impl Source for MemorySource {
    ghost left = { λ s. Some (drop s.at s.bytes) };

    ghost faults = { λ s. s.faults };

    fn read(&mut self, into: &mut [u8]) -> Taken {
        let number = self.reads;
        self.reads = self.reads.saturating_add(1);
        if self.failing.as_slice().contains(&number) {
            self.faults = self.faults.saturating_add(1);
            return Taken::Failed;
        }
        let bytes = self.bytes.as_slice();
        if self.at >= bytes.len() {
            return Taken::End;
        }
        let count = copy_front(bytes.split_at(self.at).1, into, self.piece.max(1));
        self.at += count;
        Taken::Got(count)
    }
}

/// Copies a prefix of the bytes, as long as it may be, and says how long it is.
pub(crate) fn copy_front(bytes: &[u8], into: &mut [u8], most: usize) -> usize
    requires bytes { 0 < length bytes.now }
    requires room { 0 < length into.old }
    requires most { 0 < most }
    ensures some { 0 < result }
    ensures within { result ≤ length into.old }
    ensures had { result ≤ length bytes.now }
    ensures prefix { take result into.new ≡ take result bytes.now }
{
    let count = bytes.len().min(most).min(into.len());
    into[..count].copy_from_slice(bytes.split_at(count).0);
    count
}
