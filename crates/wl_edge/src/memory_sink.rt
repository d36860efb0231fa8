//! A sink in memory.

ghost use Rattle.std.specs.Prelude.{◌≡◌, Some, [], IfOk};

use crate::sink::{Sent, Sink};
use std::alloc::Global;
use wl_octets::{Memory, Octets, Row};

/// A sink that keeps the bytes that it took, with room for so many answers and so many bytes. A write past that
/// room fails, and so do some of its writes, by their number from 0.
#[derive(Drop)]
pub struct MemorySink {
    pub(crate) bytes: Octets,
    pub(crate) room: usize,
    pub(crate) answers: u64,
    pub(crate) piece: usize,
    pub(crate) failing: Row<u64>,
    pub(crate) writes: u64,
    pub(crate) faults: u64,
}

impl MemorySink {
    /// A sink with room for `answers` writes and `room` bytes, of which a write takes at most `piece` (at least
    /// 1), and whose writes of these numbers fail.
    pub fn start(
        alloc: Global,
        answers: u64,
        room: usize,
        piece: usize,
        failing: Row<u64>,
    ) -> Result<MemorySink, Memory>
        ensures empty { IfOk result (λ s. ⟦<MemorySink as Sink>⟧.taken s ≡ Some []) }
        ensures fresh { IfOk result (λ s. ⟦<MemorySink as Sink>⟧.faults s ≡ 0) }
    {
        Ok(MemorySink {
            bytes: Octets::from_vec(Vec::with_capacity(alloc, room)?),
            room,
            answers,
            piece,
            failing,
            writes: 0,
            faults: 0,
        })
    }

    /// The bytes that it took.
    pub fn bytes(&self) -> &[u8]
        ensures { ⟦<MemorySink as Sink>⟧.taken self.now ≡ Some result.now }
    {
        self.bytes.as_slice()
    }
}

impl Sink for MemorySink {
    ghost taken = { λ s. Some s.bytes };

    ghost faults = { λ s. s.faults };

    fn write(&mut self, bytes: &[u8]) -> Sent {
        let number = self.writes;
        self.writes = self.writes.saturating_add(1);
        let room = self.room.saturating_sub(self.bytes.len());
        let count = bytes.len().min(self.piece.max(1)).min(room);
        let fails = number >= self.answers
            || count == 0
            || self.failing.as_slice().contains(&number);
        if fails || self.bytes.push_slice(&bytes[..count]).is_err() {
            self.faults = self.faults.saturating_add(1);
            return Sent::Failed;
        }
        Sent::Took(count)
    }
}
