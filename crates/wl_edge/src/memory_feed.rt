//! What a link in memory gives.

ghost use Rattle.std.specs.Prelude.{◌<◌, length, ◌≡◌, [], ◌∷◌, ◌++◌, IfOk};
ghost use Rattle.std.specs.Bool.{OnTrue, OnFalse};
ghost use Rattle.wl_edge.specs.Links.{heard_of, IsWithin};

use crate::link::{Heard, Received};
use crate::memory_source::copy_front;
use std::alloc::Global;
use wl_octets::{Memory, Octets, Row};

/// Answers that are given one after the other, and how far they were given.
#[derive(Drop)]
pub(crate) struct Feed {
    answers: Row<Heard>,
    failing: Row<u64>,
    made: u64,
    at: usize,
    /// How many bytes of the piece at that place were given.
    from: usize,
}

impl Feed {
    /// A feed of which nothing was given yet. The receives of these numbers, from 0, fail.
    pub(crate) fn start(answers: Row<Heard>, failing: Row<u64>) -> Feed {
        Feed {
            answers,
            failing,
            made: 0,
            at: 0,
            from: 0,
        }
    }

    /// Whether the next receive is one of those that fail.
    fn fails(&self) -> bool {
        self.failing.as_slice().contains(&self.made)
    }

    /// The next answer; the bytes that come with it are put into what is lent. An empty piece is idle.
    pub(crate) fn due(&self, into: &mut [u8]) -> Received
        requires { 0 < length into.old }
        ensures { IsWithin (length into.old) result }
    {
        if self.fails() {
            return Received::Failed;
        }
        match self.answers.get(self.at) {
            Some(Heard::Piece(bytes)) => part_of(bytes.as_slice(), self.from, into),
            Some(Heard::Idle) => Received::Idle,
            Some(Heard::Failed) => Received::Failed,
            Some(Heard::End) | None => Received::End,
        }
    }

    /// Whether the piece at hand has more than so many bytes.
    fn has_more(&self, than: usize) -> bool {
        match self.answers.get(self.at) {
            Some(Heard::Piece(bytes)) => than < bytes.len(),
            _ => false,
        }
    }

    /// Goes on after this answer, which was due. At the end it stays.
    pub(crate) fn pass(&mut self, answer: Received) {
        let fails = self.fails();
        self.made = self.made.saturating_add(1);
        if fails || answer == Received::End {
            return;
        }
        let from = match answer {
            Received::Got(count) => self.from.saturating_add(count),
            _ => usize::MAX,
        };
        if self.has_more(from) {
            self.from = from;
        } else {
            self.from = 0;
            self.at = self.at.saturating_add(1);
        }
    }
}

/// The bytes of a piece from a place on, as many as there is room for.
fn part_of(bytes: &[u8], from: usize, into: &mut [u8]) -> Received
    requires { 0 < length into.old }
    ensures { IsWithin (length into.old) result }
{
    if from >= bytes.len() {
        return Received::Idle;
    }
    Received::Got(copy_front(bytes.split_at(from).1, into, usize::MAX))
}

/// An answer with the bytes that came.
fn heard(alloc: Global, answer: Received, into: &[u8]) -> Result<Heard, Memory>
    requires { IsWithin (length into.now) answer }
    ensures { IfOk result (λ heard. heard ≡ heard_of answer into.now) }
{
    match answer {
        Received::Got(count) => {
            let bytes = into.split_at(count).0;
            Ok(Heard::Piece(Octets::from_slice(alloc, bytes)?))
        }
        Received::Idle => Ok(Heard::Idle),
        Received::End => Ok(Heard::End),
        Received::Failed => Ok(Heard::Failed),
    }
}

/// Tells an answer with the bytes that came. False where there is no memory for that.
pub(crate) fn tell(alloc: Global, told: &mut Row<Heard>, answer: Received, into: &[u8]) -> bool
    requires { IsWithin (length into.now) answer }
    ensures told { OnTrue result (told.new ≡ told.old ++ heard_of answer into.now ∷ []) }
    ensures untold { OnFalse result (told.new ≡ told.old) }
{
    match heard(alloc, answer, into) {
        Ok(heard) => told.push(heard).is_ok(),
        Err(Memory) => false,
    }
}
