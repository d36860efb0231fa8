//! A link in memory.

ghost use Rattle.std.specs.Prelude.{◌≡◌, ◌+◌, ◌-◌, ◌^◌, ◌≤◌, ◌++◌, [], Some, IfOk, IfSome, min, length, take};
ghost use Rattle.list_laws.specs.Lists.{BeginsWith};
ghost use Rattle.wl_edge.specs.Links.{IsFresh, gave_in_memory};

use crate::link::{Heard, Link, Received, TrySent};
use crate::memory_feed::{Feed, tell};
use crate::origin::Origin;
use crate::sink::Sent;
use std::alloc::Global;
use wl_octets::{Memory, Octets, Row};

/// What a link in memory gives and takes. Receives and sendings have numbers from 0; `send` and `try_send` are
/// counted together.
#[derive(Drop)]
pub struct LinkPlan {
    /// Where it comes from.
    pub origin: Origin,
    /// Its answers to receives, in their order; then comes the end. A piece that is longer than what is lent comes in
    /// parts, and an empty one is idle.
    pub gives: Row<Heard>,
    pub failing_receives: Row<u64>,
    pub failing_sends: Row<u64>,
    /// The sendings that are put off, where they don't wait.
    pub stalling: Row<u64>,
    /// For how many answers to receives there is room.
    pub answers: usize,
    /// For how many bytes that it takes there is room.
    pub room: usize,
    /// How many bytes a sending takes at most, but at least 1.
    pub piece: usize,
}

impl LinkPlan {
    /// A link from there that gives this, with room for so many answers and bytes, and never fails or stalls within that.
    pub fn smooth(
        alloc: Global,
        origin: Origin,
        gives: Row<Heard>,
        answers: usize,
        room: usize,
    ) -> LinkPlan
        ensures origin { result.origin ≡ origin }
        ensures gives { result.gives ≡ gives }
        ensures rooms { (result.answers ≡ answers) × (result.room ≡ room) }
        ensures never_fails { (result.failing_receives ≡ []) × (result.failing_sends ≡ []) × (result.stalling ≡ []) }
    {
        LinkPlan {
            origin,
            gives,
            failing_receives: Row::empty(alloc),
            failing_sends: Row::empty(alloc),
            stalling: Row::empty(alloc),
            answers,
            room,
            piece: usize::MAX,
        }
    }
}

/// A link that follows a plan, and tells what it gave and took. A call past its room fails.
#[derive(Drop)]
pub struct MemoryLink {
    alloc: Global,
    pub(crate) origin: Origin,
    feed: Feed,
    failing_sends: Row<u64>,
    stalling: Row<u64>,
    answers: usize,
    room: usize,
    piece: usize,
    pub(crate) gave: Row<Heard>,
    /// How many of the answers that it keeps are failures.
    pub(crate) failed_kept: u64,
    /// How many receives failed past its room.
    pub(crate) failed_past: u64,
    pub(crate) took: Octets,
    pub(crate) sends: u64,
    pub(crate) failed_sends: u64,
    pub(crate) stalls: u64,
}

/// A link that was not used yet.
#[derive(Drop)]
pub(crate) struct FreshLink {
    link: MemoryLink,
    ghost nothing: { (link.gave ≡ []) × (link.took ≡ []) },
    ghost counts: { (link.failed_kept ≡ 0) × (link.failed_past ≡ 0) × (link.failed_sends ≡ 0) × (link.stalls ≡ 0) },
}

impl FreshLink {
    /// A link that follows this plan.
    pub(crate) fn start(alloc: Global, plan: LinkPlan) -> Result<FreshLink, Memory>
        ensures origin { IfOk result (λ f. ⟦<MemoryLink as Link>⟧.origin f.link ≡ plan.origin) }
    {
        let gave = Row::from_vec(Vec::with_capacity(alloc, plan.answers)?);
        let took = Octets::from_vec(Vec::with_capacity(alloc, plan.room)?);
        let link = MemoryLink {
            alloc,
            origin: plan.origin,
            feed: Feed::start(plan.gives, plan.failing_receives),
            failing_sends: plan.failing_sends,
            stalling: plan.stalling,
            answers: plan.answers,
            room: plan.room,
            piece: plan.piece,
            gave,
            failed_kept: 0,
            failed_past: 0,
            took,
            sends: 0,
            failed_sends: 0,
            stalls: 0,
        };
        Ok(FreshLink { link })
    }

    /// The link, to be used.
    pub(crate) fn into_link(self) -> MemoryLink
        ensures origin { ⟦<MemoryLink as Link>⟧.origin result ≡ ⟦<MemoryLink as Link>⟧.origin self.link }
        ensures fresh { IsFresh (⟦<MemoryLink as Link>⟧.told result) (⟦<MemoryLink as Link>⟧.failed_receives result)
            (⟦<MemoryLink as Link>⟧.failed_sends result) (⟦<MemoryLink as Link>⟧.stalls result) }
    {
        self.link
    }
}

impl MemoryLink {
    /// A link that was not used yet, from where its plan says.
    pub fn start(alloc: Global, plan: LinkPlan) -> Result<MemoryLink, Memory>
        ensures origin { IfOk result (λ l. ⟦<MemoryLink as Link>⟧.origin l ≡ plan.origin) }
        ensures fresh { IfOk result (λ l. IsFresh (⟦<MemoryLink as Link>⟧.told l) (⟦<MemoryLink as Link>⟧.failed_receives l)
            (⟦<MemoryLink as Link>⟧.failed_sends l) (⟦<MemoryLink as Link>⟧.stalls l)) }
    {
        Ok(FreshLink::start(alloc, plan)?.into_link())
    }

    /// Its answers to receives within its room, with the bytes that came.
    pub fn gave(&self) -> &[Heard]
        ensures { IfSome (⟦<MemoryLink as Link>⟧.told self.now) (λ log. BeginsWith log.gave result.now) }
    {
        self.gave.as_slice()
    }

    /// The bytes that it took.
    pub fn took(&self) -> &[u8]
        ensures { IfSome (⟦<MemoryLink as Link>⟧.told self.now) (λ log. log.took ≡ result.now) }
    {
        self.took.as_slice()
    }

    /// How many receives failed.
    pub fn failed_receives(&self) -> u64
        ensures { result ≡ ⟦<MemoryLink as Link>⟧.failed_receives self.now }
    {
        self.failed_kept.saturating_add(self.failed_past)
    }

    /// How many sendings failed.
    pub fn failed_sends(&self) -> u64
        ensures { result ≡ ⟦<MemoryLink as Link>⟧.failed_sends self.now }
    {
        self.failed_sends
    }

    /// How many sendings were put off.
    pub fn stalls(&self) -> u64
        ensures { result ≡ ⟦<MemoryLink as Link>⟧.stalls self.now }
    {
        self.stalls
    }
}

/// Puts as many of the bytes after what was taken as there is room for, and says how many: none where there is no
/// room or no memory.
fn take_front(took: &mut Octets, room: usize, piece: usize, bytes: &[u8]) -> usize
    ensures within { result ≤ length bytes.now }
    ensures taken { took.new ≡ took.old ++ take result bytes.now }
{
    let left = room.saturating_sub(took.len());
    let count = bytes.len().min(piece.max(1)).min(left);
    match took.push_slice(bytes.split_at(count).0) {
        Ok(()) => count,
        Err(Memory) => 0,
    }
}

impl Link for MemoryLink {
    ghost origin = { λ l. l.origin };

    ghost told = { λ l. Some (record { gave = gave_in_memory l.gave l.failed_past; took = l.took }) };

    ghost failed_receives = { λ l. min (l.failed_kept + l.failed_past) (2 ^ 64 - 1) };

    ghost failed_sends = { λ l. l.failed_sends };

    ghost stalls = { λ l. l.stalls };

    fn origin(&self) -> &Origin {
        &self.origin
    }

    fn note_call(&mut self) {}

    fn note_error(&mut self, _code: u32) {}

    fn receive(&mut self, into: &mut [u8]) -> Received {
        if self.failed_past > 0 || self.gave.len() >= self.answers {
            self.failed_past = self.failed_past.saturating_add(1);
            return Received::Failed;
        }
        let answer = self.feed.due(into);
        if !tell(self.alloc, &mut self.gave, answer, into) {
            self.failed_past = self.failed_past.saturating_add(1);
            return Received::Failed;
        }
        self.feed.pass(answer);
        if answer == Received::Failed {
            self.failed_kept = self.failed_kept.saturating_add(1);
        }
        answer
    }

    fn send(&mut self, bytes: &[u8]) -> Sent {
        let number = self.sends;
        self.sends = self.sends.saturating_add(1);
        let count = if self.failing_sends.as_slice().contains(&number) {
            0
        } else {
            take_front(&mut self.took, self.room, self.piece, bytes)
        };
        if count == 0 {
            self.failed_sends = self.failed_sends.saturating_add(1);
            return Sent::Failed;
        }
        Sent::Took(count)
    }

    fn try_send(&mut self, bytes: &[u8]) -> TrySent {
        if self.stalling.as_slice().contains(&self.sends) {
            self.sends = self.sends.saturating_add(1);
            self.stalls = self.stalls.saturating_add(1);
            return TrySent::Later;
        }
        match self.send(bytes) {
            Sent::Took(count) => TrySent::Took(count),
            Sent::Failed => TrySent::Failed,
        }
    }
}
