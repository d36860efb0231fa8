//! A listener in memory.

ghost use Rattle.std.specs.Prelude.{◌≡◌, ◌+◌, ◌-◌, ◌^◌, ◌≤◌, [], None, Some, min, vec_len, vec_capacity, length, map, IfOk, IfSome};
ghost use Rattle.list_laws.specs.Lists.{BeginsWith};
ghost use Rattle.wl_edge.specs.Listeners.{kinds_in_memory, links_given};

use crate::link::Link;
use crate::listener::{AcceptKind, Accepted, Listener};
use crate::memory_link::{FreshLink, LinkPlan, MemoryLink};
use std::alloc::Global;
use wl_octets::{Memory, Row};

/// What a listener in memory answers. Accepts have numbers from 0.
#[derive(Drop)]
pub struct ListenerPlan {
    /// The links that it gives, in their order; then comes the end.
    pub links: Row<LinkPlan>,
    /// The accepts that find no link.
    pub idle: Row<u64>,
    pub failing: Row<u64>,
    /// For how many answers there is room.
    pub answers: usize,
}

/// A listener that follows a plan, and tells the kinds of its answers and the links that were finished. A call past its
/// room fails.
#[derive(Drop)]
pub struct MemoryListener {
    /// The links that are left, the next one last.
    left: Vec<FreshLink>,
    idle: Row<u64>,
    failing: Row<u64>,
    accepts: u64,
    answers: usize,
    pub(crate) kinds: Row<AcceptKind>,
    /// How many of the answers that it keeps are failures.
    pub(crate) failed_kept: u64,
    /// How many accepts failed past its room.
    pub(crate) failed_past: u64,
    pub(crate) finished: Vec<MemoryLink>,
    ghost places: { links_given kinds + vec_len left ≤ vec_capacity finished },
}

/// Links that follow these plans, the first one last.
fn links_of(alloc: Global, plans: Row<LinkPlan>) -> Result<Vec<FreshLink>, Memory>
    ensures { IfOk result (λ links. vec_len links ≡ length plans) }
{
    let mut plans = plans.into_vec();
    plans.as_mut_slice().reverse();
    let mut links = Vec::with_capacity(alloc, plans.len())?;
    for plan in plans {
        links.push(FreshLink::start(alloc, plan)?)?;
    }
    Ok(links)
}

impl MemoryListener {
    /// A listener that was not used yet.
    pub fn start(alloc: Global, plan: ListenerPlan) -> Result<MemoryListener, Memory>
        ensures empty { IfOk result (λ l. ⟦<MemoryListener as Listener>⟧.told l ≡ Some (record { kinds = []; finished = [] })) }
        ensures fresh { IfOk result (λ l. ⟦<MemoryListener as Listener>⟧.faults l ≡ 0) }
    {
        let kinds = Row::from_vec(Vec::with_capacity(alloc, plan.answers)?);
        let finished = Vec::with_capacity(alloc, plan.links.len())?;
        let left = links_of(alloc, plan.links)?;
        Ok(MemoryListener {
            left,
            idle: plan.idle,
            failing: plan.failing,
            accepts: 0,
            answers: plan.answers,
            kinds,
            failed_kept: 0,
            failed_past: 0,
            finished,
        })
    }

    /// The kinds of its answers within its room.
    pub fn kinds(&self) -> &[AcceptKind]
        ensures { IfSome (⟦<MemoryListener as Listener>⟧.told self.now) (λ log. BeginsWith log.kinds result.now) }
    {
        self.kinds.as_slice()
    }

    /// The links that were finished.
    pub fn finished(&self) -> &[MemoryLink]
        ensures { IfSome (⟦<MemoryListener as Listener>⟧.told self.now) (λ log. length log.finished ≡ length result.now) }
    {
        self.finished.as_slice()
    }

    /// How many accepts failed.
    pub fn faults(&self) -> u64
        ensures { result ≡ ⟦<MemoryListener as Listener>⟧.faults self.now }
    {
        self.failed_kept.saturating_add(self.failed_past)
    }

    /// The kind of the next answer.
    fn due(&self) -> AcceptKind
        ensures { result ≡ AcceptKind.Link → 1 ≤ vec_len self.now.left }
    {
        if self.failing.as_slice().contains(&self.accepts) {
            AcceptKind::Failed
        } else if self.idle.as_slice().contains(&self.accepts) {
            AcceptKind::Idle
        } else if self.left.is_empty() {
            AcceptKind::End
        } else {
            AcceptKind::Link
        }
    }
}

impl Listener for MemoryListener {
    type L = MemoryLink;

    // Its links come from wherever their plans say.
    ghost sockets = { λ l. None };

    ghost told = { λ l. Some (record {
      kinds = kinds_in_memory l.kinds l.failed_past;
      finished = map (λ k. record {
        origin = ⟦<MemoryLink as Link>⟧.origin k;
        log = ⟦<MemoryLink as Link>⟧.told k;
        failed_receives = ⟦<MemoryLink as Link>⟧.failed_receives k;
        failed_sends = ⟦<MemoryLink as Link>⟧.failed_sends k;
        stalls = ⟦<MemoryLink as Link>⟧.stalls k;
      }) l.finished.items;
    }) };

    ghost faults = { λ l. min (l.failed_kept + l.failed_past) (2 ^ 64 - 1) };

    fn accept(&mut self) -> Accepted<MemoryLink> {
        let kind = self.due();
        let has_room = self.failed_past == 0 && self.kinds.len() < self.answers;
        if !has_room || self.kinds.push(kind).is_err() {
            self.failed_past = self.failed_past.saturating_add(1);
            return Accepted::Failed;
        }
        self.accepts = self.accepts.saturating_add(1);
        match kind {
            AcceptKind::Link => Accepted::Link(self.left.pop().unwrap().into_link()),
            AcceptKind::Idle => Accepted::Idle,
            AcceptKind::End => Accepted::End,
            AcceptKind::Failed => {
                self.failed_kept = self.failed_kept.saturating_add(1);
                Accepted::Failed
            }
        }
    }

    fn finish(&mut self, link: MemoryLink) {
        match self.finished.push(link) {
            Ok(()) => {}
            Err(_) => unreachable!(),
        }
    }
}
