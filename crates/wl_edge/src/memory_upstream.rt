//! An upstream in memory.

ghost use Rattle.std.specs.Prelude.{◌≡◌, ◌≤◌, ◌++◌, [], false, Some, None, IfSome, IfOk, length, take, option_map};
ghost use Rattle.wl_edge.specs.Upstreams.{Pulls, FollowsPull};
ghost use Rattle.wl_edge.specs.Scripts.{due_answer};
ghost use Rattle.wl_edge.specs.declared.upstream.TheConstants.{MAX_PULLED};

use crate::fault::EdgeFault;
use crate::script::Script;
use crate::upstream::{MAX_PULLED, PullCall, Upstream};
use std::alloc::Global;
use wl_octets::{Memory, Octets, Row};

/// An upstream that gives the documents of its script, and tells its calls.
#[derive(Drop)]
pub struct MemoryUpstream {
    alloc: Global,
    /// What its pulls append.
    pub documents: Script<Octets>,
    /// Whether it says that nothing has changed since its last pull. It doesn't at first.
    pub rests: bool,
    pub(crate) calls: Row<PullCall>,
    pub(crate) number: u64,
    pub(crate) faults: u64,
}

/// As much of a document as a pull appends.
fn front_of(document: &[u8]) -> &[u8]
    ensures prefix { result.now ≡ take MAX_PULLED document.now }
    ensures short { length result.now ≤ MAX_PULLED }
{
    if document.len() <= MAX_PULLED {
        document
    } else {
        document.split_at(MAX_PULLED).0
    }
}

/// A copy of it.
fn copy_front_of(alloc: Global, document: &Octets) -> Result<Octets, Memory>
    ensures prefix { IfOk result (λ front. front ≡ take MAX_PULLED document.now) }
    ensures short { IfOk result (λ front. length front ≤ MAX_PULLED) }
{
    Octets::from_slice(alloc, front_of(document.as_slice()))
}

/// A copy of as much of the document that is due as a pull appends.
fn document(alloc: Global, script: &Script<Octets>) -> Result<Option<Octets>, Memory>
    ensures prefix { IfOk result (λ copy. copy ≡ option_map (take MAX_PULLED) (due_answer script.now)) }
    ensures short { IfOk result (λ copy. IfSome copy (λ front. length front ≤ MAX_PULLED)) }
{
    match script.due() {
        Some(document) => Ok(Some(copy_front_of(alloc, document)?)),
        None => Ok(None),
    }
}

/// A pull that gave this document, as it is recorded.
fn given_pull(alloc: Global, into: &Octets, document: &Octets) -> Result<PullCall, Memory>
    ensures { IfOk result (λ call. call ≡ record { into = into.now; answer = Some document.now }) }
{
    Ok(PullCall {
        into: into.copy(alloc)?,
        answer: Some(document.copy(alloc)?),
    })
}

/// A pull that failed, as it is recorded.
fn failed_pull(alloc: Global, into: &Octets) -> Result<PullCall, Memory>
    ensures { IfOk result (λ call. call ≡ record { into = into.now; answer = None }) }
{
    Ok(PullCall {
        into: into.copy(alloc)?,
        answer: None,
    })
}

/// The bytes with a document after them, if there is one.
fn appended(alloc: Global, into: &Octets, document: &Octets) -> Result<Octets, Memory>
    ensures { IfOk result (λ whole. whole ≡ into.now ++ document.now) }
{
    let mut whole = into.copy(alloc)?;
    whole.push_slice(document.as_slice())?;
    Ok(whole)
}

impl MemoryUpstream {
    /// An upstream that was not called yet.
    pub fn start(alloc: Global, documents: Script<Octets>) -> MemoryUpstream
        ensures documents { result.documents ≡ documents }
        ensures changing { result.rests ≡ false }
        ensures empty { ⟦<MemoryUpstream as Upstream>⟧.told result ≡ Some (record { calls = []; number = 0 }) }
        ensures fresh { ⟦<MemoryUpstream as Upstream>⟧.faults result ≡ 0 }
    {
        MemoryUpstream {
            alloc,
            documents,
            rests: false,
            calls: Row::empty(alloc),
            number: 0,
            faults: 0,
        }
    }

    /// Its calls, except those that found no memory.
    pub fn calls(&self) -> &[PullCall]
        ensures { IfSome (⟦<MemoryUpstream as Upstream>⟧.told self.now) (λ log. log.calls ≡ result.now) }
    {
        self.calls.as_slice()
    }

    /// How many calls there were. At 2^64-1 it stays.
    pub fn number(&self) -> u64
        ensures { IfSome (⟦<MemoryUpstream as Upstream>⟧.told self.now) (λ log. log.number ≡ result) }
    {
        self.number
    }
}

impl Upstream for MemoryUpstream {
    ghost told = { λ u. Some (record { calls = u.calls; number = u.number }) };

    ghost faults = { λ u. u.faults };

    fn pull(&mut self, into: &mut Octets) -> Result<(), EdgeFault>
        ensures told { Pulls (⟦<MemoryUpstream as Upstream>⟧.told self.old) (⟦<MemoryUpstream as Upstream>⟧.told self.new)
            (⟦<MemoryUpstream as Upstream>⟧.faults self.old) (⟦<MemoryUpstream as Upstream>⟧.faults self.new)
            into.old into.new result }
        ensures document { FollowsPull self.old.documents self.new.documents into.old into.new result }
    {
        self.number = self.number.saturating_add(1);
        match document(self.alloc, &self.documents)? {
            Some(document) => {
                let whole = appended(self.alloc, into, &document)?;
                self.calls.push(given_pull(self.alloc, into, &document)?)?;
                self.documents.pass();
                *into = whole;
                Ok(())
            }
            None => {
                self.calls.push(failed_pull(self.alloc, into)?)?;
                self.documents.pass();
                self.faults = self.faults.saturating_add(1);
                Err(EdgeFault::Failed)
            }
        }
    }

    fn is_unchanged(&self) -> bool
        ensures { result ≡ self.now.rests }
    {
        self.rests
    }
}
