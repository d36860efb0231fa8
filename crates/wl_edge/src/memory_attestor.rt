//! An attestor in memory.

ghost use Rattle.std.specs.Prelude.{◌≡◌, [], Some, IfOk};
ghost use Rattle.wl_edge.specs.Calls.{Answers};
ghost use Rattle.wl_edge.specs.Scripts.{Follows, due_answer};

use crate::attestor::{Attestor, AttestorCall};
use crate::fault::EdgeFault;
use crate::origin::Origin;
use crate::recording::counted;
use crate::script::Script;
use std::alloc::Global;
use wl_octets::{Memory, Row};
use wl_selector::Selectors;

/// An attestor that answers what its script says, whatever origin it is asked for, and tells its calls.
#[derive(Drop)]
pub struct MemoryAttestor {
    alloc: Global,
    /// What its calls answer.
    pub answers: Script<Selectors>,
    pub(crate) calls: Row<AttestorCall>,
    pub(crate) faults: u64,
}

/// A copy of the selectors that are due.
fn selectors(alloc: Global, script: &Script<Selectors>) -> Result<Option<Selectors>, Memory>
    ensures { IfOk result (λ copy. copy ≡ due_answer script.now) }
{
    match script.due() {
        Some(selectors) => Ok(Some(selectors.copy(alloc)?)),
        None => Ok(None),
    }
}

/// The call, as it is recorded.
fn told_call(
    alloc: Global,
    origin: &Origin,
    script: &Script<Selectors>,
) -> Result<AttestorCall, Memory>
    ensures { IfOk result (λ call. call ≡ record { origin = origin.now; answer = due_answer script.now }) }
{
    let answer = selectors(alloc, script)?;
    Ok(AttestorCall {
        origin: origin.share()?,
        answer,
    })
}

impl MemoryAttestor {
    /// An attestor that was not called yet.
    pub fn start(alloc: Global, answers: Script<Selectors>) -> MemoryAttestor
        ensures answers { result.answers ≡ answers }
        ensures empty { ⟦<MemoryAttestor as Attestor>⟧.calls result ≡ Some [] }
        ensures fresh { ⟦<MemoryAttestor as Attestor>⟧.faults result ≡ 0 }
    {
        MemoryAttestor {
            alloc,
            answers,
            calls: Row::empty(alloc),
            faults: 0,
        }
    }

    /// Its calls.
    pub fn calls(&self) -> &[AttestorCall]
        ensures { ⟦<MemoryAttestor as Attestor>⟧.calls self.now ≡ Some result.now }
    {
        self.calls.as_slice()
    }
}

impl Attestor for MemoryAttestor {
    ghost calls = { λ a. Some a.calls };

    ghost faults = { λ a. a.faults };

    fn attest(&mut self, origin: &Origin) -> Result<Selectors, EdgeFault>
        ensures told { Answers (⟦<MemoryAttestor as Attestor>⟧.calls self.old) (⟦<MemoryAttestor as Attestor>⟧.calls self.new)
            (⟦<MemoryAttestor as Attestor>⟧.faults self.old) (⟦<MemoryAttestor as Attestor>⟧.faults self.new)
            (λ answer. record { origin = origin.now; answer = answer }) result }
        ensures answer { Follows self.old.answers self.new.answers result }
    {
        let answer = selectors(self.alloc, &self.answers)?;
        let call = told_call(self.alloc, origin, &self.answers)?;
        self.calls.push(call)?;
        self.answers.pass();
        counted(answer, &mut self.faults)
    }
}
