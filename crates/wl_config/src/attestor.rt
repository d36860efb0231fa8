//! An attestor by where a caller came from.

ghost use Rattle.std.specs.Prelude.{◌≡◌, ◌++◌, ◌∷◌, [], None, IfOk, IfErr};
ghost use Rattle.wl_selector.specs.Selectors.{sorted_texts};
ghost use Rattle.wl_edge.specs.Calls.{Answers};
ghost use Rattle.wl_edge.specs.declared.fault.EdgeFault.{EdgeFault};
ghost use Rattle.wl_config.specs.Attested.{uid_selector, attested_to};

use crate::selectors::uid_selector;
use std::alloc::Global;
use wl_edge::{Attestor, EdgeFault, Origin};
use wl_octets::{Memory, clone_all};
use wl_selector::Selectors;

/// An attestor that gives each caller the selectors of the socket over which it came, and that of its uid, where the kernel
/// names it. It cannot fail, and tells no calls.
#[derive(Drop)]
pub struct SocketAttestor {
    alloc: Global,
}

impl SocketAttestor {
    /// An attestor.
    pub fn start(alloc: Global) -> SocketAttestor {
        SocketAttestor { alloc }
    }
}

/// These selectors and that of the uid. More than 2^32-1 of them are out of memory.
fn with_uid(alloc: Global, selectors: &Selectors, uid: u32) -> Result<Selectors, Memory>
    ensures { IfOk result (λ s. s ≡ sorted_texts (selectors.now ++ uid_selector uid ∷ [])) }
{
    let mut items = clone_all(alloc, selectors.as_slice())?.into_vec();
    items.push(uid_selector(alloc, uid)?)?;
    match Selectors::from_list(alloc, items, u32::MAX) {
        Ok(selectors) => Ok(selectors),
        Err(_) => Err(Memory),
    }
}

impl Attestor for SocketAttestor {
    ghost calls = { λ a. None };

    ghost faults = { λ a. 0 };

    fn attest(&mut self, origin: &Origin) -> Result<Selectors, EdgeFault>
        ensures told { Answers (⟦<SocketAttestor as Attestor>⟧.calls self.old) (⟦<SocketAttestor as Attestor>⟧.calls self.new)
            (⟦<SocketAttestor as Attestor>⟧.faults self.old) (⟦<SocketAttestor as Attestor>⟧.faults self.new)
            (λ answer. record { origin = origin.now; answer = answer }) result }
        ensures answer { IfOk result (λ s. s ≡ attested_to origin.now) }
        ensures memory { IfErr result (λ e. e ≡ EdgeFault.Memory) }
        ensures same { self.new ≡ self.old }
    {
        let selectors = origin.selectors.part();
        match origin.uid {
            Some(uid) => Ok(with_uid(self.alloc, selectors, uid)?),
            None => Ok(selectors.copy(self.alloc)?),
        }
    }
}
