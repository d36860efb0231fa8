//! What a document gives.

ghost use Rattle.std.specs.Prelude.{◌≡◌, None, IfOk, IfSome};
ghost use Rattle.wl_document.specs.Documents.{document_state};
ghost use Rattle.document_signer.specs.Identities.{identity_in, state_by, HasIdentity};

use sorted_lists::find_by_key;
use std::alloc::Global;
use std::marker::Model;
use std::sync::{Arc, RwLock};
use wl_document::{AuthorityState, DocFault, read_state};
use wl_entry::{Ask, Signed};
use wl_octets::Memory;

/// The identities that some document has.
#[derive(Drop)]
pub struct Identities {
    state: AuthorityState,
}

impl Model for Identities {
    ghost use Rattle.wl_document.specs.States.{State};
    ghost use Rattle.document_signer.specs.Identities.{IsOfDocument};

    ghost Value = { State };

    ghost view = { λ s. s.state };

    ghost invariant = { λ s. IsOfDocument s.state };
}

impl Identities {
    /// Those of this document; nothing where it has a fault.
    pub fn read(alloc: Global, document: &[u8]) -> Result<Option<Identities>, Memory>
        ensures { IfOk result (λ found. found ≡ state_by (document_state None document.now)) }
    {
        match read_state(alloc, document, None) {
            Ok(state) => Ok(Some(Identities { state })),
            Err(DocFault::Memory) => Err(Memory),
            Err(_) => Ok(None),
        }
    }

    /// A copy of the identity of the ask's entry; nothing where there is none.
    #[tactic(auto, unfolding(crate::specs::Identities::identity_in))]
    pub fn identity(&self, alloc: Global, ask: &Ask) -> Result<Option<Signed>, Memory>
        ensures identity { IfOk result (λ s. s ≡ identity_in ask.now.entry_id self.now) }
        ensures given { IfOk result (λ s. IfSome s (HasIdentity ask.now)) }
    {
        match find_by_key(self.state.svids.as_slice(), ask.entry_id.as_slice()) {
            Some(found) => Ok(Some(found.signed.copy(alloc)?)),
            None => Ok(None),
        }
    }
}

/// The identities of the last document that could be read, between whoever pulls documents and the signers. Nothing before the
/// first one.
pub type SharedIdentities = Arc<RwLock<Option<Identities>>>;

/// Nothing yet, to be shared.
pub fn share_identities(alloc: Global) -> Result<SharedIdentities, Memory> {
    Arc::new(alloc, RwLock::new(None)).map_err(|_| Memory)
}
