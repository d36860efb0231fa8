//! Signers that answer from the last document.

ghost use Rattle.std.specs.Prelude.{◌≡◌, None, IfOk, IfSome};
ghost use Rattle.document_signer.specs.Identities.{HasIdentity};

use crate::identities::SharedIdentities;
use crate::vouching::DocumentVoucher;
use std::alloc::Global;
use wl_edge::{EdgeFault, Signer};
use wl_entry::{Ask, JwtToken, Signed};
use wl_octets::{Memory, Octets};

/// Answers each ask with the identity that the last document has for its entry, and has failed where it has none. An ask in the
/// moment in which a document takes the other's place has failed, too. It signs no token: such an ask fails. It counts its faults
/// and tells no calls.
#[derive(Drop)]
pub struct DocumentSigner {
    alloc: Global,
    identities: SharedIdentities,
    faults: u64,
}

impl DocumentSigner {
    /// A signer that looks at these identities.
    pub fn start(alloc: Global, identities: SharedIdentities) -> DocumentSigner
        ensures fresh { ⟦<DocumentSigner as Signer>⟧.faults result ≡ 0 }
    {
        DocumentSigner {
            alloc,
            identities,
            faults: 0,
        }
    }
}

/// The identity of the ask's entry, where there is one now.
fn identity(
    alloc: Global,
    identities: &SharedIdentities,
    ask: &Ask,
) -> Result<Option<Signed>, Memory>
    ensures { IfOk result (λ s. IfSome s (HasIdentity ask.now)) }
{
    let Some(held) = identities.try_read() else {
        return Ok(None);
    };
    match &*held {
        Some(identities) => identities.identity(alloc, ask),
        None => Ok(None),
    }
}

impl Signer for DocumentSigner {
    type V = DocumentVoucher;

    ghost calls = { λ s. None };

    ghost faults = { λ s. s.faults };

    fn sign_x509(&mut self, ask: &Ask) -> Result<Signed, EdgeFault> {
        match identity(self.alloc, &self.identities, ask) {
            Ok(Some(signed)) => Ok(signed),
            Ok(None) => {
                self.faults = self.faults.saturating_add(1);
                Err(EdgeFault::Failed)
            }
            Err(Memory) => Err(EdgeFault::Memory),
        }
    }

    fn sign_jwt(&mut self, _ask: &Ask, _audience: &[Octets]) -> Result<JwtToken, EdgeFault> {
        self.faults = self.faults.saturating_add(1);
        Err(EdgeFault::Failed)
    }
}
