//! By what the answers of a document's signer are vouched for.

use wl_entry::Voucher;

/// Vouches for an identity that a document has for the entry of the ask, and for no token.
#[derive(Clone, Copy, Debug, PartialEq, Eq)]
pub struct DocumentVoucher;

impl Voucher for DocumentVoucher {
    ghost use Rattle.document_signer.specs.Identities.{HasIdentity};

    ghost signed = { λ ask signed. HasIdentity ask signed };

    ghost token = { λ ask audience token. ⊥ };
}
