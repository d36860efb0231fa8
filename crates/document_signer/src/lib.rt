//! A signer in the process: it answers an ask with the signed identity that the last document has for that entry.
//!
//! A [`SharingUpstream`] shares the [`Identities`] of each document, and each [`DocumentSigner`] looks there. So a node can be run
//! by two files, without a signer beside it.
#![tactic(auto)]

mod identities;
mod signer;
mod upstream;
mod vouching;

pub use identities::{Identities, SharedIdentities, share_identities};
pub use signer::DocumentSigner;
pub use upstream::SharingUpstream;
pub use vouching::DocumentVoucher;
