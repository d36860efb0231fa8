//! SPIFFE IDs and trust domain names, read by the grammar of the SPIFFE-ID standard.
//!
//! `parse` answers the text where it is one, or the first fault with its place. An id that was read
//! is a text of the grammar, and contracts see it, and a name, as that list of bytes.
//! Own rules: an id has at most 2,048 bytes, a name at most 255, and the scheme is lower case.
#![tactic(auto)]

mod faults;
mod finding;
mod ids;
mod names;

pub use faults::IdFault;
pub use finding::{MAX_DOMAIN_LEN, MAX_ID_LEN};
pub use ids::SpiffeId;
pub use names::TrustDomain;
