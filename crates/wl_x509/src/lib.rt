//! The leaf of a chain: the one URI and the two times of its first certificate (RFC 5280).
//!
//! A certificate is read once, from its first byte on; nothing of it is copied but the URI. Signatures, constraints and
//! key usage are not judged. [`leaf_unfit`] tells whether a signed identity names the ask for which it was signed.
#![tactic(auto)]

mod laws;
mod leaves;
mod names;
mod parts;
mod reasons;
mod tags;
#[cfg(test)]
mod tests;
mod times;
mod values;

pub use laws::{faults_are_no_memory, leaves_are_certificates, values_are_encodings};
pub use leaves::{Leaf, read_leaf};
pub use reasons::leaf_unfit;
