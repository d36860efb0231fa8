//! Registration entries, what is asked to be signed for them, and what was signed.
//!
//! An entry names who is entitled to an identity. Its ask is what a signer is handed; a signed
//! identity and a token are judged fit, due and fresh by their times here. Whatever is judged of
//! them elsewhere, as the leaf of a chain, has its place among the reasons `Unfit`.
#![tactic(auto)]

mod asks;
mod bundles;
mod entries;
mod keys;
mod laws;
pub mod limits;
mod signing;
mod tokens;
mod unfit;
mod vouchers;

pub use asks::Ask;
pub use bundles::Bundle;
pub use entries::Entry;
pub use laws::tests_decide;
pub use signing::{Signed, Svid};
pub use tokens::JwtToken;
pub use unfit::{CertFault, JwtUnfit, Unfit};
pub use vouchers::{Free, Voucher};
