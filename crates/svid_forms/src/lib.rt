//! The messages of the Workload API as texts that other programs read: PEM (RFC 7468) and JSON (RFC 8259).
//!
//! A chain and a bundle are certificates one after another in DER; [`split`] finds where each ends.
#![tactic(auto)]

mod decoded;
mod elements;
mod json;
mod laws;
mod names;
mod pem;

pub use decoded::put_decoded_json;
pub use elements::{is_whole, split};
pub use json::{put_bundles_json, put_escaped, put_jwt_bundles_json, put_jwt_json, put_x509_json};
pub use laws::{blocks_are_read_back, elements_are_the_bytes};
pub use pem::{
    are_bundles_whole, are_svids_whole, put_bundles_pem, put_certificates, put_key, put_svids_pem,
};
