//! Which header lists of requests are malformed (RFC 9113, sections 8.2 and 8.3), and the value of a field that is there
//! once.
//!
//! The connection refuses malformed trailers and a call refuses a malformed head, so the rules
//! on names, values and pseudo-headers stand here once, below both. Nothing here takes memory.
#![tactic(auto)]

mod fields;
mod lists;
mod values;

pub use fields::is_named;
pub use lists::{are_well_formed_trailers, is_well_formed_head};
pub use values::value_once;
