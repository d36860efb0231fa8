//! What a token says in the compact form of JWS (RFC 7515, section 7.1), without looking at its signature.
#![tactic(auto)]

mod laws;
mod parts;
mod said;

pub use laws::what_is_said_has_no_newline;
pub use said::{Said, said_in};
