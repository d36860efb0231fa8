//! PEM texts (RFC 7468).
#![tactic(auto)]

mod laws;
mod lines;

pub use laws::lines_join;
pub use lines::put_pem;
