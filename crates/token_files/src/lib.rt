//! The files of tokens beside those of an `X509SVIDResponse`, as `wlctl` writes them.
//!
//! Which files a message and the answers that belong to it have is a definition (specs/Sets); [`publish_set`] has readers of a
//! folder see exactly these, all of them at once, or leaves what they see.
#![tactic(auto)]

mod answers;
mod ends;
mod jwks;
mod laws;
mod names;
mod put;
mod sets;
mod tokens;

pub use answers::{Answers, TokenAnswer};
pub use ends::end_of;
pub use jwks::jwks_of;
pub use laws::encoded_audience_is_read_back;
pub use names::{encoded, is_audience};
pub use sets::{id_of, publish_set, set_of};
pub use tokens::has_tokens;
