//! Tokens that are kept to be handed out again.
//!
//! [`Tokens`] keeps the last sixteen tokens of each entry, each for an ask and for audiences that are sorted, each
//! once. A token is found where its ask and its audiences are equal and less than half of its time has passed; among
//! several, the one that was kept last.
#![tactic(auto)]

mod rings;
mod sorting;
mod tokens;

pub use rings::CachedToken;
pub use sorting::sort_audience;
pub use tokens::Tokens;
