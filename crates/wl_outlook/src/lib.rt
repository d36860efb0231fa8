//! What is known of a running agent: its figures, its health, and the verdict on each document.
//!
//! [`Outlook`] is what threads note and a server of pages shows. It has no bytes of a key, a token or a message.
#![tactic(auto)]

mod asking;
mod callers;
mod calls;
mod changes;
mod judge;
mod outlook;
mod stand;
mod standing;

pub use asking::UnderWay;
pub use callers::Callers;
pub use judge::{DocumentJudge, FaultLines};
pub use outlook::Outlook;
pub use standing::{PATIENCE_SECONDS, Standing};
