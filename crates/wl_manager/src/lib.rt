//! The store of the agent with the tokens that are kept for its entries.
//!
//! A [`Manager`] takes one step with each event: a document is read, tickets are claimed, a ticket comes back, a token
//! is kept. Each step is all or nothing. A step that may make a publication is prepared first, which may run out of memory
//! and changes nothing, and then adopted, which can't fail. A document that changes or removes an entry's ask drops
//! the tokens of that entry.
#![tactic(auto)]

mod dropping;
mod keeping;
mod manager;
mod stepping;

pub use keeping::Keeping;
pub use manager::Manager;
pub use stepping::Prepared;
pub use wl_store::{Adopted, Change, Claim, Flight, Ticket, abandon_all};
