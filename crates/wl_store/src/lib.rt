//! The store of the agent: entries, bundles, kept SVIDs and tickets in flight, and the publications of them.
//!
//! A [`Store`] takes one step with each event: a document is read, tickets are claimed, a ticket comes back with a
//! signed identity or without. Each step is all or nothing: it is prepared first, which may run out of memory and changes
//! nothing, and then adopted, which can't fail. There is a new publication exactly where entries, SVIDs or bundles
//! differ from those of the last one, and parts that did not change are shared.
#![tactic(auto)]

mod claiming;
mod flights;
mod groups;
mod in_flight;
mod lists;
mod preparing;
mod publishing;
mod signing_result;
mod stock;
mod store;
mod syncing;
mod tickets;
mod touched;

pub use preparing::Prepared;
pub use store::Store;
pub use tickets::{Adopted, Change, Claim, Flight, Ticket, abandon_all};
