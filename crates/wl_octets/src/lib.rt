//! Byte strings, lists and shared parts, as the other crates hold them.
//!
//! A contract sees an [`Octets`] as the list of its bytes, a [`Row`] as the list of what contracts see of its
//! items, and a [`Shared`] as the part itself. Running out of memory is an answer, [`Memory`], and leaves everything
//! as it was. What implements [`TryClone`] is copied by [`clone_all`] as a list.
#![tactic(auto)]

mod copies;
mod header;
mod memory;
mod octets;
mod row;
mod shared;

pub use copies::{TryClone, clone_all, share_all};
pub use header::Header;
pub use memory::Memory;
pub use octets::Octets;
pub use row::Row;
pub use shared::Shared;
