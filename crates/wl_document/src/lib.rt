//! The documents that an upstream authority gives: JSON of version 1 or 2, read into an authority's state.
//!
//! [`read_state`] tries the checks in their order; the first that fails is the [`DocFault`], with its [`Place`].
//! An [`AuthorityState`] has its bundles, entries and signed identities by ascending key, each key once, and
//! nothing in it passes its limit.
#![tactic(auto)]

mod bundles;
mod entries;
mod fault;
mod kept;
mod limits;
mod lists;
mod members;
mod names;
mod read;
mod state;
mod svids;
mod top;

pub use fault::{DocFault, Place};
pub use limits::DOCUMENT_LIMIT;
pub use read::read_state;
pub use state::{AuthorityState, DocSvid};
