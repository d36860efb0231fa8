//! The entries to which a caller is entitled, found without a walk over all entries.
//!
//! An [`Index`] files each entry under one of its selectors. Only the entries that are filed under a selector of the
//! caller, or have none, are looked at. A posting names entries by id, so that a place that moves leaves it as it is,
//! and an index after changes or a sync shares the postings that did not change.
#![tactic(auto)]

mod changes;
mod index;
mod places;
mod postings;

pub use changes::Change;
pub use index::Index;
