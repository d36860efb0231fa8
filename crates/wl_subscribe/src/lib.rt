//! Who sees something else after a publication.
//!
//! [`Subscribers`] has the callers of sessions by their selectors. After a publication
//! [`Subscribers::affected`] names exactly those whose views differ, by what differs between the two snapshots and
//! by an index of the selectors: no view is made.
#![tactic(auto)]

mod differences;
mod filing;
mod hits;
mod subscribers;
#[cfg(test)]
mod tests;

pub use subscribers::{SubId, Subscribers};
