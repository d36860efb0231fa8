//! The SVIDs that are kept for the asks of the entries.
//!
//! A [`Cache`] knows which asks there are, and keeps at most one SVID for each. It tells which asks are due, lets
//! go of what has expired, and takes a new SVID in where it is fit, asked for and ends later than the kept one. A
//! [`Timetable`] does the same for an owner who has the SVIDs elsewhere, in blocks, and lends them to each call: it
//! gives back [`KeptSvids`], which share all blocks that did not change.
#![tactic(auto)]

mod asks;
mod cache;
mod install;
mod kept;
mod kept_svids;
mod preparing;
mod queue;
#[cfg(test)]
mod tests;
mod timetable;

pub use cache::Cache;
pub use install::Installed;
pub use kept_svids::KeptSvids;
pub use timetable::Timetable;
