//! Publications that many threads read and one writer adds to.
//!
//! They form one list that only grows. A reader waits for nobody, and what it reads is never older than what it read or
//! was told of before. The list itself isn't a list in memory: it exists in the contracts.
#![tactic(auto)]

mod book;
mod pass;
mod published_snapshot;
mod publisher;
mod rule;
mod steps;

pub use pass::{Note, Pass};
pub use published_snapshot::PublishedSnapshot;
pub use publisher::{Publisher, start};
