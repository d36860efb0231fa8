//! Lists by ascending key in blocks that their copies share.
//!
//! A [`SortedBlocks`] with one item more, or with another one in its place, has a block or two of its own and shares the
//! others, so that it costs a block and the counters of the others, and not the whole list.
#![tactic(auto)]

mod blocks;
mod making;
mod placing;

pub use blocks::SortedBlocks;
