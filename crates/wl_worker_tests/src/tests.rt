//! The worker's calls on the worked documents, over things in memory.

mod documents;
mod gates;
mod upkeep;
