//! Selectors of workloads, as `unix:uid:1000`, and sets of them.
//!
//! A selector is `type:value`, cut at its first colon. A set keeps its selectors by ascending bytes,
//! each once, and contracts see it as that list. Whether all selectors of an entry are among those of
//! a caller decides whether the caller is entitled to the entry.
#![tactic(auto)]

mod faults;
mod selector;
mod sets;

pub use faults::{SelectorFault, SelectorsFault};
pub use selector::Selector;
pub use sets::Selectors;
