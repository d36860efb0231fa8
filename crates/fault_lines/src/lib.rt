//! Fault lines, explained.
//!
//! `agentd` writes the first fault of a document, a configuration or a script as a line of numbers. [`explain`] turns
//! each such line of a text into one sentence, with the place in words, and leaves every other line as it is.
#![tactic(auto)]

mod explain;
mod laws;
mod names;
mod numbers;
mod places;
mod sentences;
mod texts;

pub use explain::explain_text;
pub use laws::{lines_are_read, texts_are_read};
