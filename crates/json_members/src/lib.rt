//! The values that the members of a JSON object have, read by a caller that says which fault each lack is.
//!
//! Each reader answers a value, or the fault that it was given. None of them takes memory, but [`json_value`].
#![tactic(auto)]

mod members;
mod texts;

pub use members::{array_at, number_at, object_at, required, text_at};
pub use texts::json_value;
