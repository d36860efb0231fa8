//! Decimal numbers in text.
#![tactic(auto)]

mod numbers;

pub use numbers::number_up_to;
