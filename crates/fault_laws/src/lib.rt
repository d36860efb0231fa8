//! The line of each fault, and that it is explained by the sentence of that very fault.
#![tactic(auto)]

mod laws;

pub use laws::{fault_lines_are_explained, places_of_faults_have_names};
