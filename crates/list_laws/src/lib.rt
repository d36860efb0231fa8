//! Definitions and laws on plain lists that several crates cite. There is no code here: `specs/` has the
//! definitions and `proofs/` the laws.
#![tactic(auto)]
