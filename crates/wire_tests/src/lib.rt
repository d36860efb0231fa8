//! Tests of the crates of messages on the wire, a module for each.
#![tactic(auto)]

#[cfg(test)]
mod hpack_tests;
