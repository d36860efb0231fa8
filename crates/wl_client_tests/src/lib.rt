//! Tests of `wl_client`. They stand in a crate of their own, since a crate is proved once more with the tests that it has.
#![tactic(auto)]

#[cfg(test)]
mod decode_tests;
#[cfg(test)]
mod large_tests;
#[cfg(test)]
mod recorded_tests;
#[cfg(test)]
mod tests;
