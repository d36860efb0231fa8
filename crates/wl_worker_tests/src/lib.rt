//! Tests of `wl_worker`. They stand in a crate of their own, since a crate is proved once more with the tests that it has.
#![tactic(auto)]

#[cfg(test)]
mod connection_tests;
#[cfg(test)]
mod seat_tests;
#[cfg(test)]
mod tests;
#[cfg(test)]
mod token_tests;
