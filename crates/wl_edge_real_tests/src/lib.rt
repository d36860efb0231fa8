//! Tests of `wl_edge_real`. They stand in a crate of their own, since a crate is proved once more with the tests that it has.
#![tactic(auto)]

#[cfg(test)]
mod changing_tests;
#[cfg(test)]
mod file_tests;
#[cfg(test)]
mod late_tests;
#[cfg(test)]
mod loopback_tests;
#[cfg(test)]
mod many_tests;
#[cfg(test)]
mod rest_tests;
#[cfg(test)]
mod slow_tests;
#[cfg(test)]
mod tests;
#[cfg(test)]
mod unnamed_tests;
