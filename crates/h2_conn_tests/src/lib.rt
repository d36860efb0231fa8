//! Tests of `h2_conn`. They stand in a crate of their own, since a crate is proved once more with the tests that it has.
#![tactic(auto)]

#[cfg(test)]
mod answer_tests;
#[cfg(test)]
mod flood_tests;
#[cfg(test)]
mod player;
#[cfg(test)]
mod request_tests;
#[cfg(test)]
mod row_tests;
#[cfg(test)]
mod samples;
#[cfg(test)]
mod scenes;
#[cfg(test)]
mod state_rows;
#[cfg(test)]
mod state_tests;
