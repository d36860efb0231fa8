//! Tests of `wl_control`. They stand in a crate of their own, since a crate is proved once more with the tests that it has.
#![tactic(auto)]

#[cfg(test)]
mod forms;
#[cfg(test)]
mod large;
#[cfg(test)]
mod repeating;
#[cfg(test)]
mod samples;
#[cfg(test)]
mod scenes;
#[cfg(test)]
mod tests;
#[cfg(test)]
mod tokens;
