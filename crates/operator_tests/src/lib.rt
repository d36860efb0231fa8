//! Tests of the crates of what an operator sees, a module for each.
#![tactic(auto)]

#[cfg(test)]
mod call_counts_tests;
#[cfg(test)]
mod event_log_tests;
#[cfg(test)]
mod fault_lines_tests;
#[cfg(test)]
mod figures_tests;
#[cfg(test)]
mod log_output_tests;
#[cfg(test)]
mod status_pages_tests;
#[cfg(test)]
mod wl_outlook_tests;
