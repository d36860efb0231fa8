//! Tests of crates of machines and of state, a module for each.
#![tactic(auto)]

#[cfg(test)]
mod document_signer_tests;
#[cfg(test)]
mod jwt_cache_tests;
#[cfg(test)]
mod svid_files_tests;
#[cfg(test)]
mod svid_forms_tests;
#[cfg(test)]
mod wl_match_tests;
