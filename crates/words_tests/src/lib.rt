//! Tests of the crates of words, and of the lowest of forms, a module for each.
#![tactic(auto)]

#[cfg(test)]
mod at_once_tests;
#[cfg(test)]
mod decimal_text_tests;
#[cfg(test)]
mod file_sets_tests;
#[cfg(test)]
mod h2_headers_tests;
#[cfg(test)]
mod json_members_tests;
#[cfg(test)]
mod jws_text_tests;
#[cfg(test)]
mod kernel_table_tests;
#[cfg(test)]
mod output_parts_tests;
#[cfg(test)]
mod pb_wire_tests;
#[cfg(test)]
mod pem_text_tests;
#[cfg(test)]
mod sorted_blocks_tests;
#[cfg(test)]
mod sorted_lists_tests;
#[cfg(test)]
mod spiffe_id_tests;
#[cfg(test)]
mod timed_stream_tests;
#[cfg(test)]
mod wl_health_tests;
#[cfg(test)]
mod wl_octets_tests;
#[cfg(test)]
mod wl_selector_tests;
