//! A worked run: what the definitions of responses say of it, computed.
#![tactic(auto)]

mod laws;

pub use laws::{first_run_is_computed, other_callers_get_none};
