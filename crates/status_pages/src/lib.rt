//! The pages `/metrics`, `/live`, `/ready` and `/stop` over HTTP/1.1.
//!
//! [`Pages`] answers requests from figures and health of one moment, and notes whether one asked for a stop.
#![tactic(auto)]

mod pages;

pub use pages::{Asked, Pages, page_named};
