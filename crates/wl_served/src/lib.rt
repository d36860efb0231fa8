//! What is written on a stream of a served connection is the answer on the view of one publication, and each call has its own.
#![tactic(auto)]

mod laws;

pub use laws::{
    runs_that_agree_write_the_same, served_connections_are_complete,
    served_connections_are_isolated, served_responses_are_answers,
};
