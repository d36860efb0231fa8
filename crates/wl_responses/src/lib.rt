//! Responses: what is written on a stream of a session is the answer on the view of one publication.
#![tactic(auto)]

mod laws;

pub use laws::{
    responses_are_answers, responses_are_of_publications, runs_answer_all, runs_give_statuses,
    sessions_have_moves, sessions_take_steps, statuses_are_of_views, streams_have_answers,
};
