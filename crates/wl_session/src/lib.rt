//! A connection of the SPIFFE Workload API: its bytes, attested call by call, become messages.
//!
//! A session is fed the bytes of a peer, gets the selectors of each call that became ready, and takes its turns: a turn
//! reads one publication and answers each ready call from what its own selectors are entitled to there, and from nothing
//! else. What is written is a function of these alone.
#![tactic(auto)]

mod asks;
mod counted;
mod giving;
mod laws;
mod naming;
mod queue;
mod replies;
mod served;
mod session;
mod shared_views;
mod talk;
mod turn;

pub use asks::{JwtAsk, JwtOutcome, SessionFault};
pub use laws::{
    answers_are_of_views, cut_anywhere, turns_agree, turns_answer_all, turns_commute,
    turns_may_follow,
};
pub use session::Session;
pub use shared_views::SharedViews;
