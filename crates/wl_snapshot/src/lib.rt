//! Publications of the store, what a caller sees of one, and what its calls are answered.
//!
//! A [`View`] has the entries to which the caller's selectors entitle it, with their SVIDs, and the bundles that
//! go with them. [`answer`] gives a streaming call its message on a view, [`jwt_asks`] the tokens that a call asks
//! for. Nothing here keeps a state: a view and an answer are functions of one publication.
#![tactic(auto)]

mod answer_call;
mod answers;
mod make_view;
mod messages;
mod sameness;
mod sizes;
mod snapshot;
mod token_asks;
mod views;

pub use answer_call::{answer, framed_answer};
pub use answers::{Answer, Method3};
pub use make_view::{view, view_of};
pub use sameness::same_view;
pub use snapshot::Snapshot;
pub use token_asks::{Wanted, jwt_asks};
pub use views::{Held, View};
