//! The headline in laws: who agrees on a caller's own data agrees on what it is written, what is foreign to it may change, and each
//! call of a served connection has its status and its answer.
#![tactic(auto)]

mod laws;

pub use laws::{
    data_that_agree_are_written_alike, foreign_changes_stay_unseen, foreign_items_change_nothing,
    headline_holds, own_data_decide_views,
};
