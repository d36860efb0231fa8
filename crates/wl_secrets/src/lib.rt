//! Foreign secrets: a caller learns nothing of the chains and keys of entries to which it isn't entitled,
//! and nothing of the sessions to whose entries it isn't entitled either.
//!
//! The laws speak of two runs of the core that differ in such chains and keys, and in such sessions, alone.
#![tactic(auto)]

mod laws;

pub use laws::{
    foreign_secrets_stay_unseen, foreign_secrets_stay_untold, other_sessions_stay_unseen,
};
