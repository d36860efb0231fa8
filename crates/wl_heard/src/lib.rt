//! What a client hears in the bytes of a session is what the session wrote.
#![tactic(auto)]

mod laws;

pub use laws::{
    calls_are_heard, clients_hear_sessions, data_is_read, headers_are_read, sessions_are_read,
    statuses_are_heard, talks_are_read,
};
