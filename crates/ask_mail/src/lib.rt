//! Asks for tokens between the threads that serve connections and those that sign, and a mailbox back.
//!
//! A connection has its ask put into a queue, and looks for the answer later; nobody waits. An answer is a value whose
//! invariant says for which ask it is vouched, so that fact comes through whatever lock the mailbox lies under.
#![tactic(auto)]

mod direct;
mod mail;
mod mailbox;
mod queue;
mod signing;

pub use direct::DirectAsks;
pub use mail::{Answered, Asked, Delivery, NoAnswer, Opened, TokenAsks};
pub use mailbox::Mailbox;
pub use queue::AskQueue;
pub use signing::sign;
