//! What a serving agent does, over the outside as traits: connections that it serves, and its upkeep beside them.
//!
//! A [`Served`] takes rounds: it hears its link, has each call attested that became ready, reads the last
//! publication, takes its turn, answers the asks for tokens whose answers have come, and sends. It waits for no signer.
//! What its link takes is the talk over the trace of these rounds; the worker adds no meaning to it.
//!
//! Upkeep is a keeper, which lets go of what has ended and claims what is due, a puller, which takes documents, and
//! signers, which ask for tokens and identities, each again and again until no seat serves. What they change is the desk, under
//! its lock, which none of them holds while it waits for the outside.
#![tactic(auto)]

mod asks;
mod connection;
mod documents;
mod ended;
mod flush;
mod hearing;
mod keeper;
mod laws;
mod naming;
mod outcomes;
mod outside;
mod places;
mod queue;
mod seat;
mod seat_asks;
mod seat_pass;
mod seat_rounds;
mod seating;
mod served;
mod signing;
mod step;
mod stepping;
mod upkeep;

pub use asks::AskHub;
pub use connection::serve_connection;
pub use documents::{Synced, sync_once};
pub use ended::{Ended, RoundEnd};
pub use keeper::{Kept, keep_once};
pub use laws::rounds_are_determined;
pub use queue::{QueuedTicket, TicketQueue};
pub use seat::{Seat, SeatEnd, serve_seat};
pub use seat_asks::SeatAsks;
pub use seat_pass::SeatPass;
pub use served::{Buffer, Served};
pub use signing::{Asked, Signing, sign_once};
pub use upkeep::{keep_time, pull_documents, sign_asks, sign_next};
