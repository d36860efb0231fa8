//! How the sockets of a configuration are dealt out to the seats that serve them.
#![tactic(auto)]

mod dealing;

pub use dealing::{DealtSocket, deal, every_socket_is_served_once, room_of, seat_count};
