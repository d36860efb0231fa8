//! Serving over a host in memory.

mod bytes;
mod failed_seats;
mod failing;
mod gates;
mod hosts;
mod many_sockets;
mod neighbours;
mod ordinary;
mod refusals;
mod serving;
