//! Serving: what a host prepares is served, a thread for each seat and upkeep beside them, until every seat has ended. The
//! sockets of the configuration are dealt out to the seats.
//!
//! [`serve`] reads a configuration, has a [`Binder`] prepare the [`Parts`], pulls the first document, and serves. What it
//! comes to is a [`ServeEnd`], which is a function of the seats' ends where they were served. A [`MemoryHost`] is a host
//! whose things are in memory and tell their content.
#![tactic(auto)]

mod binder;
mod ending;
mod making;
mod memory_host;
mod memory_ready;
mod passes;
mod seats;
mod serving;
mod upkeep;

pub use binder::{Binder, Parts, PartsShown};
pub use ending::ServeEnd;
pub use making::{SeatMaker, make_seats};
pub use memory_host::{HostPlan, MemoryHost, SeatPlan};
pub use memory_ready::CountedReady;
pub use seats::{AFTER_FAILED_SEAT, SeatShown};
pub use serving::serve;
pub use upkeep::Upkeep;
