//! Things of the outside that are counted and of which the log speaks: each wraps another, and notes what an operator is to know of
//! its calls. In all that contracts see it is the other thing.
#![tactic(auto)]

mod binding;
mod fitness;
mod gate;
mod listener;
mod memory;
mod repeats;
mod signer;
mod sink;
mod upstream;

pub use binding::say_unbound;
pub use gate::SayingGate;
pub use listener::SayingListener;
pub use signer::{AskFailures, SayingSigner};
pub use sink::KeepingSink;
pub use upstream::{PullFailures, SayingUpstream};
