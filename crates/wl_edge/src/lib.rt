//! The outside, as the agent sees it: where bytes come from and where they go.
//!
//! Each thing of the outside is a trait. It counts its faults in a number that never falls, and may tell its
//! content: then a contract names the bytes. The things in memory tell it and can be made to fail; those over
//! real streams tell nothing, and are the trusted edge.
#![tactic(auto)]

mod attestor;
mod clock;
mod drain;
mod fault;
mod gate;
mod link;
mod listener;
mod memory_attestor;
mod memory_clock;
mod memory_feed;
mod memory_link;
mod memory_listener;
mod memory_ready;
mod memory_signer;
mod memory_sink;
mod memory_source;
mod memory_upstream;
mod origin;
mod ready;
mod real;
mod recording;
mod script;
mod signer;
mod sink;
mod source;
mod upstream;

pub use attestor::{Attestor, AttestorCall};
pub use clock::Clock;
pub use drain::{ReadFault, read_all, write_all};
pub use fault::EdgeFault;
pub use gate::{BEFORE_KEEPING, BEFORE_SIGNING, BEFORE_TURN, BEFORE_UPKEEP, Gate, OpenGate};
pub use link::{Heard, Link, Received, TrySent};
pub use listener::{AcceptKind, Accepted, Listener};
pub use memory_attestor::MemoryAttestor;
pub use memory_clock::MemoryClock;
pub use memory_link::{LinkPlan, MemoryLink};
pub use memory_listener::{ListenerPlan, MemoryListener};
pub use memory_ready::{MemoryBell, MemoryReady};
pub use memory_signer::MemorySigner;
pub use memory_sink::MemorySink;
pub use memory_source::MemorySource;
pub use memory_upstream::MemoryUpstream;
pub use origin::Origin;
pub use ready::{Bell, Ready};
pub use real::{RealSink, RealSource};
pub use script::Script;
pub use signer::{Signer, SignerCall};
pub use sink::{Sent, Sink};
pub use source::{Source, Taken};
pub use upstream::{MAX_PULLED, PullCall, Upstream};
