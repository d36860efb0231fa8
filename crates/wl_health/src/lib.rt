//! The messages of `grpc.health.v1.Health`, and the state that a caller sees.
//!
//! A request names a service; the empty name is the server as a whole, which serves. The Workload API serves a caller
//! whose view has an entry and no entry without its SVID. Bytes that aren't a request have the first fault in them.
#![tactic(auto)]

mod decode;
mod encode;
pub mod field_number;
mod health;

pub use decode::decode_health;
pub use encode::encode_health;
pub use health::{NOT_SERVING, SERVICE_UNKNOWN, SERVING, state};
/// The first fault in the bytes of a message, or running out of memory.
pub use pb_wire::FieldFault as HealthFault;
