//! One field of a Protocol Buffers message, from bytes and to bytes.
//!
//! Numbers are varints of at most ten bytes, fields have a number from 1 to 536,870,911 and the wire types 0, 1, 2
//! and 5. What is written has the shortest form; what is read may have a longer one. Groups (wire types 3 and 4) are
//! refused. A message is its fields one after the other: the crates above say which ones it has.
#![tactic(auto)]

mod fault;
mod field;
mod reading;
mod varint;
mod writing;

pub use fault::{FieldFault, WireFault};
pub use field::{Field, MAX_FIELD_NUMBER, Value};
pub use reading::read_field;
pub use varint::{put_varint, size_of_varint};
pub use writing::{put_bytes, put_head, size_of_bytes};
