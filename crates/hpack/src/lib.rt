//! Header compression for HTTP/2 (RFC 7541): a decoder of header blocks with its dynamic table, and
//! the plain encoding in which this agent writes its own.
//!
//! What is decoded is proved to be exactly what the standard says of the bytes, and each malformed
//! block is refused with the fault of its leftmost wrong representation.
#![tactic(auto)]

mod blocks;
mod decoder;
mod dynamic_table;
mod encode;
mod fault;
mod huffman;
mod integers;
pub mod limit;
mod static_table;
mod tables;

pub use decoder::Decoder;
pub use encode::encode_plain;
pub use fault::HpackFault;
pub use huffman::{huff_decode, huff_len};
