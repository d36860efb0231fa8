//! The messages of the SPIFFE Workload API: those that are answered to bytes, those that are asked from bytes.
//!
//! Each message has one encoding (specs/Spelling): the `encode_` calls give it, in one allocation of the counted size,
//! and the `size_` calls count it without making it. Requests are read by the grammar of proto3 in this project's
//! profile (specs/Requests); bytes outside it have the first fault in them.
#![tactic(auto)]

mod decode;
mod encode;
pub mod field_number;
mod items;
mod limits;
mod message;
mod size;

pub use decode::{decode_empty, decode_jwt_request};
pub use encode::{encode_bundles, encode_jwt, encode_jwt_bundles, encode_x509};
pub use items::{put_map_item, put_x509_item};
pub use limits::{MAX_REQUEST_LEN, MAX_RESPONSE_LEN};
pub use message::{
    BundlesResponse, JwtBundlesResponse, JwtItem, JwtRequest, JwtResponse, MapItem, X509Item,
    X509Response,
};
/// The first fault in the bytes of a message, or running out of memory.
pub use pb_wire::FieldFault as ProtoFault;
pub use size::{
    jwt_item_size, map_item_size, size_bundles, size_jwt, size_jwt_bundles, size_x509,
    x509_item_size,
};
