//! What a client of the Workload API hears in the bytes of a server.
//!
//! A [`Client`] calls one method. It gives the bytes that open the call, is fed what the server sends, cut anywhere, and
//! tells the head, each message and the status as they become whole, or the first fault, after which it tells nothing
//! more. The `decode_` calls read the messages.
#![tactic(auto)]

mod assembly;
mod client;
mod decode;
mod fault;
mod headers;
mod items;
mod laws;
mod lent;
mod listener;
mod opening;
mod reply;
mod response;

pub use client::Client;
pub use decode::{decode_bundles, decode_jwt, decode_jwt_bundles, decode_state, decode_x509};
pub use fault::ClientFault;
pub use laws::cut_anywhere;
pub use lent::Lent;
pub use reply::Heard;
pub use response::{
    BundlesResponse, JwtBundlesResponse, JwtItem, JwtResponse, MapItem, X509Item, X509Response,
};
