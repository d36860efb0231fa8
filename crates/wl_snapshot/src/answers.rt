//! The answers of the streaming calls.

use wl_octets::Octets;

/// A streaming call of the Workload API.
#[derive(Clone, Copy, Debug, Drop, PartialEq)]
pub enum Method3 {
    X509Svid,
    X509Bundles,
    JwtBundles,
}

/// What a streaming call is answered on a view.
#[derive(Drop)]
pub enum Answer {
    /// The caller is entitled to nothing.
    Denied,
    /// An entry lacks its SVID, and the call is FetchX509SVID.
    Wait,
    /// The message has so many bytes, above 4,194,304.
    TooLong(u64),
    /// The message in its encoding, without the gRPC prefix.
    Message(Octets),
}
