//! What was heard of tokens.

use wl_octets::{Octets, Row};

/// What FetchJWTSVID answered for an audience: a `JWTSVIDResponse`.
#[derive(Drop, PartialEq)]
pub struct TokenAnswer {
    pub audience: Octets,
    pub message: Octets,
}

/// What belongs to a message of FetchX509SVID.
#[derive(Drop, PartialEq)]
pub struct Answers {
    /// An answer for each audience.
    pub tokens: Row<TokenAnswer>,
    /// A `JWTBundlesResponse`.
    pub bundles: Octets,
}
