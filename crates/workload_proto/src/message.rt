//! The messages (SPIFFE Workload API, `workload.proto`).

use wl_octets::{Octets, Row};

/// `X509SVIDResponse`.
#[derive(Drop, PartialEq)]
pub struct X509Response {
    pub svids: Row<X509Item>,
    /// `federated_bundles`: from a trust domain's id to its X.509 bundle.
    pub federated: Row<MapItem>,
}

/// `X509SVID`: an id with its chain of certificates, its key and its trust domain's bundle, all opaque bytes.
#[derive(Drop, PartialEq)]
pub struct X509Item {
    pub spiffe_id: Octets,
    pub chain: Octets,
    pub key: Octets,
    pub bundle: Octets,
    pub hint: Octets,
}

/// An item of a map.
#[derive(Drop, PartialEq)]
pub struct MapItem {
    pub key: Octets,
    pub value: Octets,
}

/// `X509BundlesResponse`: from a trust domain's id to its X.509 bundle.
#[derive(Drop, PartialEq)]
pub struct BundlesResponse {
    pub bundles: Row<MapItem>,
}

/// `JWTBundlesResponse`: from a trust domain's id to its JWT bundle.
#[derive(Drop, PartialEq)]
pub struct JwtBundlesResponse {
    pub bundles: Row<MapItem>,
}

/// `JWTSVIDResponse`.
#[derive(Drop, PartialEq)]
pub struct JwtResponse {
    pub svids: Row<JwtItem>,
}

/// `JWTSVID`: an id with its token.
#[derive(Drop, PartialEq)]
pub struct JwtItem {
    pub spiffe_id: Octets,
    pub svid: Octets,
    pub hint: Octets,
}

/// `JWTSVIDRequest`: the audiences in their order, and the id that is asked for, or nothing for all of them.
#[derive(Drop, PartialEq)]
pub struct JwtRequest {
    pub audience: Row<Octets>,
    pub spiffe_id: Octets,
}
