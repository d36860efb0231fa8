//! The messages that a client reads (SPIFFE Workload API, `workload.proto`). Each lends its parts from the bytes in which
//! they came.

use crate::lent::Lent;
use wl_octets::Row;

/// `X509SVIDResponse`.
#[derive(Drop, PartialEq)]
pub struct X509Response<'a> {
    pub svids: Row<X509Item<'a>>,
    /// `federated_bundles`: from a trust domain's id to its X.509 bundle.
    pub federated: Row<MapItem<'a>>,
}

/// `X509SVID`: an id with its chain of certificates, its key and its trust domain's bundle, all opaque bytes.
#[derive(Drop, PartialEq)]
pub struct X509Item<'a> {
    pub spiffe_id: Lent<'a>,
    pub chain: Lent<'a>,
    pub key: Lent<'a>,
    pub bundle: Lent<'a>,
    pub hint: Lent<'a>,
}

/// An item of a map.
#[derive(Drop, PartialEq)]
pub struct MapItem<'a> {
    pub key: Lent<'a>,
    pub value: Lent<'a>,
}

/// `X509BundlesResponse`: `bundles`, from a trust domain's id to its X.509 bundle.
#[derive(Drop, PartialEq)]
pub struct BundlesResponse<'a> {
    pub bundles: Row<MapItem<'a>>,
}

/// `JWTBundlesResponse`: `bundles`, from a trust domain's id to its JWT bundle, a JWK set.
#[derive(Drop, PartialEq)]
pub struct JwtBundlesResponse<'a> {
    pub bundles: Row<MapItem<'a>>,
}

/// `JWTSVIDResponse`.
#[derive(Drop, PartialEq)]
pub struct JwtResponse<'a> {
    pub svids: Row<JwtItem<'a>>,
}

/// `JWTSVID`: an id with its token.
#[derive(Drop, PartialEq)]
pub struct JwtItem<'a> {
    pub spiffe_id: Lent<'a>,
    pub svid: Lent<'a>,
    pub hint: Lent<'a>,
}
