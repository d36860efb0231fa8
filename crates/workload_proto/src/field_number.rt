//! The field numbers of the messages (SPIFFE Workload API, `workload.proto`). Those of the two hints are an own rule.

pub const X509_RESPONSE_SVIDS: u32 = 1;

pub const X509_RESPONSE_FEDERATED_BUNDLES: u32 = 3;

pub const X509_SVID_SPIFFE_ID: u32 = 1;

pub const X509_SVID_CHAIN: u32 = 2;

pub const X509_SVID_KEY: u32 = 3;

pub const X509_SVID_BUNDLE: u32 = 4;

pub const X509_SVID_HINT: u32 = 5;

pub const X509_BUNDLES_BUNDLES: u32 = 2;

pub const JWT_BUNDLES_BUNDLES: u32 = 1;

pub const JWT_REQUEST_AUDIENCE: u32 = 1;

pub const JWT_REQUEST_SPIFFE_ID: u32 = 2;

pub const JWT_RESPONSE_SVIDS: u32 = 1;

pub const JWT_SVID_SPIFFE_ID: u32 = 1;

pub const JWT_SVID_SVID: u32 = 2;

pub const JWT_SVID_HINT: u32 = 3;

/// An item of a map (Protocol Buffers, encoding of maps).
pub const MAP_ITEM_KEY: u32 = 1;

pub const MAP_ITEM_VALUE: u32 = 2;
