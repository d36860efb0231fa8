//! Documents, identities and messages of the worked example.

use super::events::Identity;

/// The worked document.
pub const DOC: &[u8] =
    b"{\"version\":1,\"trust_domain\":\"a.b\",\"bundles\":[{\"trust_domain\":\"a.b\",\"x509\":\"Aw==\"}],\"entries\":[{\"id\":\"e1\",\"spiffe_id\":\"spiffe://a.b/w\",\"selectors\":[\"unix:uid:1\"]}],\"svids\":[{\"entry\":\"e1\",\"chain\":\"AQ==\",\"key\":\"Ag==\",\"not_before\":100,\"not_after\":200}]}";

/// The worked document, where the entry has another id.
pub const OTHER_ID: &[u8] =
    b"{\"version\":1,\"trust_domain\":\"a.b\",\"bundles\":[{\"trust_domain\":\"a.b\",\"x509\":\"Aw==\"}],\"entries\":[{\"id\":\"e1\",\"spiffe_id\":\"spiffe://a.b/v\",\"selectors\":[\"unix:uid:1\"]}],\"svids\":[{\"entry\":\"e1\",\"chain\":\"AQ==\",\"key\":\"Ag==\",\"not_before\":100,\"not_after\":200}]}";

/// The worked document, where what was signed before second 120 is to be renewed.
pub const RENEWED: &[u8] =
    b"{\"version\":1,\"trust_domain\":\"a.b\",\"bundles\":[{\"trust_domain\":\"a.b\",\"x509\":\"Aw==\"}],\"entries\":[{\"id\":\"e1\",\"spiffe_id\":\"spiffe://a.b/w\",\"selectors\":[\"unix:uid:1\"]}],\"renew_before\":120}";

/// The worked document in version 2, where the entry has a hint.
pub const HINTED: &[u8] =
    b"{\"version\":2,\"trust_domain\":\"a.b\",\"bundles\":[{\"trust_domain\":\"a.b\",\"x509\":\"Aw==\"}],\"entries\":[{\"id\":\"e1\",\"spiffe_id\":\"spiffe://a.b/w\",\"selectors\":[\"unix:uid:1\"],\"hint\":\"internal\"}],\"svids\":[{\"entry\":\"e1\",\"chain\":\"AQ==\",\"key\":\"Ag==\",\"not_before\":100,\"not_after\":200}]}";

/// The worked document, where the only selector of the entry is missing.
pub const NO_SELECTOR: &[u8] =
    b"{\"version\":1,\"trust_domain\":\"a.b\",\"bundles\":[{\"trust_domain\":\"a.b\",\"x509\":\"Aw==\"}],\"entries\":[{\"id\":\"e1\",\"spiffe_id\":\"spiffe://a.b/w\",\"selectors\":[]}]}";

/// A document of three entries, which are out of order.
pub const THREE: &[u8] =
    b"{\"version\":1,\"trust_domain\":\"a.b\",\"bundles\":[{\"trust_domain\":\"a.b\",\"x509\":\"Aw==\"}],\"entries\":[{\"id\":\"e3\",\"spiffe_id\":\"spiffe://a.b/y\",\"selectors\":[\"unix:uid:3\"]},{\"id\":\"e1\",\"spiffe_id\":\"spiffe://a.b/w\",\"selectors\":[\"unix:uid:1\"]},{\"id\":\"e2\",\"spiffe_id\":\"spiffe://a.b/x\",\"selectors\":[\"unix:uid:2\"]}]}";

/// The same without the second.
pub const WITHOUT_E2: &[u8] =
    b"{\"version\":1,\"trust_domain\":\"a.b\",\"bundles\":[{\"trust_domain\":\"a.b\",\"x509\":\"Aw==\"}],\"entries\":[{\"id\":\"e3\",\"spiffe_id\":\"spiffe://a.b/y\",\"selectors\":[\"unix:uid:3\"]},{\"id\":\"e1\",\"spiffe_id\":\"spiffe://a.b/w\",\"selectors\":[\"unix:uid:1\"]}]}";

/// The same, where the second has another id.
pub const OTHER_E2: &[u8] =
    b"{\"version\":1,\"trust_domain\":\"a.b\",\"bundles\":[{\"trust_domain\":\"a.b\",\"x509\":\"Aw==\"}],\"entries\":[{\"id\":\"e2\",\"spiffe_id\":\"spiffe://a.b/z\",\"selectors\":[\"unix:uid:2\"]},{\"id\":\"e3\",\"spiffe_id\":\"spiffe://a.b/y\",\"selectors\":[\"unix:uid:3\"]},{\"id\":\"e1\",\"spiffe_id\":\"spiffe://a.b/w\",\"selectors\":[\"unix:uid:1\"]}]}";

/// A document of another trust domain.
pub const FOREIGN: &[u8] =
    b"{\"version\":1,\"trust_domain\":\"c.d\",\"bundles\":[{\"trust_domain\":\"c.d\",\"x509\":\"Aw==\"}],\"entries\":[]}";

/// The message of FetchX509SVID for the worked document and its SVID.
pub const MESSAGE: &[u8] = b"\x0a\x19\x0a\x0espiffe://a.b/w\x12\x01\x01\x1a\x01\x02\x22\x01\x03";

/// The same with the hint.
pub const HINTED_MESSAGE: &[u8] =
    b"\x0a\x23\x0a\x0espiffe://a.b/w\x12\x01\x01\x1a\x01\x02\x22\x01\x03\x2a\x08internal";

/// The identity of the worked document.
pub const FIRST: Identity = Identity {
    chain: &[1],
    key: &[2],
    not_before: 100,
    not_after: 200,
};

/// The same, signed later and with an earlier end.
pub const SHORTER: Identity = Identity {
    chain: &[1],
    key: &[2],
    not_before: 120,
    not_after: 190,
};

/// The same, signed while the clock was two hours ahead.
pub const AHEAD: Identity = Identity {
    chain: &[1],
    key: &[2],
    not_before: 7300,
    not_after: 7500,
};

/// Another identity of the same times.
pub const SECOND: Identity = Identity {
    chain: &[3],
    key: &[4],
    not_before: 100,
    not_after: 200,
};

/// An identity with a leaf of the URI `spiffe://a.b/w`, from 100 to 200.
pub const WITH_LEAF: Identity = Identity {
    chain: LEAF,
    key: &[2],
    not_before: 100,
    not_after: 200,
};

/// An identity that ends a second later than its leaf.
pub const AFTER_LEAF: Identity = Identity {
    chain: LEAF,
    key: &[2],
    not_before: 100,
    not_after: 201,
};

const LEAF: &[u8] = &[
    0x30, 0x56, 0x30, 0x4f, 0xa0, 0x03, 0x02, 0x01, 0x02, 0x02, 0x01, 0x01, 0x30, 0x00, 0x30, 0x00,
    0x30, 0x1e, 0x17, 0x0d, 0x37, 0x30, 0x30, 0x31, 0x30, 0x31, 0x30, 0x30, 0x30, 0x31, 0x34, 0x30,
    0x5a, 0x17, 0x0d, 0x37, 0x30, 0x30, 0x31, 0x30, 0x31, 0x30, 0x30, 0x30, 0x33, 0x32, 0x30, 0x5a,
    0x30, 0x00, 0x30, 0x00, 0xa3, 0x1d, 0x30, 0x1b, 0x30, 0x19, 0x06, 0x03, 0x55, 0x1d, 0x11, 0x04,
    0x12, 0x30, 0x10, 0x86, 0x0e, 0x73, 0x70, 0x69, 0x66, 0x66, 0x65, 0x3a, 0x2f, 0x2f, 0x61, 0x2e,
    0x62, 0x2f, 0x77, 0x30, 0x00, 0x03, 0x01, 0x00,
];
