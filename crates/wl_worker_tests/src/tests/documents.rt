//! Documents of the worked example.

/// The worked document.
pub const DOC: &[u8] =
    b"{\"version\":1,\"trust_domain\":\"a.b\",\"bundles\":[{\"trust_domain\":\"a.b\",\"x509\":\"Aw==\"}],\"entries\":[{\"id\":\"e1\",\"spiffe_id\":\"spiffe://a.b/w\",\"selectors\":[\"unix:uid:1\"]}],\"svids\":[{\"entry\":\"e1\",\"chain\":\"AQ==\",\"key\":\"Ag==\",\"not_before\":100,\"not_after\":200}]}";

/// A document of two entries.
pub const TWO: &[u8] =
    b"{\"version\":1,\"trust_domain\":\"a.b\",\"bundles\":[{\"trust_domain\":\"a.b\",\"x509\":\"Aw==\"}],\"entries\":[{\"id\":\"e1\",\"spiffe_id\":\"spiffe://a.b/w\",\"selectors\":[\"unix:uid:1\"]},{\"id\":\"e2\",\"spiffe_id\":\"spiffe://a.b/x\",\"selectors\":[\"unix:uid:2\"]}]}";

/// A document of another trust domain.
pub const FOREIGN: &[u8] =
    b"{\"version\":1,\"trust_domain\":\"c.d\",\"bundles\":[{\"trust_domain\":\"c.d\",\"x509\":\"Aw==\"}],\"entries\":[]}";
