//! Documents of the worked transcripts.

/// The worked document.
pub const DOC: &[u8] =
    b"{\"version\":1,\"trust_domain\":\"a.b\",\"bundles\":[{\"trust_domain\":\"a.b\",\"x509\":\"Aw==\"}],\"entries\":[{\"id\":\"e1\",\"spiffe_id\":\"spiffe://a.b/w\",\"selectors\":[\"unix:uid:1\"]}],\"svids\":[{\"entry\":\"e1\",\"chain\":\"AQ==\",\"key\":\"Ag==\",\"not_before\":100,\"not_after\":200}]}";

/// The same, with another SPIFFE ID of its entry.
pub const OTHER_ID: &[u8] =
    b"{\"version\":1,\"trust_domain\":\"a.b\",\"bundles\":[{\"trust_domain\":\"a.b\",\"x509\":\"Aw==\"}],\"entries\":[{\"id\":\"e1\",\"spiffe_id\":\"spiffe://a.b/v\",\"selectors\":[\"unix:uid:1\"]}],\"svids\":[{\"entry\":\"e1\",\"chain\":\"AQ==\",\"key\":\"Ag==\",\"not_before\":100,\"not_after\":200}]}";

/// The same in version 2, with a hint of its entry.
pub const HINTED: &[u8] =
    b"{\"version\":2,\"trust_domain\":\"a.b\",\"bundles\":[{\"trust_domain\":\"a.b\",\"x509\":\"Aw==\"}],\"entries\":[{\"id\":\"e1\",\"spiffe_id\":\"spiffe://a.b/w\",\"selectors\":[\"unix:uid:1\"],\"hint\":\"internal\"}],\"svids\":[{\"entry\":\"e1\",\"chain\":\"AQ==\",\"key\":\"Ag==\",\"not_before\":100,\"not_after\":200}]}";

/// The same without its entry.
pub const NO_ENTRY: &[u8] =
    b"{\"version\":1,\"trust_domain\":\"a.b\",\"bundles\":[{\"trust_domain\":\"a.b\",\"x509\":\"Aw==\"}],\"entries\":[]}";

/// The same with a second entry, for another caller.
pub const TWO: &[u8] =
    b"{\"version\":1,\"trust_domain\":\"a.b\",\"bundles\":[{\"trust_domain\":\"a.b\",\"x509\":\"Aw==\"}],\"entries\":[{\"id\":\"e1\",\"spiffe_id\":\"spiffe://a.b/w\",\"selectors\":[\"unix:uid:1\"]},{\"id\":\"e2\",\"spiffe_id\":\"spiffe://a.b/x\",\"selectors\":[\"unix:uid:2\"]}],\"svids\":[{\"entry\":\"e1\",\"chain\":\"AQ==\",\"key\":\"Ag==\",\"not_before\":100,\"not_after\":200}]}";

/// A document of another trust domain.
pub const FOREIGN: &[u8] =
    b"{\"version\":1,\"trust_domain\":\"c.d\",\"bundles\":[{\"trust_domain\":\"c.d\",\"x509\":\"Aw==\"}],\"entries\":[]}";
