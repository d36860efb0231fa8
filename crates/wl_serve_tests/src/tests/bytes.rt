//! Documents, a configuration and bytes of the worked example.

/// A document of one entry.
pub const DOC: &[u8] =
    b"{\"version\":1,\"trust_domain\":\"a.b\",\"bundles\":[{\"trust_domain\":\"a.b\",\"x509\":\"Aw==\"}],\"entries\":[{\"id\":\"e1\",\"spiffe_id\":\"spiffe://a.b/w\",\"selectors\":[\"unix:uid:1\"]}]}";

/// One socket with two workers.
pub const ONE: &[u8] =
    b"{\"version\":1,\"upstream\":\"/u\",\"signer\":\"/s\",\"sockets\":[{\"path\":\"/a\",\"workers\":2,\"selectors\":[\"unix:uid:1\"]}]}";

/// Two sockets with one worker each.
pub const TWO: &[u8] =
    b"{\"version\":1,\"upstream\":\"/u\",\"signer\":\"/s\",\"sockets\":[{\"path\":\"/a\",\"workers\":1,\"selectors\":[\"unix:uid:1\"]},{\"path\":\"/b\",\"workers\":1,\"selectors\":[\"unix:uid:1\"]}]}";

/// A certificate of `spiffe://a.b/w`, from 100 to 200 (RFC 5280).
pub const LEAF: &[u8] =
    b"\x30\x56\x30\x4f\xa0\x03\x02\x01\x02\x02\x01\x01\x30\x00\x30\x00\x30\x1e\x17\x0d\x37\x30\x30\x31\x30\x31\x30\x30\x30\x31\x34\x30\x5a\x17\x0d\x37\x30\x30\x31\x30\x31\x30\x30\x30\x33\x32\x30\x5a\x30\x00\x30\x00\xa3\x1d\x30\x1b\x30\x19\x06\x03\x55\x1d\x11\x04\x12\x30\x10\x86\x0espiffe://a.b/w\x30\x00\x03\x01\x00";

/// The preface and SETTINGS of a client (RFC 9113, section 3.4).
pub const OPENING: &[u8] = b"PRI * HTTP/2.0\r\n\r\nSM\r\n\r\n\0\0\0\x04\0\0\0\0\0";

/// The head of FetchX509SVID on stream 1.
pub const HEAD: &[u8] =
    b"\0\0\x68\x01\x04\0\0\0\x01\x83\x86\x04\x20/SpiffeWorkloadAPI/FetchX509SVID\x01\x09localhost\x0f\x10\x10application/grpc\0\x02te\x08trailers\0\x12workload.spiffe.io\x04true";

/// The head of FetchX509SVID on stream 3.
pub const NEXT_HEAD: &[u8] =
    b"\0\0\x68\x01\x04\0\0\0\x03\x83\x86\x04\x20/SpiffeWorkloadAPI/FetchX509SVID\x01\x09localhost\x0f\x10\x10application/grpc\0\x02te\x08trailers\0\x12workload.spiffe.io\x04true";

/// An empty message, and no more, on stream 1.
pub const MESSAGE: &[u8] = b"\0\0\x05\0\x01\0\0\0\x01\0\0\0\0\0";

/// The same on stream 3.
pub const NEXT_MESSAGE: &[u8] = b"\0\0\x05\0\x01\0\0\0\x03\0\0\0\0\0";
