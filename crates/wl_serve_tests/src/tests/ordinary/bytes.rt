//! What clients send, and the parts of documents, certificates and messages (`tests/vectors/ordinary_node.py`).

/// How many entries there are, from number 0 on.
pub const ENTRIES: u8 = 50;

/// How many sockets. The callers over each are entitled to the entries whose numbers leave its own when divided by this.
pub const SOCKETS: u8 = 3;

/// Three sockets with one worker each, on three threads.
pub const CONFIGURATION: &[u8] =
    b"{\"version\":1,\"upstream\":\"/u\",\"signer\":\"/s\",\"threads\":3,\"sockets\":[{\"path\":\"/a\",\"workers\":1,\"selectors\":[\"unix:uid:0\"]},{\"path\":\"/b\",\"workers\":1,\"selectors\":[\"unix:uid:1\"]},{\"path\":\"/c\",\"workers\":1,\"selectors\":[\"unix:uid:2\"]}]}";

/// The client of a socket.
#[derive(Clone, Copy)]
pub struct Client {
    /// The socket's number, from 0.
    pub socket: u8,
    /// What its callers have.
    pub selector: &'static [u8],
    /// The gRPC prefix of the message of its identities, of 17, 17 and 16 entries, and of two bundles.
    pub prefix: &'static [u8],
    /// In how many frames of DATA, of at most 16,384 bytes, that message comes with its prefix.
    pub frames: u8,
}

pub const CLIENTS: [Client; 3] = [
    Client {
        socket: 0,
        selector: b"unix:uid:0",
        prefix: b"\x00\x00\x00\xc8\x1e",
        frames: 4,
    },
    Client {
        socket: 1,
        selector: b"unix:uid:1",
        prefix: b"\x00\x00\x00\xc8\x1e",
        frames: 4,
    },
    Client {
        socket: 2,
        selector: b"unix:uid:2",
        prefix: b"\x00\x00\x00\xbc\xe8",
        frames: 3,
    },
];

/// What each client sends, a piece for each turn; an empty piece is idle. Its heads have Huffman texts, and the later ones
/// indices of the first one's headers. A PING is after each DATA of its own and, in the fifth piece and the last but one,
/// for each of the server's, where the identities come in four; steps of 60,000 bytes make room for the second message.
pub const PIECES: [&[u8]; 8] = [
    b"PRI * HTTP/2.0\r\n\r\nSM\r\n\r\n\0\0\0\x04\0\0\0\0\0",
    b"\x00\x00p\x01\x04\x00\x00\x00\x01\x83\x86D\x99cuf\x96R\xf2=\x9dh8\xe4\x87^F0\x95$\x9f\xf1\xb0?\xbb\x8eK\xffA\x86\xa0\xe4\x1d\x13\x9d\x09_\x8b\x1du\xd0b\x0d&=LMedz\x8a\x9a\xca\xc8\xb4\xc7`+\xb8%\xc3@\x82I\x7f\x86M\x835\x05\xb1\x1f@\x8d\xf0{:\xd0q\xc8\xba+4\xb2\x95s\x1f\x83M\x96\x97@\x8e\x9a\xca\xc8\xb0\xc8B\xd6\x95\x8bQ\x0f!\xaa\x9b\x83\x9b\xd9\xab\x00\x00\x05\x00\x01\x00\x00\x00\x01\x00\x00\x00\x00\x00\x00\x00\x08\x06\x00\x00\x00\x00\x00\x02\x04\x10\x10\x09\x0e\x07\x07",
    b"\x00\x00$\x01\x04\x00\x00\x00\x03\x83\x86D\x9acuf\x96R\xf2=\x9dh8\xe4\x87^F0\x95$\x9f\xf1\xb0?v\xda\xa4\xa0\xa8\xc4\xc3\xc2\xc1\xc0\xbf\x00\x00\x05\x00\x01\x00\x00\x00\x03\x00\x00\x00\x00\x00\x00\x00\x08\x06\x00\x00\x00\x00\x00\x02\x04\x10\x10\x09\x0e\x07\x07",
    b"\x00\x00$\x01\x04\x00\x00\x00\x05\x83\x86D\x9acuf\x96R\xf2=\x9dh8\xe4\x87^F0\x95$\x9f/-\xf7m\xaaJ\x0a\x8f\xc5\xc4\xc3\xc2\xc1\xc0\x00\x00\x05\x00\x01\x00\x00\x00\x05\x00\x00\x00\x00\x00\x00\x00\x08\x06\x00\x00\x00\x00\x00\x02\x04\x10\x10\x09\x0e\x07\x07",
    b"\x00\x00\x08\x06\x00\x00\x00\x00\x00\x02\x04\x10\x10\x09\x0e\x07\x07\x00\x00\x08\x06\x00\x00\x00\x00\x00\x02\x04\x10\x10\x09\x0e\x07\x07\x00\x00\x08\x06\x00\x00\x00\x00\x00\x02\x04\x10\x10\x09\x0e\x07\x07\x00\x00\x08\x06\x00\x00\x00\x00\x00\x02\x04\x10\x10\x09\x0e\x07\x07\x00\x00\x08\x06\x00\x00\x00\x00\x00\x02\x04\x10\x10\x09\x0e\x07\x07\x00\x00\x08\x06\x00\x00\x00\x00\x00\x02\x04\x10\x10\x09\x0e\x07\x07\x00\x00\x04\x08\x00\x00\x00\x00\x00\x00\x00\xea`\x00\x00\x04\x08\x00\x00\x00\x00\x01\x00\x00\xea`",
    b"",
    b"\x00\x00\x08\x06\x00\x00\x00\x00\x00\x02\x04\x10\x10\x09\x0e\x07\x07\x00\x00\x08\x06\x00\x00\x00\x00\x00\x02\x04\x10\x10\x09\x0e\x07\x07\x00\x00\x08\x06\x00\x00\x00\x00\x00\x02\x04\x10\x10\x09\x0e\x07\x07\x00\x00\x08\x06\x00\x00\x00\x00\x00\x02\x04\x10\x10\x09\x0e\x07\x07",
    b"",
];

/// The turn of each link, from 0, before which every identity is signed anew.
pub const ROTATION: u64 = 5;

/// A trust domain, and a byte of each of its bundles.
#[derive(Clone, Copy)]
pub struct Domain {
    pub name: &'static [u8],
    pub x509: u8,
    /// Three such bytes in base64 (RFC 4648).
    pub base64: &'static [u8],
    pub jwt: u8,
}

/// The own domain, and two with which each entry federates.
pub const DOMAINS: [Domain; 3] = [
    Domain {
        name: b"a.b",
        x509: 3,
        base64: b"AwMD",
        jwt: b'a',
    },
    Domain {
        name: b"c.d",
        x509: 4,
        base64: b"BAQE",
        jwt: b'c',
    },
    Domain {
        name: b"e.f",
        x509: 5,
        base64: b"BQUF",
        jwt: b'e',
    },
];

/// From when to when identities are signed, as seconds and as UTCTime (RFC 5280), and a byte of their keys.
#[derive(Clone, Copy)]
pub struct Signing {
    pub from: u64,
    pub to: u64,
    pub from_text: &'static [u8],
    pub to_text: &'static [u8],
    pub key: u8,
}

pub const FIRST: Signing = Signing {
    from: 100,
    to: 200,
    from_text: b"700101000140Z",
    to_text: b"700101000320Z",
    key: 1,
};

pub const NEXT: Signing = Signing {
    from: 150,
    to: 250,
    from_text: b"700101000230Z",
    to_text: b"700101000410Z",
    key: 2,
};

/// A certificate up to its times, between them, after them up to the last two bytes of its name, and after that.
pub const BEFORE_TIMES: &[u8] = b"0X0Q\xa0\x03\x02\x01\x02\x02\x01\x010\x000\x000\x1e\x17\x0d";

pub const BETWEEN_TIMES: &[u8] = b"\x17\x0d";

pub const BEHIND_TIMES: &[u8] =
    b"0\x000\x00\xa3\x1f0\x1d0\x1b\x06\x03U\x1d\x11\x04\x140\x12\x86\x10spiffe://a.b/w";

pub const BEHIND_NAME: &[u8] = b"0\x00\x03\x01\x00";

/// How many times ten bytes there are after the certificate of a chain, in a key, and in a bundle.
pub const CHAIN_REST: usize = 141;

pub const KEY: usize = 14;

pub const BUNDLE: usize = 120;

/// What stands in a message before the last two bytes of an identity's name, its chain, its key and its bundle.
pub const BEFORE_NAME: &[u8] = b"\x0a\xb3\x16\x0a\x10spiffe://a.b/w";

pub const BEFORE_CHAIN: &[u8] = b"\x12\xdc\x0b";

pub const BEFORE_KEY: &[u8] = b"\x1a\x8c\x01";

pub const BEFORE_OWN_BUNDLE: &[u8] = b"\x22\xb0\x09";

/// What stands before the domain of a bundle, after the tag, and before the bundle.
pub const BEFORE_DOMAIN: &[u8] = b"\xc1\x09\x0a\x0cspiffe://";

pub const BEFORE_BUNDLE: &[u8] = b"\x12\xb0\x09";

/// The tags of bundles in the three messages.
pub const FEDERATED: u8 = 0x1a;

pub const X509: u8 = 0x12;

pub const JWT: u8 = 0x0a;

/// The prefix of a message of three bundles.
pub const BUNDLES: &[u8] = b"\x00\x00\x00\x0eL";
