//! Frames of the tests.

// The client: the preface, SETTINGS, both, and SETTINGS with an initial window of 10 bytes.
pub const PREFACE: &[u8] = b"PRI * HTTP/2.0\x0d\x0a\x0d\x0aSM\x0d\x0a\x0d\x0a";

pub const SETTINGS: &[u8] = b"\0\0\0\x04\0\0\0\0\0";

pub const OPENING: &[u8] = b"PRI * HTTP/2.0\x0d\x0a\x0d\x0aSM\x0d\x0a\x0d\x0a\0\0\0\x04\0\0\0\0\0";

pub const WINDOW_OF_10: &[u8] = b"\0\0\x06\x04\0\0\0\0\0\0\x04\0\0\0\x0a";

// HEADERS of FetchX509SVID on stream 1 without the security header, with it, and with it twice.
pub const INSECURE_HEAD: &[u8] =
    b"\0\0O\x01\x04\0\0\0\x01\x83\x86\x04 /SpiffeWorkloadAPI/FetchX509SVID\x01\x09localhost\x0f\x10\x10application/grpc\0\x02te\x08trailers";

pub const HEAD: &[u8] =
    b"\0\0h\x01\x04\0\0\0\x01\x83\x86\x04 /SpiffeWorkloadAPI/FetchX509SVID\x01\x09localhost\x0f\x10\x10application/grpc\0\x02te\x08trailers\0\x12workload.spiffe.io\x04true";

pub const TWICE_SECURE_HEAD: &[u8] =
    b"\0\0\x81\x01\x04\0\0\0\x01\x83\x86\x04 /SpiffeWorkloadAPI/FetchX509SVID\x01\x09localhost\x0f\x10\x10application/grpc\0\x02te\x08trailers\0\x12workload.spiffe.io\x04true\0\x12workload.spiffe.io\x04true";

// HEADERS that are refused: by `:method`, `content-type`, `grpc-encoding` and `:path`.
pub const GET_HEAD: &[u8] =
    b"\0\0h\x01\x04\0\0\0\x01\x82\x86\x04 /SpiffeWorkloadAPI/FetchX509SVID\x01\x09localhost\x0f\x10\x10application/grpc\0\x02te\x08trailers\0\x12workload.spiffe.io\x04true";

pub const TEXT_HEAD: &[u8] =
    b"\0\0b\x01\x04\0\0\0\x01\x83\x86\x04 /SpiffeWorkloadAPI/FetchX509SVID\x01\x09localhost\x0f\x10\x0atext/plain\0\x02te\x08trailers\0\x12workload.spiffe.io\x04true";

pub const GZIP_HEAD: &[u8] =
    b"\0\0|\x01\x04\0\0\0\x01\x83\x86\x04 /SpiffeWorkloadAPI/FetchX509SVID\x01\x09localhost\x0f\x10\x10application/grpc\0\x02te\x08trailers\0\x0dgrpc-encoding\x04gzip\0\x12workload.spiffe.io\x04true";

pub const VALIDATE_HEAD: &[u8] =
    b"\0\0j\x01\x04\0\0\0\x01\x83\x86\x04\"/SpiffeWorkloadAPI/ValidateJWTSVID\x01\x09localhost\x0f\x10\x10application/grpc\0\x02te\x08trailers\0\x12workload.spiffe.io\x04true";

// HEADERS of FetchX509SVID that end the stream.
pub const LONE_HEAD: &[u8] =
    b"\0\0h\x01\x05\0\0\0\x01\x83\x86\x04 /SpiffeWorkloadAPI/FetchX509SVID\x01\x09localhost\x0f\x10\x10application/grpc\0\x02te\x08trailers\0\x12workload.spiffe.io\x04true";

// HEADERS of the two calls for bundles.
pub const BUNDLES_HEAD: &[u8] =
    b"\0\0k\x01\x04\0\0\0\x01\x83\x86\x04#/SpiffeWorkloadAPI/FetchX509Bundles\x01\x09localhost\x0f\x10\x10application/grpc\0\x02te\x08trailers\0\x12workload.spiffe.io\x04true";

pub const JWT_BUNDLES_HEAD: &[u8] =
    b"\0\0j\x01\x04\0\0\0\x01\x83\x86\x04\"/SpiffeWorkloadAPI/FetchJWTBundles\x01\x09localhost\x0f\x10\x10application/grpc\0\x02te\x08trailers\0\x12workload.spiffe.io\x04true";

// HEADERS of FetchJWTSVID, and of the two health calls.
pub const JWT_HEAD: &[u8] =
    b"\0\0g\x01\x04\0\0\0\x01\x83\x86\x04\x1f/SpiffeWorkloadAPI/FetchJWTSVID\x01\x09localhost\x0f\x10\x10application/grpc\0\x02te\x08trailers\0\x12workload.spiffe.io\x04true";

pub const CHECK_HEAD: &[u8] =
    b"\0\0K\x01\x04\0\0\0\x01\x83\x86\x04\x1c/grpc.health.v1.Health/Check\x01\x09localhost\x0f\x10\x10application/grpc\0\x02te\x08trailers";

pub const WATCH_HEAD: &[u8] =
    b"\0\0K\x01\x04\0\0\0\x01\x83\x86\x04\x1c/grpc.health.v1.Health/Watch\x01\x09localhost\x0f\x10\x10application/grpc\0\x02te\x08trailers";

// DATA with END_STREAM: an empty message, a wrong flag, a prefix of 32,769 bytes.
pub const EMPTY: &[u8] = b"\0\0\x05\0\x01\0\0\0\x01\0\0\0\0\0";

pub const FLAGGED: &[u8] = b"\0\0\x05\0\x01\0\0\0\x01\x01\0\0\0\0";

pub const LONG_PREFIX: &[u8] = b"\0\0\x05\0\x01\0\0\0\x01\0\0\0\x80\x01";

// The same with two empty messages, and with a message that ends within a field.
pub const TWO_EMPTY: &[u8] = b"\0\0\x0a\0\x01\0\0\0\x01\0\0\0\0\0\0\0\0\0\0";

pub const TORN: &[u8] = b"\0\0\x06\0\x01\0\0\0\x01\0\0\0\0\x01\x0a";

// The same with a request: a service, or an audience.
pub const CHECK_OF_X: &[u8] = b"\0\0\x08\0\x01\0\0\0\x01\0\0\0\0\x03\x0a\x01x";

pub const WATCH_OF_API: &[u8] = b"\0\0\x18\0\x01\0\0\0\x01\0\0\0\0\x13\x0a\x11SpiffeWorkloadAPI";

pub const AUDIENCE_X: &[u8] = b"\0\0\x08\0\x01\0\0\0\x01\0\0\0\0\x03\x0a\x01x";

// An audience, and an id that is no SPIFFE ID.
pub const AUDIENCE_X_ID_Y: &[u8] = b"\0\0\x0b\0\x01\0\0\0\x01\0\0\0\0\x06\x0a\x01x\x12\x01y";

// The same of an id that the caller has not.
pub const AUDIENCE_X_ID_Z: &[u8] =
    b"\0\0\x18\0\x01\0\0\0\x01\0\0\0\0\x13\x0a\x01x\x12\x0espiffe://a.b/z";

// PING, and RST_STREAM on stream 1 with the code CANCEL.
pub const PING: &[u8] = b"\0\0\x08\x06\0\0\0\0\0abcdefgh";

pub const CANCEL: &[u8] = b"\0\0\x04\x03\0\0\0\0\x01\0\0\0\x08";

// WINDOW_UPDATE on stream 1.
pub const WIDER_BY_1: &[u8] = b"\0\0\x04\x08\0\0\0\0\x01\0\0\0\x01";

pub const WIDER_BY_22: &[u8] = b"\0\0\x04\x08\0\0\0\0\x01\0\0\0\x16";

pub const WIDER_BY_32: &[u8] = b"\0\0\x04\x08\0\0\0\0\x01\0\0\0 ";

// GOAWAY of the client.
pub const GOAWAY: &[u8] = b"\0\0\x08\x07\0\0\0\0\0\0\0\0\0\0\0\0\0";

// The server: its SETTINGS, the acknowledgement of the client's, and both.
pub const OWN_SETTINGS: &[u8] = b"\0\0\x0c\x04\0\0\0\0\0\0\x03\0\0\0\x10\0\x06\0\0@\0";

pub const ACK: &[u8] = b"\0\0\0\x04\x01\0\0\0\0";

pub const GREETING: &[u8] =
    b"\0\0\x0c\x04\0\0\0\0\0\0\x03\0\0\0\x10\0\x06\0\0@\0\0\0\0\x04\x01\0\0\0\0";

// The acknowledgement of PING.
pub const PONG: &[u8] = b"\0\0\x08\x06\x01\0\0\0\0abcdefgh";

// WINDOW_UPDATE on the connection.
pub const CREDIT_5: &[u8] = b"\0\0\x04\x08\0\0\0\0\0\0\0\0\x05";

pub const CREDIT_6: &[u8] = b"\0\0\x04\x08\0\0\0\0\0\0\0\0\x06";

pub const CREDIT_8: &[u8] = b"\0\0\x04\x08\0\0\0\0\0\0\0\0\x08";

pub const CREDIT_10: &[u8] = b"\0\0\x04\x08\0\0\0\0\0\0\0\0\x0a";

pub const CREDIT_11: &[u8] = b"\0\0\x04\x08\0\0\0\0\0\0\0\0\x0b";

pub const CREDIT_24: &[u8] = b"\0\0\x04\x08\0\0\0\0\0\0\0\0\x18";

// The head of a response.
pub const RESPONSE_HEAD: &[u8] = b"\0\0\x14\x01\x04\0\0\0\x01\x88\x0f\x10\x10application/grpc";

// DATA of FetchX509SVID: the message with chain 1 and key 2, with chain 3 and key 4, and pieces of it.
pub const DATA_M: &[u8] =
    b"\0\0 \0\0\0\0\0\x01\0\0\0\0\x1b\x0a\x19\x0a\x0espiffe://a.b/w\x12\x01\x01\x1a\x01\x02\"\x01\x03";

pub const DATA_CHANGED: &[u8] =
    b"\0\0 \0\0\0\0\0\x01\0\0\0\0\x1b\x0a\x19\x0a\x0espiffe://a.b/w\x12\x01\x03\x1a\x01\x04\"\x01\x03";

pub const DATA_10: &[u8] = b"\0\0\x0a\0\0\0\0\0\x01\0\0\0\0\x1b\x0a\x19\x0a\x0es";

pub const DATA_22: &[u8] = b"\0\0\x16\0\0\0\0\0\x01piffe://a.b/w\x12\x01\x01\x1a\x01\x02\"\x01\x03";

pub const DATA_1: &[u8] = b"\0\0\x01\0\0\0\0\0\x01\0";

// DATA of the calls for bundles: the X.509 bundle of the own domain, and no JWT bundle.
pub const DATA_BUNDLES: &[u8] =
    b"\0\0\x18\0\0\0\0\0\x01\0\0\0\0\x13\x12\x11\x0a\x0cspiffe://a.b\x12\x01\x03";

pub const DATA_NOTHING: &[u8] = b"\0\0\x05\0\0\0\0\0\x01\0\0\0\0\0";

// DATA of the health calls.
pub const DATA_SERVING: &[u8] = b"\0\0\x07\0\0\0\0\0\x01\0\0\0\0\x02\x08\x01";

pub const DATA_NOT_SERVING: &[u8] = b"\0\0\x07\0\0\0\0\0\x01\0\0\0\0\x02\x08\x02";

pub const DATA_UNKNOWN: &[u8] = b"\0\0\x07\0\0\0\0\0\x01\0\0\0\0\x02\x08\x03";

// DATA of FetchJWTSVID: the token `t`.
pub const DATA_TOKEN: &[u8] =
    b"\0\0\x1a\0\0\0\0\0\x01\0\0\0\0\x15\x0a\x13\x0a\x0espiffe://a.b/w\x12\x01t";

// Streams that end without a response head.
pub const INSECURE_ONLY: &[u8] =
    b"\0\0V\x01\x05\0\0\0\x01\x88\x0f\x10\x10application/grpc\0\x0bgrpc-status\x013\0\x0cgrpc-message$security header missing from request";

pub const DENIED_ONLY: &[u8] =
    b"\0\0D\x01\x05\0\0\0\x01\x88\x0f\x10\x10application/grpc\0\x0bgrpc-status\x017\0\x0cgrpc-message\x12no identity issued";

pub const UNATTESTED_ONLY: &[u8] =
    b"\0\0L\x01\x05\0\0\0\x01\x88\x0f\x10\x10application/grpc\0\x0bgrpc-status\x0214\0\x0cgrpc-message\x19caller cannot be attested";

pub const UNKNOWN_ONLY: &[u8] =
    b"\0\0A\x01\x05\0\0\0\x01\x88\x0f\x10\x10application/grpc\0\x0bgrpc-status\x015\0\x0cgrpc-message\x0funknown service";

pub const METHOD_ONLY: &[u8] = b"\0\0\x05\x01\x05\0\0\0\x01\x08\x03405";

pub const CONTENT_ONLY: &[u8] = b"\0\0\x05\x01\x05\0\0\0\x01\x08\x03415";

pub const COMPRESSED_ONLY: &[u8] =
    b"\0\0O\x01\x05\0\0\0\x01\x88\x0f\x10\x10application/grpc\0\x0bgrpc-status\x0212\0\x0cgrpc-message\x1ccompression is not supported";

pub const PATH_ONLY: &[u8] =
    b"\0\0A\x01\x05\0\0\0\x01\x88\x0f\x10\x10application/grpc\0\x0bgrpc-status\x0212\0\x0cgrpc-message\x0eunknown method";

pub const FLAG_ONLY: &[u8] =
    b"\0\0G\x01\x05\0\0\0\x01\x88\x0f\x10\x10application/grpc\0\x0bgrpc-status\x0213\0\x0cgrpc-message\x14invalid message flag";

pub const LONG_ONLY: &[u8] =
    b"\0\0J\x01\x05\0\0\0\x01\x88\x0f\x10\x10application/grpc\0\x0bgrpc-status\x018\0\x0cgrpc-message\x18request message too long";

pub const COUNT_ONLY: &[u8] =
    b"\0\0\x50\x01\x05\0\0\0\x01\x88\x0f\x10\x10application/grpc\0\x0bgrpc-status\x0213\0\x0cgrpc-message\x1drequest must hold one message";

pub const UNDECODABLE_ONLY: &[u8] =
    b"\0\0\x54\x01\x05\0\0\0\x01\x88\x0f\x10\x10application/grpc\0\x0bgrpc-status\x0213\0\x0cgrpc-message\x21request message cannot be decoded";

pub const NO_AUDIENCE_ONLY: &[u8] =
    b"\0\0\x4c\x01\x05\0\0\0\x01\x88\x0f\x10\x10application/grpc\0\x0bgrpc-status\x013\0\x0cgrpc-message\x1aaudience must be specified";

pub const BAD_ID_ONLY: &[u8] =
    b"\0\0\x48\x01\x05\0\0\0\x01\x88\x0f\x10\x10application/grpc\0\x0bgrpc-status\x013\0\x0cgrpc-message\x16spiffe id is not valid";

pub const UNSIGNED_ONLY: &[u8] =
    b"\0\0L\x01\x05\0\0\0\x01\x88\x0f\x10\x10application/grpc\0\x0bgrpc-status\x0214\0\x0cgrpc-message\x19jwt-svid cannot be signed";

// Trailers after a response head.
pub const DENIED_TRAILERS: &[u8] =
    b"\0\00\x01\x05\0\0\0\x01\0\x0bgrpc-status\x017\0\x0cgrpc-message\x12no identity issued";

pub const OK_TRAILERS: &[u8] = b"\0\0\x0f\x01\x05\0\0\0\x01\0\x0bgrpc-status\x010";

// GOAWAY of the server: PROTOCOL_ERROR and ENHANCE_YOUR_CALM.
pub const GOAWAY_PROTOCOL: &[u8] = b"\0\0\x08\x07\0\0\0\0\0\0\0\0\0\0\0\0\x01";

pub const GOAWAY_FLOOD: &[u8] = b"\0\0\x08\x07\0\0\0\0\0\0\0\0\0\0\0\0\x0b";

// The same frames on stream 3.
pub const HEAD_3: &[u8] =
    b"\0\0h\x01\x04\0\0\0\x03\x83\x86\x04 /SpiffeWorkloadAPI/FetchX509SVID\x01\x09localhost\x0f\x10\x10application/grpc\0\x02te\x08trailers\0\x12workload.spiffe.io\x04true";

pub const EMPTY_3: &[u8] = b"\0\0\x05\0\x01\0\0\0\x03\0\0\0\0\0";

pub const JWT_HEAD_3: &[u8] =
    b"\0\0g\x01\x04\0\0\0\x03\x83\x86\x04\x1f/SpiffeWorkloadAPI/FetchJWTSVID\x01\x09localhost\x0f\x10\x10application/grpc\0\x02te\x08trailers\0\x12workload.spiffe.io\x04true";

pub const AUDIENCE_X_3: &[u8] = b"\0\0\x08\0\x01\0\0\0\x03\0\0\0\0\x03\x0a\x01x";

pub const RESPONSE_HEAD_3: &[u8] = b"\0\0\x14\x01\x04\0\0\0\x03\x88\x0f\x10\x10application/grpc";

pub const DATA_M_3: &[u8] =
    b"\0\0 \0\0\0\0\0\x03\0\0\0\0\x1b\x0a\x19\x0a\x0espiffe://a.b/w\x12\x01\x01\x1a\x01\x02\"\x01\x03";

pub const DATA_CHANGED_3: &[u8] =
    b"\0\0 \0\0\0\0\0\x03\0\0\0\0\x1b\x0a\x19\x0a\x0espiffe://a.b/w\x12\x01\x03\x1a\x01\x04\"\x01\x03";

pub const DATA_TOKEN_3: &[u8] =
    b"\0\0\x1a\0\0\0\0\0\x03\0\0\0\0\x15\x0a\x13\x0a\x0espiffe://a.b/w\x12\x01t";

pub const OK_TRAILERS_3: &[u8] = b"\0\0\x0f\x01\x05\0\0\0\x03\0\x0bgrpc-status\x010";

pub const DENIED_ONLY_3: &[u8] =
    b"\0\0D\x01\x05\0\0\0\x03\x88\x0f\x10\x10application/grpc\0\x0bgrpc-status\x017\0\x0cgrpc-message\x12no identity issued";

pub const UNATTESTED_ONLY_3: &[u8] =
    b"\0\0L\x01\x05\0\0\0\x03\x88\x0f\x10\x10application/grpc\0\x0bgrpc-status\x0214\0\x0cgrpc-message\x19caller cannot be attested";
