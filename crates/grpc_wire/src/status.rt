//! The statuses that calls end with.

/// `OK` (gRPC, "Status codes and their use in gRPC").
pub const OK: u32 = 0;

/// `INVALID_ARGUMENT`.
pub const INVALID_ARGUMENT: u32 = 3;

/// `NOT_FOUND`.
pub const NOT_FOUND: u32 = 5;

/// `PERMISSION_DENIED`.
pub const PERMISSION_DENIED: u32 = 7;

/// `RESOURCE_EXHAUSTED`.
pub const RESOURCE_EXHAUSTED: u32 = 8;

/// `UNIMPLEMENTED`.
pub const UNIMPLEMENTED: u32 = 12;

/// `INTERNAL`.
pub const INTERNAL: u32 = 13;

/// `UNAVAILABLE`.
pub const UNAVAILABLE: u32 = 14;

/// HTTP's 405, Method Not Allowed (RFC 9110, section 15.5.6).
pub const HTTP_METHOD_NOT_ALLOWED: u32 = 405;

/// HTTP's 415, Unsupported Media Type (RFC 9110, section 15.5.16).
pub const HTTP_UNSUPPORTED_MEDIA_TYPE: u32 = 415;
