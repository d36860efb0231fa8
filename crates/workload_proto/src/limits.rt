//! Limits of messages.

/// The most bytes of a request's message (own rule: 32 KiB).
pub const MAX_REQUEST_LEN: u32 = 32_768;

/// The most bytes of a response's message (own rule, as gRPC's own default: 4 MiB).
pub const MAX_RESPONSE_LEN: u32 = 4_194_304;
