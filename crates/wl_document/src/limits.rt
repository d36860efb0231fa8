//! The limits of a document, beside those of `wl_entry`.

/// How many bytes a document has at most.
pub const DOCUMENT_LIMIT: usize = 16_777_216;
/// How many signed identities a document has at most.
pub const MAX_SVIDS: usize = 10_000;
/// How many bytes a DNS name has at most.
pub const MAX_DNS_NAME_LEN: usize = 253;
/// How many seconds a validity time has at most: 365 days.
pub const MAX_TTL: u64 = 31_536_000;
/// The validity time of an entry that gives none, in seconds.
pub const DEFAULT_TTL: u32 = 3_600;
