//! The limits of what an authority gives.

/// How many entries there are at most.
pub const MAX_ENTRIES: usize = 10_000;
/// How many bundles there are at most.
pub const MAX_BUNDLES: usize = 1_024;
/// How many bytes the id of an entry has at most.
pub const MAX_ID_LEN: usize = 128;
/// How many selectors an entry has at most.
pub const MAX_SELECTORS: usize = 64;
/// With how many domains an entry federates at most.
pub const MAX_FEDERATED: usize = 64;
/// How many DNS names an entry has at most.
pub const MAX_DNS_NAMES: usize = 64;
/// How many bytes a hint has at most.
pub const MAX_HINT_LEN: usize = 1_024;
/// How many bytes a part of a bundle has at most.
pub const MAX_PART_LEN: usize = 1_048_576;
/// How many bytes a chain and its key have together at most.
pub const MAX_SIGNED_LEN: usize = 65_536;
