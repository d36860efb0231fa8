//! How large the table and the lists of header compression may be.

/// The dynamic table's largest size, which is that at the start: this side announces no other
/// (RFC 9113, section 6.5.2). Sizes are those of RFC 7541, section 4.1: name, value and 32 each.
pub const MAX_TABLE_SIZE: u32 = 4_096;
/// The largest size of all headers of a block together (own rule).
pub const MAX_LIST_SIZE: u32 = 16_384;
