//! The identifiers of settings (RFC 9113, section 6.5.2).

pub const HEADER_TABLE_SIZE: u16 = 1;

pub const ENABLE_PUSH: u16 = 2;

pub const MAX_CONCURRENT_STREAMS: u16 = 3;

pub const INITIAL_WINDOW_SIZE: u16 = 4;

pub const MAX_FRAME_SIZE: u16 = 5;

pub const MAX_HEADER_LIST_SIZE: u16 = 6;
