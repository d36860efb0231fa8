//! The limits that both sides of a connection keep.

/// How many bytes a frame's head has (RFC 9113, section 4.1).
pub const HEAD_LEN: usize = 9;
/// How many bytes a payload may have where no setting said otherwise (RFC 9113, section 4.2).
pub const MAX_FRAME_SIZE: u32 = 16_384;
/// The largest size of frames that a setting may allow, in bytes (RFC 9113, section 6.5.2).
pub const MAX_ALLOWED_FRAME_SIZE: u32 = 16_777_215;
/// The largest window, in bytes of DATA (RFC 9113, section 6.9.1).
pub const MAX_WINDOW_SIZE: u32 = 2_147_483_647;
/// Each window at the start, in bytes of DATA (RFC 9113, section 6.9.2).
pub const INITIAL_WINDOW_SIZE: u32 = 65_535;
/// The header table's size at the start, in bytes (RFC 9113, section 6.5.2).
pub const INITIAL_HEADER_TABLE_SIZE: u32 = 4_096;
/// How many streams of a peer may be live at once (own rule).
pub const MAX_LIVE_STREAMS: usize = 16;
/// How many bytes a header block that this side writes may have: it fits one frame after the
/// byte of a size update (own rule).
pub const MAX_BLOCK_LEN: usize = 16_383;
