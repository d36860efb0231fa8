//! The error codes of RST_STREAM and GOAWAY (RFC 9113, section 7).

pub const NO_ERROR: u32 = 0;

pub const PROTOCOL_ERROR: u32 = 1;

pub const INTERNAL_ERROR: u32 = 2;

pub const FLOW_CONTROL_ERROR: u32 = 3;

pub const SETTINGS_TIMEOUT: u32 = 4;

pub const STREAM_CLOSED: u32 = 5;

pub const FRAME_SIZE_ERROR: u32 = 6;

pub const REFUSED_STREAM: u32 = 7;

pub const CANCEL: u32 = 8;

pub const COMPRESSION_ERROR: u32 = 9;

pub const CONNECT_ERROR: u32 = 10;

pub const ENHANCE_YOUR_CALM: u32 = 11;

pub const INADEQUATE_SECURITY: u32 = 12;

pub const HTTP_1_1_REQUIRED: u32 = 13;
