//! Tables of bytes that are a fault, or come near it.

use super::frames::*;

/// Bytes that may be a fault: parts, each so many times.
#[derive(Clone, Copy)]
pub struct Broken {
    pub name: &'static str,
    pub fed: &'static [(&'static [u8], u32)],
    /// The code of the fault.
    pub code: Option<u32>,
    pub wrote: &'static [(&'static [u8], u32)],
}

pub const FAULTS: [Broken; 3] = [
    Broken {
        name: "bad_preface",
        fed: &[(b"X", 1)],
        code: Some(1),
        wrote: &[(OWN_SETTINGS, 1), (GOAWAY_PROTOCOL, 1)],
    },
    Broken {
        name: "settings_flood",
        fed: &[(PREFACE, 1), (SETTINGS, 101)],
        code: Some(11),
        wrote: &[(OWN_SETTINGS, 1), (ACK, 100), (GOAWAY_FLOOD, 1)],
    },
    Broken {
        name: "a call between 200 SETTINGS",
        fed: &[(PREFACE, 1), (SETTINGS, 100), (HEAD, 1), (SETTINGS, 100)],
        code: None,
        wrote: &[(OWN_SETTINGS, 1), (ACK, 200)],
    },
];

/// A call whose message has 32,768 bytes, all of unknown fields.
pub const LONGEST: &[(&[u8], u32)] = &[
    (OPENING, 1),
    (HEAD, 1),
    (b"\0\0\x05\0\0\0\0\0\x01\0\0\0\x80\0", 1),
    (b"\0\x40\0\0\0\0\0\0\x01", 1),
    (b"\x78\x01", 8192),
    (b"\0\x40\0\0\x01\0\0\0\x01", 1),
    (b"\x78\x01", 8192),
];
