//! Tags of DER that stand in a certificate (ITU-T X.690, section 8.1.2; RFC 5280, section 4.1).

pub const BOOLEAN: u8 = 0x01;

pub const INTEGER: u8 = 0x02;

pub const BIT_STRING: u8 = 0x03;

pub const OCTET_STRING: u8 = 0x04;

pub const OBJECT_IDENTIFIER: u8 = 0x06;

pub const UTC_TIME: u8 = 0x17;

pub const GENERALIZED_TIME: u8 = 0x18;

pub const SEQUENCE: u8 = 0x30;

/// The version of a certificate.
pub const VERSION: u8 = 0xa0;

/// The unique identifier of an issuer.
pub const ISSUER_ID: u8 = 0x81;

/// The unique identifier of a subject.
pub const SUBJECT_ID: u8 = 0x82;

/// The extensions of a certificate.
pub const EXTENSIONS: u8 = 0xa3;

/// A URI among names.
pub const URI: u8 = 0x86;
