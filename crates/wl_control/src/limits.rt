//! How much is read and awaited (own rules).

/// How many bytes of a server are read at most.
pub(crate) const READ_LIMIT: usize = 67_108_864;

/// How many bytes are read at most by a call without an end.
pub(crate) const ENDLESS_READ_LIMIT: usize = 9_223_372_036_854_775_807;

/// How often in a row nothing may come to such a call: that takes 136 years.
pub(crate) const ENDLESS_IDLES: u32 = 4_294_967_295;

/// How often in a row nothing may come.
pub(crate) const MAX_IDLES: u32 = 600;
