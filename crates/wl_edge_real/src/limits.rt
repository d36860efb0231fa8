//! For how long a link may stand still.

use std::time::{Duration, Instant};

/// After how many seconds a watcher gives up a link. It looks once a second.
#[derive(Clone, Copy, Debug, Drop, PartialEq, Eq)]
pub struct Limits {
    /// After so many seconds in which bytes were unsent and the peer took none.
    pub stall_seconds: u32,
    /// After so many seconds since it came in which no call of it was attested.
    pub opening_seconds: u32,
}

/// Whether so many seconds have passed since then, where it is known.
pub(crate) fn has_passed(seconds: u32, since: Option<Instant>, now: Instant) -> bool {
    match since {
        Some(since) => now.duration_since(since) >= Duration::from_secs(u64::from(seconds)),
        None => false,
    }
}
