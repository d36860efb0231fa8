//! The system's clock.

ghost use Rattle.std.specs.Prelude.{◌≡◌, None};

use std::time::{SystemTime, UNIX_EPOCH};
use wl_edge::Clock;

/// The system's clock. It tells no content. Where the system gives no time, or one before 1970, it answers its last
/// value, which is 0 at first.
#[derive(Drop)]
pub struct RealClock<R> {
    rt: R,
    last: u64,
}

impl<R: std::rt::Clock + Drop> RealClock<R> {
    /// The clock of this runtime.
    pub fn start(rt: R) -> RealClock<R>
        ensures { ⟦<RealClock<R> as Clock>⟧.answers result ≡ None }
    {
        RealClock { rt, last: 0 }
    }
}

/// The seconds since 1970, if the system gives them.
pub(crate) fn seconds(rt: &impl std::rt::Clock) -> Option<u64> {
    let now = SystemTime::now(rt).ok()?;
    Some(now.duration_since(UNIX_EPOCH).ok()?.as_secs())
}

impl<R: std::rt::Clock + Drop> Clock for RealClock<R> {
    ghost answers = { λ c. None };

    fn now(&mut self) -> u64 {
        if let Some(seconds) = seconds(&self.rt) {
            self.last = seconds;
        }
        self.last
    }
}
