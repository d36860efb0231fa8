//! Deadlines on the clock that never goes back.

ghost use Rattle.std.specs.Prelude.{◌≡◌, ◌<◌, ◌+◌, IfSome, IsSome, ◌↔◌};
ghost use Rattle.std.specs.Duration.{as_nanos};
ghost use Rattle.std.specs.Time.{instant_nanos};

use std::io;
use std::io::ErrorKind;
use std::rt::Clock;
use std::time::{Duration, Instant};

/// The moment so long after now.
pub fn deadline_after(rt: &impl Clock, limit: Duration) -> io::Result<Instant> {
    match Instant::now(rt)?.checked_add(limit) {
        Some(deadline) => Ok(deadline),
        None => Err(io::Error::from(ErrorKind::InvalidInput)),
    }
}

/// The time that is left until a deadline. None where it has come.
pub fn time_left(deadline: Instant, now: Instant) -> Option<Duration>
    ensures some { IsSome result ↔ (instant_nanos now < instant_nanos deadline) }
    ensures exact { IfSome result (λ d. as_nanos d + instant_nanos now ≡ instant_nanos deadline) }
{
    match deadline.checked_duration_since(now) {
        Some(left) if left > Duration::ZERO => Some(left),
        _ => None,
    }
}
