//! A time, as text of a line.

ghost use Rattle.std.specs.Prelude.{◌≡◌, IfOk};

use jiff_core::Timestamp;
use jiff_fmt::temporal::DateTimePrinter;
use std::alloc::Global;
use std::marker::Model;
use wl_octets::{Memory, Octets};

/// How many nanoseconds a second has.
const NANOSECONDS: i128 = 1_000_000_000;

/// What stands for a time beyond the calendar, the year 9999.
const BEYOND: &[u8] = b"?";

/// A time in whole seconds, by RFC 3339 in UTC: `2026-11-29T05:10:00Z`.
#[derive(Drop)]
pub struct TimeText {
    text: Octets,
}

impl Model for TimeText {
    ghost use Rattle.std.specs.Prelude.{List, ℕ};

    ghost Value = { List ℕ };

    ghost view = { λ t. t.text };
}

impl TimeText {
    /// The time so many seconds after the Unix epoch.
    pub fn at(alloc: Global, seconds: u64) -> Result<TimeText, Memory> {
        let text = match Timestamp::from_nanosecond(i128::from(seconds) * NANOSECONDS) {
            Ok(time) => {
                let text = DateTimePrinter::new().timestamp_text(time);
                Octets::from_slice(alloc, text.as_str().as_bytes())?
            }
            Err(_) => Octets::from_slice(alloc, BEYOND)?,
        };
        Ok(TimeText { text })
    }

    /// Its bytes.
    pub fn as_slice(&self) -> &[u8]
        ensures { result.now ≡ self.now }
    {
        self.text.as_slice()
    }
}
