//! Times of a certificate (RFC 5280, section 4.1.2.5).

ghost use Rattle.std.specs.Prelude.{◌≡◌, ◌<◌, ◌≤◌, ◌+◌, length, IfSome, IsTrue};
ghost use Rattle.wl_x509.specs.Times.{two_at, is_day, is_clock, epoch_seconds, from_epoch, unix_seconds, clock_at, short_time, long_time};

use jiff_core::civil::{Date, DateTime, Time, days_in_month};

/// The number of two decimal digits.
#[tactic(auto, unfolding(crate::specs::Times::two_at))]
fn read_two(text: &[u8], at: usize) -> Option<u8>
    requires { at + 1 < length text.now }
    ensures value { result ≡ two_at text.now at }
    ensures bound { IfSome result (λ n. n < 100) }
{
    let (tens, ones) = (text[at], text[at + 1]);
    if !tens.is_ascii_digit() || !ones.is_ascii_digit() {
        return None;
    }
    Some(10 * (tens - b'0') + (ones - b'0'))
}

/// The seconds from 1970 to a date and a time of day.
#[tactic(auto, unfolding(crate::specs::Times::epoch_seconds, jiff_core::specs::DateTime::civil_seconds))]
fn since_epoch(year: u16, month: u8, day: u8, hour: u8, minute: u8, second: u8) -> i64
    requires year { year ≤ 9999 }
    requires day { IsTrue (is_day year month day) }
    requires clock { IsTrue (is_clock hour minute second) }
    ensures { result ≡ epoch_seconds year month day hour minute second }
{
    let date = Date {
        year: year as i16,
        month,
        day,
    };
    let time = Time {
        hour,
        minute,
        second,
        subsec_nanosecond: 0,
    };
    DateTime { date, time }.to_second()
}

/// Whether the calendar has the day.
fn is_day(year: u16, month: u8, day: u8) -> bool
    requires { year ≤ 9999 }
    ensures { result ≡ is_day year month day }
{
    (month >= 1 && month <= 12) && (day >= 1 && day <= days_in_month(year as i16, month))
}

/// Whether a clock shows the time.
fn is_clock(hour: u8, minute: u8, second: u8) -> bool
    ensures { result ≡ is_clock hour minute second }
{
    hour < 24 && minute < 60 && second < 60
}

/// Seconds since 1970, where they are not before.
fn from_epoch(seconds: i64) -> Option<u64>
    ensures { result ≡ from_epoch seconds }
{
    if seconds < 0 {
        return None;
    }
    Some(seconds as u64)
}

/// The Unix seconds of a date and a time of day (UTC), where they are real and from 1970 on.
#[tactic(auto, unfolding(crate::specs::Times::unix_seconds))]
fn seconds(year: u16, month: u8, day: u8, hour: u8, minute: u8, second: u8) -> Option<u64>
    requires { year ≤ 9999 }
    ensures { result ≡ unix_seconds year month day hour minute second }
{
    if !is_day(year, month, day) || !is_clock(hour, minute, second) {
        return None;
    }
    from_epoch(since_epoch(year, month, day, hour, minute, second))
}

/// The Unix seconds of a year and of `MMDDHHMMSSZ` from a place on.
#[tactic(auto, unfolding(crate::specs::Times::clock_at))]
fn read_clock(year: u16, text: &[u8], at: usize) -> Option<u64>
    requires year { year ≤ 9999 }
    requires room { at + 10 < length text.now }
    ensures { result ≡ clock_at year text.now at }
{
    let month = read_two(text, at)?;
    let day = read_two(text, at + 2)?;
    let hour = read_two(text, at + 4)?;
    let minute = read_two(text, at + 6)?;
    let second = read_two(text, at + 8)?;
    if text[at + 10] != b'Z' {
        return None;
    }
    seconds(year, month, day, hour, minute, second)
}

/// The Unix seconds of a UTCTime.
#[tactic(auto, unfolding(crate::specs::Times::short_time))]
pub fn read_short_time(text: &[u8]) -> Option<u64>
    ensures { result ≡ short_time text.now }
{
    if text.len() != 13 {
        return None;
    }
    let year = read_two(text, 0)?;
    let century = if year < 50 { 2000 } else { 1900 };
    read_clock(century + year as u16, text, 2)
}

/// The Unix seconds of a GeneralizedTime.
#[tactic(auto, unfolding(crate::specs::Times::long_time))]
pub fn read_long_time(text: &[u8]) -> Option<u64>
    ensures { result ≡ long_time text.now }
{
    if text.len() != 15 {
        return None;
    }
    let century = read_two(text, 0)?;
    let year = read_two(text, 2)?;
    read_clock(100 * century as u16 + year as u16, text, 4)
}
