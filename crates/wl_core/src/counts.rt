//! What a world has done so far.

ghost use Rattle.std.specs.Prelude.{◌≡◌};
ghost use Rattle.wl_core.specs.Seats.{HasMemoryAt, begun_at};
ghost use Rattle.wl_core.specs.Counts.{counted, octets_in, octets_of};

use crate::lines::Line;
use crate::seats::Seat;

/// What a world has done so far. Each count stands still at its type's end.
#[derive(Clone, Copy, Debug, PartialEq, Eq)]
pub struct Counts {
    pub publications: u64,
    /// Messages whose writing began.
    pub responses: u64,
    /// Bytes written to callers.
    pub octets: u64,
}

/// How many bytes a line says were written.
fn octets_in(line: &Line) -> u64
    ensures { result ≡ octets_in line.now }
{
    match line {
        Line::Out { conn: _, bytes } => bytes.len() as u64,
        _ => 0,
    }
}

/// How many bytes these lines say were written; the count stands still at its type's end.
pub fn octets_of(lines: &[Line]) -> u64
    ensures { result ≡ counted (octets_of lines.now) }
{
    let mut octets: u64 = 0;
    for line in lines {
        octets = octets.saturating_add(octets_in(line));
    }
    octets
}

/// How many messages began in the session on a connection.
pub fn begun_at(seat: &Option<Seat>) -> u64
    ensures { HasMemoryAt seat.now → result ≡ begun_at seat.now }
{
    match seat {
        None => 0,
        Some(seat) => seat.begun(),
    }
}
