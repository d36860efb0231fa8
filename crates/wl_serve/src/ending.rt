//! How serving ends.

ghost use Rattle.std.specs.Prelude.{◌≡◌, map};
ghost use Rattle.std.specs.List.{list_any};
ghost use Rattle.wl_serve.specs.Serving.{end_of, has_fault, lacks_memory};

use ask_mail::TokenAsks;
use wl_config::ConfigFault;
use wl_document::DocFault;
use wl_edge::Listener;
use wl_worker::{Seat, SeatEnd};

/// How serving ended.
#[derive(Clone, Copy, Debug, Drop, PartialEq, Eq)]
pub enum ServeEnd {
    /// The configuration has this fault, and nothing was prepared.
    Config(ConfigFault),
    /// The host could not prepare what the configuration names, or, once the first document was taken, not open its sockets.
    Unprepared,
    /// The upstream gave no first document.
    NoDocument,
    /// The first document has this fault.
    Document(DocFault),
    /// All seats were served, and some listener failed, or what watches its links.
    HostFault,
    /// Memory ran out.
    Memory,
    /// All seats were served, and every listener came to its end.
    Done,
}

/// Whether a seat ended by a fault of its listener or of what watches its links.
fn is_host_fault(end: Option<SeatEnd>) -> bool
    ensures { result ≡ has_fault end }
{
    matches!(end, Some(SeatEnd::ListenFault | SeatEnd::WaitFault))
}

/// Whether a seat ended for lack of memory.
fn is_memory(end: Option<SeatEnd>) -> bool
    ensures { result ≡ lacks_memory end }
{
    matches!(end, Some(SeatEnd::Memory))
}

/// Whether one of the seats ended by such a fault.
fn any_host_fault<L: Listener, T: TokenAsks, A, C, P>(seats: &[Seat<L, T, A, C, P>]) -> bool
    ensures { result ≡ list_any (λ s. has_fault s.end) seats.now }
{
    seats.iter().any(|seat| is_host_fault(seat.end))
}

/// Whether one of the seats ended for lack of memory.
fn any_memory<L: Listener, T: TokenAsks, A, C, P>(seats: &[Seat<L, T, A, C, P>]) -> bool
    ensures { result ≡ list_any (λ s. lacks_memory s.end) seats.now }
{
    seats.iter().any(|seat| is_memory(seat.end))
}

/// How serving ended, by the ends of its seats.
pub(crate) fn end_of_all<L: Listener, T: TokenAsks, A, C, P>(
    seats: &[Seat<L, T, A, C, P>],
) -> ServeEnd
    ensures { result ≡ end_of (map (λ s. s.end) seats.now) }
{
    if any_host_fault(seats) {
        return ServeEnd::HostFault;
    }
    if any_memory(seats) {
        return ServeEnd::Memory;
    }
    ServeEnd::Done
}
