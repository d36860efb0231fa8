//! Sending what is unsent.

ghost use Rattle.std.specs.Prelude.{◌≡◌, ◌<◌, ◌≤◌, length, drop};
ghost use Rattle.wl_edge.specs.Edge.{Rose};
ghost use Rattle.wl_edge.specs.Links.{TriesToSend};
ghost use Rattle.wl_worker.specs.Sending.{Passes};

use output_parts::Output;
use wl_edge::{Link, TrySent};

/// How a sending came to its end.
#[derive(Clone, Copy, Debug, Drop, PartialEq, Eq)]
pub enum Flushed {
    /// All was taken.
    All,
    /// The link takes nothing for now.
    Later,
    /// A sending failed.
    Failed,
}

/// Tries once to send bytes of an output from there on. Where they don't lie in one piece, as many as there is room for are
/// copied into what is lent.
fn try_send_from<L: Link>(link: &mut L, output: &Output, start: usize, lent: &mut [u8]) -> TrySent
    requires room { 0 < length lent.old }
    requires start { start < length output.now }
    ensures len { length lent.new ≡ length lent.old }
    ensures takes { TriesToSend (L.told link.old) (L.told link.new) (L.failed_sends link.old) (L.failed_sends link.new)
        (L.stalls link.old) (L.stalls link.new) (drop start output.now) result }
    ensures receives { L.failed_receives link.new ≡ L.failed_receives link.old }
    ensures origin { L.origin link.new ≡ L.origin link.old }
{
    if let Some(bytes) = output.as_plain() {
        return link.try_send(bytes.split_at(start).1);
    }
    let count = output.copy_from(start, lent);
    link.try_send(lent.split_at(count).0)
}

/// Sends the bytes of an output from there on until none is left, or the link takes no more for now. After each sending it
/// lets go of what was sent, so that the next one finds its place at once. How many bytes at the front of what is left were
/// sent stands beside. Where bytes don't lie in one piece they are copied into what is lent, which is not empty.
pub fn flush_output<L: Link>(
    link: &mut L,
    output: &mut Output,
    start: usize,
    lent: &mut [u8],
) -> (usize, Flushed)
    requires room { 0 < length lent.old }
    requires start { start ≤ length output.old }
    ensures within { result.0 ≤ length output.new }
    ensures passes { Passes (L.told link.old) (L.told link.new) (drop start output.old) (drop result.0 output.new) }
    ensures all { result.1 ≡ Flushed.All → result.0 ≡ length output.new }
    ensures left { result.1 ≡ Flushed.Later → result.0 < length output.new }
    ensures later { result.1 ≡ Flushed.Later → Rose (L.stalls link.old) (L.stalls link.new) }
    ensures failed { result.1 ≡ Flushed.Failed → Rose (L.failed_sends link.old) (L.failed_sends link.new) }
    ensures sends { L.failed_sends link.old ≤ L.failed_sends link.new }
    ensures stalls { L.stalls link.old ≤ L.stalls link.new }
    ensures receives { L.failed_receives link.new ≡ L.failed_receives link.old }
    ensures origin { L.origin link.new ≡ L.origin link.old }
{
    let mut sent = start;
    'sends: while sent < output.len() {
        match try_send_from(link, output, sent, lent) {
            TrySent::Took(count) => sent = output.let_go(sent + count),
            TrySent::Later => return (sent, Flushed::Later),
            TrySent::Failed => return (sent, Flushed::Failed),
        }
    }
    (sent, Flushed::All)
}
