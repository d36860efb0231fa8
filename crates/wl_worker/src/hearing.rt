//! Hearing the link.

ghost use Rattle.std.specs.Prelude.{◌≡◌, ◌<◌, ◌≤◌, Ok, Err, length};
ghost use Rattle.wl_edge.specs.Edge.{Rose};
ghost use Rattle.wl_worker.specs.Sending.{Hears};

use crate::ended::Ended;
use wl_edge::{Link, Received};

/// Receives once. How many bytes came is answered, which is 0 where the link is idle; or the end that the
/// connection has come to: Closed or ReadFault.
pub fn hear<L: Link>(link: &mut L, buffer: &mut [u8]) -> Result<usize, Ended>
    requires { 0 < length buffer.old }
    ensures hears { Hears (L.told link.old) (L.told link.new) buffer.new result }
    ensures failed { result ≡ Err Ended.ReadFault
        → Rose (L.failed_receives link.old) (L.failed_receives link.new) }
    ensures receives { L.failed_receives link.old ≤ L.failed_receives link.new }
    ensures sends { L.failed_sends link.new ≡ L.failed_sends link.old }
    ensures stalls { L.stalls link.new ≡ L.stalls link.old }
    ensures origin { L.origin link.new ≡ L.origin link.old }
{
    match link.receive(buffer) {
        Received::Got(count) => Ok(count),
        Received::Idle => Ok(0),
        Received::End => Err(Ended::Closed),
        Received::Failed => Err(Ended::ReadFault),
    }
}
