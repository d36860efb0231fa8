//! Which links are ready, and how one who waits for that is woken.

ghost use Rattle.std.specs.Prelude.{◌≡◌, ◌≤◌, ℕ, IsErrOf};
ghost use Rattle.list_laws.specs.Lists.{BeginsWith};
ghost use Rattle.wl_edge.specs.Edge.{Rose};

use crate::fault::EdgeFault;
use crate::link::Link;
use wl_octets::Row;

/// Watches links under numbers. It tells no content.
pub trait Ready<L: Link> {
    /// How often a call has failed. It never falls; at 2^64-1 it stays.
    ghost faults: { Self → ℕ };

    /// Watches a link under this number. Nothing is given or taken.
    fn add(&mut self, number: u32, link: &mut L) -> Result<(), EdgeFault>
        ensures told { L.told link.new ≡ L.told link.old }
        ensures receives { L.failed_receives link.new ≡ L.failed_receives link.old }
        ensures sends { L.failed_sends link.new ≡ L.failed_sends link.old }
        ensures stalls { L.stalls link.new ≡ L.stalls link.old }
        ensures origin { L.origin link.new ≡ L.origin link.old }
        ensures failed { IsErrOf result EdgeFault.Failed → Rose (faults self.old) (faults self.new) }
        ensures later { faults self.old ≤ faults self.new };

    /// Watches the link of this number no more. Nothing is given or taken.
    fn remove(&mut self, number: u32, link: &mut L)
        ensures told { L.told link.new ≡ L.told link.old }
        ensures receives { L.failed_receives link.new ≡ L.failed_receives link.old }
        ensures sends { L.failed_sends link.new ≡ L.failed_sends link.old }
        ensures stalls { L.stalls link.new ≡ L.stalls link.old }
        ensures origin { L.origin link.new ≡ L.origin link.old }
        ensures later { faults self.old ≤ faults self.new };

    /// Waits until links may be ready, their bell rang or a short while has passed, and appends the numbers of those
    /// that may be ready, if any. What was lent keeps what it held.
    fn wait(&mut self, into: &mut Row<u32>) -> Result<(), EdgeFault>
        ensures kept { BeginsWith into.new into.old }
        ensures failed { IsErrOf result EdgeFault.Failed → Rose (faults self.old) (faults self.new) }
        ensures later { faults self.old ≤ faults self.new };
}

/// Wakes one who waits for links of a seat. After a ring the next `wait` of that seat appends every number that was
/// added and not removed; no clause says so.
pub trait Bell {
    /// Rings. It answers nothing and has no fault.
    fn ring(&self);
}
