//! Where documents come from.

ghost use Rattle.std.specs.Prelude.{ℕ, Option};
ghost use Rattle.wl_edge.specs.Upstreams.{UpstreamLog, Pulls};

use crate::fault::EdgeFault;
use wl_octets::Octets;

/// The most bytes of a document that a pull appends: one more than a document may have.
pub const MAX_PULLED: usize = 16_777_217;

/// One pull: what was lent, and the document that was appended, which is none where the pull failed.
#[derive(Drop, PartialEq)]
pub struct PullCall {
    pub into: Octets,
    pub answer: Option<Octets>,
}

/// Gives the present document.
pub trait Upstream {
    /// Its calls and their number, where it tells them.
    ghost told: { Self → Option UpstreamLog };

    /// How often a pull has failed. It never falls; at 2^64-1 it stays.
    ghost faults: { Self → ℕ };

    /// Appends one document, at most 16,777,217 bytes of it. Where it gives none, what was lent is as it was.
    fn pull(&mut self, into: &mut Octets) -> Result<(), EdgeFault>
        ensures { Pulls (told self.old) (told self.new) (faults self.old) (faults self.new) into.old into.new result };

    /// Whether it knows, at next to no cost, that a pull now would give what the last pull gave, which ended well. Where it does, this
    /// counts as that pull. Ask it only where the document of the last pull was taken.
    fn is_unchanged(&self) -> bool {
        false
    }

    /// Notes that the document of the last pull was taken, and is shown by the publication of this number. Nothing hangs
    /// on it.
    fn note_taken(&self, _publication: u64) {}
}
