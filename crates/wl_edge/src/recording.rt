//! How a call in memory ends.

ghost use Rattle.wl_edge.specs.Scripts.{IsCounted};

use crate::fault::EdgeFault;

/// The answer of a call. One that has none raises the count of faults.
pub(crate) fn counted<A>(answer: Option<A>, faults: &mut u64) -> Result<A, EdgeFault>
    ensures { IsCounted faults.old faults.new answer result }
{
    match answer {
        Some(given) => Ok(given),
        None => {
            *faults = faults.saturating_add(1);
            Err(EdgeFault::Failed)
        }
    }
}
