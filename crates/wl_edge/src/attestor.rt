//! Who says whose a call is.

ghost use Rattle.std.specs.Prelude.{ℕ, List, Option};
ghost use Rattle.wl_edge.specs.Calls.{Answers};
ghost use Rattle.wl_edge.specs.declared.attestor.AttestorCall.{AttestorCall};

use crate::fault::EdgeFault;
use crate::origin::Origin;
use wl_selector::Selectors;

/// One call of an attestor with its answer, which is none where the call failed.
#[derive(Drop, PartialEq)]
pub struct AttestorCall {
    /// Where the caller came from.
    pub origin: Origin,
    pub answer: Option<Selectors>,
}

/// Says which selectors a caller has.
pub trait Attestor {
    /// Its calls, where it tells them.
    ghost calls: { Self → Option (List AttestorCall) };

    /// How often a call has failed. It never falls; at 2^64-1 it stays.
    ghost faults: { Self → ℕ };

    /// The selectors of a caller who came from there.
    fn attest(&mut self, origin: &Origin) -> Result<Selectors, EdgeFault>
        ensures { Answers (calls self.old) (calls self.new) (faults self.old) (faults self.new)
            (λ answer. record { origin = origin.now; answer = answer }) result };
}
