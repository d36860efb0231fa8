//! Samples with one label whose value is a word.

ghost use Rattle.std.specs.Prelude.{◌≡◌};
ghost use Rattle.figures.specs.Samples.{family_of, key_of, word_of};

use crate::family::Family;
use crate::labels::{Direction, DocumentResult, FaultCause, IdentityState};

/// What a sample counts: the word of its one label, and so its family.
#[derive(Clone, Copy, Debug, Drop, PartialEq, Eq)]
pub(crate) enum Counted {
    Document(DocumentResult),
    Identity(IdentityState),
    Fault(FaultCause),
    Bytes(Direction),
}

impl Counted {
    /// The family of the sample.
    #[tactic(auto, unfolding(crate::specs::Samples::family_of))]
    pub(crate) fn family(self) -> Family
        ensures { result ≡ family_of self }
    {
        match self {
            Counted::Document(_) => Family::Documents,
            Counted::Identity(_) => Family::Identities,
            Counted::Fault(_) => Family::ConnectionFaults,
            Counted::Bytes(_) => Family::Bytes,
        }
    }

    /// The key of its label.
    #[tactic(auto, unfolding(crate::specs::Samples::key_of))]
    pub(crate) fn key(self) -> &'static [u8]
        ensures { result.now ≡ key_of self }
    {
        match self {
            Counted::Document(_) => b"result",
            Counted::Identity(_) => b"state",
            Counted::Fault(_) => b"cause",
            Counted::Bytes(_) => b"direction",
        }
    }

    /// The value of its label.
    #[tactic(auto, unfolding(crate::specs::Samples::word_of))]
    pub(crate) fn word(self) -> &'static [u8]
        ensures { result.now ≡ word_of self }
    {
        match self {
            Counted::Document(outcome) => outcome.name(),
            Counted::Identity(state) => state.name(),
            Counted::Fault(cause) => cause.name(),
            Counted::Bytes(direction) => direction.name(),
        }
    }
}
