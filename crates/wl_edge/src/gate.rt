//! Points at which work may be held.

/// Point 1 is passed before each turn of a served connection.
pub const BEFORE_TURN: u32 = 1;

/// Point 2 is passed before each pull of the present document.
pub const BEFORE_UPKEEP: u32 = 2;

/// Point 3 is passed before each look of the keeper.
pub const BEFORE_KEEPING: u32 = 3;

/// Point 4 is passed before each ask of a signer.
pub const BEFORE_SIGNING: u32 = 4;

/// Holds whoever passes a point, as long as it wants to.
pub trait Gate {
    /// Passes a point. It may wait, answers nothing and has no fault.
    fn pass(&self, point: u32);

    /// Notes the number of the last publication. It does not wait, and nothing hangs on it.
    fn note_publication(&self, _number: u64) {}
}

/// A gate that holds nobody.
#[derive(Clone, Copy, Debug, Drop, PartialEq, Eq)]
pub struct OpenGate;

impl Gate for OpenGate {
    fn pass(&self, _point: u32) {}
}
