//! What holds of the definitions alone.

ghost use Rattle.wl_worker.specs.Rounds.{RoundsAreDetermined};

/// The trace of a served connection is a function of what its rounds took from the outside: the pieces, the attestor's
/// answers, the numbers that were read, and the outcomes, each as one list. How many of them belong to which round is
/// determined, since each whole round takes exactly as many as it has calls and asks.
pub fn rounds_are_determined()
    ensures { RoundsAreDetermined }
{}
