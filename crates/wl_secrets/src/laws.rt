//! Foreign secrets, of all runs.

ghost use Rattle.wl_secrets.specs.Foreign.{ForeignUnseen, ForeignUntold, OthersUnseen};

/// With other chains and keys of foreign entries, each fit where the other is, and without some foreign sessions, the trace
/// of a session that was entitled to entries of the set alone is the same.
pub fn foreign_secrets_stay_unseen()
    ensures { ForeignUnseen }
{}

/// So are the bytes that were written to it.
pub fn foreign_secrets_stay_untold()
    ensures { ForeignUntold }
{}

/// Without the events of some foreign connections its trace is the same.
pub fn other_sessions_stay_unseen()
    ensures { OthersUnseen }
{}
