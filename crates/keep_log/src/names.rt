//! The levels and names of events.

ghost use Rattle.std.specs.Prelude.{◌≡◌};
ghost use Rattle.keep_log.specs.Lines.{level_of, event_name};

use crate::event::KeepEvent;
use event_log::Level;

impl KeepEvent {
    /// How grave it is.
    #[tactic(auto, unfolding(crate::specs::Lines::level_of))]
    pub fn level(&self) -> Level
        ensures { result ≡ level_of self.now }
    {
        match self {
            KeepEvent::Written(_) => Level::Info,
            KeepEvent::NotWritten { .. } => Level::Error,
            KeepEvent::Answered(_)
            | KeepEvent::Ended { .. }
            | KeepEvent::TokenFailed { .. }
            | KeepEvent::JwksFailed { .. } => Level::Warn,
        }
    }

    /// Its name in a line.
    #[tactic(auto, unfolding(crate::specs::Lines::event_name))]
    pub(crate) fn name(&self) -> &'static [u8]
        ensures { result.now ≡ event_name self.now }
    {
        match self {
            KeepEvent::Written(_) => b"written",
            KeepEvent::NotWritten { .. } => b"not_written",
            KeepEvent::Answered(_) => b"answered",
            KeepEvent::Ended { .. } => b"ended",
            KeepEvent::TokenFailed { .. } => b"token_failed",
            KeepEvent::JwksFailed { .. } => b"jwks_failed",
        }
    }
}
