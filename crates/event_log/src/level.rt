//! How grave an event is.

ghost use Rattle.std.specs.Prelude.{◌≡◌, nat_le};
ghost use Rattle.event_log.specs.Events.{level_name, rank};

/// How grave an event is, and how much a log says.
#[derive(Clone, Copy, Debug, Drop, PartialEq, Eq)]
pub enum Level {
    /// The agent can't do its work.
    Error,
    /// Somebody has to look.
    Warn,
    /// What an operator wants to know on a day without trouble.
    Info,
    /// Each connection and each call.
    Debug,
}

impl Level {
    /// 0 for errors, 3 for each connection and each call.
    #[tactic(auto, unfolding(crate::specs::Events::rank))]
    pub fn rank(self) -> u8
        ensures { result ≡ rank self }
    {
        match self {
            Level::Error => 0,
            Level::Warn => 1,
            Level::Info => 2,
            Level::Debug => 3,
        }
    }

    /// Its name in a line.
    #[tactic(auto, unfolding(crate::specs::Events::level_name))]
    pub fn name(self) -> &'static [u8]
        ensures { result.now ≡ level_name self }
    {
        match self {
            Level::Error => b"error",
            Level::Warn => b"warn",
            Level::Info => b"info",
            Level::Debug => b"debug",
        }
    }
}
