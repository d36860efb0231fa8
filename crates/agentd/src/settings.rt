//! What a configuration says of the log.

use event_log::Level;
use wl_config::{Config, LogLevel};

/// The level until a configuration was read.
pub(crate) const DEFAULT_LEVEL: Level = Level::Info;

/// The level of a configuration's log.
pub(crate) fn level_of(config: &Config) -> Level {
    match config.log {
        LogLevel::Error => Level::Error,
        LogLevel::Warn => Level::Warn,
        LogLevel::Info => Level::Info,
        LogLevel::Debug => Level::Debug,
    }
}
