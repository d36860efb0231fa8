//! Limits of a script.

/// The most bytes of a script.
pub const SCRIPT_LIMIT: usize = 16_777_216;

/// The most selectors of a caller, repeats counted.
pub const MAX_CALLER_SELECTORS: usize = 256;

/// The most entries of a simulation.
pub const MAX_ENTRIES: u32 = 10_000;

/// The most steps of a simulation.
pub const MAX_STEPS: u32 = 100_000;
