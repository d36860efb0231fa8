//! Commands.

use wl_selector::Selectors;

/// What the words ask for.
#[derive(Drop)]
pub enum Command {
    /// Something of the input.
    Read(Reading),
    /// The counts of a simulation, for which nothing is read.
    Simulate(Simulation),
}

/// What is asked of the input.
#[derive(Drop)]
pub enum Reading {
    /// The response of a caller with these selectors, on the document.
    Preview(Selectors),
    /// What the document holds.
    Check,
    /// The transcript of the script.
    Replay,
}

/// The seed of a simulation, and how many entries, callers and steps it has.
#[derive(Clone, Copy)]
pub struct Simulation {
    pub seed: u64,
    pub entries: u32,
    pub callers: u32,
    pub steps: u32,
}
