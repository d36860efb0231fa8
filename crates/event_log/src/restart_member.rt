//! Members of the configuration that a running agent keeps as they are.

/// A member of the configuration that takes effect at the next start alone.
#[derive(Clone, Copy, Debug, Drop, PartialEq, Eq)]
pub enum RestartMember {
    Signer,
    Signers,
    Metrics,
    Threads,
    StallSeconds,
    OpeningSeconds,
    MemoryMib,
}
