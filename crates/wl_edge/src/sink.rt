//! Where bytes go.

ghost use Rattle.std.specs.Prelude.{ℕ, List, Option, ◌<◌, length};
ghost use Rattle.wl_edge.specs.Edge.{Writes};

/// The answer of one write.
#[derive(Clone, Copy, Debug, Drop, PartialEq)]
pub enum Sent {
    /// So many bytes were taken, from the front, at least 1.
    Took(usize),
    /// The write failed.
    Failed,
}

/// A stream that takes bytes.
pub trait Sink {
    /// The bytes that it took, where it tells them.
    ghost taken: { Self → Option (List ℕ) };

    /// How often a write has failed. It never falls; at 2^64-1 it stays.
    ghost faults: { Self → ℕ };

    /// Writes some of the bytes, of which there is at least one.
    fn write(&mut self, bytes: &[u8]) -> Sent
        requires { 0 < length bytes.now }
        ensures { Writes (taken self.old) (taken self.new) (faults self.old) (faults self.new) bytes.now result };
}
