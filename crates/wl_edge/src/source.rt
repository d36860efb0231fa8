//! Where bytes come from.

ghost use Rattle.std.specs.Prelude.{ℕ, List, Option, ◌<◌, length};
ghost use Rattle.wl_edge.specs.Edge.{Reads};

/// The answer of one read.
#[derive(Clone, Copy, Debug, Drop, PartialEq)]
pub enum Taken {
    /// So many bytes came, at least 1; they stand at the front of what was lent.
    Got(usize),
    /// No bytes are left.
    End,
    /// The read failed.
    Failed,
}

/// A stream of bytes that are read once.
pub trait Source {
    /// The bytes that are left, where it tells them.
    ghost left: { Self → Option (List ℕ) };

    /// How often a read has failed. It never falls; at 2^64-1 it stays.
    ghost faults: { Self → ℕ };

    /// Reads some bytes into what is lent, which is not empty.
    fn read(&mut self, into: &mut [u8]) -> Taken
        requires { 0 < length into.old }
        ensures { Reads (left self.old) (left self.new) (faults self.old) (faults self.new) (length into.old) into.new result };
}
