//! What time it is.

ghost use Rattle.std.specs.Prelude.{ℕ, List, Option};
ghost use Rattle.wl_edge.specs.Clocks.{Ticks};

/// Tells the time.
pub trait Clock {
    /// Its answers, where it tells them. It may end that for good.
    ghost answers: { Self → Option (List ℕ) };

    /// The time, in Unix seconds. There is no fault.
    fn now(&mut self) -> u64
        ensures { Ticks (answers self.old) (answers self.new) result };
}
