//! A clock in memory.

ghost use Rattle.std.specs.Prelude.{◌≡◌, [], Some};
ghost use Rattle.wl_edge.specs.Clocks.{ticks_in_memory};

use crate::clock::Clock;
use wl_octets::Row;

/// A clock that gives the answers of a list, then repeats the last one, or 0 where there is none. It counts the
/// repeats, and after 2^64-1 of them tells its answers no more.
#[derive(Drop)]
pub struct MemoryClock {
    pub(crate) times: Row<u64>,
    pub(crate) at: usize,
    pub(crate) repeats: u64,
}

impl MemoryClock {
    /// A clock that gives these answers.
    pub fn start(times: Row<u64>) -> MemoryClock
        ensures { ⟦<MemoryClock as Clock>⟧.answers result ≡ Some [] }
    {
        MemoryClock {
            times,
            at: 0,
            repeats: 0,
        }
    }

    /// How often the last answer was repeated.
    pub fn repeats(&self) -> u64 {
        self.repeats
    }
}

impl Clock for MemoryClock {
    ghost answers = { λ c. ticks_in_memory c.times c.at c.repeats };

    fn now(&mut self) -> u64 {
        let times = self.times.as_slice();
        if self.at < times.len() {
            let answer = times[self.at];
            self.at += 1;
            self.repeats = 0;
            return answer;
        }
        self.repeats = self.repeats.saturating_add(1);
        times.last().copied().unwrap_or(0)
    }
}
