//! What calls are to answer, one after the other, where what is called stands in memory.

ghost use Rattle.std.specs.Prelude.{◌≡◌, [], option_copied};
ghost use Rattle.wl_edge.specs.Scripts.{due_answer, made_once_more};

use wl_octets::Row;

/// What calls of one kind answer. Those of the numbers that fail, from 0, give nothing; each other one gives the
/// answer at its own number, or the last one.
#[derive(Drop)]
pub struct Script<T> {
    pub answers: Row<T>,
    pub failing: Row<u64>,
    /// How many calls were made. At 2^64-1 it stays.
    pub made: u64,
}

impl<T> Script<T> {
    /// A script of which nothing was used yet.
    pub fn start(answers: Row<T>, failing: Row<u64>) -> Script<T>
        ensures { result ≡ record { answers = answers; failing = failing; made = 0 } }
    {
        Script {
            answers,
            failing,
            made: 0,
        }
    }

    /// What the next call answers, if it answers anything.
    pub fn due(&self) -> Option<&T>
        ensures { option_copied result ≡ due_answer self.now }
    {
        if self.failing.as_slice().contains(&self.made) {
            return None;
        }
        let last = self.answers.len().saturating_sub(1);
        self.answers.get((self.made as usize).min(last))
    }

    /// Counts one call more.
    pub fn pass(&mut self)
        ensures { self.new ≡ made_once_more self.old }
    {
        self.made = self.made.saturating_add(1);
    }
}
