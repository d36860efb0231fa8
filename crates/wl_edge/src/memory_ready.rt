//! A watcher of links in memory, and its bell.

ghost use Rattle.std.specs.Prelude.{◌≡◌, ◌++◌, [], OnOk, IfErr};
ghost use Rattle.list_laws.specs.Lists.{BeginsWith};
ghost use Rattle.wl_edge.specs.Edge.{FailsOrStays};

use crate::fault::EdgeFault;
use crate::link::Link;
use crate::memory_link::MemoryLink;
use crate::ready::{Bell, Ready};
use std::alloc::Global;
use std::sync::atomic::{AtomicU64, Ordering};
use wl_octets::Row;

/// A watcher that takes every link to be ready at each wait. Some of its calls fail, by their number from 0; `add` and
/// `wait` are counted together.
#[derive(Drop)]
pub struct MemoryReady {
    /// The numbers that are watched, in the order in which they were added.
    pub numbers: Row<u32>,
    failing: Row<u64>,
    calls: u64,
    pub(crate) faults: u64,
}

impl MemoryReady {
    /// A watcher of no links.
    pub fn start(alloc: Global, failing: Row<u64>) -> MemoryReady
        ensures empty { result.numbers ≡ [] }
        ensures fresh { ⟦<MemoryReady as Ready<MemoryLink>>⟧.faults result ≡ 0 }
    {
        MemoryReady {
            numbers: Row::empty(alloc),
            failing,
            calls: 0,
            faults: 0,
        }
    }
}

/// Whether the call of this number fails. It is counted, and so is its failure.
fn fails(failing: &Row<u64>, calls: &mut u64, faults: &mut u64) -> bool
    ensures { FailsOrStays faults.old faults.new result }
{
    let number = *calls;
    *calls = calls.saturating_add(1);
    if failing.as_slice().contains(&number) {
        *faults = faults.saturating_add(1);
        return true;
    }
    false
}

/// Puts these numbers after others, as far as there is memory.
fn append(numbers: &[u32], into: &mut Row<u32>) -> Result<(), EdgeFault>
    ensures kept { BeginsWith into.new into.old }
    ensures all { OnOk result (into.new ≡ into.old ++ numbers.now) }
    ensures fault { IfErr result (λ e. e ≡ EdgeFault.Memory) }
{
    for number in numbers {
        into.push(*number)?;
    }
    Ok(())
}

impl<L: Link> Ready<L> for MemoryReady {
    ghost faults = { λ r. r.faults };

    fn add(&mut self, number: u32, _link: &mut L) -> Result<(), EdgeFault> {
        if fails(&self.failing, &mut self.calls, &mut self.faults) {
            return Err(EdgeFault::Failed);
        }
        if !self.numbers.as_slice().contains(&number) {
            self.numbers.push(number)?;
        }
        Ok(())
    }

    fn remove(&mut self, number: u32, _link: &mut L) {
        if let Some(at) = self.numbers.as_slice().iter().position(|n| *n == number) {
            self.numbers.remove(at);
        }
    }

    fn wait(&mut self, into: &mut Row<u32>) -> Result<(), EdgeFault> {
        if fails(&self.failing, &mut self.calls, &mut self.faults) {
            return Err(EdgeFault::Failed);
        }
        append(self.numbers.as_slice(), into)
    }
}

/// A bell that counts how often it rang.
#[derive(Drop)]
pub struct MemoryBell {
    rings: AtomicU64,
}

impl MemoryBell {
    /// A bell that has not rung.
    pub fn start() -> MemoryBell {
        MemoryBell {
            rings: AtomicU64::new(0),
        }
    }

    /// How often it rang.
    pub fn rings(&self) -> u64 {
        self.rings.load(Ordering::SeqCst)
    }
}

impl Bell for MemoryBell {
    fn ring(&self) {
        self.rings.fetch_add(1, Ordering::SeqCst);
    }
}
