//! A watcher of links in memory that begins with no fault.

ghost use Rattle.std.specs.Prelude.{◌≡◌, ◌≤◌, IsErrOf};
ghost use Rattle.wl_edge.specs.Edge.{Rose};

use std::alloc::Global;
use wl_edge::{EdgeFault, Link, MemoryLink, MemoryReady, Ready};
use wl_octets::Row;

/// A [`MemoryReady`] with a count of faults that is 0 at its start.
#[derive(Drop)]
pub struct CountedReady {
    ready: MemoryReady,
    faults: u64,
}

impl CountedReady {
    /// A watcher of no links. Its calls of these numbers fail, `add` and `wait` counted together from 0.
    pub fn start(alloc: Global, failing: Row<u64>) -> CountedReady
        ensures { ⟦<CountedReady as Ready<MemoryLink>>⟧.faults result ≡ 0 }
    {
        CountedReady {
            ready: MemoryReady::start(alloc, failing),
            faults: 0,
        }
    }

    /// Counts a failure.
    fn count(&mut self, answer: Result<(), EdgeFault>) -> Result<(), EdgeFault>
        ensures same { result ≡ answer }
        ensures failed { IsErrOf result EdgeFault.Failed → Rose self.old.faults self.new.faults }
        ensures later { self.old.faults ≤ self.new.faults }
    {
        match answer {
            Ok(()) => Ok(()),
            Err(EdgeFault::Memory) => Err(EdgeFault::Memory),
            Err(EdgeFault::Failed) => {
                self.faults = self.faults.saturating_add(1);
                Err(EdgeFault::Failed)
            }
        }
    }
}

impl<L: Link> Ready<L> for CountedReady {
    ghost faults = { λ r. r.faults };

    fn add(&mut self, number: u32, link: &mut L) -> Result<(), EdgeFault> {
        let answer = self.ready.add(number, link);
        self.count(answer)
    }

    fn remove(&mut self, number: u32, link: &mut L) {
        self.ready.remove(number, link);
    }

    fn wait(&mut self, into: &mut Row<u32>) -> Result<(), EdgeFault> {
        let answer = Ready::<L>::wait(&mut self.ready, into);
        self.count(answer)
    }
}
