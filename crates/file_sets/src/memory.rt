//! A shelf in memory.

ghost use Rattle.std.specs.Prelude.{◌≡◌, [], None, true, IfOk};
ghost use Rattle.file_sets.specs.Held.{held_from, is_number};

use crate::set::File;
use crate::shelf::{Shelf, ShelfFault};
use std::alloc::Global;
use wl_octets::Memory;

/// What was done to a folder: it was made, or this file was put into it.
#[derive(Drop)]
pub struct Deed {
    pub number: u64,
    pub file: Option<File>,
}

/// A shelf that keeps all that was done, and one of whose calls fails, by its number from 0.
#[derive(Drop)]
pub struct MemoryShelf {
    alloc: Global,
    deeds: Vec<Deed>,
    link: Option<u64>,
    synced: Option<u64>,
    turns: u64,
    calls: u64,
    failing: u64,
}

impl MemoryShelf {
    /// An empty shelf, whose call of this number fails.
    pub fn start(alloc: Global, failing: u64) -> MemoryShelf
        ensures tells { ⟦<MemoryShelf as Shelf>⟧.tells result ≡ true }
        ensures link { ⟦<MemoryShelf as Shelf>⟧.link result ≡ None }
    {
        MemoryShelf {
            alloc,
            deeds: Vec::new(alloc),
            link: None,
            synced: None,
            turns: 0,
            calls: 0,
            failing,
        }
    }

    /// The folder that the link names.
    pub fn link(&self) -> Option<u64>
        ensures { result ≡ ⟦<MemoryShelf as Shelf>⟧.link self.now }
    {
        self.link
    }

    /// How many calls were made.
    pub fn calls(&self) -> u64 {
        self.calls
    }

    /// How many files the folder that the link names holds.
    pub fn count(&self) -> usize {
        let mut count: usize = 0;
        for deed in self.deeds.iter() {
            if Some(deed.number) == self.link && deed.file.is_some() {
                count = count.saturating_add(1);
            }
        }
        count
    }
}

fn fails(calls: &mut u64, failing: u64) -> bool {
    let now = *calls;
    *calls = now.saturating_add(1);
    now == failing
}

fn copy(alloc: Global, file: &File) -> Result<File, Memory>
    ensures { IfOk result (λ f. f ≡ file.now) }
{
    Ok(File {
        name: file.name.copy(alloc)?,
        is_secret: file.is_secret,
        bytes: file.bytes.copy(alloc)?,
    })
}

impl Shelf for MemoryShelf {
    ghost tells = { λ s. true };

    ghost link = { λ s. s.link };

    ghost holds = { λ s n. held_from None s.deeds.items n };

    ghost synced = { λ s n. is_number s.synced n };

    ghost turns = { λ s. s.turns };

    #[tactic(auto, using(crate::proofs::Deeds::one_more))]
    fn make(&mut self, number: u64) -> Result<(), ShelfFault> {
        if fails(&mut self.calls, self.failing) {
            return Err(ShelfFault);
        }
        let deed = Deed { number, file: None };
        self.deeds.push(deed).map_err(|_| ShelfFault)
    }

    #[tactic(auto, using(crate::proofs::Deeds::one_more))]
    fn put(&mut self, number: u64, file: &File) -> Result<(), ShelfFault> {
        if fails(&mut self.calls, self.failing) {
            return Err(ShelfFault);
        }
        let Ok(own) = copy(self.alloc, file) else {
            return Err(ShelfFault);
        };
        let deed = Deed {
            number,
            file: Some(own),
        };
        self.synced = None;
        self.deeds.push(deed).map_err(|_| ShelfFault)
    }

    fn sync(&mut self, number: u64) -> Result<(), ShelfFault> {
        if fails(&mut self.calls, self.failing) {
            return Err(ShelfFault);
        }
        self.synced = Some(number);
        Ok(())
    }

    fn point(&mut self, number: u64) -> Result<(), ShelfFault> {
        if self.turns == u64::MAX || fails(&mut self.calls, self.failing) {
            return Err(ShelfFault);
        }
        self.link = Some(number);
        self.turns = self.turns + 1;
        Ok(())
    }
}
