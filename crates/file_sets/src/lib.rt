//! Sets of files, all or nothing.
//!
//! A set is written into a folder of its own, synced, and then a link is exchanged, through which readers see it: so a
//! reader sees the old set or the new one, whole, and after a crash too.
#![tactic(auto)]

mod folder;
mod memory;
mod publishing;
mod real;
mod set;
mod shelf;

pub use folder::Folder;
pub use memory::{Deed, MemoryShelf};
pub use publishing::publish;
pub use real::RealShelf;
pub use set::File;
pub use shelf::{Shelf, ShelfFault};
