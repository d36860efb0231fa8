//! Copies of values and of lists.

ghost use Rattle.std.specs.Prelude.{◌≡◌, IfOk};

use crate::header::Header;
use crate::memory::Memory;
use crate::octets::Octets;
use crate::row::Row;
use crate::shared::Shared;
use std::alloc::Global;

/// What can be copied, where there is memory for it.
pub trait TryClone: Sized {
    /// A copy.
    fn try_clone(&self, alloc: Global) -> Result<Self, Memory>
        ensures { IfOk result (λ copy. copy ≡ self.now) };
}

impl TryClone for Octets {
    fn try_clone(&self, alloc: Global) -> Result<Octets, Memory> {
        self.copy(alloc)
    }
}

impl TryClone for Header {
    fn try_clone(&self, alloc: Global) -> Result<Header, Memory> {
        self.copy(alloc)
    }
}

/// The copy of a shared part is the part itself, with one owner more.
impl<T: Drop> TryClone for Shared<T> {
    fn try_clone(&self, _alloc: Global) -> Result<Shared<T>, Memory> {
        self.share()
    }
}

/// Copies of the items, in their order.
pub fn clone_all<T: TryClone + Drop>(alloc: Global, items: &[T]) -> Result<Row<T>, Memory>
    ensures { IfOk result (λ copies. copies ≡ items.now) }
{
    let mut copies = Vec::with_capacity(alloc, items.len())?;
    for item in items {
        copies.push(item.try_clone(alloc)?)?;
    }
    Ok(Row::from_vec(copies))
}

/// The same parts in their order, each with one owner more.
pub fn share_all<T: Drop>(alloc: Global, parts: &[Shared<T>]) -> Result<Row<Shared<T>>, Memory>
    ensures { IfOk result (λ shares. shares ≡ parts.now) }
{
    clone_all(alloc, parts)
}
