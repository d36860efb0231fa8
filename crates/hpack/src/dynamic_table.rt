//! The dynamic table (RFC 7541, sections 2.3.2 and 4).
#![tactic(auto)]

ghost use Rattle.std.specs.Prelude.{◌≡◌, ◌≤◌, ◌<◌, OnOk};
ghost use Rattle.hpack.specs.declared.limit.TheConstants.{MAX_TABLE_SIZE};
ghost use Rattle.hpack.specs.Tables.{Table, first_table, size_of, list_size, evict_to_fit, with_item, with_maximum, entry_at, name_of, IsWithin};
ghost use Rattle.hpack.specs.Outcomes.{Gives};

use crate::fault::HpackFault;
use crate::limit::MAX_TABLE_SIZE;
use crate::static_table::{COUNT, static_name, static_value};
use std::alloc::Global;
use std::collections::VecDeque;
use std::marker::Model;
use wl_octets::{Header, Memory, Octets};

/// The size of a header as the standard counts it (section 4.1).
pub(crate) fn size(header: &Header) -> u128
    ensures { result ≡ size_of header.now }
{
    header.name.len() as u128 + header.value.len() as u128 + 32
}

/// Evicts the oldest headers until the others, whose sizes sum to the answer, fit into the room.
fn evict(items: &mut VecDeque<Header>, size_before: u32, room: u32) -> u32
    requires { size_before ≡ list_size items.old.items }
    ensures items { items.new.items ≡ evict_to_fit room items.old.items }
    ensures size { result ≡ list_size items.new.items }
    ensures fits { result ≤ room }
{
    let mut total = size_before;
    while total > room {
        let Some(oldest) = items.pop_back() else {
            return 0;
        };
        total -= size(&oldest) as u32;
    }
    total
}

/// A header in one of the tables.
#[derive(Clone, Copy)]
pub(crate) struct Field<'a> {
    pub name: &'a [u8],
    pub value: &'a [u8],
}

/// The headers that a peer has put into the table, newest first.
#[derive(Drop)]
pub(crate) struct DynamicTable {
    items: VecDeque<Header>,
    total: u32,
    most: u32,
}

impl Model for DynamicTable {
    ghost Value = { Table };

    ghost view = { λ table. record { items = table.items.items; most = table.most } };

    ghost invariant = { λ table. (table.total ≡ list_size table.items.items) × (table.total ≤ table.most) × (table.most ≤ MAX_TABLE_SIZE) };
}

impl DynamicTable {
    /// The empty table. It takes no memory.
    pub fn start(alloc: Global) -> DynamicTable
        ensures { result ≡ first_table }
    {
        DynamicTable {
            items: VecDeque::new(alloc),
            total: 0,
            most: MAX_TABLE_SIZE,
        }
    }

    /// What every table keeps to, for a proof of its holder's; it does nothing.
    pub fn bounds(&self)
        ensures { IsWithin self.now }
    {
        let _most = self.most;
    }

    /// Sets the maximum size, and evicts what is past it (section 4.3).
    pub fn resize(&mut self, most: u32)
        requires { most ≤ MAX_TABLE_SIZE }
        ensures { self.new ≡ with_maximum self.old most }
    {
        self.total = evict(&mut self.items, self.total, most);
        self.most = most;
    }

    /// Adds a copy of a header, and evicts what is past the maximum size then (section 4.4).
    pub fn insert(&mut self, alloc: Global, header: &Header) -> Result<(), Memory>
        ensures { OnOk result (self.new ≡ with_item self.old header.now) }
    {
        let size = size(header);
        if size > u128::from(self.most) {
            self.items.clear();
            self.total = 0;
            return Ok(());
        }
        let size = size as u32;
        let item = header.copy(alloc)?;
        self.total = evict(&mut self.items, self.total, self.most - size);
        self.items.push_front(item)?;
        self.total += size;
        Ok(())
    }

    /// The header at an index, which counts from 1 through the static table and then this one (section 2.3.3).
    pub fn field(&self, index: u32) -> Result<Field<'_>, HpackFault>
        ensures { Gives (λ field. record { name = field.name.now; value = field.value.now }) result
            (entry_at self.now.items index) }
    {
        if index == 0 {
            return Err(HpackFault::Index);
        }
        let place = index as usize - 1;
        if place < COUNT {
            return Ok(Field {
                name: static_name(place),
                value: static_value(place),
            });
        }
        match self.items.get(place - COUNT) {
            Some(header) => Ok(Field {
                name: header.name.as_slice(),
                value: header.value.as_slice(),
            }),
            None => Err(HpackFault::Index),
        }
    }

    /// A copy of the header at an index.
    pub fn header(&self, alloc: Global, index: u32) -> Result<Header, HpackFault>
        ensures { Gives (λ header. header) result (entry_at self.now.items index) }
    {
        let field = self.field(index)?;
        Ok(Header {
            name: Octets::from_slice(alloc, field.name)?,
            value: Octets::from_slice(alloc, field.value)?,
        })
    }

    /// A copy of the name at an index.
    pub fn name(&self, alloc: Global, index: u32) -> Result<Octets, HpackFault>
        ensures { Gives (λ name. name) result (name_of (entry_at self.now.items index)) }
    {
        let field = self.field(index)?;
        Ok(Octets::from_slice(alloc, field.name)?)
    }
}
