//! Header fields.

ghost use Rattle.std.specs.Prelude.{◌≡◌, IfOk};

use crate::memory::Memory;
use crate::octets::Octets;
use std::alloc::Global;

/// A header field: its name and its value, as the peer sent them.
#[derive(Drop, PartialEq)]
pub struct Header {
    pub name: Octets,
    pub value: Octets,
}

impl Header {
    /// A copy.
    pub fn copy(&self, alloc: Global) -> Result<Header, Memory>
        ensures { IfOk result (λ h. h ≡ self.now) }
    {
        Ok(Header {
            name: self.name.copy(alloc)?,
            value: self.value.copy(alloc)?,
        })
    }
}
