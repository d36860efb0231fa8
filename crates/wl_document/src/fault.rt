//! What can be wrong with a document, and where.

ghost use Rattle.std.specs.Prelude.{◌≡◌, ℕ};
ghost use Rattle.wl_document.specs.declared.fault.DocFault.TheVariants.{Memory};

use spiffe_id::IdFault;
use std::alloc::AllocFailed;

/// Where a fault is: part 0 the top, 1 a bundle, 2 an entry, 3 a signed identity; the index of the array item (0 at
/// the top); the field, 0 for the item itself; and the item in the field's own array (0 where it has none).
#[derive(Clone, Copy, Debug, PartialEq, Eq)]
pub struct Place {
    pub part: u8,
    pub index: u32,
    pub field: u8,
    pub item: u32,
}

/// The first check that a document fails.
#[derive(Clone, Copy, Debug, PartialEq, Eq)]
pub enum DocFault {
    /// It isn't JSON.
    NotJson,
    /// Its version is a whole number other than 1 and 2.
    Version,
    /// A member that has to be there is not.
    Missing(Place),
    /// A member is of another kind, or its text or number is out of its range.
    Kind(Place),
    /// A text isn't a valid SPIFFE ID or trust domain name.
    Id(Place, IdFault),
    /// A text isn't a valid selector.
    Selector(Place),
    /// An entry has no selector.
    NoSelectors(Place),
    /// A bundle's domain, or the id of an entry or of a signed identity, was given before.
    Duplicate(Place),
    /// The document is of another trust domain than the own one, or an entry's id is.
    ForeignDomain(Place),
    /// A text isn't standard padded base64.
    Base64(Place),
    /// The own trust domain has no X.509 bundle, or an empty one.
    NoOwnBundle,
    /// An array has so many items, more than its limit.
    TooMany(Place, usize),
    /// The document, a part of a bundle or a hint has so many bytes, more than its limit.
    TooLong(Place, usize),
    /// Memory ran out.
    Memory,
}

impl From<wl_octets::Memory> for DocFault {
    ghost from_gives = { λ _ e. e ≡ Memory };

    fn from(_: wl_octets::Memory) -> DocFault {
        DocFault::Memory
    }
}

impl<T: Drop> From<AllocFailed<T>> for DocFault {
    ghost from_gives = { λ _ e. e ≡ Memory };

    fn from(_: AllocFailed<T>) -> DocFault {
        DocFault::Memory
    }
}

impl Place {
    ghost use Rattle.wl_document.specs.Places.{at_top, at_bundle, at_entry, at_svid, item_at};

    /// A field of the top.
    pub(crate) fn top(field: u8) -> Place
        ensures { result ≡ at_top field }
    {
        Place {
            part: 0,
            index: 0,
            field,
            item: 0,
        }
    }

    /// A field of the bundle at this index.
    pub(crate) fn bundle(index: u32, field: u8) -> Place
        ensures { result ≡ at_bundle index field }
    {
        Place {
            part: 1,
            index,
            field,
            item: 0,
        }
    }

    /// A field of the entry at this index.
    pub(crate) fn entry(index: u32, field: u8) -> Place
        ensures { result ≡ at_entry index field }
    {
        Place {
            part: 2,
            index,
            field,
            item: 0,
        }
    }

    /// A field of the signed identity at this index.
    pub(crate) fn svid(index: u32, field: u8) -> Place
        ensures { result ≡ at_svid index field }
    {
        Place {
            part: 3,
            index,
            field,
            item: 0,
        }
    }

    /// An item of the array at this place.
    pub(crate) fn item(self, item: u32) -> Place
        ensures { result ≡ item_at self item }
    {
        Place { item, ..self }
    }
}
