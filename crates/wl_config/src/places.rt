//! Where a fault is.

ghost use Rattle.std.specs.Prelude.{◌≡◌};
ghost use Rattle.wl_document.specs.Places.{at_top, item_at};
ghost use Rattle.wl_config.specs.Places.{at_socket};

use wl_document::Place;

/// A field of the top.
pub(crate) fn top_place(field: u8) -> Place
    ensures { result ≡ at_top field }
{
    Place {
        part: 0,
        index: 0,
        field,
        item: 0,
    }
}

/// A field of the socket at this index.
pub(crate) fn socket_place(index: u32, field: u8) -> Place
    ensures { result ≡ at_socket index field }
{
    Place {
        part: 4,
        index,
        field,
        item: 0,
    }
}

/// An item of the array at this place.
pub(crate) fn item_place(place: Place, item: u32) -> Place
    ensures { result ≡ item_at place item }
{
    Place { item, ..place }
}
