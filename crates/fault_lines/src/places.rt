//! Places.

/// Where a fault is: the part, the index of the array's item, the field, and the item in the field's own array.
#[derive(Clone, Copy)]
pub(crate) struct Place {
    pub(crate) part: u64,
    pub(crate) index: u64,
    pub(crate) field: u64,
    pub(crate) item: u64,
}
