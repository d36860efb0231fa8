//! Lists by ascending key, as entries by id and bundles by domain.
//!
//! [`find_by_key`] gives the item of a key by binary search, [`place_by_key`] its place, and [`mark_key`] marks it, so that no
//! call walks over a whole list for one item.
#![tactic(auto)]

mod finding;
mod keyed;

pub use finding::{find_by_key, mark_key, place_by_key};
pub use keyed::Keyed;
