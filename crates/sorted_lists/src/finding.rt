//! Finding an item by its key.

ghost use Rattle.std.specs.Prelude.{◌≡◌, ◌||◌, Bool, ◌<◌, map, length, option_map, slice_get, IfSome};
ghost use Rattle.std.specs.Str.{bytes_eq};
ghost use Rattle.std.specs.Ordering.{nat_cmp};
ghost use Rattle.std.specs.Cmp.Lexicographic.{slice_cmp};
ghost use Rattle.list_laws.specs.Lists.{Rises};
ghost use Rattle.list_laws.specs.Keys.{item_at, place_at};

use crate::keyed::Keyed;
use std::cmp::Ordering;

/// The item of this key, in a list by ascending key. It takes no memory, and is found by binary search.
#[tactic(auto, using(crate::proofs::Places::found_there))]
pub fn find_by_key<'a, T: Keyed>(items: &'a [T], key: &[u8]) -> Option<&'a T>
    requires { Rises (map T.key items.now) }
    ensures { option_map (λ x. x.now) result ≡ item_at T.key items.now key.now }
{
    match place_by_key(items, key) {
        Some(place) => item_in(items, place),
        None => None,
    }
}

/// The place of the item of this key, counted from 0, in a list by ascending key. It takes no memory, and is found by
/// binary search.
pub fn place_by_key<T: Keyed>(items: &[T], key: &[u8]) -> Option<usize>
    requires { Rises (map T.key items.now) }
    ensures place { result ≡ place_at T.key items.now key.now }
    ensures within { IfSome result (λ place. place < length items.now) }
{
    match items.binary_search_by(|item| compare_key(item, key)) {
        Ok(place) => Some(place),
        Err(_) => None,
    }
}

/// How an item compares with a key.
fn compare_key<T: Keyed>(item: &T, key: &[u8]) -> Ordering
    ensures { result ≡ slice_cmp nat_cmp (T.key item.now) key.now }
{
    item.key().cmp(&key)
}

fn item_in<T>(items: &[T], place: usize) -> Option<&T>
    ensures { option_map (λ x. x.now) result ≡ slice_get items.now place }
{
    items.get(place)
}

/// Marks the item of this key, where there is one. There is a mark for each item, in their order.
#[tactic(auto, using(crate::proofs::Marks::marks_key))]
pub fn mark_key<T: Keyed>(items: &[T], key: &[u8], marks: &mut [bool])
    requires rising { Rises (map T.key items.now) }
    requires each { length marks.old ≡ length items.now }
    ensures each { length marks.new ≡ length items.now }
    ensures marked { (before : T → Bool) → marks.old ≡ map before items.now
        → marks.new ≡ map (λ x. before x || bytes_eq key.now (T.key x)) items.now }
{
    if let Some(place) = place_by_key(items, key) {
        marks[place] = true;
    }
}
