//! Subscribers by their selectors.

ghost use Rattle.std.specs.Prelude.{◌≡◌, ◌<◌, ℕ, ◌==◌, true, false, [], length, slice_index, IfSome, OnOk};
ghost use Rattle.std.specs.List.{list_all};
ghost use Rattle.wl_subscribe.specs.Filed.{has_number, numbers_at, is_filed, IsFiledUnder, KeepsFiled, KeepsOthers};

use std::alloc::Global;
use std::collections::BTreeMap;
use wl_octets::{Memory, Row};
use wl_selector::Selector;

/// The numbers of the subscribers that have a selector, by selector.
pub type Filed = BTreeMap<Selector, Row<u64>>;

/// The numbers that are filed under a selector.
pub fn numbers_at<'a>(filed: &'a Filed, selector: &Selector) -> &'a [u64]
    ensures { result.now ≡ numbers_at filed.now selector.now }
{
    match filed.get(selector) {
        Some(numbers) => numbers.as_slice(),
        None => &[],
    }
}

/// Files the first number under a selector.
fn file_first(
    alloc: Global,
    filed: &mut Filed,
    selector: &Selector,
    number: u64,
) -> Result<(), Memory>
    requires { numbers_at filed.old selector.now ≡ [] }
    ensures kept { KeepsFiled filed.old filed.new }
    ensures ok { OnOk result (is_filed filed.new selector.now number ≡ true) }
{
    let mut numbers = Row::empty(alloc);
    numbers.push(number)?;
    filed.insert(selector.copy(alloc)?, numbers)?;
    Ok(())
}

/// Files a number under a selector.
fn file(alloc: Global, filed: &mut Filed, selector: &Selector, number: u64) -> Result<(), Memory>
    ensures kept { KeepsFiled filed.old filed.new }
    ensures ok { OnOk result (is_filed filed.new selector.now number ≡ true) }
{
    let Some(numbers) = filed.get_mut(selector) else {
        return file_first(alloc, filed, selector, number);
    };
    numbers.push(number)?;
    Ok(())
}

/// Files a number under each of these selectors.
pub fn file_all(
    alloc: Global,
    filed: &mut Filed,
    selectors: &[Selector],
    number: u64,
) -> Result<(), Memory>
    ensures kept { KeepsFiled filed.old filed.new }
    ensures ok { OnOk result (IsFiledUnder filed.new selectors.now number) }
{
    for selector in selectors {
        file(alloc, filed, selector, number)?;
    }
    Ok(())
}

/// Where a number stands, counted from 0.
fn place_of(numbers: &[u64], number: u64) -> Option<usize>
    ensures { IfSome result (λ place. (place < length numbers.now)
        × (slice_index numbers.now place ≡ number)) }
{
    for (place, other) in numbers.iter().enumerate() {
        if *other == number {
            return Some(place);
        }
    }
    None
}

/// Takes out a number.
fn take_number(numbers: &mut Row<u64>, number: u64)
    ensures { (n : ℕ) → (n == number) ≡ false → has_number numbers.old n ≡ true
        → has_number numbers.new n ≡ true }
{
    if let Some(place) = place_of(numbers.as_slice(), number) {
        numbers.remove(place);
    }
}

/// Whether no other number is filed under a selector.
fn is_last(filed: &Filed, selector: &Selector, number: u64) -> bool
    ensures { result ≡ list_all (λ n. n == number) (numbers_at filed.now selector.now) }
{
    numbers_at(filed, selector).iter().all(|n| *n == number)
}

/// Takes a number out from under a selector.
fn unfile(filed: &mut Filed, selector: &Selector, number: u64)
    ensures { KeepsOthers number filed.old filed.new }
{
    if is_last(filed, selector, number) {
        filed.remove(selector);
        return;
    }
    if let Some(numbers) = filed.get_mut(selector) {
        take_number(numbers, number);
    }
}

/// Takes a number out from under each of these selectors.
pub fn unfile_all(filed: &mut Filed, selectors: &[Selector], number: u64)
    ensures { KeepsOthers number filed.old filed.new }
{
    for selector in selectors {
        unfile(filed, selector, number);
    }
}
