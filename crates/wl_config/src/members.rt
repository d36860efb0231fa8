//! Members of an object, and their faults at their place.

ghost use Rattle.std.specs.Prelude.{◌≡◌, ℕ, ◌<◌, ◌≤◌, length, map, IfOk};
ghost use Rattle.serde_json.specs.View.{view};
ghost use Rattle.wl_config.specs.Checks.{Gives};
ghost use Rattle.wl_config.specs.Members.{number_within, number_or, path_at, list_at, list_of};

use crate::fault::ConfigFault;
use json_members::{array_at, number_at, required, text_at};
use serde_json::Value;
use std::alloc::Global;
use wl_document::Place;
use wl_octets::Octets;

/// A whole number from the least to the most.
#[tactic(auto, unfolding(crate::specs::Members::number_within))]
fn number_within(least: u32, most: u32, place: Place, value: &Value) -> Result<u32, ConfigFault>
    ensures value { Gives (λ n. n) result (number_within least most place (view value.now)) }
    ensures at_least { IfOk result (λ n. least ≤ n) }
    ensures at_most { IfOk result (λ n. n ≤ most) }
{
    let number = number_at(ConfigFault::Kind(place), value)?;
    if number < u64::from(least) || number > u64::from(most) {
        return Err(ConfigFault::Kind(place));
    }
    Ok(number as u32)
}

/// A whole number from the least to the most, or the default where it is absent.
#[tactic(auto, unfolding(crate::specs::Members::number_or))]
pub(crate) fn number_or(
    default: u32,
    least: u32,
    most: u32,
    place: Place,
    name: &str,
    value: &Value,
) -> Result<u32, ConfigFault>
    requires at_least { least ≤ default }
    requires at_most { default ≤ most }
    ensures value { Gives (λ n. n) result (number_or default least most place name.now (view value.now)) }
    ensures at_least { IfOk result (λ n. least ≤ n) }
    ensures at_most { IfOk result (λ n. n ≤ most) }
{
    match value.get(name) {
        Some(member) => number_within(least, most, place, member),
        None => Ok(default),
    }
}

/// A path, which is not empty.
#[tactic(auto, unfolding(crate::specs::Members::path_at))]
pub(crate) fn path_at(alloc: Global, place: Place, value: &Value) -> Result<Octets, ConfigFault>
    ensures value { Gives (λ o. o) result (path_at place (view value.now)) }
    ensures some { IfOk result (λ o. 0 < length o) }
{
    let text = text_at(ConfigFault::Kind(place), value)?.as_bytes();
    if text.is_empty() {
        return Err(ConfigFault::EmptyText(place));
    }
    Ok(Octets::from_slice(alloc, text)?)
}

/// An array of at least one item and at most so many.
#[tactic(auto, unfolding(crate::specs::Members::list_at))]
pub(crate) fn list_at(limit: usize, place: Place, value: &Value) -> Result<&[Value], ConfigFault>
    ensures value { Gives (λ v. map view v.now) result (list_at limit place (view value.now)) }
    ensures some { IfOk result (λ v. 0 < length v.now) }
    ensures at_most { IfOk result (λ v. length v.now ≤ limit) }
{
    let items = array_at(ConfigFault::Kind(place), value)?;
    if items.is_empty() {
        return Err(ConfigFault::Kind(place));
    }
    if items.len() > limit {
        return Err(ConfigFault::TooMany(place, items.len()));
    }
    Ok(items)
}

/// An array of at least one item and at most so many, which has to be there.
#[tactic(auto, unfolding(crate::specs::Members::list_of))]
pub(crate) fn list_of<'a>(
    limit: usize,
    place: Place,
    name: &str,
    value: &'a Value,
) -> Result<&'a [Value], ConfigFault>
    ensures value { Gives (λ v. map view v.now) result (list_of limit place name.now (view value.now)) }
    ensures some { IfOk result (λ v. 0 < length v.now) }
    ensures at_most { IfOk result (λ v. length v.now ≤ limit) }
{
    list_at(
        limit,
        place,
        required(ConfigFault::Missing(place), name, value)?,
    )
}
