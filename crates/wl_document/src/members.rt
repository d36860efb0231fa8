//! Members of an object, and their faults at their place.

ghost use Rattle.std.specs.Prelude.{◌≡◌, ℕ, ◌≤◌, length, map, IfOk};
ghost use Rattle.serde_json.specs.View.{view};
ghost use Rattle.wl_document.specs.Checks.{Gives};
ghost use Rattle.wl_document.specs.Members.{text_of, number_of, number_or_zero, list_at, list_of, list_or_empty};

use crate::fault::{DocFault, Place};
use json_members::{array_at, number_at, required, text_at};
use serde_json::Value;

/// A text that has to be there.
#[tactic(auto, unfolding(crate::specs::Members::text_of))]
pub(crate) fn text_of<'a>(place: Place, name: &str, value: &'a Value) -> Result<&'a str, DocFault>
    ensures { Gives (λ s. s.now) result (text_of place name.now (view value.now)) }
{
    text_at(
        DocFault::Kind(place),
        required(DocFault::Missing(place), name, value)?,
    )
}

/// A whole number that has to be there.
#[tactic(auto, unfolding(crate::specs::Members::number_of))]
pub(crate) fn number_of(place: Place, name: &str, value: &Value) -> Result<u64, DocFault>
    ensures { Gives (λ n. n) result (number_of place name.now (view value.now)) }
{
    number_at(
        DocFault::Kind(place),
        required(DocFault::Missing(place), name, value)?,
    )
}

/// A whole number, 0 where it is absent.
#[tactic(auto, unfolding(crate::specs::Members::number_or_zero))]
pub(crate) fn number_or_zero(place: Place, name: &str, value: &Value) -> Result<u64, DocFault>
    ensures { Gives (λ n. n) result (number_or_zero place name.now (view value.now)) }
{
    match value.get(name) {
        Some(member) => {
            let number = number_at(DocFault::Kind(place), member)?;
            Ok(number)
        }
        None => Ok(0),
    }
}

/// An array of at most so many items.
#[tactic(auto, unfolding(crate::specs::Members::list_at))]
pub(crate) fn list_at(limit: usize, place: Place, value: &Value) -> Result<&[Value], DocFault>
    ensures value { Gives (λ v. map view v.now) result (list_at limit place (view value.now)) }
    ensures at_most { IfOk result (λ v. length v.now ≤ limit) }
{
    let items = array_at(DocFault::Kind(place), value)?;
    if items.len() > limit {
        return Err(DocFault::TooMany(place, items.len()));
    }
    Ok(items)
}

/// An array of at most so many items, which has to be there.
#[tactic(auto, unfolding(crate::specs::Members::list_of))]
pub(crate) fn list_of<'a>(
    limit: usize,
    place: Place,
    name: &str,
    value: &'a Value,
) -> Result<&'a [Value], DocFault>
    ensures value { Gives (λ v. map view v.now) result (list_of limit place name.now (view value.now)) }
    ensures at_most { IfOk result (λ v. length v.now ≤ limit) }
{
    list_at(
        limit,
        place,
        required(DocFault::Missing(place), name, value)?,
    )
}

/// An array of at most so many items, empty where it is absent.
#[tactic(auto, unfolding(crate::specs::Members::list_or_empty))]
pub(crate) fn list_or_empty<'a>(
    limit: usize,
    place: Place,
    name: &str,
    value: &'a Value,
) -> Result<&'a [Value], DocFault>
    ensures value { Gives (λ v. map view v.now) result (list_or_empty limit place name.now (view value.now)) }
    ensures at_most { IfOk result (λ v. length v.now ≤ limit) }
{
    match value.get(name) {
        Some(member) => list_at(limit, place, member),
        None => Ok(&[]),
    }
}
