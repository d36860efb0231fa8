//! A member of an object, and a value of one kind.

ghost use Rattle.std.specs.Prelude.{◌≡◌, map};
ghost use Rattle.serde_json.specs.View.{view};
ghost use Rattle.json_members.specs.Members.{Says, required, object_at, text_at, number_at, array_at};

use serde_json::Value;

/// The member of this name, or this fault where there is none.
#[tactic(auto, unfolding(crate::specs::Members::required))]
pub fn required<'a, F: Copy>(missing: F, name: &str, value: &'a Value) -> Result<&'a Value, F>
    ensures { Says (λ v. view v.now) result (required missing name.now (view value.now)) }
{
    match value.get(name) {
        Some(member) => Ok(member),
        None => Err(missing),
    }
}

/// Whether this is an object: this fault where it is none.
#[tactic(auto, unfolding(crate::specs::Members::object_at))]
pub fn object_at<F: Copy>(kind: F, value: &Value) -> Result<(), F>
    ensures { Says (λ x. x) result (object_at kind (view value.now)) }
{
    match value.as_object() {
        Some(_) => Ok(()),
        None => Err(kind),
    }
}

/// The text, or this fault where it is none.
#[tactic(auto, unfolding(crate::specs::Members::text_at))]
pub fn text_at<F: Copy>(kind: F, value: &Value) -> Result<&str, F>
    ensures { Says (λ s. s.now) result (text_at kind (view value.now)) }
{
    match value.as_str() {
        Some(text) => Ok(text),
        None => Err(kind),
    }
}

/// The whole number below 2^64, or this fault where it is none.
#[tactic(auto, unfolding(crate::specs::Members::number_at))]
pub fn number_at<F: Copy>(kind: F, value: &Value) -> Result<u64, F>
    ensures { Says (λ n. n) result (number_at kind (view value.now)) }
{
    match value.as_u64() {
        Some(number) => Ok(number),
        None => Err(kind),
    }
}

/// The items of the array, or this fault where it is none.
#[tactic(auto, unfolding(crate::specs::Members::array_at))]
pub fn array_at<F: Copy>(kind: F, value: &Value) -> Result<&[Value], F>
    ensures { Says (λ v. map view v.now) result (array_at kind (view value.now)) }
{
    match value.as_array() {
        Some(items) => Ok(items.as_slice()),
        None => Err(kind),
    }
}
