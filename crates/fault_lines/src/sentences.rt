//! What the numbers of a fault line say.

ghost use Rattle.std.specs.Prelude.{◌≡◌, ◌++◌, IfOk, option_map};
ghost use Rattle.fault_lines.specs.Sentences.{place_of, has_item, item_suffix, is_list, kind_what, id_what, id_what_at, document_alone, document_what, document_what_of, document_rest, document_placed, document_sentence, config_alone, config_long, config_what, config_what_of, config_rest, config_placed, config_sentence, script_alone, script_line, script_sentence, told_at};

use crate::names::{config_place, document_place};
use crate::places::Place;
use crate::texts::around;
use std::alloc::Global;
use wl_octets::{Memory, Octets};

/// A text of its own, where there is one.
fn owned(alloc: Global, text: Option<&'static [u8]>) -> Result<Option<Octets>, Memory>
    ensures { IfOk result (λ o. o ≡ option_map (λ t. t.now) text.entry) }
{
    match text {
        Some(text) => Ok(Some(Octets::from_slice(alloc, text)?)),
        None => Ok(None),
    }
}

/// Whether the place is an item of the field's own array.
#[tactic(auto, unfolding(crate::specs::Sentences::has_item))]
fn has_item(kind: u64, place: Place) -> bool
    ensures { result ≡ has_item kind place }
{
    kind == 6 || (kind == 5 && (place.part == 2 && place.field == 4)) || place.item != 0
}

#[tactic(auto, unfolding(crate::specs::Sentences::item_suffix))]
fn item_suffix(alloc: Global, kind: u64, place: Place) -> Result<Octets, Memory>
    ensures { IfOk result (λ o. o ≡ item_suffix kind place) }
{
    if has_item(kind, place) {
        around(alloc, b"[", place.item, b"]")
    } else {
        Ok(Octets::empty(alloc))
    }
}

/// Whether the fault may be one of an array or of its first item.
#[tactic(auto, unfolding(crate::specs::Sentences::is_list))]
fn is_list(place: Place) -> bool
    ensures { result ≡ is_list place }
{
    place.item == 0
        && ((place.part == 2 && (3 <= place.field && place.field <= 5))
            || (place.part == 4 && (place.field == 3 || place.field == 7)))
}

#[tactic(auto, unfolding(crate::specs::Sentences::kind_what))]
fn kind_what(place: Place) -> &'static [u8]
    ensures { result.now ≡ kind_what place }
{
    if is_list(place) {
        b"the list or its first item is of the wrong kind or out of range"
    } else {
        b"is of the wrong kind or out of range"
    }
}

#[tactic(auto, unfolding(crate::specs::Sentences::id_what))]
fn id_what(kind: u64) -> Option<&'static [u8]>
    ensures { option_map (λ t. t.now) result ≡ id_what kind }
{
    match kind {
        2 => Some(b"does not begin with spiffe://"),
        3 => Some(b"has no trust domain name"),
        8 => Some(b"memory ran out"),
        _ => None,
    }
}

#[tactic(auto, unfolding(crate::specs::Sentences::id_what_at))]
fn id_what_at(alloc: Global, kind: u64, number: u64) -> Result<Option<Octets>, Memory>
    ensures { IfOk result (λ o. o ≡ id_what_at kind number) }
{
    match kind {
        1 => Ok(Some(around(
            alloc,
            b"has ",
            number,
            b" bytes, more than a SPIFFE ID (2048) or a trust domain name (255) may have",
        )?)),
        4 => Ok(Some(around(
            alloc,
            b"byte ",
            number,
            b" may not stand in a trust domain name",
        )?)),
        5 => Ok(Some(around(alloc, b"the segment at byte ", number, b" is empty")?)),
        6 => Ok(Some(around(alloc, b"byte ", number, b" may not stand in a path segment")?)),
        7 => Ok(Some(around(alloc, b"the segment at byte ", number, b" is . or ..")?)),
        _ => Ok(None),
    }
}

#[tactic(auto, unfolding(crate::specs::Sentences::document_alone))]
fn document_alone(kind: u64) -> Option<&'static [u8]>
    ensures { option_map (λ t. t.now) result ≡ document_alone kind }
{
    match kind {
        1 => Some(b"document: is not JSON"),
        2 => Some(b"version: is neither 1 nor 2"),
        11 => Some(b"bundles: the own trust domain has no X.509 bundle"),
        14 => Some(b"document: memory ran out"),
        _ => None,
    }
}

#[tactic(auto, unfolding(crate::specs::Sentences::document_what))]
fn document_what(kind: u64, place: Place) -> Option<&'static [u8]>
    ensures { option_map (λ t. t.now) result ≡ document_what kind place }
{
    match kind {
        3 => Some(b"is missing"),
        4 => Some(kind_what(place)),
        6 => Some(b"is not a selector"),
        7 => Some(b"has no selector"),
        8 => Some(b"was given before"),
        9 => Some(b"is of another trust domain"),
        10 => Some(b"is not standard base64 with padding"),
        _ => None,
    }
}

#[tactic(auto, unfolding(crate::specs::Sentences::document_what_of))]
fn document_what_of(alloc: Global, kind: u64, number: u64) -> Result<Option<Octets>, Memory>
    ensures { IfOk result (λ o. o ≡ document_what_of kind number) }
{
    match kind {
        12 => Ok(Some(around(alloc, b"has ", number, b" items, more than its limit")?)),
        13 => Ok(Some(around(alloc, b"has ", number, b" bytes, more than its limit")?)),
        5 => owned(alloc, id_what(number)),
        _ => Ok(None),
    }
}

/// What is wrong at a place in a document, by the numbers after it.
#[tactic(auto, unfolding(crate::specs::Sentences::document_rest))]
fn document_rest(
    alloc: Global,
    kind: u64,
    place: Place,
    more: &[u64],
) -> Result<Option<Octets>, Memory>
    ensures { IfOk result (λ o. o ≡ document_rest kind place more.now) }
{
    match more {
        [] => owned(alloc, document_what(kind, place)),
        [number] => document_what_of(alloc, kind, *number),
        [fault, number] if kind == 5 => id_what_at(alloc, *fault, *number),
        _ => Ok(None),
    }
}

/// A place and what is wrong there, where something is said of it.
fn told_at(mut place: Octets, suffix: &[u8], what: Option<Octets>) -> Result<Option<Octets>, Memory>
    ensures { IfOk result (λ o. o ≡ option_map (told_at (place ++ suffix.now)) what) }
{
    let Some(what) = what else {
        return Ok(None);
    };
    place.push_slice(suffix)?;
    place.push_slice(b": ")?;
    place.push_slice(what.as_slice())?;
    Ok(Some(place))
}

#[tactic(auto, unfolding(crate::specs::Sentences::document_placed))]
fn document_placed(
    alloc: Global,
    kind: u64,
    place: Place,
    more: &[u64],
) -> Result<Option<Octets>, Memory>
    ensures { IfOk result (λ o. o ≡ document_placed kind place more.now) }
{
    let what = document_rest(alloc, kind, place, more)?;
    let suffix = item_suffix(alloc, kind, place)?;
    told_at(document_place(alloc, place)?, suffix.as_slice(), what)
}

fn place_of(part: u64, index: u64, field: u64, item: u64) -> Place
    ensures { result ≡ place_of part index field item }
{
    Place {
        part,
        index,
        field,
        item,
    }
}

/// The sentence of a document's fault.
#[tactic(auto, unfolding(crate::specs::Sentences::document_sentence))]
pub(crate) fn document_sentence(alloc: Global, numbers: &[u64]) -> Result<Option<Octets>, Memory>
    ensures { IfOk result (λ o. o ≡ document_sentence numbers.now) }
{
    match numbers {
        [kind] => owned(alloc, document_alone(*kind)),
        [kind, part, index, field, item, more @ ..] => {
            let place = place_of(*part, *index, *field, *item);
            document_placed(alloc, *kind, place, more)
        }
        _ => Ok(None),
    }
}

#[tactic(auto, unfolding(crate::specs::Sentences::config_alone))]
fn config_alone(kind: u64) -> Option<&'static [u8]>
    ensures { option_map (λ t. t.now) result ≡ config_alone kind }
{
    match kind {
        1 => Some(b"configuration: is not JSON"),
        2 => Some(b"version: is not 1"),
        10 => Some(b"configuration: memory ran out"),
        _ => None,
    }
}

#[tactic(auto, unfolding(crate::specs::Sentences::config_long))]
fn config_long(alloc: Global, kind: u64, number: u64) -> Result<Option<Octets>, Memory>
    ensures { IfOk result (λ o. o ≡ config_long kind number) }
{
    match kind {
        9 => Ok(Some(around(
            alloc,
            b"configuration: has ",
            number,
            b" bytes, more than its limit",
        )?)),
        _ => Ok(None),
    }
}

#[tactic(auto, unfolding(crate::specs::Sentences::config_what))]
fn config_what(kind: u64, place: Place) -> Option<&'static [u8]>
    ensures { option_map (λ t. t.now) result ≡ config_what kind place }
{
    match kind {
        3 => Some(b"is missing"),
        4 => Some(kind_what(place)),
        5 => Some(b"is empty"),
        6 => Some(b"is not a selector"),
        8 => Some(b"was given before"),
        _ => None,
    }
}

#[tactic(auto, unfolding(crate::specs::Sentences::config_what_of))]
fn config_what_of(alloc: Global, kind: u64, number: u64) -> Result<Option<Octets>, Memory>
    ensures { IfOk result (λ o. o ≡ config_what_of kind number) }
{
    match kind {
        7 => Ok(Some(around(alloc, b"comes to ", number, b", more than its limit")?)),
        _ => Ok(None),
    }
}

/// What is wrong at a place in a configuration, by the numbers after it.
#[tactic(auto, unfolding(crate::specs::Sentences::config_rest))]
fn config_rest(
    alloc: Global,
    kind: u64,
    place: Place,
    more: &[u64],
) -> Result<Option<Octets>, Memory>
    ensures { IfOk result (λ o. o ≡ config_rest kind place more.now) }
{
    match more {
        [] => owned(alloc, config_what(kind, place)),
        [number] => config_what_of(alloc, kind, *number),
        _ => Ok(None),
    }
}

#[tactic(auto, unfolding(crate::specs::Sentences::config_placed))]
fn config_placed(
    alloc: Global,
    kind: u64,
    place: Place,
    more: &[u64],
) -> Result<Option<Octets>, Memory>
    ensures { IfOk result (λ o. o ≡ config_placed kind place more.now) }
{
    let what = config_rest(alloc, kind, place, more)?;
    let suffix = item_suffix(alloc, kind, place)?;
    told_at(config_place(alloc, place)?, suffix.as_slice(), what)
}

/// The sentence of a configuration's fault.
#[tactic(auto, unfolding(crate::specs::Sentences::config_sentence))]
pub(crate) fn config_sentence(alloc: Global, numbers: &[u64]) -> Result<Option<Octets>, Memory>
    ensures { IfOk result (λ o. o ≡ config_sentence numbers.now) }
{
    match numbers {
        [kind] => owned(alloc, config_alone(*kind)),
        [kind, number] => config_long(alloc, *kind, *number),
        [kind, part, index, field, item, more @ ..] => {
            let place = place_of(*part, *index, *field, *item);
            config_placed(alloc, *kind, place, more)
        }
        _ => Ok(None),
    }
}

#[tactic(auto, unfolding(crate::specs::Sentences::script_alone))]
fn script_alone(kind: u64) -> Option<&'static [u8]>
    ensures { option_map (λ t. t.now) result ≡ script_alone kind }
{
    match kind {
        6 => Some(b"script: memory ran out"),
        _ => None,
    }
}

/// The text after `line N`.
#[tactic(auto, unfolding(crate::specs::Sentences::script_line))]
fn script_line(alloc: Global, kind: u64, number: u64) -> Result<Option<Octets>, Memory>
    ensures { IfOk result (λ o. o ≡ script_line kind number) }
{
    match kind {
        1 => Ok(Some(around(
            alloc,
            b"line ",
            number,
            b": has the wrong words, or stands where it may not",
        )?)),
        2 => Ok(Some(around(alloc, b"line ", number, b": begins with no event's word")?)),
        3 => Ok(Some(around(alloc, b"line ", number, b": names no connection")?)),
        4 => Ok(Some(around(
            alloc,
            b"line ",
            number,
            b": has a word that is not hexadecimal",
        )?)),
        5 => Ok(Some(around(
            alloc,
            b"script: has ",
            number,
            b" bytes, more than its limit",
        )?)),
        _ => Ok(None),
    }
}

/// The sentence of a script's fault.
#[tactic(auto, unfolding(crate::specs::Sentences::script_sentence))]
pub(crate) fn script_sentence(alloc: Global, numbers: &[u64]) -> Result<Option<Octets>, Memory>
    ensures { IfOk result (λ o. o ≡ script_sentence numbers.now) }
{
    match numbers {
        [kind] => owned(alloc, script_alone(*kind)),
        [kind, number] => script_line(alloc, *kind, *number),
        _ => Ok(None),
    }
}
