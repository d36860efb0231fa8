//! The uids of a socket.

ghost use Rattle.std.specs.Prelude.{◌≡◌, ◌==◌, ◌+◌, ◌^◌, ◌<◌, ◌≤◌, ◌++◌, length, map, flat_map, position, OnOk, IfOk, IfErr, IfSome};
ghost use Rattle.std.specs.List.{AllByRecursion};
ghost use Rattle.serde_json.specs.View.{view};
ghost use Rattle.wl_config.specs.Checks.{Gives};
ghost use Rattle.wl_config.specs.Uids.{range_between, range_of, numbers_of, IsRange, range_at, ranges_at, room_for, uids_of};
ghost use Rattle.wl_config.specs.declared.fault.ConfigFault.TheVariants.{Memory};
ghost use Rattle.wl_config.specs.declared.limits.TheConstants.{MAX_ID, MAX_SOCKETS};
ghost use Rattle.decimal_text.specs.Decimals as decimals;

use crate::fault::ConfigFault;
use crate::limits::{MAX_ID, MAX_SOCKETS};
use crate::members::list_of;
use crate::places::{item_place, socket_place};
use decimal_text::number_up_to;
use json_members::text_at;
use serde_json::Value;
use std::alloc::Global;
use wl_document::Place;

/// The uids from the first one on, up to the one before the end.
#[derive(Clone, Copy, Debug, Drop, PartialEq, Eq)]
pub(crate) struct UidRange {
    pub first: u32,
    pub end: u32,
}

/// The uid that these digits say.
fn uid(digits: &[u8]) -> Option<u32>
    ensures value { result ≡ decimals.number_up_to MAX_ID digits.now }
    ensures at_most { IfSome result (λ n. n ≤ MAX_ID) }
{
    match number_up_to(u64::from(MAX_ID), digits) {
        Some(number) => Some(number as u32),
        None => None,
    }
}

/// The uids from the first to the last, where they are that way round.
fn range_between(first: Option<u32>, last: Option<u32>) -> Option<UidRange>
    requires at_most { IfSome last (λ n. n ≤ MAX_ID) }
    ensures value { result ≡ range_between first last }
    ensures some { IfSome result IsRange }
{
    match (first, last) {
        (Some(first), Some(last)) if first <= last => Some(UidRange {
            first,
            end: last + 1,
        }),
        _ => None,
    }
}

/// Where the first `-` stands.
fn dash(text: &[u8]) -> Option<usize>
    ensures place { result ≡ position (λ b. b == 45) text.now }
    ensures bound { IfSome result (λ at. at < length text.now) }
{
    text.iter().position(|byte| *byte == b'-')
}

/// The uids that a text says: one, or a range.
#[tactic(auto, unfolding(crate::specs::Uids::range_of))]
fn range_of(text: &[u8]) -> Option<UidRange>
    ensures value { result ≡ range_of text.now }
    ensures some { IfSome result IsRange }
{
    match dash(text) {
        Some(at) => range_between(uid(&text[..at]), uid(&text[at + 1..])),
        None => range_between(uid(text), uid(text)),
    }
}

/// The uids at this index of the array.
#[tactic(auto, unfolding(crate::specs::Uids::range_at))]
fn range(place: Place, index: u32, value: &Value) -> Result<UidRange, ConfigFault>
    ensures value { Gives (λ r. r) result (range_at place index (view value.now)) }
    ensures some { IfOk result IsRange }
{
    let fault = ConfigFault::Kind(item_place(place, index));
    match range_of(text_at(fault, value)?.as_bytes()) {
        Some(range) => Ok(range),
        None => Err(fault),
    }
}

/// The ranges of an array.
fn ranges(alloc: Global, place: Place, values: &[Value]) -> Result<Vec<UidRange>, ConfigFault>
    requires { length values.now ≤ MAX_SOCKETS }
    ensures value { Gives (λ v. v.items) result (ranges_at place (map view values.now)) }
    ensures all { IfOk result (λ v. length v.items ≡ length values.now) }
    ensures some { IfOk result (λ v. AllByRecursion IsRange v.items) }
{
    let mut done = Vec::new(alloc);
    let mut index: u32 = 0;
    for value in values {
        let item = range(place, index, value)?;
        done.push(item)?;
        index += 1;
    }
    Ok(done)
}

/// How many uids these ranges have.
fn count_of(ranges: &[UidRange]) -> usize
    requires { length ranges.now ≤ MAX_SOCKETS }
    ensures value { result ≡ length (flat_map numbers_of ranges.now) }
    ensures at_most { result < 2 ^ 63 }
{
    let mut count: usize = 0;
    for range in ranges {
        count += range.end.saturating_sub(range.first) as usize;
    }
    count
}

/// Sees to it that there is room for so many sockets more, beside those that there are.
#[tactic(auto, unfolding(crate::specs::Uids::room_for))]
pub(crate) fn room_for(place: Place, count: usize, more: usize) -> Result<(), ConfigFault>
    requires at_most { count ≤ MAX_SOCKETS }
    requires fits { more < 2 ^ 63 }
    ensures value { Gives (λ x. x) result (room_for place count more) }
    ensures at_most { OnOk result (count + more ≤ MAX_SOCKETS) }
{
    let all = count + more;
    if all > MAX_SOCKETS {
        return Err(ConfigFault::TooMany(place, all));
    }
    Ok(())
}

/// Adds the uids of a range.
fn push_range(uids: &mut Vec<u32>, range: UidRange) -> Result<(), ConfigFault>
    ensures ok { OnOk result (uids.new.items ≡ uids.old.items ++ numbers_of range) }
    ensures memory { IfErr result (λ e. e ≡ Memory) }
{
    for uid in range.first..range.end {
        uids.push(uid)?;
    }
    Ok(())
}

/// The uids of these ranges, in their order.
fn uids_in(alloc: Global, ranges: &[UidRange]) -> Result<Vec<u32>, ConfigFault>
    ensures ok { IfOk result (λ v. v.items ≡ flat_map numbers_of ranges.now) }
    ensures memory { IfErr result (λ e. e ≡ Memory) }
{
    let mut uids = Vec::new(alloc);
    for range in ranges {
        push_range(&mut uids, *range)?;
    }
    Ok(uids)
}

/// The uids of the socket at this index, where those before it are so many.
#[tactic(auto, using(crate::proofs::Ranges::some_numbers), unfolding(crate::specs::Uids::uids_of))]
pub(crate) fn uids(
    alloc: Global,
    index: u32,
    count: usize,
    value: &Value,
) -> Result<Vec<u32>, ConfigFault>
    requires { count ≤ MAX_SOCKETS }
    ensures value { Gives (λ v. v.items) result (uids_of index count (view value.now)) }
    ensures some { IfOk result (λ v. 0 < length v.items) }
    ensures at_most { IfOk result (λ v. count + length v.items ≤ MAX_SOCKETS) }
{
    let place = socket_place(index, 7);
    let ranges = ranges(alloc, place, list_of(MAX_SOCKETS, place, "uids", value)?)?;
    room_for(place, count, count_of(ranges.as_slice()))?;
    uids_in(alloc, ranges.as_slice())
}
