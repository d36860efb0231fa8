//! The selectors of a socket.

ghost use Rattle.std.specs.Prelude.{◌≡◌, ℕ, ◌+◌, ◌<◌, ◌≤◌, ◌++◌, length, map, codes, decimal, IfOk};
ghost use Rattle.serde_json.specs.View.{view};
ghost use Rattle.wl_config.specs.declared.limits.TheConstants.{MAX_SOCKET_SELECTORS};
ghost use Rattle.wl_config.specs.Checks.{Gives, selector_fault_at};
ghost use Rattle.wl_config.specs.Sockets.{selector_of, selector_list_of, texts_of, own_selectors};
ghost use Rattle.wl_selector.specs.Selectors.{sorted_texts};
ghost use Rattle.wl_selector.specs.declared.faults.SelectorFault.TheVariants as faults;

use crate::fault::ConfigFault;
use crate::limits::MAX_SOCKET_SELECTORS;
use crate::members::{list_at, list_of};
use crate::places::item_place;
use json_members::text_at;
use serde_json::Value;
use std::alloc::Global;
use std::string::ToString;
use wl_document::Place;
use wl_octets::{Memory, Octets, clone_all};
use wl_selector::{Selector, SelectorFault, Selectors, SelectorsFault};

/// The fault of a member whose text has this fault.
fn selector_fault_at(place: Place, fault: SelectorFault) -> ConfigFault
    ensures { result ≡ selector_fault_at place fault }
{
    match fault {
        SelectorFault::Memory => ConfigFault::Memory,
        _ => ConfigFault::Selector(place),
    }
}

/// The selector at this index of its array.
#[tactic(auto, unfolding(crate::specs::Sockets::selector_of))]
fn selector(alloc: Global, place: Place, index: u32, value: &Value) -> Result<Selector, ConfigFault>
    ensures { Gives (λ s. s) result (selector_of place index (view value.now)) }
{
    let place = item_place(place, index);
    match Selector::parse(alloc, text_at(ConfigFault::Kind(place), value)?.as_bytes()) {
        Ok(selector) => Ok(selector),
        Err(fault) => Err(selector_fault_at(place, fault)),
    }
}

/// The selectors of an array.
fn selector_list(
    alloc: Global,
    place: Place,
    values: &[Value],
) -> Result<Vec<Selector>, ConfigFault>
    requires { length values.now ≤ MAX_SOCKET_SELECTORS }
    ensures value { Gives (λ v. v.items) result (selector_list_of place (map view values.now)) }
    ensures all { IfOk result (λ v. length v.items ≡ length values.now) }
{
    let mut done = Vec::new(alloc);
    let mut index: u32 = 0;
    for value in values {
        let item = selector(alloc, place, index, value)?;
        done.push(item)?;
        index += 1;
    }
    Ok(done)
}

/// The selectors that a socket names. They have to be there, or they may be left out.
#[tactic(auto, unfolding(crate::specs::Sockets::texts_of))]
pub(crate) fn texts(
    alloc: Global,
    needed: bool,
    place: Place,
    value: &Value,
) -> Result<Vec<Selector>, ConfigFault>
    ensures value { Gives (λ v. v.items) result (texts_of needed place (view value.now)) }
    ensures at_most { IfOk result (λ v. length v.items ≤ MAX_SOCKET_SELECTORS) }
{
    if needed {
        let values = list_of(MAX_SOCKET_SELECTORS, place, "selectors", value)?;
        return selector_list(alloc, place, values);
    }
    match value.get("selectors") {
        Some(member) => {
            selector_list(alloc, place, list_at(MAX_SOCKET_SELECTORS, place, member)?)
        }
        None => Ok(Vec::new(alloc)),
    }
}

/// The text of a uid's selector.
fn uid_text(alloc: Global, uid: u32) -> Result<Octets, Memory>
    ensures { IfOk result (λ o. o ≡ codes "unix:uid:" ++ decimal uid) }
{
    let mut text = Octets::from_slice(alloc, b"unix:uid:")?;
    text.push_slice(u64::from(uid).to_string(alloc)?.as_bytes())?;
    Ok(text)
}

/// The fault of a text that is a selector: memory ran out.
fn only_memory(fault: SelectorFault) -> Memory
    requires { fault ≡ faults.Memory }
{
    match fault {
        SelectorFault::Memory => Memory,
        _ => unreachable!(),
    }
}

/// The selector of a uid.
pub(crate) fn uid_selector(alloc: Global, uid: u32) -> Result<Selector, Memory>
    ensures { IfOk result (λ s. s ≡ codes "unix:uid:" ++ decimal uid) }
{
    let text = uid_text(alloc, uid)?;
    match Selector::parse(alloc, text.as_slice()) {
        Ok(selector) => Ok(selector),
        Err(fault) => Err(only_memory(fault)),
    }
}

/// These selectors, and that of the uid where there is one, as a set.
pub(crate) fn selectors_with(
    alloc: Global,
    texts: &[Selector],
    uid: Option<u32>,
) -> Result<Selectors, Memory>
    requires { length texts.now ≤ MAX_SOCKET_SELECTORS }
    ensures value { IfOk result (λ s. s ≡ sorted_texts (texts.now ++ own_selectors uid)) }
    ensures at_most { IfOk result (λ s. length s ≤ MAX_SOCKET_SELECTORS + 1) }
{
    let mut items = clone_all(alloc, texts)?.into_vec();
    if let Some(uid) = uid {
        items.push(uid_selector(alloc, uid)?)?;
    }
    match Selectors::from_list(alloc, items, MAX_SOCKET_SELECTORS as u32 + 1) {
        Ok(selectors) => Ok(selectors),
        Err(SelectorsFault::TooMany(_)) => unreachable!(),
        Err(SelectorsFault::Memory) => Err(Memory),
    }
}
