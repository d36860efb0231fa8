//! Callers by their selectors.

use std::alloc::Global;
use std::process::Abort;
use wl_selector::{Selector, Selectors};

/// Who calls: one of the selector `unix:uid:1`, one of `unix:uid:2`, or one that cannot be attested.
#[derive(Clone, Copy)]
pub enum Caller {
    First,
    Second,
    Nobody,
}

/// The set of this selector alone.
pub fn selectors(rt: &impl Abort, alloc: Global, text: &[u8]) -> Selectors {
    let mut items = Vec::new(alloc);
    let selector = Selector::parse(alloc, text).expect(rt, "a selector");
    items.push(selector).expect(rt, "memory");
    Selectors::from_list(alloc, items, 64).expect(rt, "selectors")
}

/// The selectors of a caller, if it can be attested.
pub fn attested(rt: &impl Abort, alloc: Global, caller: Caller) -> Option<Selectors> {
    match caller {
        Caller::First => Some(selectors(rt, alloc, b"unix:uid:1")),
        Caller::Second => Some(selectors(rt, alloc, b"unix:uid:2")),
        Caller::Nobody => None,
    }
}
