//! The documents and callers of a simulation.

ghost use Rattle.std.specs.Prelude.{◌≡◌, ◌++◌, ◌∷◌, [], ◌<◌, ◌≤◌, length, IfOk, OnOk};
ghost use Rattle.wl_replay.specs.declared.limits.TheConstants.{MAX_ENTRIES};
ghost use Rattle.wl_replay.specs.Generated.{five_digits, caller_selector, comma_before, id_text, path_text, selectors_text, names_text, ttl_text, entry_text, entries_text, document_text};

use crate::numbers::put_decimal;
use std::alloc::Global;
use wl_octets::{Memory, Octets};
use wl_selector::{Selector, Selectors};

/// Appends a number below 100,000 in five digits.
fn put_five(out: &mut Vec<u8>, number: u32) -> Result<(), Memory>
    ensures { OnOk result (out.new.items ≡ out.old.items ++ five_digits number) }
{
    out.push(b'0' + (number / 10_000 % 10) as u8)?;
    out.push(b'0' + (number / 1_000 % 10) as u8)?;
    out.push(b'0' + (number / 100 % 10) as u8)?;
    out.push(b'0' + (number / 10 % 10) as u8)?;
    out.push(b'0' + (number % 10) as u8)?;
    Ok(())
}

/// Appends the selector of a caller.
fn put_selector(out: &mut Vec<u8>, conn: u32) -> Result<(), Memory>
    ensures { OnOk result (out.new.items ≡ out.old.items ++ caller_selector conn) }
{
    out.extend_from_slice(b"sim:caller:")?;
    put_decimal(out, u64::from(conn))
}

/// Appends a comma, but before the first entry.
fn put_comma(out: &mut Vec<u8>, at: u32) -> Result<(), Memory>
    ensures { OnOk result (out.new.items ≡ out.old.items ++ comma_before at) }
{
    if at > 0 {
        out.push(b',')?;
    }
    Ok(())
}

/// Appends the id of an entry.
#[tactic(auto, unfolding(crate::specs::Generated::id_text))]
fn put_id(out: &mut Vec<u8>, at: u32) -> Result<(), Memory>
    ensures { OnOk result (out.new.items ≡ out.old.items ++ id_text at) }
{
    out.extend_from_slice(b"{\"id\":\"e")?;
    put_five(out, at)
}

/// Appends the SPIFFE ID of an entry.
#[tactic(auto, unfolding(crate::specs::Generated::path_text))]
fn put_path(out: &mut Vec<u8>, at: u32) -> Result<(), Memory>
    ensures { OnOk result (out.new.items ≡ out.old.items ++ path_text at) }
{
    out.extend_from_slice(b"\",\"spiffe_id\":\"spiffe://sim.test/w/")?;
    put_decimal(out, u64::from(at))
}

/// Appends the selectors of an entry.
#[tactic(auto, unfolding(crate::specs::Generated::selectors_text))]
fn put_selectors(out: &mut Vec<u8>, conn: u32) -> Result<(), Memory>
    ensures { OnOk result (out.new.items ≡ out.old.items ++ selectors_text conn) }
{
    out.extend_from_slice(b"\",\"selectors\":[\"")?;
    put_selector(out, conn)
}

/// Appends the DNS names of an entry.
#[tactic(auto, unfolding(crate::specs::Generated::names_text))]
fn put_names(out: &mut Vec<u8>, is_named: bool) -> Result<(), Memory>
    ensures { OnOk result (out.new.items ≡ out.old.items ++ names_text is_named) }
{
    if is_named {
        out.extend_from_slice(b"\"],\"dns_names\":[\"alt\"]")?;
    } else {
        out.extend_from_slice(b"\"],\"dns_names\":[]")?;
    }
    Ok(())
}

/// Appends the time to live of an entry.
#[tactic(auto, unfolding(crate::specs::Generated::ttl_text))]
fn put_ttl(out: &mut Vec<u8>) -> Result<(), Memory>
    ensures { OnOk result (out.new.items ≡ out.old.items ++ ttl_text) }
{
    out.extend_from_slice(b",\"ttl\":3600}")?;
    Ok(())
}

/// Appends the entry of this number.
#[tactic(auto, unfolding(crate::specs::Generated::entry_text))]
fn put_entry(out: &mut Vec<u8>, callers: u32, at: u32, is_named: bool) -> Result<(), Memory>
    requires { 0 < callers }
    ensures { OnOk result (out.new.items ≡ out.old.items ++ entry_text callers at is_named) }
{
    put_comma(out, at)?;
    put_id(out, at)?;
    put_path(out, at)?;
    put_selectors(out, at % callers)?;
    put_names(out, is_named)?;
    put_ttl(out)
}

/// Appends the entries, by whether each has the DNS name.
fn put_entries(out: &mut Vec<u8>, callers: u32, named: &[bool]) -> Result<(), Memory>
    requires callers { 0 < callers }
    requires named { length named.now ≤ MAX_ENTRIES }
    ensures { OnOk result (out.new.items ≡ out.old.items ++ entries_text callers 0 named.now) }
{
    for (at, is_named) in named.iter().enumerate() {
        put_entry(out, callers, at as u32, *is_named)?;
    }
    Ok(())
}

/// The document of these entries.
#[tactic(auto, unfolding(crate::specs::Generated::document_text))]
pub(crate) fn document(alloc: Global, callers: u32, named: &[bool]) -> Result<Octets, Memory>
    requires callers { 0 < callers }
    requires named { length named.now ≤ MAX_ENTRIES }
    ensures { IfOk result (λ o. o ≡ document_text callers named.now) }
{
    let mut text = Vec::from_slice(
        alloc,
        b"{\"version\":1,\"trust_domain\":\"sim.test\",\"bundles\":[{\"trust_domain\":\"sim.test\",\"x509\":\"c2lt\"}],\"entries\":[",
    )?;
    put_entries(&mut text, callers, named)?;
    text.extend_from_slice(b"]}")?;
    Ok(Octets::from_vec(text))
}

/// The selector of a caller. Each such text is one, as tests show; were it none, this would be answered as out of memory.
fn selector(alloc: Global, conn: u32) -> Result<Selector, Memory>
    ensures { IfOk result (λ s. s ≡ caller_selector conn) }
{
    let mut text = Vec::new(alloc);
    put_selector(&mut text, conn)?;
    match Selector::parse(alloc, text.as_slice()) {
        Ok(selector) => Ok(selector),
        Err(_) => Err(Memory),
    }
}

/// The selectors of a caller.
#[tactic(auto, unfolding(wl_selector::specs::Selectors::sorted_texts))]
pub(crate) fn selectors(alloc: Global, conn: u32) -> Result<Selectors, Memory>
    ensures { IfOk result (λ s. s ≡ caller_selector conn ∷ []) }
{
    let mut items = Vec::new(alloc);
    items.push(selector(alloc, conn)?)?;
    match Selectors::from_list(alloc, items, 1) {
        Ok(selectors) => Ok(selectors),
        Err(_) => Err(Memory),
    }
}
