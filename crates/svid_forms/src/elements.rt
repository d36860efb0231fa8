//! Where each value of DER ends.

ghost use Rattle.std.specs.Prelude.{◌≡◌, ◌<◌, ◌^◌, IfOk, IfSome, map, option_map};
ghost use Rattle.svid_forms.specs.Elements.{content_end, first_end, elements_of, is_whole};

use std::alloc::Global;
use wl_octets::Memory;

/// The tag of a SEQUENCE (ITU-T X.690, 8.9 and 8.14).
const SEQUENCE: u8 = 48;

/// A length of one octet is below this; a first octet above it counts those that have the length.
const LONG_FORM: u8 = 128;

/// Where a value ends whose length begins with this octet.
fn content_end(first: u8, bytes: &[u8]) -> Option<usize>
    ensures { result ≡ content_end first bytes.now }
{
    if first < LONG_FORM {
        return Some(2 + first as usize);
    }
    match (first - LONG_FORM, bytes) {
        (1, [a, ..]) => Some(3 + *a as usize),
        (2, [a, b, ..]) => Some(4 + (256 * *a as usize + *b as usize)),
        (3, [a, b, c, ..]) => Some(5 + (65_536 * *a as usize + (256 * *b as usize + *c as usize))),
        _ => None,
    }
}

/// Where the first value ends.
fn first_end(bytes: &[u8]) -> Option<usize>
    ensures { result ≡ first_end bytes.now }
{
    match bytes {
        [tag, first, rest @ ..] if *tag == SEQUENCE => content_end(*first, rest),
        _ => None,
    }
}

/// The values of DER that these bytes are, one after another; none where one isn't whole, has a length of more than three
/// octets, or isn't a SEQUENCE. They lie where the bytes lie.
pub fn split<'a>(alloc: Global, bytes: &'a [u8]) -> Result<Option<Vec<&'a [u8]>>, Memory>
    ensures { IfOk result (λ found. option_map (λ v. map (λ s. s.now) v.items) found ≡ elements_of bytes.now) }
{
    let mut parts = Vec::new(alloc);
    let mut rest = bytes;
    'values: while !rest.is_empty() {
        let Some(end) = first_end(rest) else {
            return Ok(None);
        };
        if end > rest.len() {
            return Ok(None);
        }
        let (part, after) = rest.split_at(end);
        parts.push(part)?;
        rest = after;
    }
    Ok(Some(parts))
}

/// Whether these bytes are values of DER, each of them whole.
#[tactic(auto, unfolding(crate::specs::Elements::is_whole))]
pub fn is_whole(alloc: Global, bytes: &[u8]) -> Result<bool, Memory>
    ensures { IfOk result (λ is. is ≡ is_whole bytes.now) }
{
    Ok(split(alloc, bytes)?.is_some())
}
