//! The URIs among the names of a subject (RFC 5280, section 4.2.1.6).

ghost use Rattle.std.specs.Prelude.{◌≡◌, ◌<◌, ◌≤◌, ◌^◌, length, IfOk};
ghost use Rattle.wl_x509.specs.Leaves.{names_from, alternative_names, uris_of, extension_at, extensions_from, extension_list, extensions_part};
ghost use Rattle.wl_x509.specs.Tallies.{met, tallied, ended, IsMet};

use crate::tags::{BOOLEAN, EXTENSIONS, OBJECT_IDENTIFIER, OCTET_STRING, SEQUENCE, URI};
use crate::values::{Span, content, read_part, read_value, skip_option};
use wl_entry::CertFault;

/// The extension that has the names of the subject, 2.5.29.17.
const SUBJECT_ALT_NAME: [u8; 3] = [0x55, 0x1d, 0x11];

/// The URIs that were met so far: how many, and the first.
#[derive(Clone, Copy, Debug, PartialEq, Eq)]
pub struct Uris {
    pub count: usize,
    pub first: Span,
}

impl Uris {
    /// These and one more.
    fn and(self, uri: Span) -> Uris
        requires { self.count < 2 ^ 63 }
        ensures { result ≡ met self uri }
    {
        Uris {
            count: self.count + 1,
            first: if self.count == 0 { uri } else { self.first },
        }
    }
}

/// What was read, where nothing follows it up to the end.
fn at_end(read: Result<Uris, CertFault>, at: usize, end: usize) -> Result<Uris, CertFault>
    ensures { result ≡ ended read at end }
{
    let found = read?;
    if at < end {
        return Err(CertFault::Extra(at));
    }
    Ok(found)
}

/// Meets the URIs among the names from a place on.
fn meet_names(bytes: &[u8], start: usize, end: usize, before: Uris) -> Result<Uris, CertFault>
    requires order { start ≤ end }
    requires bound { end ≤ length bytes.now }
    requires met { IsMet bytes.now start before }
    ensures value { result ≡ tallied before (names_from bytes.now start end) }
    ensures met { IfOk result (IsMet bytes.now end) }
{
    let mut found = before;
    let mut at = start;
    'names: while at < end {
        let name = read_value(bytes, at, end)?;
        if bytes[at] == URI {
            found = found.and(name);
        }
        at = name.next;
    }
    Ok(found)
}

/// Meets the URIs of a list of names.
#[tactic(auto, unfolding(crate::specs::Leaves::alternative_names), using(crate::proofs::Tallies::tally_laws))]
fn meet_alternatives(bytes: &[u8], value: Span, before: Uris) -> Result<Uris, CertFault>
    requires order { value.start ≤ value.next }
    requires bound { value.next ≤ length bytes.now }
    requires met { IsMet bytes.now value.start before }
    ensures value { result ≡ tallied before (alternative_names bytes.now value) }
    ensures met { IfOk result (IsMet bytes.now value.next) }
{
    let names = read_part(SEQUENCE, bytes, value.start, value.next)?;
    let found = meet_names(bytes, names.start, names.next, before);
    at_end(found, names.next, value.next)
}

/// Meets the URIs of an extension's value.
#[tactic(auto, unfolding(crate::specs::Leaves::uris_of))]
fn meet_value(bytes: &[u8], id: Span, value: Span, before: Uris) -> Result<Uris, CertFault>
    requires id { id.start ≤ id.next }
    requires id_bound { id.next ≤ length bytes.now }
    requires order { value.start ≤ value.next }
    requires bound { value.next ≤ length bytes.now }
    requires met { IsMet bytes.now value.start before }
    ensures value { result ≡ tallied before (uris_of bytes.now id value) }
    ensures met { IfOk result (IsMet bytes.now value.next) }
{
    if content(bytes, id) == SUBJECT_ALT_NAME.as_slice() {
        return meet_alternatives(bytes, value, before);
    }
    Ok(before)
}

/// Meets the URIs of an extension.
#[tactic(auto, unfolding(crate::specs::Leaves::extension_at), using(crate::proofs::Tallies::tally_laws))]
fn meet_extension(bytes: &[u8], at: usize, end: usize, before: Uris) -> Result<Uris, CertFault>
    requires order { at ≤ end }
    requires bound { end ≤ length bytes.now }
    requires met { IsMet bytes.now at before }
    ensures value { result ≡ tallied before (extension_at bytes.now at end) }
    ensures met { IfOk result (IsMet bytes.now end) }
{
    let id = read_part(OBJECT_IDENTIFIER, bytes, at, end)?;
    let next = skip_option(BOOLEAN, bytes, id.next, end)?;
    let value = read_part(OCTET_STRING, bytes, next, end)?;
    let found = meet_value(bytes, id, value, before);
    at_end(found, value.next, end)
}

/// Meets the URIs of the extensions from a place on.
fn meet_extensions(bytes: &[u8], start: usize, end: usize, before: Uris) -> Result<Uris, CertFault>
    requires order { start ≤ end }
    requires bound { end ≤ length bytes.now }
    requires met { IsMet bytes.now start before }
    ensures value { result ≡ tallied before (extensions_from bytes.now start end) }
    ensures met { IfOk result (IsMet bytes.now end) }
{
    let mut found = before;
    let mut at = start;
    'extensions: while at < end {
        let extension = read_part(SEQUENCE, bytes, at, end)?;
        found = meet_extension(bytes, extension.start, extension.next, found)?;
        at = extension.next;
    }
    Ok(found)
}

/// Meets the URIs of a list of extensions.
#[tactic(auto, unfolding(crate::specs::Leaves::extension_list), using(crate::proofs::Tallies::tally_laws))]
fn meet_list(bytes: &[u8], at: usize, end: usize, before: Uris) -> Result<Uris, CertFault>
    requires order { at ≤ end }
    requires bound { end ≤ length bytes.now }
    requires met { IsMet bytes.now at before }
    ensures value { result ≡ tallied before (extension_list bytes.now at end) }
    ensures met { IfOk result (IsMet bytes.now end) }
{
    let list = read_part(SEQUENCE, bytes, at, end)?;
    let found = meet_extensions(bytes, list.start, list.next, before);
    at_end(found, list.next, end)
}

/// Meets the URIs of the last part of a body, which may be left out.
#[tactic(auto, unfolding(crate::specs::Leaves::extensions_part), using(crate::proofs::Tallies::tally_laws))]
pub fn meet_part(bytes: &[u8], at: usize, end: usize, before: Uris) -> Result<Uris, CertFault>
    requires order { at ≤ end }
    requires bound { end ≤ length bytes.now }
    requires met { IsMet bytes.now at before }
    ensures value { result ≡ tallied before (extensions_part bytes.now at end) }
    ensures met { IfOk result (IsMet bytes.now end) }
{
    if end <= at {
        return Ok(before);
    }
    if bytes[at] != EXTENSIONS {
        return Err(CertFault::Extra(at));
    }
    let part = read_value(bytes, at, end)?;
    let found = meet_list(bytes, part.start, part.next, before);
    at_end(found, part.next, end)
}
