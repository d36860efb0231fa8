//! Values of DER (ITU-T X.690).

ghost use Rattle.std.specs.Prelude.{◌≡◌, ◌<◌, ◌≤◌, ◌+◌, ◌^◌, ℕ, length, IfOk, Ok, Err};
ghost use Rattle.wl_x509.specs.Values.{content, content_at, long_at, longer_at, value_at, part_at, option_at};

use wl_entry::CertFault;

/// A value that was read: where its content begins, and the place after it.
#[derive(Clone, Copy, Debug, PartialEq, Eq)]
pub struct Span {
    pub start: usize,
    pub next: usize,
}

/// The content of a value.
pub fn content(bytes: &[u8], value: Span) -> &[u8]
    requires order { value.start ≤ value.next }
    requires within { value.next ≤ length bytes.now }
    ensures { result.now ≡ content bytes.now value }
{
    &bytes[value.start..value.next]
}

/// Content of this size, of the value at a place.
#[tactic(auto, unfolding(crate::specs::Values::content_at))]
fn read_content(at: usize, end: usize, start: usize, size: usize) -> Result<Span, CertFault>
    requires order { start ≤ end }
    requires small { size < 65536 }
    requires bound { end < 2 ^ 63 }
    ensures value { result ≡ content_at at end start size }
    ensures within { IfOk result (λ v. (v.start ≡ start) × (start ≤ v.next) × (v.next ≤ end)) }
{
    if end < start + size {
        return Err(CertFault::Truncated(at));
    }
    Ok(Span {
        start,
        next: start + size,
    })
}

/// A value whose length has one byte more.
#[tactic(auto, unfolding(crate::specs::Values::long_at))]
fn read_long(bytes: &[u8], at: usize, end: usize) -> Result<Span, CertFault>
    requires order { at < end }
    requires bound { end ≤ length bytes.now }
    ensures value { result ≡ long_at bytes.now at end }
    ensures within { IfOk result (λ v. (at < v.start) × (v.start ≤ v.next) × (v.next ≤ end)) }
{
    if end <= at + 2 {
        return Err(CertFault::Truncated(at));
    }
    let size = bytes[at + 2];
    if size < 128 {
        return Err(CertFault::Length(at + 1));
    }
    read_content(at, end, at + 3, size as usize)
}

/// A value whose length has two bytes more.
#[tactic(auto, unfolding(crate::specs::Values::longer_at))]
fn read_longer(bytes: &[u8], at: usize, end: usize) -> Result<Span, CertFault>
    requires order { at < end }
    requires bound { end ≤ length bytes.now }
    ensures value { result ≡ longer_at bytes.now at end }
    ensures within { IfOk result (λ v. (at < v.start) × (v.start ≤ v.next) × (v.next ≤ end)) }
{
    if end <= at + 3 {
        return Err(CertFault::Truncated(at));
    }
    let high = bytes[at + 2];
    if high == 0 {
        return Err(CertFault::Length(at + 1));
    }
    let size = 256 * high as usize + bytes[at + 3] as usize;
    read_content(at, end, at + 4, size)
}

/// The value whose tag, which is not judged, stands at a place.
#[tactic(auto, unfolding(crate::specs::Values::value_at))]
pub fn read_value(bytes: &[u8], at: usize, end: usize) -> Result<Span, CertFault>
    requires order { at < end }
    requires bound { end ≤ length bytes.now }
    ensures value { result ≡ value_at bytes.now at end }
    ensures within { IfOk result (λ v. (at < v.start) × (v.start ≤ v.next) × (v.next ≤ end)) }
{
    if end <= at + 1 {
        return Err(CertFault::Truncated(at));
    }
    let first = bytes[at + 1];
    match first {
        0..128 => read_content(at, end, at + 2, first as usize),
        129 => read_long(bytes, at, end),
        130 => read_longer(bytes, at, end),
        _ => Err(CertFault::Length(at + 1)),
    }
}

/// The part of this tag that is due at a place.
#[tactic(auto, unfolding(crate::specs::Values::part_at))]
pub fn read_part(tag: u8, bytes: &[u8], at: usize, end: usize) -> Result<Span, CertFault>
    requires order { at ≤ end }
    requires bound { end ≤ length bytes.now }
    ensures value { result ≡ part_at tag bytes.now at end }
    ensures within { IfOk result (λ v. (at < v.start) × (v.start ≤ v.next) × (v.next ≤ end)) }
{
    if end <= at {
        return Err(CertFault::Truncated(end));
    }
    if bytes[at] != tag {
        return Err(CertFault::Tag(at));
    }
    read_value(bytes, at, end)
}

/// The place after a part of this tag, which may be left out.
#[tactic(auto, unfolding(crate::specs::Values::option_at))]
pub fn skip_option(tag: u8, bytes: &[u8], at: usize, end: usize) -> Result<usize, CertFault>
    requires order { at ≤ end }
    requires bound { end ≤ length bytes.now }
    ensures value { result ≡ option_at tag bytes.now at end }
    ensures within { IfOk result (λ next. (at ≤ next) × (next ≤ end)) }
{
    if end <= at || bytes[at] != tag {
        return Ok(at);
    }
    let value = read_value(bytes, at, end)?;
    Ok(value.next)
}
