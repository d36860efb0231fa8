//! The parts of a certificate (RFC 5280, section 4.1).

ghost use Rattle.std.specs.Prelude.{◌≡◌, ◌<◌, ◌≤◌, ◌+◌, ℕ, length, IfOk, Ok, Err};
ghost use Rattle.wl_x509.specs.Leaves.{time_at, validity_at, issuing_at, subject_at, body_at, frame_of, signature_at};

use crate::tags::{
    BIT_STRING, GENERALIZED_TIME, INTEGER, ISSUER_ID, SEQUENCE, SUBJECT_ID, UTC_TIME, VERSION,
};
use crate::times::{read_long_time, read_short_time};
use crate::values::{Span, content, read_part, read_value, skip_option};
use wl_entry::CertFault;

/// What was read of a certificate where its extensions begin.
#[derive(Clone, Copy, Debug, PartialEq, Eq)]
pub struct Frame {
    /// The two times, in Unix seconds.
    pub before: u64,
    pub after: u64,
    /// Where the extensions begin, and where the body and the certificate end.
    pub at: usize,
    pub body: usize,
    pub whole: usize,
}

/// A time, and the place after it.
#[tactic(auto, unfolding(crate::specs::Leaves::time_at))]
fn read_time(bytes: &[u8], at: usize, end: usize) -> Result<(u64, usize), CertFault>
    requires order { at ≤ end }
    requires bound { end ≤ length bytes.now }
    ensures value { result ≡ time_at bytes.now at end }
    ensures within { IfOk result (λ t. (at < t.1) × (t.1 ≤ end)) }
{
    if end <= at {
        return Err(CertFault::Truncated(end));
    }
    let tag = bytes[at];
    if tag != UTC_TIME && tag != GENERALIZED_TIME {
        return Err(CertFault::Tag(at));
    }
    let value = read_value(bytes, at, end)?;
    let text = content(bytes, value);
    let time = if tag == UTC_TIME {
        read_short_time(text)
    } else {
        read_long_time(text)
    };
    match time {
        Some(seconds) => Ok((seconds, value.next)),
        None => Err(CertFault::Time(at)),
    }
}

/// The two times of a validity.
#[tactic(auto, unfolding(crate::specs::Leaves::validity_at))]
fn read_validity(bytes: &[u8], at: usize, end: usize) -> Result<(u64, u64), CertFault>
    requires order { at ≤ end }
    requires bound { end ≤ length bytes.now }
    ensures { result ≡ validity_at bytes.now at end }
{
    let (before, next) = read_time(bytes, at, end)?;
    let (after, next) = read_time(bytes, next, end)?;
    if next < end {
        return Err(CertFault::Extra(next));
    }
    Ok((before, after))
}

/// The place after version, serial number, signature algorithm and issuer.
#[tactic(auto, unfolding(crate::specs::Leaves::issuing_at))]
fn read_issuing(bytes: &[u8], at: usize, end: usize) -> Result<usize, CertFault>
    requires order { at ≤ end }
    requires bound { end ≤ length bytes.now }
    ensures value { result ≡ issuing_at bytes.now at end }
    ensures within { IfOk result (λ next. (at ≤ next) × (next ≤ end)) }
{
    let next = skip_option(VERSION, bytes, at, end)?;
    let serial = read_part(INTEGER, bytes, next, end)?;
    let algorithm = read_part(SEQUENCE, bytes, serial.next, end)?;
    let issuer = read_part(SEQUENCE, bytes, algorithm.next, end)?;
    Ok(issuer.next)
}

/// The place after subject, public key and the two identifiers.
#[tactic(auto, unfolding(crate::specs::Leaves::subject_at))]
fn read_subject(bytes: &[u8], at: usize, end: usize) -> Result<usize, CertFault>
    requires order { at ≤ end }
    requires bound { end ≤ length bytes.now }
    ensures value { result ≡ subject_at bytes.now at end }
    ensures within { IfOk result (λ next. (at ≤ next) × (next ≤ end)) }
{
    let subject = read_part(SEQUENCE, bytes, at, end)?;
    let key = read_part(SEQUENCE, bytes, subject.next, end)?;
    let next = skip_option(ISSUER_ID, bytes, key.next, end)?;
    skip_option(SUBJECT_ID, bytes, next, end)
}

/// The body of a certificate that ends at a place, up to the extensions.
#[tactic(auto, unfolding(crate::specs::Leaves::body_at))]
fn read_body(bytes: &[u8], body: Span, whole: usize) -> Result<Frame, CertFault>
    requires order { body.start ≤ body.next }
    requires bound { body.next ≤ length bytes.now }
    ensures value { result ≡ body_at bytes.now body whole }
    ensures within { IfOk result (λ f. (f.at ≤ f.body) × (f.body ≡ body.next) × (f.whole ≡ whole)) }
{
    let next = read_issuing(bytes, body.start, body.next)?;
    let validity = read_part(SEQUENCE, bytes, next, body.next)?;
    let (before, after) = read_validity(bytes, validity.start, validity.next)?;
    let at = read_subject(bytes, validity.next, body.next)?;
    Ok(Frame {
        before,
        after,
        at,
        body: body.next,
        whole,
    })
}

/// The first certificate, up to its extensions.
#[tactic(auto, unfolding(crate::specs::Leaves::frame_of))]
pub fn read_frame(bytes: &[u8]) -> Result<Frame, CertFault>
    ensures value { result ≡ frame_of bytes.now }
    ensures within { IfOk result (λ f. (f.at ≤ f.body) × (f.body ≤ f.whole) × (f.whole ≤ length bytes.now)) }
{
    let whole = read_part(SEQUENCE, bytes, 0, bytes.len())?;
    let body = read_part(SEQUENCE, bytes, whole.start, whole.next)?;
    read_body(bytes, body, whole.next)
}

/// What stands after the body.
#[tactic(auto, unfolding(crate::specs::Leaves::signature_at))]
pub fn read_signature(bytes: &[u8], at: usize, end: usize) -> Result<usize, CertFault>
    requires order { at ≤ end }
    requires bound { end ≤ length bytes.now }
    ensures { result ≡ signature_at bytes.now at end }
{
    let algorithm = read_part(SEQUENCE, bytes, at, end)?;
    let signature = read_part(BIT_STRING, bytes, algorithm.next, end)?;
    if signature.next < end {
        return Err(CertFault::Extra(signature.next));
    }
    Ok(end)
}
