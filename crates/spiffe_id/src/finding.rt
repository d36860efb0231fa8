//! Finding the first fault of a text, from its front.

ghost use Rattle.std.specs.Prelude.{◌≡◌, ◌==◌, ◌+◌, ◌<◌, ◌≤◌, ◌∷◌, [], not, length, position, IfSome, MatchOption};
ghost use Rattle.spiffe_id.specs.declared.finding.TheConstants.{MAX_ID_LEN};
ghost use Rattle.spiffe_id.specs.Grammar.{is_domain_byte, is_path_byte};
ghost use Rattle.spiffe_id.specs.Faults.{is_dots, pieces, domain_fault, segment_fault, segments_fault, parts_fault, id_fault};

use crate::faults::IdFault;

/// The scheme and what follows it, before the name.
const SCHEME: &[u8] = b"spiffe://";

/// The most bytes of an id (own rule).
pub const MAX_ID_LEN: usize = 2048;

/// The most bytes of a trust domain name (own rule).
pub const MAX_DOMAIN_LEN: usize = 255;

fn in_name(byte: u8) -> bool
    ensures { result ≡ is_domain_byte byte }
{
    matches!(byte, b'a'..=b'z' | b'0'..=b'9' | b'.' | b'-' | b'_')
}

fn in_segment(byte: u8) -> bool
    ensures { result ≡ is_path_byte byte }
{
    in_name(byte) || byte.is_ascii_uppercase()
}

fn is_dotted(segment: &[u8]) -> bool
    ensures { result ≡ is_dots segment.now }
{
    matches!(segment, [b'.'] | [b'.', b'.'])
}

/// The first byte that may not stand in a name.
fn wrong_in_name(name: &[u8]) -> Option<usize>
    ensures place { result ≡ position (λ b. not (is_domain_byte b)) name.now }
    ensures bound { IfSome result (λ i. i < length name.now) }
{
    name.iter().position(|byte| !in_name(*byte))
}

/// The first byte that may not stand in a segment.
fn wrong_in_segment(segment: &[u8]) -> Option<usize>
    ensures place { result ≡ position (λ b. not (is_path_byte b)) segment.now }
    ensures bound { IfSome result (λ i. i < length segment.now) }
{
    segment.iter().position(|byte| !in_segment(*byte))
}

/// The first slash.
fn slash(text: &[u8]) -> Option<usize>
    ensures place { result ≡ position (λ b. b == 47) text.now }
    ensures bound { IfSome result (λ i. i < length text.now) }
{
    text.iter().position(|byte| *byte == b'/')
}

/// The first fault of the trust domain name that begins at this place of the text.
#[tactic(auto, unfolding(crate::specs::Faults::domain_fault))]
pub(crate) fn fault_of_domain(at: usize, name: &[u8]) -> Option<IdFault>
    requires { at ≤ MAX_ID_LEN }
    ensures { result ≡ domain_fault at name.now }
{
    if name.is_empty() {
        return Some(IdFault::EmptyDomain);
    }
    if name.len() > MAX_DOMAIN_LEN {
        return Some(IdFault::TooLong(name.len()));
    }
    match wrong_in_name(name) {
        Some(wrong) => Some(IdFault::DomainByte(at + wrong)),
        None => None,
    }
}

/// The first fault of the segment whose `/` stands at this place of the text.
#[tactic(auto, unfolding(crate::specs::Faults::segment_fault))]
fn fault_of_segment(at: usize, segment: &[u8]) -> Option<IdFault>
    requires { at + length segment.now ≤ MAX_ID_LEN }
    ensures { result ≡ segment_fault at segment.now }
{
    if segment.is_empty() {
        return Some(IdFault::EmptySegment(at));
    }
    match wrong_in_segment(segment) {
        Some(wrong) => Some(IdFault::PathByte(at + 1 + wrong)),
        None if is_dotted(segment) => Some(IdFault::DotSegment(at)),
        None => None,
    }
}

/// What stands before the first `/`, and what is after it.
pub(crate) fn cut(text: &[u8]) -> Option<(&[u8], &[u8])>
    ensures parts { MatchOption result (pieces text.now ≡ text.now ∷ [])
        (λ p. pieces text.now ≡ p.0.now ∷ pieces p.1.now) }
    ensures shorter { IfSome result (λ p. length p.0.now + 1 + length p.1.now ≡ length text.now) }
{
    match slash(text) {
        Some(at) => Some((&text[..at], &text[at + 1..])),
        None => None,
    }
}

/// The first fault of the segments of a text whose first byte is after the `/` at this place.
fn fault_of_segments(at: usize, text: &[u8]) -> Option<IdFault>
    requires { at + length text.now ≤ MAX_ID_LEN }
    ensures { result ≡ segments_fault at (pieces text.now) }
{
    let mut at = at;
    let mut rest = text;
    while let Some((segment, later)) = cut(rest) {
        let fault = fault_of_segment(at, segment);
        if fault.is_some() {
            return fault;
        }
        at += 1 + segment.len();
        rest = later;
    }
    fault_of_segment(at, rest)
}

/// The first fault of what follows the scheme.
fn fault_of_parts(text: &[u8]) -> Option<IdFault>
    requires { length text.now ≤ 2039 }
    ensures { result ≡ parts_fault (pieces text.now) }
{
    match cut(text) {
        None => fault_of_domain(SCHEME.len(), text),
        Some((name, path)) => match fault_of_domain(SCHEME.len(), name) {
            Some(fault) => Some(fault),
            None => fault_of_segments(SCHEME.len() + name.len(), path),
        },
    }
}

/// The first fault of the text of an id.
#[tactic(auto, unfolding(crate::specs::Faults::id_fault))]
pub(crate) fn fault_of_id(text: &[u8]) -> Option<IdFault>
    ensures { result ≡ id_fault text.now }
{
    if text.len() > MAX_ID_LEN {
        return Some(IdFault::TooLong(text.len()));
    }
    match text.strip_prefix(SCHEME) {
        None => Some(IdFault::NotSpiffe),
        Some(parts) => fault_of_parts(parts),
    }
}
