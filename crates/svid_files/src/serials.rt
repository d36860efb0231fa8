//! The serial number of a chain's first certificate.

ghost use Rattle.std.specs.Prelude.{◌≡◌, drop, option_map};
ghost use Rattle.svid_files.specs.Serials.{length_octets, after_head, after_version, integer_at, magnitude, serial_of};

/// The tag of a version, its length, and the head of the INTEGER in it (RFC 5280, section 4.1).
const VERSION: &[u8] = &[160, 3, 2, 1];

/// The tag of an INTEGER (ITU-T X.690, 8.3).
const INTEGER: u8 = 2;

/// A length of one octet is below this.
const LONG_FORM: u8 = 128;

/// How many octets the length has after its first one.
fn length_octets(first: u8) -> usize
    ensures { result ≡ length_octets first }
{
    if first < LONG_FORM {
        0
    } else {
        (first - LONG_FORM) as usize
    }
}

/// What is left after so many bytes.
fn skip(bytes: &[u8], count: usize) -> &[u8]
    ensures { result.now ≡ drop count bytes.now }
{
    bytes.split_at(count.min(bytes.len())).1
}

/// What stands after a tag and a length.
fn after_head(bytes: &[u8]) -> &[u8]
    ensures { result.now ≡ after_head bytes.now }
{
    match bytes {
        [_, first, rest @ ..] => skip(rest, length_octets(*first)),
        _ => &[],
    }
}

/// What stands after a version, where there is one.
#[tactic(auto, unfolding(crate::specs::Serials::after_version))]
fn after_version(bytes: &[u8]) -> &[u8]
    ensures { result.now ≡ after_version bytes.now }
{
    if bytes.starts_with(VERSION) {
        skip(bytes, 5)
    } else {
        bytes
    }
}

/// An INTEGER of at most 127 octets.
fn integer_at(bytes: &[u8]) -> Option<&[u8]>
    ensures { option_map (λ number. number.now) result ≡ integer_at bytes.now }
{
    match bytes {
        [tag, size, rest @ ..]
            if *tag == INTEGER && *size < LONG_FORM && *size as usize <= rest.len() => {
            Some(rest.split_at(*size as usize).0)
        }
        _ => None,
    }
}

/// The number without the octet that only says that it isn't negative.
fn magnitude(number: &[u8]) -> &[u8]
    ensures { result.now ≡ magnitude number.now }
{
    match number {
        [first, rest @ ..] if *first == 0 && !rest.is_empty() => rest,
        _ => number,
    }
}

/// The serial number of a chain's first certificate, its octets from the highest on, as far as its lengths say; none where
/// there is no INTEGER of at most 127 octets in its place.
#[tactic(auto, unfolding(crate::specs::Serials::serial_of))]
pub fn serial_of(chain: &[u8]) -> Option<&[u8]>
    ensures { option_map (λ number. number.now) result ≡ serial_of chain.now }
{
    match integer_at(after_version(after_head(after_head(chain)))) {
        Some(number) => Some(magnitude(number)),
        None => None,
    }
}
