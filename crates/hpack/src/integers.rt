//! Integers and strings (RFC 7541, section 5).
#![tactic(auto)]

ghost use Rattle.std.specs.Prelude.{◌≡◌, ◌<◌, ◌^◌};
ghost use Rattle.hpack.specs.Outcomes.{Gives};
ghost use Rattle.hpack.specs.Reading.{more_at, integer_at, is_coded, string_at};

use crate::fault::HpackFault;
use crate::huffman::decode;
use std::alloc::Global;
use wl_octets::Octets;

/// What one more is worth in each of the five bytes after a full prefix.
static WORTHS: [u32; 5] = [1, 128, 16_384, 2_097_152, 268_435_456];

/// Adds the bytes of seven bits, one for each of these worths at most, and gives what stands after them.
#[tactic(auto, unfolding(crate::specs::Reading::more_at))]
fn more<'a>(worths: &[u32], value: u64, bytes: &'a [u8]) -> Result<(u32, &'a [u8]), HpackFault>
    requires { value < 2 ^ 32 }
    ensures { Gives (λ read. (read.0, read.1.now)) result (more_at worths.now value bytes.now) }
{
    let Some((byte, rest)) = bytes.split_first() else {
        return Err(HpackFault::Truncated);
    };
    let Some((worth, worths)) = worths.split_first() else {
        return Err(HpackFault::Integer);
    };
    let value = value + u64::from(*byte % 128) * u64::from(*worth);
    if value > 4_294_967_295 {
        return Err(HpackFault::Integer);
    }
    if *byte < 128 {
        Ok((value as u32, rest))
    } else {
        more(worths, value, rest)
    }
}

/// The integer whose prefix takes the lowest bits of the first byte, all of which are set in `full`, and what stands
/// after it.
#[tactic(auto, unfolding(crate::specs::Reading::integer_at))]
pub(crate) fn integer(full: u8, bytes: &[u8]) -> Result<(u32, &[u8]), HpackFault>
    requires { full < 128 }
    ensures { Gives (λ read. (read.0, read.1.now)) result (integer_at full bytes.now) }
{
    let Some((byte, rest)) = bytes.split_first() else {
        return Err(HpackFault::Truncated);
    };
    let prefix = *byte % (full + 1);
    if prefix == full {
        more(&WORTHS, u64::from(full), rest)
    } else {
        Ok((u32::from(prefix), rest))
    }
}

/// Whether the string that the bytes begin with is Huffman coded.
fn is_coded(bytes: &[u8]) -> bool
    ensures { result ≡ is_coded bytes.now }
{
    match bytes {
        [] => false,
        [byte, ..] => *byte >= 128,
    }
}

/// The string that the bytes begin with, and what stands after it.
#[tactic(auto, unfolding(crate::specs::Reading::string_at))]
pub(crate) fn string(alloc: Global, bytes: &[u8]) -> Result<(Octets, &[u8]), HpackFault>
    ensures { Gives (λ read. (read.0, read.1.now)) result (string_at bytes.now) }
{
    let (count, rest) = integer(127, bytes)?;
    let count = count as usize;
    if rest.len() < count {
        return Err(HpackFault::Truncated);
    }
    let (content, after) = rest.split_at(count);
    if is_coded(bytes) {
        Ok((decode(alloc, content)?, after))
    } else {
        Ok((Octets::from_slice(alloc, content)?, after))
    }
}
