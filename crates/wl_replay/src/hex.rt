//! Hexadecimal.

ghost use Rattle.std.specs.Prelude.{◌≡◌, ◌++◌, ◌<◌, ◌∷◌, [], List, ℕ, IfOk, OnOk, IfSome, length, option_map, Some, None};
ghost use Rattle.wl_replay.specs.Hex.{hex_digit, hex_text, hex_value, hex_pair, hex_pairs, hex_in};

use std::alloc::{AllocFailed, Global};
use wl_octets::{Memory, Octets};

/// A digit.
fn digit(value: u8) -> u8
    requires { value < 16 }
    ensures { result ≡ hex_digit value }
{
    if value < 10 { 48 + value } else { 87 + value }
}

/// Appends the two digits of each byte, in lower case.
#[tactic(auto, unfolding(crate::specs::Hex::hex_text))]
pub fn put_hex(out: &mut Vec<u8>, bytes: &[u8]) -> Result<(), Memory>
    ensures { OnOk result (out.new.items ≡ out.old.items ++ hex_text bytes.now) }
{
    for byte in bytes {
        out.push(digit(*byte / 16))?;
        out.push(digit(*byte % 16))?;
    }
    Ok(())
}

/// The value of a digit.
fn value(byte: u8) -> Option<u8>
    ensures value { result ≡ hex_value byte }
    ensures small { IfSome result (λ v. v < 16) }
{
    match byte {
        b'0'..=b'9' => Some(byte - b'0'),
        b'A'..=b'F' => Some(byte - b'A' + 10),
        b'a'..=b'f' => Some(byte - b'a' + 10),
        _ => None,
    }
}

/// The byte that two digits write.
fn pair(high: u8, low: u8) -> Option<u8>
    ensures { result ≡ hex_pair high low }
{
    let high = value(high)?;
    let low = value(low)?;
    Some(16 * high + low)
}

/// The first two digits, and what comes after them.
fn first_pair(word: &[u8]) -> Option<(u8, u8, &[u8])>
    ensures some { IfSome result (λ p. word.now ≡ p.0 ∷ p.1 ∷ p.2.now) }
    ensures none { result ≡ None → length word.now < 2 }
{
    let (high, rest) = word.split_first()?;
    let (low, rest) = rest.split_first()?;
    Some((*high, *low, rest))
}

/// The bytes that digits write, two digits a byte.
fn pairs(alloc: Global, word: &[u8]) -> Result<Option<Vec<u8>>, AllocFailed<u8>>
    ensures { IfOk result (λ o. option_map (λ v. v.items) o ≡ hex_pairs word.now) }
{
    let mut bytes = Vec::new(alloc);
    let mut rest = word;
    'pairs: while let Some((high, low, after)) = first_pair(rest) {
        match pair(high, low) {
            Some(byte) => bytes.push(byte)?,
            None => return Ok(None),
        }
        rest = after;
    }
    Ok(if rest.is_empty() { Some(bytes) } else { None })
}

/// The bytes that a word is: its digits', or none where it is `-`.
#[tactic(auto, unfolding(crate::specs::Hex::hex_in))]
pub(crate) fn hex_in(alloc: Global, word: &[u8]) -> Result<Option<Octets>, Memory>
    ensures { IfOk result (λ o. o ≡ hex_in word.now) }
{
    match word {
        [] => Ok(Some(Octets::empty(alloc))),
        [byte] => Ok(if *byte == b'-' {
            Some(Octets::empty(alloc))
        } else {
            None
        }),
        _ => Ok(pairs(alloc, word)?.map(|bytes| Octets::from_vec(bytes))),
    }
}
