//! Reading the numbers of a fault line.

ghost use Rattle.std.specs.Prelude.{◌≡◌, map, IfOk, option_map};
ghost use Rattle.fault_lines.specs.Numbers.{number_in, numbers_in};

use decimal_text::number_up_to;
use std::alloc::Global;
use wl_octets::Memory;

/// The number that a word is.
fn number_in(word: &[u8]) -> Option<u64>
    ensures { result ≡ number_in word.now }
{
    match word {
        [] => None,
        [b'0', _, ..] => None,
        _ => number_up_to(u64::MAX, word),
    }
}

/// The numbers that the words are, where each is one.
pub(crate) fn numbers_in(alloc: Global, words: &[&[u8]]) -> Result<Option<Vec<u64>>, Memory>
    ensures { IfOk result (λ o. option_map (λ v. v.items) o ≡ numbers_in (map (λ w. w.now) words.now)) }
{
    let mut numbers = Vec::new(alloc);
    for word in words {
        match number_in(word) {
            Some(number) => numbers.push(number)?,
            None => return Ok(None),
        }
    }
    Ok(Some(numbers))
}
