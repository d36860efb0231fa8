//! Numbers in decimal.

ghost use Rattle.std.specs.Prelude.{◌≡◌, ◌++◌, OnOk};
ghost use Rattle.std.specs.Fmt.{decimal};
ghost use Rattle.fault_lines.specs.Lines.{spaced, spaced_all};
ghost use Rattle.wl_replay.specs.Words.{number_in};

use decimal_text::number_up_to;
use std::string::ToString;
use wl_octets::Memory;

/// Appends a number.
pub fn put_decimal(out: &mut Vec<u8>, number: u64) -> Result<(), Memory>
    ensures { OnOk result (out.new.items ≡ out.old.items ++ decimal number) }
{
    let text = number.to_string(*out.allocator())?;
    out.extend_from_slice(text.as_bytes())?;
    Ok(())
}

/// Appends a number after a space.
pub fn put_spaced(out: &mut Vec<u8>, number: u64) -> Result<(), Memory>
    ensures { OnOk result (out.new.items ≡ out.old.items ++ spaced number) }
{
    out.push(b' ')?;
    put_decimal(out, number)
}

/// Appends each number after a space.
#[tactic(auto, unfolding(fault_lines::specs::Lines::spaced_all))]
pub fn put_all(out: &mut Vec<u8>, numbers: &[u64]) -> Result<(), Memory>
    ensures { OnOk result (out.new.items ≡ out.old.items ++ spaced_all numbers.now) }
{
    for number in numbers {
        put_spaced(out, *number)?;
    }
    Ok(())
}

/// The number below 2^64 that a word writes in decimal digits, leading zeros allowed, where it is one.
#[tactic(auto, unfolding(crate::specs::Words::number_in))]
pub fn number_in(word: &[u8]) -> Option<u64>
    ensures { result ≡ number_in word.now }
{
    number_up_to(u64::MAX, word)
}
