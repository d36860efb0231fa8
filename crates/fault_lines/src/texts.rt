//! Texts, put together.

ghost use Rattle.std.specs.Prelude.{◌≡◌, ◌++◌, OnOk, IfOk};
ghost use Rattle.std.specs.Fmt.{decimal};

use std::alloc::Global;
use std::string::ToString;
use wl_octets::{Memory, Octets};

/// Writes a number in decimal.
pub(crate) fn put_number(out: &mut Octets, alloc: Global, number: u64) -> Result<(), Memory>
    ensures { OnOk result (out.new ≡ out.old ++ decimal number) }
{
    let text = number.to_string(alloc)?;
    out.push_slice(text.as_bytes())
}

/// A number between two texts.
pub(crate) fn around(
    alloc: Global,
    before: &[u8],
    number: u64,
    after: &[u8],
) -> Result<Octets, Memory>
    ensures { IfOk result (λ o. o ≡ before.now ++ decimal number ++ after.now) }
{
    let mut text = Octets::from_slice(alloc, before)?;
    put_number(&mut text, alloc, number)?;
    text.push_slice(after)?;
    Ok(text)
}
