//! Bytes in hexadecimal.

ghost use Rattle.std.specs.Prelude.{◌≡◌, ◌++◌, OnOk};
ghost use Rattle.keep_log.specs.Lines.{hex_pair, hex};

use event_log::texts::hex_digit;
use wl_octets::{Memory, Octets};

#[tactic(auto, unfolding(crate::specs::Lines::hex_pair))]
fn put_hex_pair(out: &mut Octets, byte: u8) -> Result<(), Memory>
    ensures { OnOk result (out.new ≡ out.old ++ hex_pair byte) }
{
    out.push_slice(&[hex_digit(byte / 16 % 16), hex_digit(byte % 16)])
}

/// Writes bytes as pairs of small digits.
pub(crate) fn put_hex(out: &mut Octets, bytes: &[u8]) -> Result<(), Memory>
    ensures { OnOk result (out.new ≡ out.old ++ hex bytes.now) }
{
    for (at, byte) in bytes.iter().enumerate() {
        put_hex_pair(out, *byte)?;
    }
    Ok(())
}
