//! Texts within quotes.

ghost use Rattle.std.specs.Prelude.{◌≡◌, ◌++◌, OnOk};
ghost use Rattle.figures.specs.Labels.{escaped_byte, escaped};

use wl_octets::{Memory, Octets};

#[tactic(auto, unfolding(crate::specs::Labels::escaped_byte))]
fn put_escaped_byte(out: &mut Octets, byte: u8) -> Result<(), Memory>
    ensures { OnOk result (out.new ≡ out.old ++ escaped_byte byte) }
{
    if byte == b'\\' {
        return out.push_slice(b"\\\\");
    }
    if byte == b'"' {
        return out.push_slice(b"\\\"");
    }
    if byte == b'\n' {
        return out.push_slice(b"\\n");
    }
    out.push_slice(&[byte])
}

/// Writes a text as it stands within quotes.
pub(crate) fn put_escaped(out: &mut Octets, text: &[u8]) -> Result<(), Memory>
    ensures { OnOk result (out.new ≡ out.old ++ escaped text.now) }
{
    for (at, byte) in text.iter().enumerate() {
        put_escaped_byte(out, *byte)?;
    }
    Ok(())
}
