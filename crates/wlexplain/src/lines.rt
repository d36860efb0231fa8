//! Bytes that come piece by piece, line by line.

ghost use Rattle.std.specs.Prelude.{◌≡◌, ◌++◌, ◌∷◌, [], IfOk, OnOk};
ghost use Rattle.wlexplain.specs.Following.{whole_lines, last_line};

use fault_lines::explain_text;
use std::alloc::Global;
use wl_octets::Memory;

/// Takes one byte after what came of a line, and writes the line where it is whole.
fn take_byte(alloc: Global, line: &mut Vec<u8>, out: &mut Vec<u8>, byte: u8) -> Result<(), Memory>
    ensures out { OnOk result (out.new.items ≡ out.old.items ++ whole_lines line.old.items (byte ∷ [])) }
    ensures line { OnOk result (line.new.items ≡ last_line line.old.items (byte ∷ [])) }
{
    if byte != b'\n' {
        line.push(byte)?;
        return Ok(());
    }
    let explained = explain_text(alloc, line.as_slice())?;
    out.extend_from_slice(explained.as_slice())?;
    out.push(byte)?;
    line.clear();
    Ok(())
}

/// Takes a piece after what came of a line, and gives what is due for the lines that are whole.
pub fn take_piece(alloc: Global, line: &mut Vec<u8>, piece: &[u8]) -> Result<Vec<u8>, Memory>
    ensures out { IfOk result (λ out. out.items ≡ whole_lines line.old.items piece.now) }
    ensures line { OnOk result (line.new.items ≡ last_line line.old.items piece.now) }
{
    let mut out = Vec::new(alloc);
    let mut rest = piece;
    'bytes: while let Some((byte, after)) = rest.split_first() {
        take_byte(alloc, line, &mut out, *byte)?;
        rest = after;
    }
    Ok(out)
}
