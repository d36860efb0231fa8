//! Writing PEM.

ghost use Rattle.std.specs.Prelude.{◌≡◌, ◌==◌, ◌++◌, ◌∷◌, [], if◌then◌else◌, OnOk};
ghost use Rattle.base64.specs.Engines.{standard};
ghost use Rattle.base64.specs.GeneralPurpose.{encode_of};
ghost use Rattle.pem_text.specs.Pem.{lines_from, edge, pem};

use base64::engine::general_purpose::STANDARD;
use std::alloc::{AllocError, Global};

/// How many characters a line has.
const WIDTH: usize = 64;

/// Writes a character, before it a newline where the line is full.
fn put_next(out: &mut Vec<u8>, used: usize, byte: u8) -> Result<(), AllocError>
    ensures { OnOk result (out.new.items ≡ out.old.items ++ (if used == 64 then 10 ∷ byte ∷ [] else byte ∷ [])) }
{
    if used == WIDTH {
        return out.extend_from_slice(&[b'\n', byte]);
    }
    out.extend_from_slice(&[byte])
}

/// Cuts a text into lines.
fn put_lines(out: &mut Vec<u8>, text: &[u8]) -> Result<(), AllocError>
    ensures { OnOk result (out.new.items ≡ out.old.items ++ lines_from 0 text.now) }
{
    let mut used: usize = 0;
    for (at, byte) in text.iter().enumerate() {
        put_next(out, used, *byte)?;
        used = if used == WIDTH { 1 } else { used + 1 };
    }
    if used == 0 {
        return Ok(());
    }
    out.extend_from_slice(b"\n")
}

/// Puts a text after what is there.
fn put(out: &mut Vec<u8>, text: &[u8]) -> Result<(), AllocError>
    ensures { OnOk result (out.new.items ≡ out.old.items ++ text.now) }
{
    out.extend_from_slice(text)
}

/// The line that begins or ends a text.
#[tactic(auto, unfolding(crate::specs::Pem::edge))]
fn put_edge(out: &mut Vec<u8>, word: &[u8], label: &[u8]) -> Result<(), AllocError>
    ensures { OnOk result (out.new.items ≡ out.old.items ++ edge word.now label.now) }
{
    put(out, b"-----")?;
    put(out, word)?;
    put(out, b" ")?;
    put(out, label)?;
    put(out, b"-----\n")
}

/// The lines of base64.
fn put_body(alloc: Global, out: &mut Vec<u8>, der: &[u8]) -> Result<(), AllocError>
    ensures { OnOk result (out.new.items ≡ out.old.items ++ lines_from 0 (encode_of standard der.now)) }
{
    let text = STANDARD.encode(alloc, der)?;
    put_lines(out, text.as_bytes())
}

/// Writes the PEM text of these bytes under a label.
#[tactic(auto, unfolding(crate::specs::Pem::pem))]
pub fn put_pem(alloc: Global, out: &mut Vec<u8>, label: &[u8], der: &[u8]) -> Result<(), AllocError>
    ensures { OnOk result (out.new.items ≡ out.old.items ++ pem label.now der.now) }
{
    put_edge(out, b"BEGIN", label)?;
    put_body(alloc, out, der)?;
    put_edge(out, b"END", label)
}
