//! Members of a line. A log of another program may use them for its own events.

ghost use Rattle.std.specs.Prelude.{◌≡◌, ◌++◌, ◌<◌, OnOk};
ghost use Rattle.event_log.specs.Texts.{hex_digit, escaped_byte, escaped, word_field, number_field, text_field};

use std::alloc::Global;
use std::string::ToString;
use wl_octets::{Memory, Octets};

/// A digit of hexadecimal.
#[tactic(auto, unfolding(crate::specs::Texts::hex_digit))]
pub fn hex_digit(number: u8) -> u8
    requires { number < 16 }
    ensures { result ≡ hex_digit number }
{
    if number < 10 {
        b'0' + number
    } else {
        b'a' - 10 + number
    }
}

#[tactic(auto, unfolding(crate::specs::Texts::escaped_byte))]
fn put_escaped_byte(out: &mut Octets, byte: u8) -> Result<(), Memory>
    ensures { OnOk result (out.new ≡ out.old ++ escaped_byte byte) }
{
    if byte == b'"' {
        return out.push_slice(b"\\\"");
    }
    if byte == b'\\' {
        return out.push_slice(b"\\\\");
    }
    if byte >= 32 && byte <= 126 {
        return out.push_slice(&[byte]);
    }
    out.push_slice(b"\\u00")?;
    out.push_slice(&[hex_digit(byte / 16 % 16), hex_digit(byte % 16)])
}

/// Writes a text as it stands within quotes.
pub fn put_escaped(out: &mut Octets, text: &[u8]) -> Result<(), Memory>
    ensures { OnOk result (out.new ≡ out.old ++ escaped text.now) }
{
    for (at, byte) in text.iter().enumerate() {
        put_escaped_byte(out, *byte)?;
    }
    Ok(())
}

/// Writes a member whose value is a word of this crate.
#[tactic(auto, unfolding(crate::specs::Texts::word_field))]
pub fn put_word(out: &mut Octets, key: &[u8], word: &[u8]) -> Result<(), Memory>
    ensures { OnOk result (out.new ≡ out.old ++ word_field key.now word.now) }
{
    out.push_slice(b" ")?;
    out.push_slice(key)?;
    out.push_slice(b"=")?;
    out.push_slice(word)
}

/// Writes a member whose value is a number.
#[tactic(auto, unfolding(crate::specs::Texts::number_field))]
pub fn put_number(alloc: Global, out: &mut Octets, key: &[u8], number: u64) -> Result<(), Memory>
    ensures { OnOk result (out.new ≡ out.old ++ number_field key.now number) }
{
    out.push_slice(b" ")?;
    out.push_slice(key)?;
    out.push_slice(b"=")?;
    let text = number.to_string(alloc)?;
    out.push_slice(text.as_bytes())
}

/// Writes a member whose value is a text from outside, within quotes.
#[tactic(auto, unfolding(crate::specs::Texts::text_field))]
pub fn put_text(out: &mut Octets, key: &[u8], text: &[u8]) -> Result<(), Memory>
    ensures { OnOk result (out.new ≡ out.old ++ text_field key.now text.now) }
{
    out.push_slice(b" ")?;
    out.push_slice(key)?;
    out.push_slice(b"=\"")?;
    put_escaped(out, text)?;
    out.push_slice(b"\"")
}
