//! The ends of a connection, as the kernel writes them.

ghost use Rattle.std.specs.Prelude.{◌≡◌, ◌+◌, ◌*◌, ◌<◌, ◌≤◌, ◌++◌, ◌∷◌, length, IfSome, IfNone};
ghost use Rattle.arrayvec.specs.ArrayVec.{array_vec_len};
ghost use Rattle.kernel_table.specs.Ends.{digit, byte_text, word_text, address_text, port_text, octets_of, end_text};

use arrayvec::ArrayVec;
use std::net::{IpAddr, SocketAddr};

/// The longest text of an end: an IPv6 address, a colon and a port.
pub(crate) const MAX_END: usize = 37;

/// The text of an end.
pub(crate) type EndText = ArrayVec<u8, 37>;

/// A hexadecimal digit.
fn digit(value: u8) -> u8
    requires { value < 16 }
    ensures { result ≡ digit value }
{
    if value < 10 { 48 + value } else { 55 + value }
}

/// Appends the two digits of a byte.
fn push_byte(text: &mut EndText, byte: u8)
    requires { array_vec_len text.old + 2 ≤ 37 }
    ensures items { text.new.items ≡ text.old.items ++ byte_text byte }
    ensures len { array_vec_len text.new ≡ array_vec_len text.old + 2 }
{
    text.push(digit(byte / 16));
    text.push(digit(byte % 16));
}

/// Appends four bytes of an address.
fn push_word(text: &mut EndText, a: u8, b: u8, c: u8, d: u8)
    requires { array_vec_len text.old + 8 ≤ 37 }
    ensures items { text.new.items ≡ text.old.items ++ word_text a b c d }
    ensures len { array_vec_len text.new ≡ array_vec_len text.old + 8 }
{
    push_byte(text, d);
    push_byte(text, c);
    push_byte(text, b);
    push_byte(text, a);
}

/// Four bytes of an address, and those after them.
#[derive(Clone, Copy)]
struct Word<'a> {
    a: u8,
    b: u8,
    c: u8,
    d: u8,
    rest: &'a [u8],
}

/// The first four bytes.
fn first_word(octets: &[u8]) -> Option<Word<'_>>
    ensures some { IfSome result (λ w. octets.now ≡ w.a ∷ w.b ∷ w.c ∷ w.d ∷ w.rest.now) }
    ensures none { IfNone result (length octets.now < 4) }
{
    let (a, rest) = octets.split_first()?;
    let (b, rest) = rest.split_first()?;
    let (c, rest) = rest.split_first()?;
    let (d, rest) = rest.split_first()?;
    Some(Word {
        a: *a,
        b: *b,
        c: *c,
        d: *d,
        rest,
    })
}

/// Appends an address.
fn push_address(text: &mut EndText, octets: &[u8])
    requires { array_vec_len text.old + 2 * length octets.now ≤ 37 }
    ensures items { text.new.items ≡ text.old.items ++ address_text octets.now }
    ensures len { array_vec_len text.new ≤ array_vec_len text.old + 2 * length octets.now }
{
    let mut rest = octets;
    'words: while let Some(word) = first_word(rest) {
        push_word(text, word.a, word.b, word.c, word.d);
        rest = word.rest;
    }
}

/// An address and a port, as the kernel writes them.
fn text_of(octets: &[u8], port: u16) -> EndText
    requires { length octets.now ≤ 16 }
    ensures { result.items ≡ address_text octets.now ++ 58 ∷ port_text port }
{
    let mut text = EndText::new();
    push_address(&mut text, octets);
    text.push(b':');
    push_byte(&mut text, (port / 256) as u8);
    push_byte(&mut text, (port % 256) as u8);
    text
}

/// An end, as the kernel writes it.
#[tactic(auto, unfolding(crate::specs::Ends::end_text))]
pub(crate) fn end_text(end: SocketAddr) -> EndText
    ensures { result.items ≡ end_text end }
{
    match end.ip() {
        IpAddr::V4(address) => text_of(&address.octets(), end.port()),
        IpAddr::V6(address) => text_of(&address.octets(), end.port()),
    }
}
