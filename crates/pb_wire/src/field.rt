//! A field that was read.

ghost use Rattle.std.specs.Prelude.{◌≡◌, Ok, Err, option_map, MatchResult};
ghost use Rattle.std.specs.Str.{is_utf8};
ghost use Rattle.pb_wire.specs.Message.{content_of, text_of};

use crate::fault::FieldFault;

/// The largest number of a field (proto3, "Assigning Field Numbers").
pub const MAX_FIELD_NUMBER: u32 = 536_870_911;

/// A field: its number, its value, and the place after it.
#[derive(Clone, Copy, Debug, PartialEq, Eq)]
pub struct Field {
    pub number: u32,
    pub value: Value,
    pub next: usize,
}

/// The value of a field.
#[derive(Clone, Copy, Debug, PartialEq, Eq)]
pub enum Value {
    /// Wire type 0.
    Varint(u64),
    /// Wire type 1: eight bytes, the least first.
    Eight(u64),
    /// Wire type 2: where the content begins, and how many bytes it has.
    Span { from: usize, len: usize },
    /// Wire type 5: four bytes, the least first.
    Four(u32),
}

impl Value {
    /// The content of a value of wire type 2 that was read from these bytes.
    pub fn content<'a>(&self, bytes: &'a [u8]) -> Option<&'a [u8]>
        ensures { option_map (λ content. content.now) result ≡ content_of bytes.now self.now }
    {
        match self {
            Value::Span { from, len } => {
                let (_, rest) = bytes.split_at(bytes.len().min(*from));
                let (content, _) = rest.split_at(rest.len().min(*len));
                Some(content)
            }
            Value::Varint(_) | Value::Eight(_) | Value::Four(_) => None,
        }
    }
}

impl Field {
    /// The text of a known field that is a string and was read from these bytes: it has wire type 2 and is UTF-8.
    #[tactic(auto, unfolding(crate::specs::Message::text_of))]
    pub fn text<'a>(&self, bytes: &'a [u8]) -> Result<&'a [u8], FieldFault>
        ensures { MatchResult result
            (λ text. text_of bytes.now self.now ≡ Ok text.now)
            (λ e. text_of bytes.now self.now ≡ Err e) }
    {
        let Some(text) = self.value.content(bytes) else {
            return Err(FieldFault::FieldKind(self.number));
        };
        if !is_text(text) {
            return Err(FieldFault::NotUtf8(self.number));
        }
        Ok(text)
    }
}

/// Whether the bytes are UTF-8.
fn is_text(bytes: &[u8]) -> bool
    ensures { result ≡ is_utf8 bytes.now }
{
    str::from_utf8(bytes).is_ok()
}
