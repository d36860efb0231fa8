//! A field from bytes (Protocol Buffers encoding, "Message Structure").

ghost use Rattle.std.specs.Prelude.{◌≡◌, ◌≤◌, ◌<◌, ◌^◌, ◌+◌, ◌*◌, ◌++◌, ℕ, List, length, drop, IfOk, Ok, Err, MatchResult};
ghost use Rattle.pb_wire.specs.declared.field.Field.{Field};
ghost use Rattle.pb_wire.specs.declared.field.TheConstants.{MAX_FIELD_NUMBER};
ghost use Rattle.pb_wire.specs.Varint.{varint};
ghost use Rattle.pb_wire.specs.Spelling.{field};
ghost use Rattle.pb_wire.specs.Grammar.{StandsAt, bytes_field, varint_field};
ghost use Rattle.pb_wire.specs.Reading.{varint_at, tag_at, fixed_at, eight_at, four_at, span_at, number_at, value_at, field_at, IsWithin};

use crate::fault::WireFault;
use crate::field::{Field, MAX_FIELD_NUMBER, Value};

/// The varint at a place, and the place after it.
fn read_varint(bytes: &[u8], at: usize) -> Result<(u64, usize), WireFault>
    requires { at ≤ length bytes.now }
    ensures value { result ≡ varint_at bytes.now at }
    ensures within { IfOk result (λ v. (at < v.1) × (v.1 ≤ length bytes.now)) }
{
    let (_, rest) = bytes.split_at(at);
    let mut low: u64 = 0;
    let mut unit: u64 = 1;
    for (i, byte) in rest.iter().enumerate() {
        let byte = u64::from(*byte);
        if i == 9 {
            if byte < 2 {
                return Ok((low + unit * byte, at + 10));
            }
            return Err(WireFault::VarintLong(at));
        }
        if byte < 128 {
            return Ok((low + unit * byte, at + (i + 1)));
        }
        low += unit * (byte - 128);
        unit *= 128;
    }
    Err(WireFault::Truncated(at))
}

/// The number and the wire type of the tag at a place, and the place after it.
#[tactic(auto, unfolding(crate::specs::Reading::tag_at))]
fn read_tag(bytes: &[u8], at: usize) -> Result<(u32, u32, usize), WireFault>
    requires { at ≤ length bytes.now }
    ensures value { result ≡ tag_at bytes.now at }
    ensures within { IfOk result (λ tag. (at < tag.2) × (tag.2 ≤ length bytes.now)) }
{
    let (tag, next) = read_varint(bytes, at)?;
    let number = tag / 8;
    if number == 0 || number > u64::from(MAX_FIELD_NUMBER) {
        return Err(WireFault::Number(at));
    }
    Ok((number as u32, (tag % 8) as u32, next))
}

/// So many bytes at a place.
#[tactic(auto, unfolding(crate::specs::Reading::fixed_at))]
fn read_fixed(bytes: &[u8], at: usize, size: usize) -> Result<&[u8], WireFault>
    requires { at ≤ length bytes.now }
    ensures value { MatchResult result
        (λ word. fixed_at size bytes.now at ≡ Ok word.now)
        (λ e. fixed_at size bytes.now at ≡ Err e) }
    ensures within { IfOk result (λ _. at + size ≤ length bytes.now) }
    ensures size { IfOk result (λ word. length word.now ≡ size) }
{
    if bytes.len() - at < size {
        return Err(WireFault::Truncated(at));
    }
    let (_, rest) = bytes.split_at(at);
    let (word, _) = rest.split_at(size);
    Ok(word)
}

#[tactic(auto, unfolding(crate::specs::Reading::eight_at))]
fn read_eight(bytes: &[u8], at: usize) -> Result<(Value, usize), WireFault>
    requires { at ≤ length bytes.now }
    ensures value { result ≡ eight_at bytes.now at }
    ensures within { IfOk result (λ v. IsWithin at (length bytes.now) v.0 v.1) }
{
    let word = read_fixed(bytes, at, 8)?;
    let number = u64::from_le_bytes([
        word[0], word[1], word[2], word[3], word[4], word[5], word[6], word[7],
    ]);
    Ok((Value::Eight(number), at + 8))
}

#[tactic(auto, unfolding(crate::specs::Reading::four_at))]
fn read_four(bytes: &[u8], at: usize) -> Result<(Value, usize), WireFault>
    requires { at ≤ length bytes.now }
    ensures value { result ≡ four_at bytes.now at }
    ensures within { IfOk result (λ v. IsWithin at (length bytes.now) v.0 v.1) }
{
    let word = read_fixed(bytes, at, 4)?;
    let number = u32::from_le_bytes([word[0], word[1], word[2], word[3]]);
    Ok((Value::Four(number), at + 4))
}

#[tactic(auto, unfolding(crate::specs::Reading::span_at))]
fn read_span(bytes: &[u8], at: usize) -> Result<(Value, usize), WireFault>
    requires { at ≤ length bytes.now }
    ensures value { result ≡ span_at bytes.now at }
    ensures within { IfOk result (λ v. IsWithin at (length bytes.now) v.0 v.1) }
{
    let (len, from) = read_varint(bytes, at)?;
    let len = len as usize;
    if bytes.len() - from < len {
        return Err(WireFault::Truncated(at));
    }
    Ok((Value::Span { from, len }, from + len))
}

#[tactic(auto, unfolding(crate::specs::Reading::number_at))]
fn read_number(bytes: &[u8], at: usize) -> Result<(Value, usize), WireFault>
    requires { at ≤ length bytes.now }
    ensures value { result ≡ number_at bytes.now at }
    ensures within { IfOk result (λ v. IsWithin at (length bytes.now) v.0 v.1) }
{
    let (number, next) = read_varint(bytes, at)?;
    Ok((Value::Varint(number), next))
}

#[tactic(auto, unfolding(crate::specs::Reading::value_at))]
fn read_value(kind: u32, bytes: &[u8], start: usize, at: usize) -> Result<(Value, usize), WireFault>
    requires { at ≤ length bytes.now }
    ensures value { result ≡ value_at kind bytes.now start at }
    ensures within { IfOk result (λ v. IsWithin at (length bytes.now) v.0 v.1) }
{
    match kind {
        0 => read_number(bytes, at),
        1 => read_eight(bytes, at),
        2 => read_span(bytes, at),
        5 => read_four(bytes, at),
        _ => Err(WireFault::WireKind(start)),
    }
}

#[tactic(auto, unfolding(crate::specs::Reading::field_at))]
fn read_field_inner(bytes: &[u8], at: usize) -> Result<Field, WireFault>
    requires { at ≤ length bytes.now }
    ensures value { result ≡ field_at bytes.now at }
    ensures within { IfOk result (λ f. IsWithin at (length bytes.now) f.value f.next) }
{
    let (number, kind, from) = read_tag(bytes, at)?;
    let (value, next) = read_value(kind, bytes, at, from)?;
    Ok(Field {
        number,
        value,
        next,
    })
}

/// The field at a place below the length of the bytes: its number, its value and the place after it. The first fault
/// is the answer: that of the tag's varint, then its number, then its wire type, then that of the value.
pub fn read_field(bytes: &[u8], at: usize) -> Result<Field, WireFault>
    requires { at < length bytes.now }
    // Which field, or which fault, it is.
    ensures value { result ≡ field_at bytes.now at }
    ensures within { IfOk result (λ f. IsWithin at (length bytes.now) f.value f.next) }
    // What is read is there, and what is there is read.
    ensures found { IfOk result (λ f. StandsAt bytes.now at f) }
    ensures only { (f : Field) → StandsAt bytes.now at f → result ≡ Ok f }
    // What `put_bytes` and `put_varint` wrote is read back, whatever follows.
    ensures bytes_back { (number : ℕ) (content rest : List ℕ) → 1 ≤ number → number ≤ MAX_FIELD_NUMBER
        → drop at bytes.now ≡ field number content ++ rest → result ≡ Ok (bytes_field at number content) }
    ensures varint_back { (number n : ℕ) (rest : List ℕ) → 1 ≤ number → number ≤ MAX_FIELD_NUMBER → n < 2 ^ 64
        → drop at bytes.now ≡ (varint (8 * number) ++ varint n) ++ rest
        → result ≡ Ok (varint_field at number n) }
{
    // The public clauses follow from those of the inner call.
    read_field_inner(bytes, at)
}
