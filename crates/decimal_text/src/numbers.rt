//! Reading a decimal number.

ghost use Rattle.std.specs.Prelude.{◌≡◌, ◌≤◌, ◌∷◌, [], IfSome};
ghost use Rattle.decimal_text.specs.Decimals.{digits_up_to, number_up_to};

/// The number after one digit more, where it is at most the limit.
fn more(limit: u64, number: u64, byte: u8) -> Option<u64>
    ensures value { result ≡ digits_up_to limit number (byte ∷ []) }
    ensures within { IfSome result (λ n. n ≤ limit) }
{
    if !byte.is_ascii_digit() {
        return None;
    }
    let number = number.checked_mul(10)?.checked_add(u64::from(byte - b'0'))?;
    if number > limit {
        return None;
    }
    Some(number)
}

/// The number that these digits say, where it is at most the limit.
#[tactic(auto, using(crate::proofs::Steps::digit_none))]
fn digits(limit: u64, text: &[u8]) -> Option<u64>
    ensures value { result ≡ digits_up_to limit 0 text.now }
    ensures within { IfSome result (λ n. n ≤ limit) }
{
    let mut number: u64 = 0;
    let mut rest = text;
    'digits: while let Some((byte, after)) = rest.split_first() {
        match more(limit, number, *byte) {
            Some(next) => number = next,
            None => return None,
        }
        rest = after;
    }
    Some(number)
}

/// The number that a text says in decimal digits, one or more and leading zeros allowed, where it is at most the limit.
pub fn number_up_to(limit: u64, text: &[u8]) -> Option<u64>
    ensures value { result ≡ number_up_to limit text.now }
    ensures within { IfSome result (λ n. n ≤ limit) }
{
    match text {
        [] => None,
        _ => digits(limit, text),
    }
}
