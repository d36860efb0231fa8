//! Frames that scenes name, and the bytes of words.

use std::alloc::Global;
use std::process::Abort;
use wl_octets::Octets;

/// Frames by name: the length, the type, the flags, the stream and the payload in hexadecimal.
///
/// `S` is SETTINGS without pairs and `A` its acknowledgement. `H` is a head, which is `:method GET` (`POST` on stream 1:
/// `:method POST`), `D` DATA of the byte `x`, `E` DATA without bytes, `R` RST_STREAM with CANCEL, `W` WINDOW_UPDATE by 1,
/// and the number is the stream's. `_END` has END_STREAM, and `_OPEN` is the first piece of a head. `RST1_5` is
/// RST_STREAM of this side on stream 1 with code 5, and `G3_1` GOAWAY with the last stream 3 and code 1. `SIXTEEN` are
/// the heads of 16 streams, from 1 on.
const NAMES: &str = "\
S 000000.04.00.00000000
A 000000.04.01.00000000
H1 000001.01.04.00000001.82
H1_END 000001.01.05.00000001.82
H1_OPEN 000001.01.00.00000001.82
H3 000001.01.04.00000003.82
POST 000001.01.04.00000001.83
POST_END 000001.01.05.00000001.83
D1 000001.00.00.00000001.78
D1_END 000001.00.01.00000001.78
D3 000001.00.00.00000003.78
E1 000000.00.00.00000001
E1_END 000000.00.01.00000001
E3 000000.00.00.00000003
R1 000004.03.00.00000001.00000008
R3 000004.03.00.00000003.00000008
W0 000004.08.00.00000000.00000001
W1 000004.08.00.00000001.00000001
RST1_1 000004.03.00.00000001.00000001
RST1_3 000004.03.00.00000001.00000003
RST1_5 000004.03.00.00000001.00000005
G0_1 000008.07.00.00000000.0000000000000001
G0_3 000008.07.00.00000000.0000000000000003
G0_9 000008.07.00.00000000.0000000000000009
G1_1 000008.07.00.00000000.0000000100000001
G1_3 000008.07.00.00000000.0000000100000003
G3_1 000008.07.00.00000000.0000000300000001
SIXTEEN \
00000101040000000182000001010400000003820000010104000000058200000101040000000782\
0000010104000000098200000101040000000b8200000101040000000d8200000101040000000f82\
00000101040000001182000001010400000013820000010104000000158200000101040000001782\
0000010104000000198200000101040000001b8200000101040000001d8200000101040000001f82
";

/// What a name stands for; a word that is no name, for itself.
fn digits_of(word: &str) -> &str {
    for line in NAMES.lines() {
        if let Some((name, digits)) = line.split_once(' ')
            && name == word
        {
            return digits;
        }
    }
    word
}

/// Puts a byte after the others.
fn put(rt: &impl Abort, out: &mut Octets, byte: u8) {
    out.push_slice(&[byte]).expect(rt, "memory");
}

/// Puts the bytes of hexadecimal digits, of which two are a byte, after the others. Dots say nothing.
fn put_digits(rt: &impl Abort, out: &mut Octets, digits: &str) {
    let mut high = None;
    for digit in digits.chars() {
        match (digit.to_digit(16), high) {
            (None, _) => assert!(rt; digit == '.', "no digit: {digits}"),
            (Some(value), None) => high = Some(value),
            (Some(value), Some(upper)) => {
                let byte = u8::try_from(upper.wrapping_mul(16).wrapping_add(value));
                put(rt, out, byte.expect(rt, "a byte"));
                high = None;
            }
        }
    }
    assert!(rt; high.is_none(), "half a byte: {digits}");
}

/// Puts the bytes of a word after the others: of a name or of digits, and after `*` how many times.
fn put_word(rt: &impl Abort, out: &mut Octets, word: &str) {
    let (word, times) = word.split_once('*').unwrap_or((word, "1"));
    let digits = digits_of(word);
    for _ in 0..number(rt, times) {
        put_digits(rt, out, digits);
    }
}

/// Puts the bytes of words after the others.
fn put_words(rt: &impl Abort, out: &mut Octets, words: &str) {
    for word in words.split_whitespace() {
        put_word(rt, out, word);
    }
}

/// Puts the bytes of words after the others; between two `'` stand bytes as text.
pub fn put_bytes(rt: &impl Abort, out: &mut Octets, words: &str) {
    let mut is_text = false;
    for part in words.split('\'') {
        if is_text {
            out.push_slice(part.as_bytes()).expect(rt, "memory");
        } else {
            put_words(rt, out, part);
        }
        is_text = !is_text;
    }
}

/// The bytes of words.
pub fn bytes_of(rt: &impl Abort, alloc: Global, words: &str) -> Octets {
    let mut out = Octets::empty(alloc);
    put_bytes(rt, &mut out, words);
    out
}

/// The number that a word is.
pub fn number(rt: &impl Abort, word: &str) -> u32 {
    word.parse::<u32>().expect(rt, "a number")
}
