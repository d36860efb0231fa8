//! The lines of a script.

ghost use Rattle.std.specs.Prelude.{◌≡◌, ◌+◌, ◌<◌, ◌≤◌, ◌∷◌, [], length, drop, IfSome, None};
ghost use Rattle.wl_replay.specs.Words.{Numbered, lines_of, line_end, is_silent, telling};
ghost use Rattle.wl_replay.specs.declared.limits.TheConstants.{SCRIPT_LIMIT};

/// How many bytes stand before the first newline.
fn line_end(text: &[u8]) -> usize
    ensures place { result ≡ line_end text.now }
    ensures within { result ≤ length text.now }
{
    let mut at = 0;
    let mut rest = text;
    'bytes: while let Some((byte, after)) = rest.split_first() {
        if *byte == b'\n' {
            return at;
        }
        at += 1;
        rest = after;
    }
    at
}

/// All bytes but the first.
fn tail(text: &[u8]) -> &[u8]
    ensures { result.now ≡ drop 1 text.now }
{
    match text.split_first() {
        Some((_, rest)) => rest,
        None => text,
    }
}

/// The first line of a text, and what comes after its newline.
fn cut_line(text: &[u8]) -> (&[u8], &[u8])
    requires { 0 < length text.now }
    ensures lines { lines_of text.now ≡ result.0.now ∷ lines_of result.1.now }
    ensures shorter { length result.1.now < length text.now }
{
    let (line, rest) = text.split_at(line_end(text));
    (line, tail(rest))
}

/// Whether a line says nothing.
fn is_silent(line: &[u8]) -> bool
    ensures { result ≡ is_silent line.now }
{
    match line {
        [] => true,
        [first, ..] => *first == b'#',
    }
}

/// A line that says something, its number, and what comes after it.
#[derive(Clone, Copy)]
pub(crate) struct Telling<'a> {
    pub(crate) number: usize,
    pub(crate) line: &'a [u8],
    pub(crate) rest: &'a [u8],
}

/// The next line that says something, after so many lines.
pub(crate) fn next_telling(count: usize, text: &[u8]) -> Option<Telling<'_>>
    requires { count + length text.now ≤ SCRIPT_LIMIT }
    ensures found { IfSome result (λ t. telling count (lines_of text.now)
        ≡ record { number = t.number; line = t.line.now } ∷ telling t.number (lines_of t.rest.now)) }
    ensures room { IfSome result (λ t. t.number + length t.rest.now ≤ SCRIPT_LIMIT) }
    ensures shorter { IfSome result (λ t. length t.rest.now < length text.now) }
    ensures none { result ≡ None → telling count (lines_of text.now) ≡ [] }
{
    let mut number = count;
    let mut left = text;
    'lines: while !left.is_empty() {
        let (line, rest) = cut_line(left);
        number += 1;
        if !is_silent(line) {
            return Some(Telling { number, line, rest });
        }
        left = rest;
    }
    None
}

/// How many lines a text has.
pub(crate) fn count_lines(text: &[u8]) -> usize
    ensures value { result ≡ length (lines_of text.now) }
    ensures within { result ≤ length text.now }
{
    let mut count = 0;
    let mut left = text;
    'lines: while !left.is_empty() {
        let (_, rest) = cut_line(left);
        count += 1;
        left = rest;
    }
    count
}
