//! Lines of a text, explained.

ghost use Rattle.std.specs.Prelude.{◌≡◌, ◌==◌, ◌++◌, ◌∷◌, [], if◌then◌else◌, List, map, IfOk, OnOk};
ghost use Rattle.std.specs.List.{slice_split, join_with_byte};
ghost use Rattle.fault_lines.specs.Explanations.{sentence, sentence_of_words, words, or_line, explanation, explained_text};

use crate::numbers::numbers_in;
use crate::sentences::{config_sentence, document_sentence, script_sentence};
use std::alloc::{AllocError, Global};
use wl_octets::{Memory, Octets};

/// The sentence of a fault of what this word names.
#[tactic(auto, unfolding(crate::specs::Explanations::sentence))]
fn sentence(alloc: Global, subject: &[u8], numbers: &[u64]) -> Result<Option<Octets>, Memory>
    ensures { IfOk result (λ o. o ≡ sentence subject.now numbers.now) }
{
    if subject == b"document".as_slice() {
        return document_sentence(alloc, numbers);
    }
    if subject == b"config".as_slice() {
        return config_sentence(alloc, numbers);
    }
    if subject == b"script".as_slice() {
        return script_sentence(alloc, numbers);
    }
    Ok(None)
}

/// The sentence of `fault`, a subject and numbers.
#[tactic(auto, unfolding(crate::specs::Explanations::sentence_of_words))]
fn sentence_of_words(alloc: Global, words: &[&[u8]]) -> Result<Option<Octets>, Memory>
    ensures { IfOk result (λ o. o ≡ sentence_of_words (map (λ w. w.now) words.now)) }
{
    let [first, subject, rest @ ..] = words else {
        return Ok(None);
    };
    if *first != b"fault".as_slice() {
        return Ok(None);
    }
    match numbers_in(alloc, rest)? {
        Some(numbers) => sentence(alloc, subject, numbers.as_slice()),
        None => Ok(None),
    }
}

/// The parts of a text between bytes of this value.
fn parts(alloc: Global, text: &[u8], at: u8) -> Result<Vec<&[u8]>, AllocError>
    ensures { IfOk result (λ v. map (λ w. w.now) v.items ≡ slice_split (λ b. b == at) text.now) }
{
    text.split(|byte| *byte == at).collect(alloc)
}

/// Writes the sentence of a fault line, and any other line as it is.
#[tactic(auto, unfolding(crate::specs::Explanations::explanation))]
fn put_explanation(alloc: Global, out: &mut Octets, line: &[u8]) -> Result<(), Memory>
    ensures { OnOk result (out.new ≡ out.old ++ explanation line.now) }
{
    let words = parts(alloc, line, b' ')?;
    match sentence_of_words(alloc, words.as_slice())? {
        Some(sentence) => out.push_slice(sentence.as_slice()),
        None => out.push_slice(line),
    }
}

/// Writes what is due for a line, and a newline where it is not the last.
fn put_line(alloc: Global, out: &mut Octets, line: &[u8], is_last: bool) -> Result<(), Memory>
    ensures { OnOk result (out.new ≡ out.old ++ explanation line.now ++ (if is_last then [] else 10 ∷ [])) }
{
    put_explanation(alloc, out, line)?;
    if is_last {
        Ok(())
    } else {
        out.push_slice(b"\n")
    }
}

/// Writes what is due for these lines, with a newline between two.
fn put_lines(alloc: Global, out: &mut Octets, lines: &[&[u8]]) -> Result<(), Memory>
    ensures { OnOk result
        (out.new ≡ out.old ++ join_with_byte 10 (map explanation (map (λ w. w.now) lines.now))) }
{
    for (at, line) in lines.iter().enumerate() {
        put_line(alloc, out, line, at + 1 == lines.len())?;
    }
    Ok(())
}

/// The text with each fault line replaced by its sentence, and each other line as it is, in their order. The text may be
/// of any bytes.
#[tactic(auto, unfolding(crate::specs::Explanations::explained_text))]
pub fn explain_text(alloc: Global, text: &[u8]) -> Result<Octets, Memory>
    ensures { IfOk result (λ o. o ≡ explained_text text.now) }
{
    let lines = parts(alloc, text, b'\n')?;
    let mut out = Octets::empty(alloc);
    put_lines(alloc, &mut out, lines.as_slice())?;
    Ok(out)
}
