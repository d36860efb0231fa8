//! For which audiences tokens are asked for.

ghost use Rattle.std.specs.Prelude.{◌≡◌, ◌++◌, ◌∷◌, [], ◌<◌, length, map, string_bytes, true, IfOk, IfSome, OnOk};
ghost use Rattle.wlctl.specs.Asks.{is_jwt, audiences_from};

use std::alloc::Global;
use std::string::String;
use token_files::is_audience;
use wl_octets::{Memory, Octets, Row};

/// How many audiences may be asked for.
const MAX_AUDIENCES: usize = 8;

fn is_jwt(word: &str) -> bool
    ensures { result ≡ is_jwt word.now }
{
    word == "--jwt"
}

fn first_jwt(words: &[String]) -> Option<usize>
    ensures { IfSome result (λ at. at < length words.now) }
{
    words.iter().position(|word| is_jwt(word.as_str()))
}

/// The words before the first `--jwt`, and those from it on.
pub fn cut(words: &[String]) -> (&[String], &[String]) {
    match first_jwt(words) {
        Some(at) => words.split_at(at),
        None => (words, &[]),
    }
}

/// Puts a word as an audience.
fn put_word(alloc: Global, audiences: &mut Row<Octets>, word: &str) -> Result<(), Memory>
    ensures { OnOk result (audiences.new ≡ audiences.old ++ word.now ∷ []) }
{
    audiences.push(Octets::from_slice(alloc, word.as_bytes())?)?;
    Ok(())
}

/// The audiences that these words give, which begin with a `--jwt`; none where they aren't pairs.
fn given_in(alloc: Global, words: &[String]) -> Result<Option<Row<Octets>>, Memory>
    ensures { IfOk result (λ audiences. audiences ≡ audiences_from [] true (map string_bytes words.now)) }
{
    let mut audiences = Row::empty(alloc);
    let mut is_option = true;
    for (at, word) in words.iter().enumerate() {
        if is_option {
            if !is_jwt(word.as_str()) {
                return Ok(None);
            }
            is_option = false;
        } else {
            put_word(alloc, &mut audiences, word.as_str())?;
            is_option = true;
        }
    }
    if is_option {
        Ok(Some(audiences))
    } else {
        Ok(None)
    }
}

/// Whether the audience is one of these.
fn has(audiences: &[Octets], audience: &Octets) -> bool {
    audiences
        .iter()
        .any(|other| other.as_slice() == audience.as_slice())
}

/// Whether each may be asked for, and none is there twice.
fn are_fit(alloc: Global, audiences: &[Octets]) -> Result<bool, Memory> {
    for (at, audience) in audiences.iter().enumerate() {
        let before = audiences.split_at(at).0;
        if !is_audience(alloc, audience.as_slice())? || has(before, audience) {
            return Ok(false);
        }
    }
    Ok(true)
}

/// The audiences that these words give, at most eight; none where they aren't pairs of `--jwt` and an audience that may be asked
/// for, or one is there twice.
pub fn audiences_in(alloc: Global, words: &[String]) -> Result<Option<Row<Octets>>, Memory> {
    let Some(audiences) = given_in(alloc, words)? else {
        return Ok(None);
    };
    if audiences.len() <= MAX_AUDIENCES && are_fit(alloc, audiences.as_slice())? {
        Ok(Some(audiences))
    } else {
        Ok(None)
    }
}
