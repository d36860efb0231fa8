//! The words of a line, and what a word says.

ghost use Rattle.std.specs.Prelude.{◌≡◌, ◌<◌, ◌≤◌, map, length, option_map, option_and_then, if◌then◌else◌, IfOk, Some, None};
ghost use Rattle.std.specs.List.{list_all};
ghost use Rattle.wl_selector.specs.Selectors.{sorted_texts};
ghost use Rattle.wl_core.specs.declared.events.TheConstants.{CONNS};
ghost use Rattle.wl_replay.specs.declared.limits.TheConstants.{MAX_CALLER_SELECTORS};
ghost use Rattle.wl_replay.specs.Checks.{Gives};
ghost use Rattle.wl_replay.specs.Words.{words_of, is_selector, number_in, number_at, conn_at, hex_at, selectors_at};

use crate::fault::ScriptFault;
use crate::hex::hex_in;
use crate::limits::MAX_CALLER_SELECTORS;
use crate::numbers::number_in;
use std::alloc::{AllocError, Global};
use wl_core::CONNS;
use wl_octets::{Memory, Octets};
use wl_selector::{Selector, SelectorFault, Selectors, SelectorsFault};

/// The words of a line, parted by one space.
pub(crate) fn words_of(alloc: Global, line: &[u8]) -> Result<Vec<&[u8]>, AllocError>
    ensures { IfOk result (λ v. map (λ w. w.now) v.items ≡ words_of line.now) }
{
    line.split(|byte| *byte == b' ').collect(alloc)
}

/// A number, as a word of the line with number `at`.
#[tactic(auto, unfolding(crate::specs::Words::number_at))]
pub(crate) fn number(at: usize, word: &[u8]) -> Result<u64, ScriptFault>
    ensures { Gives result (number_at at word.now) }
{
    match number_in(word) {
        Some(number) => Ok(number),
        None => Err(ScriptFault::Line(at)),
    }
}

/// A connection.
#[tactic(auto, unfolding(crate::specs::Words::conn_at))]
pub(crate) fn conn(at: usize, word: &[u8]) -> Result<u32, ScriptFault>
    ensures value { Gives result (conn_at at word.now) }
    ensures within { IfOk result (λ conn. conn < CONNS) }
{
    let Some(number) = number_in(word) else {
        return Err(ScriptFault::Conn(at));
    };
    if number >= u64::from(CONNS) {
        return Err(ScriptFault::Conn(at));
    }
    Ok(number as u32)
}

/// Bytes.
#[tactic(auto, unfolding(crate::specs::Words::hex_at))]
pub(crate) fn hex(alloc: Global, at: usize, word: &[u8]) -> Result<Octets, ScriptFault>
    ensures { Gives result (hex_at at word.now) }
{
    match hex_in(alloc, word)? {
        Some(bytes) => Ok(bytes),
        None => Err(ScriptFault::Hex(at)),
    }
}

/// A selector, where the text is one.
fn selector(alloc: Global, text: &[u8]) -> Result<Option<Selector>, Memory>
    ensures { IfOk result (λ o. o ≡ (if is_selector text.now then Some text.now else None)) }
{
    match Selector::parse(alloc, text) {
        Ok(selector) => Ok(Some(selector)),
        Err(SelectorFault::Memory) => Err(Memory),
        Err(SelectorFault::NoColon) => Ok(None),
        Err(SelectorFault::EmptyKind) => Ok(None),
        Err(SelectorFault::EmptyValue) => Ok(None),
        Err(SelectorFault::NotUtf8) => Ok(None),
    }
}

/// The selectors, where each text is one.
fn selector_list(alloc: Global, texts: &[&[u8]]) -> Result<Option<Vec<Selector>>, Memory>
    ensures { IfOk result (λ o. option_map (λ v. v.items) o ≡
        (if list_all is_selector (map (λ w. w.now) texts.now) then Some (map (λ w. w.now) texts.now) else None)) }
{
    let mut done = Vec::new(alloc);
    for text in texts {
        match selector(alloc, text)? {
            Some(selector) => done.push(selector)?,
            None => return Ok(None),
        }
    }
    Ok(Some(done))
}

/// The set of so many selectors, which are not too many.
fn selector_set(alloc: Global, selectors: Vec<Selector>) -> Result<Selectors, Memory>
    requires { length selectors.items ≤ MAX_CALLER_SELECTORS }
    ensures { IfOk result (λ s. s ≡ sorted_texts selectors.items) }
{
    match Selectors::from_list(alloc, selectors, MAX_CALLER_SELECTORS as u32) {
        Ok(set) => Ok(set),
        Err(SelectorsFault::TooMany(_)) => unreachable!(),
        Err(SelectorsFault::Memory) => Err(Memory),
    }
}

/// The selectors of a caller, as a set.
#[tactic(auto, unfolding(crate::specs::Words::selectors_at))]
pub(crate) fn selectors(alloc: Global, at: usize, words: &[&[u8]]) -> Result<Selectors, ScriptFault>
    ensures { Gives result (selectors_at at (map (λ w. w.now) words.now)) }
{
    if words.len() > MAX_CALLER_SELECTORS {
        return Err(ScriptFault::Line(at));
    }
    match selector_list(alloc, words)? {
        Some(selectors) => Ok(selector_set(alloc, selectors)?),
        None => Err(ScriptFault::Line(at)),
    }
}
