//! Scripts.

ghost use Rattle.std.specs.Prelude.{◌≡◌, ◌+◌, ◌≤◌, Bool, map, length, IfOk, IfErr, Ok};
ghost use Rattle.std.specs.List.{AllByRecursion};
ghost use Rattle.wl_core.specs.Events.{IsWithin};
ghost use Rattle.wl_replay.specs.declared.limits.TheConstants.{SCRIPT_LIMIT};
ghost use Rattle.wl_replay.specs.Checks.{Faults, Gives};
ghost use Rattle.wl_replay.specs.Words.{lines_of, telling, words_of};
ghost use Rattle.wl_replay.specs.Scripts.{started, start_by, start_in, events_of, script_in, script_of};

use crate::events::event;
use crate::fault::ScriptFault;
use crate::kinds::{EventKind, kind_of};
use crate::limits::SCRIPT_LIMIT;
use crate::telling::{count_lines, next_telling};
use crate::words::{hex, words_of};
use std::alloc::Global;
use wl_core::Event;
use wl_octets::{Octets, Row};

/// A world's first document, whether its store is strict, and what happens then.
#[derive(Drop)]
pub struct Script {
    pub document: Octets,
    pub strict: bool,
    pub events: Row<Event>,
}

/// How a world begins.
#[derive(Drop)]
pub(crate) struct Start {
    pub(crate) document: Octets,
    pub(crate) strict: bool,
}

/// A document after the first word.
#[tactic(auto, unfolding(crate::specs::Scripts::started))]
fn started(alloc: Global, strict: bool, at: usize, words: &[&[u8]]) -> Result<Start, ScriptFault>
    ensures { Gives result (started strict at (map (λ w. w.now) words.now)) }
{
    let [document] = words else {
        return Err(ScriptFault::Line(at));
    };
    let document = hex(alloc, at, document)?;
    Ok(Start { document, strict })
}

#[tactic(auto, unfolding(crate::specs::Scripts::start_by))]
fn start_by(
    alloc: Global,
    kind: EventKind,
    at: usize,
    words: &[&[u8]],
) -> Result<Start, ScriptFault>
    ensures { Gives result (start_by kind at (map (λ w. w.now) words.now)) }
{
    match kind {
        EventKind::Sync => started(alloc, false, at, words),
        EventKind::Strict => started(alloc, true, at, words),
        _ => Err(ScriptFault::Line(at)),
    }
}

#[tactic(auto, unfolding(crate::specs::Scripts::start_in))]
fn start_in(alloc: Global, at: usize, words: &[&[u8]]) -> Result<Start, ScriptFault>
    ensures { Gives result (start_in at (map (λ w. w.now) words.now)) }
{
    let [first, rest @ ..] = words else {
        return Err(ScriptFault::Kind(at));
    };
    match kind_of(first) {
        Some(kind) => start_by(alloc, kind, at, rest),
        None => Err(ScriptFault::Kind(at)),
    }
}

/// How the first line that says something starts the world.
fn first_line(alloc: Global, at: usize, line: &[u8]) -> Result<Start, ScriptFault>
    ensures { Gives result (start_in at (words_of line.now)) }
{
    let words = words_of(alloc, line)?;
    start_in(alloc, at, words.as_slice())
}

/// The events of a text that comes after so many lines.
fn further_events(alloc: Global, count: usize, text: &[u8]) -> Result<Row<Event>, ScriptFault>
    requires { count + length text.now ≤ SCRIPT_LIMIT }
    ensures value { Gives result (events_of (telling count (lines_of text.now))) }
    ensures within { IfOk result (AllByRecursion IsWithin) }
{
    let mut events = Row::empty(alloc);
    let mut number = count;
    let mut left = text;
    'lines: while let Some(telling) = next_telling(number, left) {
        events.push(event(alloc, telling.number, telling.line)?)?;
        number = telling.number;
        left = telling.rest;
    }
    Ok(events)
}

/// A script that is not too long.
#[tactic(auto, unfolding(crate::specs::Scripts::script_in))]
fn read_lines(alloc: Global, text: &[u8]) -> Result<Script, ScriptFault>
    requires { length text.now ≤ SCRIPT_LIMIT }
    ensures value { Gives result (script_in (length (lines_of text.now)) (telling 0 (lines_of text.now))) }
    ensures within { IfOk result (λ s. AllByRecursion IsWithin s.events) }
{
    let Some(first) = next_telling(0, text) else {
        return Err(ScriptFault::Line(count_lines(text) + 1));
    };
    let start = first_line(alloc, first.number, first.line)?;
    let events = further_events(alloc, first.number, first.rest)?;
    Ok(Script {
        document: start.document,
        strict: start.strict,
        events,
    })
}

/// Reads a script. Its first event line, `sync HEX` or `strict HEX`, gives the document and whether the store is strict;
/// each further one gives an event. Where it isn't a script the first fault is given, with its line.
#[tactic(auto, unfolding(crate::specs::Scripts::script_of))]
pub fn read_script(alloc: Global, script: &[u8]) -> Result<Script, ScriptFault>
    // what is read is the script that these bytes are
    ensures ok { IfOk result (λ s. script_of script.now ≡ Ok s) }
    // the fault is the first of the script, or memory ran out
    ensures fault { IfErr result (λ e. Faults e (script_of script.now)) }
    // each connection that an event names is one of those that there may be
    ensures within { IfOk result (λ s. AllByRecursion IsWithin s.events) }
{
    if script.len() > SCRIPT_LIMIT {
        return Err(ScriptFault::TooLong(script.len()));
    }
    read_lines(alloc, script)
}
