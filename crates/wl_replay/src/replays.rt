//! Scripts, replayed.

ghost use Rattle.std.specs.Prelude.{◌≡◌, ◌++◌, ◌∷◌, [], List, None, Ok, IfOk, IfErr, IsOkAnd, OnOk};
ghost use Rattle.std.specs.List.{AllByRecursion};
ghost use Rattle.wl_document.specs.Checks.{Faults};
ghost use Rattle.wl_document.specs.Documents.{document_state};
ghost use Rattle.wl_core.specs.Events.{IsWithin};
ghost use Rattle.wl_core.specs.Worlds.{StandsFor};
ghost use Rattle.wl_core.specs.Moments.{Beginning};
ghost use Rattle.wl_core.specs.Lines.{transcript, onto};
ghost use Rattle.wl_replay.specs.Replays.{lines_text, said_text, replayed};

use crate::lines::put_line;
use crate::script::Script;
use std::alloc::Global;
use wl_core::{Event, Line, World};
use wl_document::DocFault;
use wl_octets::{Memory, Octets, Row};

/// The lines one after the other.
#[tactic(auto, unfolding(crate::specs::Replays::lines_text))]
fn text_of(alloc: Global, lines: &[Line]) -> Result<Octets, Memory>
    ensures { IfOk result (λ o. o ≡ lines_text lines.now) }
{
    let mut text = Octets::empty(alloc);
    for line in lines {
        put_line(alloc, line, &mut text)?;
    }
    Ok(text)
}

/// The first line of every transcript.
fn first_line(alloc: Global) -> Result<Row<Line>, Memory>
    ensures { IfOk result (λ l. l ≡ Line.Published 0 ∷ []) }
{
    let mut said = Row::empty(alloc);
    said.push(Line::Published(0))?;
    Ok(said)
}

/// What a world says of events, its first line before that.
#[tactic(auto, unfolding(crate::specs::Replays::said_text))]
fn said(alloc: Global, world: &mut World, events: Row<Event>) -> Result<Octets, Memory>
    requires { AllByRecursion IsWithin events }
    ensures { (d : Beginning) → StandsFor world.old d [] → IfOk result (λ o. o ≡ said_text d events) }
{
    let mut said = first_line(alloc)?;
    world.run(events, &mut said)?;
    text_of(alloc, said.as_slice())
}

/// The world that begins with a document.
fn begin(alloc: Global, document: &[u8], strict: bool) -> Result<World, DocFault>
    ensures ok { IfOk result
        (λ w. IsOkAnd (document_state None document.now)
        (λ d. StandsFor w (record { strict = strict; state = d }) [])) }
    ensures fault { IfErr result (λ e. Faults e (document_state None document.now)) }
{
    if strict {
        World::start_strict(alloc, document)
    } else {
        World::start(alloc, document)
    }
}

/// The transcript of a script, each line with its newline. The fault is the first of the script's document.
#[tactic(auto, unfolding(crate::specs::Replays::replayed))]
pub fn replay(alloc: Global, script: Script) -> Result<Octets, DocFault>
    requires { AllByRecursion IsWithin script.events }
    // what is said is the transcript of the world that the document begins, over the events
    ensures ok { IfOk result (λ o. replayed script ≡ Ok o) }
    // the fault is the first of the document, or memory ran out
    ensures fault { IfErr result (λ e. Faults e (replayed script)) }
{
    let mut world = begin(alloc, script.document.as_slice(), script.strict)?;
    Ok(said(alloc, &mut world, script.events)?)
}
