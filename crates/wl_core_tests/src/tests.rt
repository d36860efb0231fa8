//! The worked transcripts, by `apply` and by `run`.

mod documents;
mod frames;
mod render;
mod rows;
pub mod scripts;

ghost use Rattle.std.specs.Prelude.{◌≡◌, ◌++◌, ◌∷◌, []};
ghost use Rattle.std.specs.List.{AllByRecursion};
ghost use Rattle.wl_core.specs.Events.{IsWithin};

use documents::DOC;
use render::are_said;
use rows::{FIRST, FIRST_SAID, SEQUELS, STORES, TOKENS, Transcript};
use scripts::Step;
use std::alloc::{AllocGlobal, Global};
use std::process::Abort;
use wl_core::{Counts, Event, Line, World};
use wl_octets::Row;

fn start(rt: &impl Abort, alloc: Global, transcript: &Transcript) -> World {
    let started = if transcript.is_strict {
        World::start_strict(alloc, transcript.document)
    } else {
        World::start(alloc, transcript.document)
    };
    started.expect(rt, "a document")
}

/// Appends the event of a step, which names a connection there may be.
#[tactic(auto, using(crate::proofs::Samples::within_more))]
fn add(rt: &impl Abort, events: &mut Row<Event>, event: Event)
    ensures { AllByRecursion IsWithin events.old → AllByRecursion IsWithin events.new }
{
    assert!(rt; event.is_within());
    match events.push(event) {
        Ok(()) => {}
        Err(_) => panic!(rt; "memory"),
    }
}

/// Appends the events of steps.
fn add_all(rt: &impl Abort, alloc: Global, events: &mut Row<Event>, steps: &[Step])
    ensures { AllByRecursion IsWithin events.old → AllByRecursion IsWithin events.new }
{
    for step in steps {
        add(rt, events, step.event(rt, alloc));
    }
}

/// The events of a transcript.
fn events_of(rt: &impl Abort, alloc: Global, transcript: &Transcript) -> Row<Event>
    ensures { AllByRecursion IsWithin result }
{
    let mut events = Row::empty(alloc);
    if transcript.is_sequel {
        add_all(rt, alloc, &mut events, &FIRST);
    }
    add_all(rt, alloc, &mut events, transcript.steps);
    events
}

/// What `run` says of the events of a transcript.
fn told(rt: &impl Abort, alloc: Global, transcript: &Transcript) -> Row<Line> {
    let mut world = start(rt, alloc, transcript);
    let mut said = Row::empty(alloc);
    let events = events_of(rt, alloc, transcript);
    world.run(events, &mut said).expect(rt, "memory");
    said
}

/// Asserts that `run` says what is due.
fn run(rt: &impl Abort, alloc: Global, transcript: &Transcript) {
    let said = told(rt, alloc, transcript);
    let count = if transcript.is_sequel {
        FIRST_SAID.len()
    } else {
        0
    };
    assert!(rt; count <= said.len(), "{}", transcript.name);
    let (first, rest) = said.as_slice().split_at(count);
    are_said(rt, alloc, first, &FIRST_SAID[..count], transcript.name);
    are_said(rt, alloc, rest, transcript.said, transcript.name);
}

#[test]
fn stores(rt: HostRuntime) {
    for transcript in &STORES {
        run(&rt, rt.alloc(), transcript);
    }
}

#[test]
fn sequels(rt: HostRuntime) {
    for transcript in &SEQUELS {
        run(&rt, rt.alloc(), transcript);
    }
}

#[test]
fn tokens(rt: HostRuntime) {
    for transcript in &TOKENS {
        run(&rt, rt.alloc(), transcript);
    }
}

/// Takes an event on a connection that there may be.
pub fn apply(rt: &impl Abort, world: &mut World, event: Event, said: &mut Row<Line>) {
    assert!(rt; event.is_within());
    world.apply(event, said).expect(rt, "memory");
}

#[test]
fn counts(rt: HostRuntime) {
    let alloc = rt.alloc();
    let mut world = World::start(alloc, DOC).expect(&rt, "a document");
    let mut said = Row::empty(alloc);
    for step in FIRST {
        apply(&rt, &mut world, step.event(&rt, alloc), &mut said);
    }
    let due = Counts {
        publications: 2,
        responses: 1,
        octets: 113,
    };
    assert!(rt; world.counts() == due);
    apply(&rt, &mut world, Event::Close { conn: 0 }, &mut said);
    assert!(rt; world.counts() == due);
}
