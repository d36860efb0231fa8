//! The world.

ghost use Rattle.std.specs.Prelude.{◌≡◌, ◌≤◌, ◌++◌, ◌∷◌, List, [], true, false, None, Err, IfOk, IfErr, IsOkAnd, OnOk, OnErr, replicate};
ghost use Rattle.std.specs.List.{AllByRecursion};
ghost use Rattle.list_laws.specs.Lists.{GainsFront};
ghost use Rattle.wl_document.specs.Checks.{Faults};
ghost use Rattle.wl_document.specs.Documents.{document_state};
ghost use Rattle.jwt_cache.specs.Rings as rings;
ghost use Rattle.wl_snapshot.specs.Untouched.{SameBut};
ghost use Rattle.wl_core.specs.declared.events.TheConstants.{CONNS};
ghost use Rattle.wl_core.specs.Events.{IsWithin};
ghost use Rattle.wl_core.specs.declared.events.Event.{Event};
ghost use Rattle.wl_core.specs.declared.lines.Line.{Line};
ghost use Rattle.wl_core.specs.Moments.{Beginning, Moment, moment_after};
ghost use Rattle.wl_core.specs.Lines.{lines_at, says, says_all, transcript, onto};
ghost use Rattle.wl_core.specs.Counts.{counted, octets_of, counts_of};
ghost use Rattle.wl_core.specs.Marks.{Follows, marked_after};
ghost use Rattle.wl_core.specs.Worlds.{Holds, WorksOn, StandsFor, memory};

use crate::counts::{Counts, octets_of};
use crate::documents::Stepped;
use crate::events::Event;
use crate::lines::{Line, say_all};
use crate::marks::Marks;
use crate::seats::Seats;
use crate::step::step;
use std::alloc::Global;
use std::marker::Model;
use wl_document::DocFault;
use wl_entry::Free;
use wl_manager::Manager;
use wl_octets::{Memory, Octets, Row, Shared};
use wl_snapshot::Snapshot;

/// The agent, over events. A contract sees what it goes on from; with its first document and a list of events it is one
/// value. Once memory ran out it has failed, and each later event is refused so.
#[derive(Drop)]
pub struct World {
    alloc: Global,
    manager: Manager<Free>,
    seats: Seats,
    marks: Marks,
    octets: u64,
    has_failed: bool,
}

impl Model for World {
    ghost use Rattle.std.specs.Prelude.{◌≡◌, false};
    ghost use Rattle.wl_core.specs.Marks.{Follows};
    ghost use Rattle.wl_core.specs.Worlds.{WorldState, IsSound};

    ghost Value = { WorldState };

    ghost view = { λ w. record { managed = w.manager; seats = w.seats.seats.items; begun_before = w.seats.begun_before; octets = w.octets; has_failed = w.has_failed } };

    ghost invariant = { λ w. IsSound (record { managed = w.manager; seats = w.seats.seats.items; begun_before = w.seats.begun_before; octets = w.octets; has_failed = w.has_failed }) × (w.has_failed ≡ false → Follows w.manager.stored.published w.marks w.seats.seats.items) };
}

/// A count of 64 bits fits its type. It does nothing: what takes a step over sessions proves by it.
fn fits(count: u64)
    ensures { count ≤ 18446744073709551615 }
{}

/// The last publication, with one owner more.
fn share_publication(manager: &Manager<Free>) -> Result<Shared<Snapshot>, Memory>
    ensures { IfOk result (λ s. s ≡ manager.now.stored.published) }
{
    let snapshot = manager.snapshot().share()?;
    Ok(snapshot)
}

/// The sessions are marked to whose callers the last publication shows something else than the one before.
fn mark(
    marks: &mut Marks,
    before: &Snapshot,
    manager: &Manager<Free>,
    touched: &[Octets],
) -> Result<(), Memory>
    requires { SameBut touched.now before.now manager.now.stored.published }
    ensures { OnOk result (marks.new ≡ marked_after before.now manager.now.stored.published marks.old) }
{
    marks.note_publication(before, manager.snapshot().part(), touched)
}

/// Takes an event and says what came of it; tells how many bytes were written.
#[tactic(auto, using(crate::proofs::Readiness::works_after, list_laws::proofs::Fronts::gains_nothing, list_laws::proofs::Fronts::gains_all))]
fn take(
    alloc: Global,
    manager: &mut Manager<Free>,
    seats: &mut Seats,
    marks: &mut Marks,
    event: Event,
    said: &mut Row<Line>,
) -> Result<u64, Memory>
    requires within { IsWithin event }
    requires works { WorksOn manager.old seats.old.seats.items }
    requires follows { Follows manager.old.stored.published marks.old seats.old.seats.items }
    ensures works { OnOk result (WorksOn manager.new seats.new.seats.items) }
    ensures follows { OnOk result (Follows manager.new.stored.published marks.new seats.new.seats.items) }
    ensures holds { (m : Moment) → Holds manager.old seats.old.seats.items seats.old.begun_before m
        → OnOk result (Holds manager.new seats.new.seats.items seats.new.begun_before (moment_after event m)) }
    ensures octets { (m : Moment) → Holds manager.old seats.old.seats.items seats.old.begun_before m
        → IfOk result (λ n. n ≡ counted (octets_of (lines_at event m))) }
    ensures said { (m : Moment) → Holds manager.old seats.old.seats.items seats.old.begun_before m
        → OnOk result (said.new ≡ said.old ++ lines_at event m) }
    ensures prefix { (m : Moment) → Holds manager.old seats.old.seats.items seats.old.begun_before m
        → GainsFront (lines_at event m) said.old said.new }
{
    fits(seats.begun_before);
    let before = share_publication(manager)?;
    let is_marked = marks.note(seats, &event)?;
    let Stepped { lines, touched } = step(alloc, manager, seats, is_marked, event)?;
    mark(marks, before.part(), manager, touched.as_slice())?;
    let octets = octets_of(lines.as_slice());
    say_all(said, lines)?;
    Ok(octets)
}

impl World {
    /// No caller has come yet.
    #[tactic(auto, using(crate::proofs::AfterEvents::begins_well))]
    fn begin(alloc: Global, manager: Manager<Free>) -> Result<World, Memory>
        requires { rings.StandsFor manager.tokens [] }
        ensures { IfOk result
            (λ w. w ≡ record { managed = manager; seats = replicate CONNS None; begun_before = 0; octets = 0; has_failed = false }) }
    {
        Ok(World {
            alloc,
            manager,
            seats: Seats::start(alloc)?,
            marks: Marks::start(alloc)?,
            octets: 0,
            has_failed: false,
        })
    }

    /// A world that begins with a document, in which no caller has come yet. The first check of the document that fails is
    /// the fault.
    #[tactic(auto, using(crate::proofs::AfterEvents::begins))]
    pub fn start(alloc: Global, document: &[u8]) -> Result<World, DocFault>
        ensures ok { IfOk result
            (λ w. IsOkAnd (document_state None document.now)
            (λ d. StandsFor w (record { strict = false; state = d }) [])) }
        ensures fault { IfErr result (λ e. Faults e (document_state None document.now)) }
    {
        let manager = Manager::start(alloc, document)?;
        let world = World::begin(alloc, manager)?;
        Ok(world)
    }

    /// As `start`, and the store is strict for good.
    #[tactic(auto, using(crate::proofs::AfterEvents::begins))]
    pub fn start_strict(alloc: Global, document: &[u8]) -> Result<World, DocFault>
        ensures ok { IfOk result
            (λ w. IsOkAnd (document_state None document.now)
            (λ d. StandsFor w (record { strict = true; state = d }) [])) }
        ensures fault { IfErr result (λ e. Faults e (document_state None document.now)) }
    {
        let manager = Manager::start_strict(alloc, document)?;
        let world = World::begin(alloc, manager)?;
        Ok(world)
    }

    /// Takes an event, and appends what is to be said of it. Out of memory, a prefix of that was appended, and the world has
    /// failed for good.
    #[tactic(auto, using(crate::proofs::WorldEvents::stands_on, list_laws::proofs::Fronts::gains_nothing))]
    pub fn apply(&mut self, event: Event, said: &mut Row<Line>) -> Result<(), Memory>
        requires { IsWithin event }
        ensures stands { (d : Beginning) (past : List Event) → StandsFor self.old d past
            → OnOk result (StandsFor self.new d (event ∷ past)) }
        ensures said { (d : Beginning) (past : List Event) → StandsFor self.old d past
            → OnOk result (said.new ≡ said.old ++ says d past event) }
        ensures prefix { (d : Beginning) (past : List Event) → StandsFor self.old d past
            → GainsFront (says d past event) said.old said.new }
        ensures failed { OnErr result (self.new.has_failed ≡ true) }
        ensures again { self.old.has_failed ≡ true
            → (result ≡ Err memory) × (self.new ≡ self.old) × (said.new ≡ said.old) }
    {
        if self.has_failed {
            return Err(Memory);
        }
        match take(
            self.alloc,
            &mut self.manager,
            &mut self.seats,
            &mut self.marks,
            event,
            said,
        ) {
            Ok(octets) => {
                self.octets = self.octets.saturating_add(octets);
                Ok(())
            }
            Err(Memory) => {
                self.has_failed = true;
                Err(Memory)
            }
        }
    }

    /// Takes events in their order. Out of memory it stops at the event that met it: a prefix of what is to be said of all
    /// of them was appended, and the world has failed for good.
    pub fn run(&mut self, events: Row<Event>, said: &mut Row<Line>) -> Result<(), Memory>
        requires { AllByRecursion IsWithin events }
        ensures said { (d : Beginning) (past : List Event) (before : List Line) → StandsFor self.old d past
            → said.old ≡ before ++ transcript d past
            → OnOk result (StandsFor self.new d (onto events past) × (said.new ≡ before ++ transcript d (onto events past))) }
        ensures prefix { (d : Beginning) (past : List Event) → StandsFor self.old d past
            → GainsFront (says_all d past events) said.old said.new }
        ensures failed { OnErr result (self.new.has_failed ≡ true) }
    {
        for event in events.into_vec() {
            self.apply(event, said)?;
        }
        Ok(())
    }

    /// What it has done so far. It takes no memory.
    #[tactic(auto, using(crate::proofs::WorldEvents::counts_are, crate::proofs::WorldEvents::has_memory))]
    pub fn counts(&self) -> Counts
        ensures { (d : Beginning) (past : List Event) → StandsFor self.now d past
            → result ≡ counts_of d past }
    {
        Counts {
            publications: self.manager.snapshot().part().number.saturating_add(1),
            responses: self.seats.begun(),
            octets: self.octets,
        }
    }
}
