//! Simulations.

ghost use Rattle.std.specs.Prelude.{◌≡◌, ◌+◌, ◌<◌, ◌≤◌, ◌^◌, ◌∷◌, [], List, length, replicate, false, true, None, Ok, IfOk, IsOkAnd, OnOk, slice_set, slice_index_or};
ghost use Rattle.wl_document.specs.Documents.{document_state};
ghost use Rattle.wl_core.specs.declared.events.TheConstants.{CONNS};
ghost use Rattle.wl_core.specs.declared.events.Event.{Event};
ghost use Rattle.wl_core.specs.Moments.{Beginning};
ghost use Rattle.wl_core.specs.Worlds.{StandsFor};
ghost use Rattle.wl_replay.specs.declared.limits.TheConstants.{MAX_ENTRIES};
ghost use Rattle.wl_replay.specs.Generated.{document_text};
ghost use Rattle.wl_replay.specs.Simulations.{Course, flag, renamed, after_act, after_step, joined, first_course, course, simulated};
ghost use Rattle.wl_replay.specs.Stands.{Reached, IsRoomy, Fits};

use crate::acts::{Act, FIRST_CLOCK, act_of, apply, claim, piece};
use crate::draws::{drawn, state_after};
use crate::generated::{document, selectors};
use std::alloc::Global;
use wl_core::{Counts, Event, World};
use wl_octets::{Memory, Octets};

/// How far a simulation has come, beside its world.
#[derive(Drop)]
pub(crate) struct Generator {
    /// The state of the draws.
    pub(crate) draws: u64,
    pub(crate) clock: u64,
    /// Of each entry, whether it has the DNS name.
    pub(crate) named: Vec<bool>,
    /// Of each caller, whether it was fed.
    pub(crate) fed: Vec<bool>,
}

/// So many flags that are not set.
fn unset(alloc: Global, count: u32) -> Result<Vec<bool>, Memory>
    ensures { IfOk result (λ v. v.items ≡ replicate count false) }
{
    Ok(vec![in alloc; false; count as usize]?)
}

/// Whether a flag is set.
fn is_set(flags: &[bool], at: usize) -> bool
    requires { at < length flags.now }
    ensures { result ≡ flag flags.now at }
{
    flags[at]
}

/// Gives an entry its DNS name, or takes it, and tells the document.
fn new_document(
    alloc: Global,
    named: &mut Vec<bool>,
    callers: u32,
    at: usize,
) -> Result<Octets, Memory>
    requires at { at < length named.old.items }
    requires named { length named.old.items ≤ MAX_ENTRIES }
    requires callers { 0 < callers }
    ensures named { named.new.items ≡ renamed named.old.items at }
    ensures document { IfOk result (λ o. o ≡ document_text callers (renamed named.old.items at)) }
{
    let is_named = is_set(named.as_slice(), at);
    named[at] = !is_named;
    document(alloc, callers, named.as_slice())
}

/// An entry gets its DNS name, or loses it.
fn rename(
    alloc: Global,
    world: &mut World,
    generator: &mut Generator,
    at: usize,
) -> Result<(), Memory>
    requires roomy { IsRoomy generator.old.named.items generator.old.fed.items }
    requires at { at < length generator.old.named.items }
    ensures reached { (d : Beginning) (c : Course) → Reached world.old generator.old d c
        → OnOk result (Reached world.new generator.new d (after_act d (Act.Rename at) c)) }
    ensures roomy { OnOk result (IsRoomy generator.new.named.items generator.new.fed.items) }
    ensures clock { generator.new.clock ≡ generator.old.clock }
{
    let callers = generator.fed.len() as u32;
    let document = new_document(alloc, &mut generator.named, callers, at)?;
    apply(alloc, world, Event::Sync { document })?;
    Ok(())
}

/// A caller sends its first bytes, or a PING.
fn feed(
    alloc: Global,
    world: &mut World,
    generator: &mut Generator,
    conn: u32,
) -> Result<(), Memory>
    requires roomy { IsRoomy generator.old.named.items generator.old.fed.items }
    requires conn { conn < length generator.old.fed.items }
    ensures reached { (d : Beginning) (c : Course) → Reached world.old generator.old d c
        → OnOk result (Reached world.new generator.new d (after_act d (Act.Feed conn) c)) }
    ensures roomy { OnOk result (IsRoomy generator.new.named.items generator.new.fed.items) }
    ensures clock { generator.new.clock ≡ generator.old.clock }
{
    let piece = piece(alloc, is_set(generator.fed.as_slice(), conn as usize))?;
    generator.fed[conn as usize] = true;
    apply(alloc, world, Event::Feed { conn, piece })?;
    Ok(())
}

/// Does what is to happen.
fn take_act(
    alloc: Global,
    world: &mut World,
    generator: &mut Generator,
    act: Act,
) -> Result<(), Memory>
    requires roomy { IsRoomy generator.old.named.items generator.old.fed.items }
    requires clock { generator.old.clock < 2 ^ 62 }
    requires fits { Fits (length generator.old.named.items) (length generator.old.fed.items) act }
    ensures reached { (d : Beginning) (c : Course) → Reached world.old generator.old d c
        → OnOk result (Reached world.new generator.new d (after_act d act c)) }
    ensures roomy { OnOk result (IsRoomy generator.new.named.items generator.new.fed.items) }
    ensures clock { generator.new.clock ≤ generator.old.clock + 49 }
{
    match act {
        Act::Claim => {
            claim(alloc, world, generator.clock)?;
            Ok(())
        }
        Act::Wait(seconds) => {
            generator.clock += seconds;
            Ok(())
        }
        Act::Rename(at) => rename(alloc, world, generator, at),
        Act::Feed(conn) => feed(alloc, world, generator, conn),
        Act::Turn(conn) => {
            apply(alloc, world, Event::Turn { conn })?;
            Ok(())
        }
    }
}

/// Takes a step.
fn take_step(alloc: Global, world: &mut World, generator: &mut Generator) -> Result<(), Memory>
    requires roomy { IsRoomy generator.old.named.items generator.old.fed.items }
    requires clock { generator.old.clock < 2 ^ 62 }
    ensures reached { (d : Beginning) (c : Course) → Reached world.old generator.old d c
        → OnOk result (Reached world.new generator.new d (after_step d c)) }
    ensures roomy { OnOk result (IsRoomy generator.new.named.items generator.new.fed.items) }
    ensures clock { generator.new.clock ≤ generator.old.clock + 49 }
{
    generator.draws = state_after(generator.draws);
    let callers = generator.fed.len() as u32;
    let act = act_of(generator.named.len(), callers, drawn(generator.draws));
    take_act(alloc, world, generator, act)
}

/// Takes so many steps.
fn take_steps(
    alloc: Global,
    world: &mut World,
    generator: &mut Generator,
    steps: u32,
) -> Result<(), Memory>
    requires roomy { IsRoomy generator.old.named.items generator.old.fed.items }
    requires clock { generator.old.clock < 2 ^ 32 }
    ensures { (d : Beginning) (c : Course) → Reached world.old generator.old d c
        → OnOk result (Reached world.new generator.new d (course d c steps)) }
{
    for _ in 0..steps {
        take_step(alloc, world, generator)?;
    }
    Ok(())
}

/// So many callers join.
fn join_all(alloc: Global, world: &mut World, callers: u32) -> Result<(), Memory>
    requires { callers ≤ CONNS }
    ensures { (d : Beginning) → StandsFor world.old d []
        → OnOk result (StandsFor world.new d (joined callers)) }
{
    for conn in 0..callers {
        let selectors = selectors(alloc, conn)?;
        apply(alloc, world, Event::Join { conn, selectors })?;
    }
    Ok(())
}

/// The world that the first document begins. The document has no fault, as tests show; had it one, this would be answered
/// as out of memory.
fn begin(alloc: Global, callers: u32, named: &[bool]) -> Result<World, Memory>
    requires callers { 0 < callers }
    requires named { length named.now ≤ MAX_ENTRIES }
    ensures { IfOk result
        (λ w. IsOkAnd (document_state None (document_text callers named.now))
        (λ d. StandsFor w (record { strict = false; state = d }) [])) }
{
    let document = document(alloc, callers, named)?;
    match World::start(alloc, document.as_slice()) {
        Ok(world) => Ok(world),
        Err(_) => Err(Memory),
    }
}

/// Simulates so many steps of a world of so many entries and callers, and counts what it did. Equal words give equal
/// counts. Entries are 1 to 10,000, callers 1 to 32, steps at most 100,000.
pub fn simulate(
    alloc: Global,
    seed: u64,
    entries: u32,
    callers: u32,
    steps: u32,
) -> Result<Counts, Memory>
    requires some_entries { 0 < entries }
    requires few_entries { entries ≤ MAX_ENTRIES }
    requires some_callers { 0 < callers }
    requires few_callers { callers ≤ CONNS }
    ensures counts { IfOk result (λ counts. simulated seed entries callers steps ≡ Ok counts) }
{
    let mut generator = Generator {
        draws: seed,
        clock: FIRST_CLOCK,
        named: unset(alloc, entries)?,
        fed: unset(alloc, callers)?,
    };
    let mut world = begin(alloc, callers, generator.named.as_slice())?;
    join_all(alloc, &mut world, callers)?;
    take_steps(alloc, &mut world, &mut generator, steps)?;
    Ok(world.counts())
}
