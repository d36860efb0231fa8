//! What a command ends with: a status and what it writes.

ghost use Rattle.std.specs.Prelude.{◌≡◌, IfOk, None};
ghost use Rattle.std.specs.List.{AllByRecursion};
ghost use Rattle.wl_document.specs.Documents.{document_state};
ghost use Rattle.wl_snapshot.specs.Answers.{IsShort};
ghost use Rattle.wl_core.specs.Events.{IsWithin};
ghost use Rattle.wl_replay.specs.Scripts.{script_of};
ghost use Rattle.wl_replay.specs.Replays.{replayed};
ghost use Rattle.wl_agent.specs.Args.{SimulationFits};
ghost use Rattle.wl_agent.specs.Ends.{IsCounted};
ghost use Rattle.wl_agent.specs.Outcomes.{outcome_of, preview_outcome, check_outcome, script_outcome, transcript_outcome, fault_outcome, preview_answer, answer_outcome};

use crate::command::{Reading, Simulation};
use crate::output::{
    line_of_counts, line_of_fault, line_of_message, line_of_script, line_of_simulation,
};
use crate::publication::publication;
use crate::status::{DENIED, DOCUMENT_FAULT, DONE, NO_SVID, TOO_LONG};
use std::alloc::Global;
use wl_document::{AuthorityState, DocFault, read_state};
use wl_octets::{Memory, Octets};
use wl_replay::{Script, ScriptFault, read_script, replay, simulate};
use wl_selector::Selectors;
use wl_snapshot::{Answer, Method3, answer, view};

/// A status, and the output that goes with it.
#[derive(Drop)]
pub(crate) struct Outcome {
    pub(crate) status: u8,
    pub(crate) output: Octets,
}

/// The answer of a FetchX509SVID call of a caller with these selectors.
#[tactic(auto, unfolding(crate::specs::Outcomes::preview_answer))]
fn answer_for(alloc: Global, selectors: &Selectors, state: AuthorityState) -> Result<Answer, Memory>
    ensures value { IfOk result (λ a. a ≡ preview_answer selectors.now state) }
    ensures short { IfOk result IsShort }
{
    let snapshot = publication(alloc, state)?;
    let view = view(alloc, &snapshot, selectors)?;
    answer(alloc, Method3::X509Svid, &view)
}

/// What an answer ends with.
fn answer_outcome(alloc: Global, answer: Answer) -> Result<Outcome, Memory>
    requires { IsShort answer }
    ensures { IfOk result (λ o. o ≡ answer_outcome answer) }
{
    let (status, output) = match answer {
        Answer::Denied => (DENIED, Octets::empty(alloc)),
        Answer::Wait => (NO_SVID, Octets::empty(alloc)),
        Answer::TooLong(_) => (TOO_LONG, Octets::empty(alloc)),
        Answer::Message(message) => (DONE, line_of_message(alloc, message.as_slice())?),
    };
    Ok(Outcome { status, output })
}

/// What a faulty document ends with.
fn fault_outcome(alloc: Global, fault: DocFault) -> Result<Outcome, Memory>
    ensures { IfOk result (λ o. o ≡ fault_outcome fault) }
{
    Ok(Outcome {
        status: DOCUMENT_FAULT,
        output: line_of_fault(alloc, fault)?,
    })
}

/// What `preview` ends with.
fn preview_outcome(alloc: Global, selectors: &Selectors, document: &[u8]) -> Result<Outcome, Memory>
    ensures { IfOk result (λ o. o ≡ preview_outcome selectors.now (document_state None document.now)) }
{
    match read_state(alloc, document, None) {
        Ok(state) => answer_outcome(alloc, answer_for(alloc, selectors, state)?),
        Err(DocFault::Memory) => Err(Memory),
        Err(fault) => fault_outcome(alloc, fault),
    }
}

/// What `check` ends with.
fn check_outcome(alloc: Global, document: &[u8]) -> Result<Outcome, Memory>
    ensures { IfOk result (λ o. o ≡ check_outcome (document_state None document.now)) }
{
    match read_state(alloc, document, None) {
        Ok(state) => Ok(Outcome {
            status: DONE,
            output: line_of_counts(alloc, &state)?,
        }),
        Err(DocFault::Memory) => Err(Memory),
        Err(fault) => fault_outcome(alloc, fault),
    }
}

/// What a script ends with.
fn transcript_outcome(alloc: Global, script: Script) -> Result<Outcome, Memory>
    requires { AllByRecursion IsWithin script.events }
    ensures { IfOk result (λ o. o ≡ transcript_outcome (replayed script)) }
{
    match replay(alloc, script) {
        Ok(output) => Ok(Outcome {
            status: DONE,
            output,
        }),
        Err(DocFault::Memory) => Err(Memory),
        Err(fault) => fault_outcome(alloc, fault),
    }
}

/// What `replay` ends with.
fn script_outcome(alloc: Global, input: &[u8]) -> Result<Outcome, Memory>
    ensures { IfOk result (λ o. o ≡ script_outcome (script_of input.now)) }
{
    match read_script(alloc, input) {
        Ok(script) => transcript_outcome(alloc, script),
        Err(ScriptFault::Memory) => Err(Memory),
        Err(fault) => Ok(Outcome {
            status: DOCUMENT_FAULT,
            output: line_of_script(alloc, fault)?,
        }),
    }
}

/// What is asked of the input ends with this.
#[tactic(auto, unfolding(crate::specs::Outcomes::outcome_of))]
pub(crate) fn outcome_of(alloc: Global, reading: &Reading, input: &[u8]) -> Result<Outcome, Memory>
    ensures { IfOk result (λ o. o ≡ outcome_of reading.now input.now) }
{
    match reading {
        Reading::Preview(selectors) => preview_outcome(alloc, selectors, input),
        Reading::Check => check_outcome(alloc, input),
        Reading::Replay => script_outcome(alloc, input),
    }
}

/// What a simulation ends with.
pub(crate) fn simulation_outcome(alloc: Global, simulation: Simulation) -> Result<Outcome, Memory>
    requires { SimulationFits simulation }
    ensures { IfOk result (IsCounted simulation) }
{
    let Simulation {
        seed,
        entries,
        callers,
        steps,
    } = simulation;
    let counts = simulate(alloc, seed, entries, callers, steps)?;
    Ok(Outcome {
        status: DONE,
        output: line_of_simulation(alloc, simulation, counts)?,
    })
}
