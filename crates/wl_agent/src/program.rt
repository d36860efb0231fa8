//! The commands that read an input and write an output.

ghost use Rattle.std.specs.Prelude.{◌≡◌, ◌⊎◌, List, take, map, string_bytes, Option, Some, None, true, false, IfOk, IfErr, IfSome, IsErrOf};
ghost use Rattle.wl_edge.specs.Edge.{Rose, Drained, Gained, GainedPrefix};
ghost use Rattle.wl_edge.specs.declared.drain.ReadFault.TheVariants as ReadFault;
ghost use Rattle.wl_agent.specs.declared.command.Command.TheVariants as Command;
ghost use Rattle.wl_agent.specs.Args.{command_of, SimulationFits};
ghost use Rattle.wl_agent.specs.Outcomes.{usage_outcome, outcome_of};
ghost use Rattle.wl_agent.specs.Ends.{Traffic, Ends, IsCounted, IsOutcome, reads, StatusExplains, StatusGiven};

use crate::args::{NoCommand, read_command};
use crate::command::{Command, Reading, Simulation};
use crate::outcome::{Outcome, outcome_of, simulation_outcome};
use crate::status::{OUT_OF_MEMORY, READ_FAILED, USAGE, WRITE_FAILED};
use std::alloc::Global;
use std::string::String;
use wl_document::DOCUMENT_LIMIT;
use wl_edge::{ReadFault, Sink, Source, read_all, write_all};
use wl_octets::{Memory, Octets};

/// How many bytes of the input are read at most: one past the limit of a document and of a script, so that a longer one
/// is known as such.
pub const READ_LIMIT: usize = DOCUMENT_LIMIT + 1;

/// The usage.
fn usage(alloc: Global) -> Result<Outcome, ReadFault>
    ensures usage { IfOk result (λ o. o ≡ usage_outcome) }
    ensures fault { IfErr result (λ e. e ≡ ReadFault.Memory) }
{
    match Octets::from_slice(
        alloc,
        b"usage: agentd preview|check|replay|simulate|serve\n",
    ) {
        Ok(output) => Ok(Outcome {
            status: USAGE,
            output,
        }),
        Err(_) => Err(ReadFault::Memory),
    }
}

/// What is asked of the input that is read ends with this.
fn read_outcome<I: Source>(
    alloc: Global,
    reading: &Reading,
    input: &mut I,
) -> Result<Outcome, ReadFault>
    ensures outcome { IfOk result (IsOutcome (Some (Command.Read reading.now)) (I.left input.old)) }
    ensures failed { IsErrOf result ReadFault.Failed → Rose (I.faults input.old) (I.faults input.new) }
{
    let text = match read_all(alloc, input, READ_LIMIT) {
        Ok(text) => text,
        Err(ReadFault::Failed) => return Err(ReadFault::Failed),
        Err(ReadFault::Memory) => return Err(ReadFault::Memory),
    };
    match outcome_of(alloc, reading, text.as_slice()) {
        Ok(outcome) => Ok(outcome),
        Err(Memory) => Err(ReadFault::Memory),
    }
}

/// What a simulation ends with, for which nothing is read.
fn run_simulation(alloc: Global, simulation: Simulation) -> Result<Outcome, ReadFault>
    requires { SimulationFits simulation }
    ensures outcome { IfOk result (IsCounted simulation) }
    ensures fault { IfErr result (λ e. e ≡ ReadFault.Memory) }
{
    match simulation_outcome(alloc, simulation) {
        Ok(outcome) => Ok(outcome),
        Err(Memory) => Err(ReadFault::Memory),
    }
}

/// What these words end with: the usage, the counts of a simulation, or the outcome of the command on the input that is
/// read.
fn outcome<I: Source>(alloc: Global, words: &[String], input: &mut I) -> Result<Outcome, ReadFault>
    ensures outcome { IfOk result (IsOutcome (command_of (map string_bytes words.now)) (I.left input.old)) }
    ensures fit { IsErrOf result ReadFault.Failed → reads (command_of (map string_bytes words.now)) ≡ true }
    ensures failed { IsErrOf result ReadFault.Failed → Rose (I.faults input.old) (I.faults input.new) }
    ensures idle { reads (command_of (map string_bytes words.now)) ≡ false → input.new ≡ input.old }
{
    match read_command(alloc, words) {
        Ok(Command::Read(reading)) => read_outcome(alloc, &reading, input),
        Ok(Command::Simulate(simulation)) => run_simulation(alloc, simulation),
        Err(NoCommand::Unfit(_)) => usage(alloc),
        Err(NoCommand::Memory) => Err(ReadFault::Memory),
    }
}

fn run_command_inner<I: Source, O: Sink>(
    alloc: Global,
    words: &[String],
    input: &mut I,
    output: &mut O,
) -> u8
    ensures ends { Ends (command_of (map string_bytes words.now))
        (record {
          content = I.left input.old;
          before = O.taken output.old;
          after = O.taken output.new;
          reads_before = I.faults input.old;
          reads_after = I.faults input.new;
          writes_before = O.faults output.old;
          writes_after = O.faults output.new;
        }) result }
    ensures idle { reads (command_of (map string_bytes words.now)) ≡ false → input.new ≡ input.old }
{
    match outcome(alloc, words, input) {
        Ok(outcome) => {
            if write_all(output, outcome.output.as_slice()) {
                outcome.status
            } else {
                WRITE_FAILED
            }
        }
        Err(ReadFault::Failed) => READ_FAILED,
        Err(ReadFault::Memory) => OUT_OF_MEMORY,
    }
}

/// Runs a command other than `serve`, as [`crate::run`] tells. The document or the script comes from `input`, of which at
/// most [`READ_LIMIT`] bytes are read; all that is written goes to `output`.
pub(crate) fn run_command<I: Source, O: Sink>(
    alloc: Global,
    words: &[String],
    input: &mut I,
    output: &mut O,
) -> u8
    // each status with its cause, and what was written
    ensures sound { StatusExplains (command_of (map string_bytes words.now))
        (record {
          content = I.left input.old;
          before = O.taken output.old;
          after = O.taken output.new;
          reads_before = I.faults input.old;
          reads_after = I.faults input.new;
          writes_before = O.faults output.old;
          writes_after = O.faults output.new;
        }) result }
    // the status that is due is given, except a failed read or write and where memory runs out
    ensures complete { StatusGiven (command_of (map string_bytes words.now)) (I.left input.old) result }
    // where the words fit no command, or a simulation, nothing is read
    ensures idle { reads (command_of (map string_bytes words.now)) ≡ false → input.new ≡ input.old }
{
    run_command_inner(alloc, words, input, output)
}
