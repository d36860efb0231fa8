//! The lines that are written.

ghost use Rattle.std.specs.Prelude.{◌≡◌, ◌++◌, [], ◌∷◌, ◌≤◌, codes, length, IfOk, OnOk};
ghost use Rattle.std.specs.Fmt.{decimal};
ghost use Rattle.fault_lines.specs.Lines.{spaced_all};
ghost use Rattle.fault_laws.specs.Lines.{script_numbers, script_line, fault_line};
ghost use Rattle.wl_agent.specs.Lines.{simulation_line, count_line, message_line};

use crate::command::Simulation;
use grpc_wire::message_prefix;
use std::alloc::Global;
use wl_core::Counts;
use wl_document::{AuthorityState, DocFault};
use wl_octets::{Memory, Octets};
use wl_replay::{ScriptFault, put_all, put_decimal, put_fault, put_hex};

/// The line of a document's fault.
#[tactic(auto, unfolding(fault_laws::specs::Lines::fault_line))]
pub(crate) fn line_of_fault(alloc: Global, fault: DocFault) -> Result<Octets, Memory>
    ensures { IfOk result (λ o. o ≡ fault_line fault) }
{
    let mut out = Vec::new(alloc);
    out.extend_from_slice(b"fault document")?;
    put_fault(&mut out, fault)?;
    out.push(b'\n')?;
    Ok(Octets::from_vec(out))
}

/// The line of what a document holds.
#[tactic(auto, unfolding(crate::specs::Lines::count_line))]
pub(crate) fn line_of_counts(alloc: Global, state: &AuthorityState) -> Result<Octets, Memory>
    ensures { IfOk result (λ o. o ≡ count_line state.now) }
{
    let mut out = Vec::new(alloc);
    out.extend_from_slice(b"ok entries=")?;
    put_decimal(&mut out, state.entries.len() as u64)?;
    out.extend_from_slice(b" bundles=")?;
    put_decimal(&mut out, state.bundles.len() as u64)?;
    out.extend_from_slice(b" svids=")?;
    put_decimal(&mut out, state.svids.len() as u64)?;
    out.push(b'\n')?;
    Ok(Octets::from_vec(out))
}

/// The numbers of a script's fault.
#[tactic(auto, unfolding(fault_laws::specs::Lines::script_numbers))]
fn put_script(out: &mut Vec<u8>, fault: ScriptFault) -> Result<(), Memory>
    ensures { OnOk result (out.new.items ≡ out.old.items ++ spaced_all (script_numbers fault)) }
{
    match fault {
        ScriptFault::Line(line) => put_all(out, &[1, line as u64]),
        ScriptFault::Kind(line) => put_all(out, &[2, line as u64]),
        ScriptFault::Conn(line) => put_all(out, &[3, line as u64]),
        ScriptFault::Hex(line) => put_all(out, &[4, line as u64]),
        ScriptFault::TooLong(count) => put_all(out, &[5, count as u64]),
        ScriptFault::Memory => put_all(out, &[6]),
    }
}

/// The line of a script's fault.
#[tactic(auto, unfolding(fault_laws::specs::Lines::script_line))]
pub(crate) fn line_of_script(alloc: Global, fault: ScriptFault) -> Result<Octets, Memory>
    ensures { IfOk result (λ o. o ≡ script_line fault) }
{
    let mut out = Vec::new(alloc);
    out.extend_from_slice(b"fault script")?;
    put_script(&mut out, fault)?;
    out.push(b'\n')?;
    Ok(Octets::from_vec(out))
}

/// A text and a number.
fn put_count(out: &mut Vec<u8>, text: &[u8], count: u64) -> Result<(), Memory>
    ensures { OnOk result (out.new.items ≡ out.old.items ++ text.now ++ decimal count) }
{
    out.extend_from_slice(text)?;
    put_decimal(out, count)
}

/// The line of a simulation's counts.
#[tactic(auto, unfolding(crate::specs::Lines::simulation_line))]
pub(crate) fn line_of_simulation(
    alloc: Global,
    simulation: Simulation,
    counts: Counts,
) -> Result<Octets, Memory>
    ensures { IfOk result (λ o. o ≡ simulation_line simulation counts) }
{
    let mut out = Vec::new(alloc);
    put_count(&mut out, b"entries=", u64::from(simulation.entries))?;
    put_count(&mut out, b" callers=", u64::from(simulation.callers))?;
    put_count(&mut out, b" steps=", u64::from(simulation.steps))?;
    put_count(&mut out, b" publications=", counts.publications)?;
    put_count(&mut out, b" responses=", counts.responses)?;
    put_count(&mut out, b" bytes=", counts.octets)?;
    out.push(b'\n')?;
    Ok(Octets::from_vec(out))
}

/// The line of a message: its gRPC prefix and itself in hexadecimal.
#[tactic(auto, unfolding(crate::specs::Lines::message_line, grpc_wire::specs::Messages::framed, wl_replay::specs::Hex::hex_text))]
pub(crate) fn line_of_message(alloc: Global, message: &[u8]) -> Result<Octets, Memory>
    requires { length message.now ≤ 4_194_304 }
    ensures { IfOk result (λ o. o ≡ message_line message.now) }
{
    let mut out = Vec::with_capacity(alloc, 2 * message.len() + 11)?;
    put_hex(&mut out, &message_prefix(message.len() as u32))?;
    put_hex(&mut out, message)?;
    out.push(b'\n')?;
    Ok(Octets::from_vec(out))
}
