//! What `serve` ends with.

ghost use Rattle.std.specs.Prelude.{◌≡◌, ◌++◌, ◌∷◌, [], codes, IfOk, OnOk, OnErr};
ghost use Rattle.fault_lines.specs.Lines.{spaced_all};
ghost use Rattle.wl_replay.specs.Faults.{place_numbers};
ghost use Rattle.fault_laws.specs.Lines.{config_numbers, config_line};
ghost use Rattle.wl_agent.specs.ServeEnds.{serve_outcome, IsFault, silent};

use crate::outcome::Outcome;
use crate::output::line_of_fault;
use crate::status::{DOCUMENT_FAULT, DONE, HOST_FAILED, NO_DOCUMENT, OUT_OF_MEMORY};
use std::alloc::Global;
use wl_config::ConfigFault;
use wl_document::Place;
use wl_octets::{Memory, Octets};
use wl_replay::put_all;
use wl_serve::ServeEnd;

/// A fault's number and its place.
#[tactic(auto, unfolding(fault_lines::specs::Lines::spaced_all))]
fn put_at(out: &mut Vec<u8>, kind: u64, place: Place) -> Result<(), Memory>
    ensures { OnOk result (out.new.items ≡ out.old.items ++ spaced_all (kind ∷ place_numbers place)) }
{
    put_all(
        out,
        &[
            kind,
            u64::from(place.part),
            u64::from(place.index),
            u64::from(place.field),
            u64::from(place.item),
        ],
    )
}

/// A fault's number, its place and one number more.
#[tactic(auto, unfolding(fault_lines::specs::Lines::spaced_all))]
fn put_many(out: &mut Vec<u8>, kind: u64, place: Place, count: usize) -> Result<(), Memory>
    ensures { OnOk result
        (out.new.items ≡ out.old.items ++ spaced_all (kind ∷ place_numbers place ++ count ∷ [])) }
{
    put_at(out, kind, place)?;
    put_all(out, &[count as u64])
}

/// The numbers of a configuration's fault.
#[tactic(auto, unfolding(fault_laws::specs::Lines::config_numbers))]
fn put_config_fault(out: &mut Vec<u8>, fault: ConfigFault) -> Result<(), Memory>
    ensures { OnOk result (out.new.items ≡ out.old.items ++ spaced_all (config_numbers fault)) }
{
    match fault {
        ConfigFault::NotJson => put_all(out, &[1]),
        ConfigFault::Version => put_all(out, &[2]),
        ConfigFault::Missing(place) => put_at(out, 3, place),
        ConfigFault::Kind(place) => put_at(out, 4, place),
        ConfigFault::EmptyText(place) => put_at(out, 5, place),
        ConfigFault::Selector(place) => put_at(out, 6, place),
        ConfigFault::TooMany(place, count) => put_many(out, 7, place, count),
        ConfigFault::Duplicate(place) => put_at(out, 8, place),
        ConfigFault::TooLong(count) => put_all(out, &[9, count as u64]),
        ConfigFault::Memory => put_all(out, &[10]),
    }
}

/// The line of a configuration's fault, with its end of line.
#[tactic(auto, unfolding(fault_laws::specs::Lines::config_line))]
pub fn line_of_config_fault(alloc: Global, fault: ConfigFault) -> Result<Octets, Memory>
    ensures { IfOk result (λ o. o ≡ config_line fault) }
{
    let mut out = Vec::new(alloc);
    out.extend_from_slice(b"fault config")?;
    put_config_fault(&mut out, fault)?;
    out.push(b'\n')?;
    Ok(Octets::from_vec(out))
}

/// A status with nothing written.
fn silent(alloc: Global, status: u8) -> Outcome
    ensures { result ≡ silent status }
{
    Outcome {
        status,
        output: Octets::empty(alloc),
    }
}

/// What `serve` ends with.
#[tactic(auto, unfolding(crate::specs::ServeEnds::serve_outcome))]
pub(crate) fn serve_outcome(alloc: Global, end: ServeEnd) -> Result<Outcome, Memory>
    ensures value { IfOk result (λ o. o ≡ serve_outcome end) }
    ensures err { OnErr result (IsFault end) }
{
    let output = match end {
        ServeEnd::Config(fault) => line_of_config_fault(alloc, fault)?,
        ServeEnd::Document(fault) => line_of_fault(alloc, fault)?,
        ServeEnd::Unprepared | ServeEnd::HostFault => return Ok(silent(alloc, HOST_FAILED)),
        ServeEnd::NoDocument => return Ok(silent(alloc, NO_DOCUMENT)),
        ServeEnd::Memory => return Ok(silent(alloc, OUT_OF_MEMORY)),
        ServeEnd::Done => return Ok(silent(alloc, DONE)),
    };
    Ok(Outcome {
        status: DOCUMENT_FAULT,
        output,
    })
}
