//! The faults of a document as numbers.

ghost use Rattle.std.specs.Prelude.{◌≡◌, ◌++◌, ◌∷◌, [], OnOk};
ghost use Rattle.fault_lines.specs.Lines.{spaced_all};
ghost use Rattle.wl_replay.specs.Faults.{id_numbers, place_numbers, fault_numbers};

use crate::numbers::{put_all, put_spaced};
use spiffe_id::IdFault;
use wl_document::{DocFault, Place};
use wl_octets::Memory;

/// A fault's number and its place.
#[tactic(auto, unfolding(fault_lines::specs::Lines::spaced_all))]
fn put_placed(out: &mut Vec<u8>, kind: u64, place: Place) -> Result<(), Memory>
    ensures { OnOk result (out.new.items ≡ out.old.items ++ spaced_all (kind ∷ place_numbers place)) }
{
    put_spaced(out, kind)?;
    put_all(
        out,
        &[
            u64::from(place.part),
            u64::from(place.index),
            u64::from(place.field),
            u64::from(place.item),
        ],
    )
}

/// The numbers of an id's fault.
#[tactic(auto, unfolding(crate::specs::Faults::id_numbers))]
fn put_id(out: &mut Vec<u8>, fault: IdFault) -> Result<(), Memory>
    ensures { OnOk result (out.new.items ≡ out.old.items ++ spaced_all (id_numbers fault)) }
{
    match fault {
        IdFault::TooLong(count) => put_all(out, &[1, count as u64]),
        IdFault::NotSpiffe => put_all(out, &[2]),
        IdFault::EmptyDomain => put_all(out, &[3]),
        IdFault::DomainByte(at) => put_all(out, &[4, at as u64]),
        IdFault::EmptySegment(at) => put_all(out, &[5, at as u64]),
        IdFault::PathByte(at) => put_all(out, &[6, at as u64]),
        IdFault::DotSegment(at) => put_all(out, &[7, at as u64]),
        IdFault::Memory => put_all(out, &[8]),
    }
}

/// A fault's number, its place and one number more.
#[tactic(auto, unfolding(fault_lines::specs::Lines::spaced_all))]
fn put_counted(out: &mut Vec<u8>, kind: u64, place: Place, count: usize) -> Result<(), Memory>
    ensures { OnOk result
        (out.new.items ≡ out.old.items ++ spaced_all (kind ∷ place_numbers place ++ count ∷ [])) }
{
    put_placed(out, kind, place)?;
    put_spaced(out, count as u64)
}

/// The number of a fault in an id, its place and the id's own numbers.
#[tactic(auto, unfolding(fault_lines::specs::Lines::spaced_all))]
fn put_placed_id(out: &mut Vec<u8>, place: Place, fault: IdFault) -> Result<(), Memory>
    ensures { OnOk result
        (out.new.items ≡ out.old.items ++ spaced_all (5 ∷ place_numbers place ++ id_numbers fault)) }
{
    put_placed(out, 5, place)?;
    put_id(out, fault)
}

/// Appends the numbers of a document's fault, each after a space.
#[tactic(auto, unfolding(crate::specs::Faults::fault_numbers))]
pub fn put_fault(out: &mut Vec<u8>, fault: DocFault) -> Result<(), Memory>
    ensures { OnOk result (out.new.items ≡ out.old.items ++ spaced_all (fault_numbers fault)) }
{
    match fault {
        DocFault::NotJson => put_all(out, &[1]),
        DocFault::Version => put_all(out, &[2]),
        DocFault::Missing(place) => put_placed(out, 3, place),
        DocFault::Kind(place) => put_placed(out, 4, place),
        DocFault::Id(place, fault) => put_placed_id(out, place, fault),
        DocFault::Selector(place) => put_placed(out, 6, place),
        DocFault::NoSelectors(place) => put_placed(out, 7, place),
        DocFault::Duplicate(place) => put_placed(out, 8, place),
        DocFault::ForeignDomain(place) => put_placed(out, 9, place),
        DocFault::Base64(place) => put_placed(out, 10, place),
        DocFault::NoOwnBundle => put_all(out, &[11]),
        DocFault::TooMany(place, count) => put_counted(out, 12, place, count),
        DocFault::TooLong(place, count) => put_counted(out, 13, place, count),
        DocFault::Memory => put_all(out, &[14]),
    }
}
