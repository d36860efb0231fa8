//! Names: the first unnamed call takes its selectors, or ends.

ghost use Rattle.std.specs.Prelude.{◌≡◌, find, position, IfOk};
ghost use Rattle.wl_session.specs.Answering.{Gives};
ghost use Rattle.wl_session.specs.Tokens.{is_unnamed, is_unnamed_stage, first_unnamed, name_call, name_stage, name_first};

use crate::counted::CountedConn;
use crate::replies::refuse;
use crate::served::{CallKind, Parted, ServedCall, Stage, join_at, part_at};
use grpc_wire::Refusal;
use std::alloc::Global;
use wl_octets::{Memory, Row};
use wl_selector::Selectors;

fn is_unnamed(call: &ServedCall) -> bool
    ensures { result ≡ is_unnamed call.now }
{
    matches!(&call.stage, Stage::Unnamed(_))
}

/// The stream of the lowest ready call that was not attested.
pub fn unnamed_stream(served: &[ServedCall]) -> Option<u32>
    ensures { result ≡ first_unnamed served.now }
{
    match served.iter().find(|call| is_unnamed(call)) {
        Some(call) => Some(call.stream),
        None => None,
    }
}

/// A call takes these selectors, or ends where its caller was not attested.
fn name_call(
    alloc: Global,
    conn: &mut CountedConn,
    stream: u32,
    kind: CallKind,
    selectors: Option<Selectors>,
) -> Result<Option<Stage>, Memory>
    ensures { Gives result stream conn.new (name_call stream kind selectors conn.old) }
{
    match selectors {
        Some(selectors) => Ok(Some(Stage::Ready {
            kind,
            selectors,
            seen: None,
            headed: false,
        })),
        None => {
            refuse(alloc, conn, stream, false, Refusal::Unattested)?;
            Ok(None)
        }
    }
}

fn name_stage(
    alloc: Global,
    conn: &mut CountedConn,
    stream: u32,
    stage: Stage,
    selectors: Option<Selectors>,
) -> Result<Option<Stage>, Memory>
    ensures { Gives result stream conn.new (name_stage selectors stream stage conn.old) }
{
    match stage {
        Stage::Unnamed(kind) => name_call(alloc, conn, stream, kind, selectors),
        other => Ok(Some(other)),
    }
}

/// The place of the first such call.
fn place_of(served: &[ServedCall]) -> Option<usize>
    ensures { result ≡ position is_unnamed served.now }
{
    served.iter().position(|call| is_unnamed(call))
}

/// The first unnamed call takes these selectors, or ends. Where there is none, nothing changes.
#[tactic(auto, using(crate::proofs::ReadyCalls::first_found, crate::proofs::ReadyCalls::first_none), unfolding(crate::specs::Tokens::name_first))]
pub fn name_first(
    alloc: Global,
    conn: &mut CountedConn,
    served: Row<ServedCall>,
    selectors: Option<Selectors>,
) -> Result<Row<ServedCall>, Memory>
    ensures { IfOk result
        (λ kept. name_first selectors served conn.old ≡ record { phase = conn.new; kept = kept }) }
{
    let served = served.into_vec();
    let Some(place) = place_of(served.as_slice()) else {
        return Ok(Row::from_vec(served));
    };
    let Parted {
        front,
        call: ServedCall { stream, stage },
        behind,
    } = part_at(served, place)?;
    let kept = name_stage(alloc, conn, stream, stage, selectors)?;
    let joined = join_at(front, stream, kept, behind)?;
    Ok(joined)
}
