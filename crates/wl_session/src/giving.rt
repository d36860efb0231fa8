//! Tokens: the first waiting ask gets its outcome.

ghost use Rattle.std.specs.Prelude.{◌≡◌, find, position, option_map, IfOk};
ghost use Rattle.workload_proto.specs.Spelling.{spell_jwt, capped};
ghost use Rattle.wl_session.specs.Answering.{Gives};
ghost use Rattle.wl_session.specs.Tokens.{is_asking, ask_of_stage, first_ask, token_message, next_ask, give_call, give_stage, give_first};

use crate::asks::{JwtAsk, JwtOutcome};
use crate::counted::CountedConn;
use crate::queue::Queue;
use crate::replies::{last_message, refuse};
use crate::served::{Parted, ServedCall, Stage, join_at, part_at};
use grpc_wire::Refusal;
use std::alloc::Global;
use wl_octets::{Memory, Octets, Row};
use wl_snapshot::Wanted;
use workload_proto::{JwtItem, JwtResponse, encode_jwt, size_jwt};

/// A message of more bytes is not sent (own rule).
const MAX_RESPONSE_LEN: u64 = 4_194_304;

fn is_asking(call: &ServedCall) -> bool
    ensures { result ≡ is_asking call.now }
{
    matches!(&call.stage, Stage::Asking { .. })
}

/// The ask for which a call waits, if it waits for one.
fn ask_of(call: &ServedCall) -> Option<&JwtAsk>
    ensures { option_map (λ a. a.now) result ≡ ask_of_stage call.now.stage }
{
    match &call.stage {
        Stage::Asking { first, .. } => Some(first),
        _ => None,
    }
}

/// The first call that waits for a token.
fn first_asking(served: &[ServedCall]) -> Option<&ServedCall>
    ensures { option_map (λ c. c.now) result ≡ find is_asking served.now }
{
    served.iter().find(|call| is_asking(call))
}

/// The first waiting ask, by stream and then entry id.
pub fn first_ask(served: &[ServedCall]) -> Option<&JwtAsk>
    ensures { option_map (λ a. a.now) result ≡ first_ask served.now }
{
    match first_asking(served) {
        Some(call) => ask_of(call),
        None => None,
    }
}

/// The message of all tokens, and status 0; or a refusal where it is too long.
fn send_tokens(
    alloc: Global,
    conn: &mut CountedConn,
    stream: u32,
    got: Row<JwtItem>,
) -> Result<Option<Stage>, Memory>
    ensures { Gives result stream conn.new
        (token_message stream (spell_jwt (record { svids = got })) conn.old) }
{
    let response = JwtResponse { svids: got };
    if size_jwt(&response) > MAX_RESPONSE_LEN {
        refuse(alloc, conn, stream, false, Refusal::LongResponse)?;
        return Ok(None);
    }
    let message = encode_jwt(alloc, &response)?;
    last_message(alloc, conn, stream, false, message.as_slice())?;
    Ok(None)
}

/// The next ask, or the message where none is left.
fn next_ask(
    alloc: Global,
    conn: &mut CountedConn,
    stream: u32,
    audience: Row<Octets>,
    mut rest: Queue,
    got: Row<JwtItem>,
) -> Result<Option<Stage>, Memory>
    ensures { Gives result stream conn.new (next_ask stream audience rest got conn.old) }
{
    match rest.pop() {
        None => send_tokens(alloc, conn, stream, got),
        Some(Wanted { ask, hint }) => Ok(Some(Stage::Asking {
            first: JwtAsk {
                stream,
                ask,
                audience,
                hint,
            },
            rest,
            got,
        })),
    }
}

/// What becomes of a call whose first ask gets this outcome.
#[tactic(auto, unfolding(crate::specs::Tokens::give_call))]
fn give_call(
    alloc: Global,
    conn: &mut CountedConn,
    stream: u32,
    first: JwtAsk,
    rest: Queue,
    mut got: Row<JwtItem>,
    outcome: JwtOutcome,
) -> Result<Option<Stage>, Memory>
    ensures { Gives result stream conn.new (give_call stream first rest got outcome conn.old) }
{
    match outcome {
        JwtOutcome::Token(token) => {
            let JwtAsk {
                ask,
                audience,
                hint,
                ..
            } = first;
            got.push(JwtItem {
                spiffe_id: Octets::from_slice(alloc, ask.spiffe_id.as_bytes())?,
                svid: token.token,
                hint,
            })?;
            next_ask(alloc, conn, stream, audience, rest, got)
        }
        JwtOutcome::Failed | JwtOutcome::Unfit(_) => {
            refuse(alloc, conn, stream, false, Refusal::Unsigned)?;
            Ok(None)
        }
    }
}

fn give_stage(
    alloc: Global,
    conn: &mut CountedConn,
    stream: u32,
    stage: Stage,
    outcome: JwtOutcome,
) -> Result<Option<Stage>, Memory>
    ensures { Gives result stream conn.new (give_stage outcome stream stage conn.old) }
{
    match stage {
        Stage::Asking { first, rest, got } => {
            give_call(alloc, conn, stream, first, rest, got, outcome)
        }
        other => Ok(Some(other)),
    }
}

/// The place of the first such call.
fn place_of(served: &[ServedCall]) -> Option<usize>
    ensures { result ≡ position is_asking served.now }
{
    served.iter().position(|call| is_asking(call))
}

/// The first ask gets this outcome. Where none waits, nothing changes.
#[tactic(auto, using(crate::proofs::ReadyCalls::first_found, crate::proofs::ReadyCalls::first_none), unfolding(crate::specs::Tokens::give_first))]
pub fn give_first(
    alloc: Global,
    conn: &mut CountedConn,
    served: Row<ServedCall>,
    outcome: JwtOutcome,
) -> Result<Row<ServedCall>, Memory>
    ensures { IfOk result
        (λ kept. give_first outcome served conn.old ≡ record { phase = conn.new; kept = kept }) }
{
    let served = served.into_vec();
    let Some(place) = place_of(served.as_slice()) else {
        return Ok(Row::from_vec(served));
    };
    let Parted {
        front,
        call: ServedCall { stream, stage },
        behind,
    } = part_at(served, place)?;
    let kept = give_stage(alloc, conn, stream, stage, outcome)?;
    let joined = join_at(front, stream, kept, behind)?;
    Ok(joined)
}
