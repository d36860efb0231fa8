//! One call's body, as it comes.

ghost use Rattle.std.specs.Prelude.{◌≡◌, ◌≢◌, ◌≤◌, ◌++◌, drop, length, IfOk, OnOk};
ghost use Rattle.grpc_wire.specs.declared.prefix.TheConstants.{PREFIX_LEN};
ghost use Rattle.grpc_conn.specs.declared.event.CallEvent.TheVariants.{Nothing};
ghost use Rattle.grpc_conn.specs.Verdicts.{sized_verdict, whole_verdict, part_verdict, refusal_of_prefix, body_verdict};
ghost use Rattle.grpc_conn.specs.Calls.{event_of, standing_after};

use crate::event::CallEvent;
use crate::request::{RequestFault, read_request};
use crate::standing::Standing;
use grpc_wire::{MessageFault, Method, PREFIX_LEN, Refusal, judge_prefix};
use std::alloc::Global;
use std::mem;
use wl_octets::{Memory, Octets};
use workload_proto::MAX_REQUEST_LEN;

/// More bytes of a call's body.
#[tactic(auto, unfolding(crate::specs::Calls::event_of, crate::specs::Calls::standing_after))]
pub(crate) fn advance(
    alloc: Global,
    standing: &mut Standing,
    bytes: &[u8],
    ended: bool,
) -> Result<CallEvent, Memory>
    ensures event { IfOk result (λ event. event ≡ event_of standing.old bytes.now ended) }
    ensures kept { OnOk result (standing.new ≡ standing_after standing.old bytes.now ended) }
{
    match standing {
        Standing::Waiting { method, body } => {
            let event = take_in(alloc, *method, body, bytes, ended)?;
            if event.is_decided() {
                *standing = Standing::Decided;
            }
            Ok(event)
        }
        Standing::Decided => Ok(CallEvent::Nothing),
    }
}

/// Keeps more bytes of a body, and judges what is there: the flag at the first byte, the length with the fifth, a byte
/// too many when it comes, and the rest at the end. Bytes that are too many are not kept.
#[tactic(auto, unfolding(crate::specs::Verdicts::body_verdict))]
fn take_in(
    alloc: Global,
    method: Method,
    body: &mut Octets,
    bytes: &[u8],
    ended: bool,
) -> Result<CallEvent, Memory>
    ensures event { IfOk result (λ event. event ≡ body_verdict method (body.old ++ bytes.now) ended) }
    ensures kept { IfOk result (λ event. event ≡ Nothing → body.new ≡ body.old ++ bytes.now) }
{
    let lacking = PREFIX_LEN.saturating_sub(body.len());
    let (front, rest) = bytes.split_at(lacking.min(bytes.len()));
    body.push_slice(front)?;
    match judge_prefix(MAX_REQUEST_LEN, body.as_slice()) {
        Err(fault) => Ok(refuse(fault)),
        Ok(None) => Ok(judge_part(ended)),
        Ok(Some(said)) => take_rest(alloc, method, said, body, rest, ended),
    }
}

/// The same after a prefix that says this length.
fn take_rest(
    alloc: Global,
    method: Method,
    said: u32,
    body: &mut Octets,
    rest: &[u8],
    ended: bool,
) -> Result<CallEvent, Memory>
    requires { PREFIX_LEN ≤ length body.old }
    ensures event { IfOk result (λ event. event ≡ sized_verdict method said (drop PREFIX_LEN (body.old
        ++ rest.now)) ended) }
    ensures kept { IfOk result (λ event. event ≡ Nothing → body.new ≡ body.old ++ rest.now) }
{
    let due = said as usize;
    let come = (body.len() - PREFIX_LEN).saturating_add(rest.len());
    if come > due {
        return Ok(CallEvent::Refuse(Refusal::Count));
    }
    body.push_slice(rest)?;
    if !ended {
        return Ok(CallEvent::Nothing);
    }
    if come < due {
        return Ok(CallEvent::Refuse(Refusal::Count));
    }
    decide(alloc, method, body)
}

/// A request that has ended within its prefix, or goes on.
fn judge_part(ended: bool) -> CallEvent
    ensures { result ≡ part_verdict ended }
{
    if ended {
        CallEvent::Refuse(Refusal::Count)
    } else {
        CallEvent::Nothing
    }
}

fn refuse(fault: MessageFault) -> CallEvent
    ensures { result ≡ refusal_of_prefix fault }
{
    match fault {
        MessageFault::Flag(_) => CallEvent::Refuse(Refusal::Flag),
        MessageFault::TooLong(_) => CallEvent::Refuse(Refusal::LongRequest),
        MessageFault::Memory => CallEvent::Nothing,
    }
}

/// A request that has ended, with its one message after its prefix. The message of a call that is ready is moved out
/// of the body.
fn decide(alloc: Global, method: Method, body: &mut Octets) -> Result<CallEvent, Memory>
    requires { PREFIX_LEN ≤ length body.old }
    ensures event { IfOk result (λ event. event ≡ whole_verdict method (drop PREFIX_LEN body.old)) }
    ensures decided { IfOk result (λ event. event ≢ Nothing) }
{
    let (_, message) = body.as_slice().split_at(PREFIX_LEN);
    match read_request(alloc, method, message) {
        Ok(request) => Ok(CallEvent::Ready {
            method,
            message: take_message(alloc, body),
            request,
        }),
        Err(RequestFault::Refused(refusal)) => Ok(CallEvent::Refuse(refusal)),
        Err(RequestFault::Memory) => Err(Memory),
    }
}

/// The bytes after the prefix. They are moved, and take no memory.
fn take_message(alloc: Global, body: &mut Octets) -> Octets
    requires { PREFIX_LEN ≤ length body.old }
    ensures { result ≡ drop PREFIX_LEN body.old }
{
    let mut bytes = mem::replace(body, Octets::empty(alloc)).into_vec();
    bytes.rotate_left(PREFIX_LEN);
    bytes.truncate(bytes.len() - PREFIX_LEN);
    Octets::from_vec(bytes)
}
