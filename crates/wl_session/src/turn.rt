//! A turn: each ready call is answered on its view of one publication.

ghost use Rattle.std.specs.Prelude.{◌≡◌, ◌≤◌, ◌++◌, Some, IfSome, IfOk, OnOk};
ghost use Rattle.wl_health.specs.declared.health.TheConstants.{SERVING, SERVICE_UNKNOWN};
ghost use Rattle.wl_snapshot.specs.Answers.{answer_of};
ghost use Rattle.wl_session.specs.Answering.{Gives, kept_of, call_answer, calls_turn, stage_turn, stream_answer, token_answer, check_answer, watch_answer, health_of};
ghost use Rattle.wl_session.specs.Kinds.{was_seen};
ghost use Rattle.wl_session.specs.Making.{IsMessageOf};
ghost use Rattle.wl_session.specs.Sharing.{SeesIn, MayShare};

use crate::asks::JwtAsk;
use crate::counted::CountedConn;
use crate::queue::Queue;
use crate::replies::{framed_message, last_message, message, refuse};
use crate::served::{CallKind, ServedCall, Stage};
use crate::shared_views::SharedViews;
use grpc_wire::Refusal;
use std::alloc::Global;
use wl_health::{SERVICE_UNKNOWN, encode_health, state};
use wl_match::Index;
use wl_octets::{Memory, Octets, Row, Shared};
use wl_selector::Selectors;
use wl_snapshot::{Answer, Method3, Snapshot, View, Wanted, framed_answer, jwt_asks, same_view};

/// Whether the view is the one that answered last.
fn was_seen(seen: &Option<Shared<View>>, view: &View) -> bool
    ensures { result ≡ was_seen seen.now view.now }
{
    match seen {
        None => false,
        Some(old) => same_view(old.part(), view),
    }
}

/// A streaming call is offered its message, which stands after its gRPC prefix, and goes on.
#[tactic(auto, using(crate::proofs::FramedMessages::message_some, crate::proofs::FramedMessages::offered_message))]
fn answer_message(
    alloc: Global,
    conn: &mut CountedConn,
    stream: u32,
    method: Method3,
    selectors: Selectors,
    headed: bool,
    view: Shared<View>,
    message: Shared<Octets>,
) -> Result<Option<Stage>, Memory>
    requires { IsMessageOf method view message }
    ensures { Gives result stream conn.new
        (stream_answer stream method selectors view headed (answer_of method view) conn.old) }
{
    framed_message(alloc, conn, stream, headed, message)?;
    Ok(Some(Stage::Ready {
        kind: CallKind::Stream(method),
        selectors,
        seen: Some(view),
        headed: true,
    }))
}

/// A streaming call of the Workload API is answered on a view. A message that was made for an equal caller is not made again.
#[tactic(auto, using(crate::proofs::KeptViews::message_on_view, crate::proofs::KeptViews::message_of_view))]
fn answer_stream(
    alloc: Global,
    conn: &mut CountedConn,
    views: &mut SharedViews,
    stream: u32,
    method: Method3,
    selectors: Selectors,
    headed: bool,
    view: Shared<View>,
) -> Result<Option<Stage>, Memory>
    requires { SeesIn views.old selectors view }
    ensures gives { Gives result stream conn.new
        (stream_answer stream method selectors view headed (answer_of method view) conn.old) }
    ensures stays { views.new ≡ views.old }
{
    if let Some(message) = views.message_for(method, &selectors)? {
        return answer_message(
            alloc, conn, stream, method, selectors, headed, view, message,
        );
    }
    match framed_answer(alloc, method, view.part())? {
        Answer::Denied => {
            refuse(alloc, conn, stream, headed, Refusal::NoIdentity)?;
            Ok(None)
        }
        Answer::TooLong(_) => {
            refuse(alloc, conn, stream, headed, Refusal::LongResponse)?;
            Ok(None)
        }
        Answer::Wait => {
            conn.inner.withdraw(stream);
            Ok(Some(Stage::Ready {
                kind: CallKind::Stream(method),
                selectors,
                seen: Some(view),
                headed,
            }))
        }
        Answer::Message(message) => {
            let message = views.keep_message(method, &selectors, message)?;
            answer_message(
                alloc, conn, stream, method, selectors, headed, view, message,
            )
        }
    }
}

/// A FetchJWTSVID call asks for its tokens, or is refused where it is entitled to none.
fn answer_tokens(
    alloc: Global,
    conn: &mut CountedConn,
    stream: u32,
    audience: Row<Octets>,
    wanted: Row<Wanted>,
    headed: bool,
) -> Result<Option<Stage>, Memory>
    ensures { Gives result stream conn.new (token_answer stream headed audience wanted conn.old) }
{
    let mut rest = Queue::from_row(wanted);
    match rest.pop() {
        None => {
            refuse(alloc, conn, stream, headed, Refusal::NoIdentity)?;
            Ok(None)
        }
        Some(Wanted { ask, hint }) => Ok(Some(Stage::Asking {
            first: JwtAsk {
                stream,
                ask,
                audience,
                hint,
            },
            rest,
            got: Row::empty(alloc),
        })),
    }
}

/// The state of a service for a caller with this view.
fn health(service: &[u8], view: &View) -> u32
    ensures value { result ≡ health_of service.now view.now }
    ensures least { SERVING ≤ result }
    ensures most { result ≤ SERVICE_UNKNOWN }
{
    state(service, view.is_empty(), view.is_whole())
}

/// A Check is answered by the state of its service.
fn answer_check(
    alloc: Global,
    conn: &mut CountedConn,
    stream: u32,
    headed: bool,
    state: u32,
) -> Result<Option<Stage>, Memory>
    requires least { SERVING ≤ state }
    requires most { state ≤ SERVICE_UNKNOWN }
    ensures { Gives result stream conn.new (check_answer stream headed state conn.old) }
{
    if state == SERVICE_UNKNOWN {
        refuse(alloc, conn, stream, headed, Refusal::UnknownService)?;
    } else {
        let message = encode_health(alloc, state)?;
        last_message(alloc, conn, stream, headed, message.as_slice())?;
    }
    Ok(None)
}

/// A Watch is answered by the state of its service, and goes on.
fn answer_watch(
    alloc: Global,
    conn: &mut CountedConn,
    stream: u32,
    service: Octets,
    selectors: Selectors,
    headed: bool,
    view: Shared<View>,
) -> Result<Option<Stage>, Memory>
    ensures { Gives result stream conn.new (watch_answer stream service selectors view headed conn.old) }
{
    let state = encode_health(alloc, health(service.as_slice(), view.part()))?;
    message(alloc, conn, stream, headed, state.as_slice())?;
    Ok(Some(Stage::Ready {
        kind: CallKind::Watch { service },
        selectors,
        seen: Some(view),
        headed: true,
    }))
}

/// A ready call is answered on a view.
#[tactic(auto, unfolding(crate::specs::Answering::call_answer))]
fn answer_call(
    alloc: Global,
    conn: &mut CountedConn,
    views: &mut SharedViews,
    stream: u32,
    kind: CallKind,
    selectors: Selectors,
    headed: bool,
    view: Shared<View>,
) -> Result<Option<Stage>, Memory>
    requires { SeesIn views.old selectors view }
    ensures gives { Gives result stream conn.new (call_answer stream kind selectors headed view conn.old) }
    ensures stays { views.new ≡ views.old }
{
    match kind {
        CallKind::Stream(method) => {
            answer_stream(alloc, conn, views, stream, method, selectors, headed, view)
        }
        CallKind::Tokens { audience, id } => {
            let wanted = jwt_asks(alloc, view.part(), id.as_ref())?;
            answer_tokens(alloc, conn, stream, audience, wanted, headed)
        }
        CallKind::Check { service } => {
            let state = health(service.as_slice(), view.part());
            answer_check(alloc, conn, stream, headed, state)
        }
        CallKind::Watch { service } => {
            answer_watch(alloc, conn, stream, service, selectors, headed, view)
        }
    }
}

/// A call takes its turn: it is answered where its view is not the one that answered it last.
fn turn_stage(
    alloc: Global,
    conn: &mut CountedConn,
    views: &mut SharedViews,
    stream: u32,
    stage: Stage,
    snapshot: &Snapshot,
    index: Option<&Index>,
) -> Result<Option<Stage>, Memory>
    requires index { IfSome index (λ i. i.now ≡ snapshot.now.entries) }
    requires shown { views.old ≡ Some snapshot.now }
    ensures gives { Gives result stream conn.new (stage_turn snapshot.now stream stage conn.old) }
    ensures stays { views.new ≡ views.old }
{
    match stage {
        Stage::Ready {
            kind,
            selectors,
            seen,
            headed,
        } => {
            let view = views.view_for(snapshot, index, &selectors)?;
            if was_seen(&seen, view.part()) {
                return Ok(Some(Stage::Ready {
                    kind,
                    selectors,
                    seen,
                    headed,
                }));
            }
            answer_call(alloc, conn, views, stream, kind, selectors, headed, view)
        }
        other => Ok(Some(other)),
    }
}

/// What became of a call stays, if it goes on.
fn add_kept(kept: &mut Row<ServedCall>, stream: u32, stage: Option<Stage>) -> Result<(), Memory>
    ensures { OnOk result (kept.new ≡ kept.old ++ kept_of stream stage) }
{
    if let Some(stage) = stage {
        kept.push(ServedCall { stream, stage })?;
    }
    Ok(())
}

/// Each ready call takes its turn, by ascending stream. Those that go on are left.
pub fn turn_all(
    alloc: Global,
    conn: &mut CountedConn,
    served: Row<ServedCall>,
    views: &mut SharedViews,
    snapshot: &Snapshot,
    index: Option<&Index>,
) -> Result<Row<ServedCall>, Memory>
    requires index { IfSome index (λ i. i.now ≡ snapshot.now.entries) }
    requires shares { MayShare snapshot.now views.old }
    ensures turned { IfOk result
        (λ kept. calls_turn snapshot.now served conn.old ≡ record { phase = conn.new; kept = kept }) }
    ensures shown { views.new ≡ Some snapshot.now }
{
    views.show(snapshot);
    let mut kept = Row::empty(alloc);
    for call in served.into_vec() {
        let stream = call.stream;
        let stage = turn_stage(alloc, conn, views, stream, call.stage, snapshot, index)?;
        add_kept(&mut kept, stream, stage)?;
    }
    Ok(kept)
}
