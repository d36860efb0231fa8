//! Whole talks by their bytes: calls that are refused, answered, answered anew and ended.

mod broken;
mod callers;
mod cases;
mod frames;
mod publications;
mod sequences;

ghost use Rattle.std.specs.Prelude.{◌≡◌, ◌<◌, None};
ghost use Rattle.wl_snapshot.specs.Snapshots.{Publication};
ghost use Rattle.wl_session.specs.Sessions.{unnamed_in};
ghost use Rattle.wl_session.specs.Settled.{MayTurn};
ghost use Rattle.wl_session.specs.Sharing.{MayShare, SharesOf};

use broken::{Broken, FAULTS, LONGEST};
use callers::{Caller, attested};
use cases::{ANSWERS, ASKED, Case, FIRST_RESPONSE, HEADS, HEALTH, REQUESTS};
use frames::{GOAWAY, OPENING};
use output_parts::Output;
use publications::{State, following, publication};
use sequences::{CALLS, Outcome, PUBLICATIONS, Round, Sequence, TOKENS, WINDOWS};
use std::alloc::{AllocGlobal, Global};
use std::process::Abort;
use wl_entry::JwtToken;
use wl_match::Index;
use wl_octets::Octets;
use wl_session::{JwtOutcome, Session, SessionFault, SharedViews};
use wl_snapshot::Snapshot;

/// Parts, each so many times.
fn repeated(rt: &impl Abort, alloc: Global, parts: &[(&[u8], u32)]) -> Octets {
    let mut all = Octets::empty(alloc);
    for (part, times) in parts {
        for _ in 0..*times {
            all.push_slice(part).expect(rt, "memory");
        }
    }
    all
}

fn joined(rt: &impl Abort, alloc: Global, parts: &[&[u8]]) -> Octets {
    let mut all = Octets::empty(alloc);
    for part in parts {
        all.push_slice(part).expect(rt, "memory");
    }
    all
}

/// Whether these bytes are the parts, one after the other.
fn are_parts(bytes: &[u8], parts: &[&[u8]]) -> bool {
    let mut rest = bytes;
    for part in parts {
        match rest.strip_prefix(*part) {
            Some(next) => rest = next,
            None => return false,
        }
    }
    rest.is_empty()
}

/// Whether what was written is the parts, one after the other.
fn are_written(out: &Output, parts: &[&[u8]]) -> bool {
    match out.as_plain() {
        Some(bytes) => are_parts(bytes, parts),
        None => false,
    }
}

/// A session on which no turn was taken.
#[tactic(auto, using(wl_session::proofs::TurnPublications::fresh_follows))]
fn fresh(rt: &impl Abort, alloc: Global) -> Session
    ensures { (x : Publication) → MayTurn x result }
{
    Session::start(alloc).expect(rt, "memory")
}

/// The call that is not named, if there is one, takes its name. There is no other.
#[tactic(auto, using(wl_session::proofs::TurnPublications::names_follow))]
fn name(rt: &impl Abort, alloc: Global, session: &mut Session, caller: Caller, out: &mut Output)
    ensures keeps { (x : Publication) → MayTurn x session.old → MayTurn x session.new }
    ensures named { unnamed_in session.new ≡ None }
{
    if session.unnamed().is_none() {
        return;
    }
    let selectors = attested(rt, alloc, caller);
    session.name(selectors, out).expect(rt, "a name");
    assert!(rt; session.unnamed().is_none());
}

/// Bytes that come one at a time.
#[tactic(auto, using(wl_session::proofs::TurnPublications::feeds_follow))]
fn hear_singly(rt: &impl Abort, session: &mut Session, bytes: &[u8], out: &mut Output)
    ensures keeps { (x : Publication) → MayTurn x session.old → MayTurn x session.new }
{
    for byte in bytes {
        session.feed(&[*byte], out).expect(rt, "no fault");
    }
}

/// How bytes come.
#[derive(Clone, Copy)]
enum Pieces {
    Whole,
    Single,
}

/// Bytes come.
#[tactic(auto, using(wl_session::proofs::TurnPublications::feeds_follow))]
fn hear(rt: &impl Abort, session: &mut Session, bytes: &[u8], pieces: Pieces, out: &mut Output)
    ensures keeps { (x : Publication) → MayTurn x session.old → MayTurn x session.new }
{
    if matches!(pieces, Pieces::Single) {
        hear_singly(rt, session, bytes, out);
        return;
    }
    session.feed(bytes, out).expect(rt, "no fault");
}

/// Bytes, and then a name for the call that they make ready.
fn feed(
    rt: &impl Abort,
    alloc: Global,
    session: &mut Session,
    caller: Caller,
    parts: &[&[u8]],
    pieces: Pieces,
    out: &mut Output,
)
    ensures keeps { (x : Publication) → MayTurn x session.old → MayTurn x session.new }
    ensures named { unnamed_in session.new ≡ None }
{
    let bytes = joined(rt, alloc, parts);
    hear(rt, session, bytes.as_slice(), pieces, out);
    name(rt, alloc, session, caller, out);
}

/// A session of which the bytes of a case came, and which wrote what is due.
fn fed(rt: &impl Abort, alloc: Global, case: &Case, pieces: Pieces) -> Session
    ensures may { (x : Publication) → MayTurn x result }
    ensures named { unnamed_in result ≡ None }
{
    let mut session = fresh(rt, alloc);
    let mut out = Output::empty(alloc);
    feed(
        rt,
        alloc,
        &mut session,
        case.caller,
        case.fed,
        pieces,
        &mut out,
    );
    assert!(rt; are_written(&out, case.wrote), "{}", case.name);
    session
}

/// Asserts that each of two turns writes what is due: this, and then nothing.
#[tactic(auto, using(wl_session::proofs::TurnPublications::turns_again))]
fn take_turns(rt: &impl Abort, alloc: Global, snapshot: &Snapshot, case: &Case, pieces: Pieces) {
    let mut session = fed(rt, alloc, case, pieces);
    let mut out = Output::empty(alloc);
    session.turn(snapshot, &mut out).expect(rt, "a turn");
    assert!(rt; are_written(&out, case.answered), "{}", case.name);
    assert!(rt; session.unnamed().is_none());
    session.turn(snapshot, &mut out).expect(rt, "a turn");
    assert!(rt; are_written(&out, case.answered), "{}, again", case.name);
}

/// Asserts that a turn by the index of the entries writes what is due, and one on the same views nothing.
#[tactic(auto, using(wl_session::proofs::TurnPublications::turns_again, wl_session::proofs::ViewFacts::turns_shown))]
fn take_turns_by_index(rt: &impl Abort, alloc: Global, snapshot: &Snapshot, case: &Case) {
    let mut session = fed(rt, alloc, case, Pieces::Whole);
    let index = Index::build(alloc, snapshot.entries.part().as_slice()).expect(rt, "memory");
    let mut out = Output::empty(alloc);
    session
        .turn_by(snapshot, &index, &mut out)
        .expect(rt, "a turn");
    assert!(rt;
        are_written(&out, case.answered),
        "{}, by the index",
        case.name
    );
    assert!(rt; session.unnamed().is_none());
    session
        .turn_unchanged(snapshot, &index, &mut out)
        .expect(rt, "a turn");
    assert!(rt;
        are_written(&out, case.answered),
        "{}, by the index again",
        case.name
    );
}

/// What a turn with these views writes.
fn write_with(
    rt: &impl Abort,
    alloc: Global,
    views: &mut SharedViews,
    snapshot: &Snapshot,
    case: &Case,
) -> Output
    requires { MayShare snapshot.now views.old }
    ensures { SharesOf snapshot.now views.old views.new }
{
    let mut session = fed(rt, alloc, case, Pieces::Whole);
    let index = Index::build(alloc, snapshot.entries.part().as_slice()).expect(rt, "memory");
    let mut out = Output::empty(alloc);
    session
        .turn_with(views, snapshot, &index, &mut out)
        .expect(rt, "a turn");
    out
}

/// Asserts that a turn writes what is due, also with the views of another publication, and with views that a turn before it
/// shared.
#[tactic(auto, using(wl_session::proofs::KeptViews::none_may_share, wl_session::proofs::KeptViews::others_may_share))]
fn take_turns_sharing(
    rt: &impl Abort,
    alloc: Global,
    first: &Snapshot,
    other: &Snapshot,
    case: &Case,
)
    requires { first.now.number < other.now.number }
{
    let mut views = SharedViews::new(alloc);
    drop(write_with(rt, alloc, &mut views, other, case));
    let out = write_with(rt, alloc, &mut views, first, case);
    assert!(rt;
        are_written(&out, case.answered),
        "{}, of another publication",
        case.name
    );
    let out = write_with(rt, alloc, &mut views, first, case);
    assert!(rt;
        are_written(&out, case.answered),
        "{}, by shared views",
        case.name
    );
}

/// Asserts what each case writes, on the publication of the worked document.
fn talk_all(rt: &impl Abort, alloc: Global, cases: &[Case]) {
    let snapshot = publication(rt, alloc, 1, State::Document);
    for case in cases {
        take_turns(rt, alloc, &snapshot, case, Pieces::Whole);
        take_turns_by_index(rt, alloc, &snapshot, case);
    }
}

#[test]
fn heads_are_refused(rt: HostRuntime) {
    talk_all(&rt, rt.alloc(), &HEADS);
}

#[test]
fn requests_are_refused(rt: HostRuntime) {
    talk_all(&rt, rt.alloc(), &REQUESTS);
}

#[test]
fn calls_are_answered(rt: HostRuntime) {
    talk_all(&rt, rt.alloc(), &ANSWERS);
}

#[test]
fn health_is_told(rt: HostRuntime) {
    talk_all(&rt, rt.alloc(), &HEALTH);
}

/// What connections share is of one publication.
#[test]
fn views_are_shared(rt: HostRuntime) {
    let (rt, alloc) = (&rt, rt.alloc());
    let first = publication(rt, alloc, 1, State::Document);
    let other = publication(rt, alloc, 2, State::Renewed);
    for case in &ANSWERS {
        take_turns_sharing(rt, alloc, &first, &other, case);
    }
}

/// A first response is as due where its request comes byte by byte.
#[test]
fn single_bytes(rt: HostRuntime) {
    let snapshot = publication(&rt, rt.alloc(), 1, State::Document);
    take_turns(&rt, rt.alloc(), &snapshot, &FIRST_RESPONSE, Pieces::Single);
}

#[tactic(auto, using(wl_session::proofs::TurnPublications::turns_later))]
fn turn(rt: &impl Abort, session: &mut Session, snapshot: &Snapshot, out: &mut Output)
    requires follows { MayTurn snapshot.now session.old }
    requires named { unnamed_in session.old ≡ None }
    ensures later { (x : Publication) → snapshot.now.number < x.number → MayTurn x session.new }
{
    session.turn(snapshot, out).expect(rt, "a turn");
}

/// Whether a session asks for a token of the worked document's entry for the audience `x`.
fn asks(session: &Session) -> bool {
    match session.asks() {
        None => false,
        Some(ask) => {
            ask.stream == 1
                && ask.ask.entry_id.as_slice() == b"e1".as_slice()
                && ask.audience.len() == 1
                && ask.hint.len() == 0
        }
    }
}

/// A session of which a call for a token came asks for it after its turn.
#[test]
fn a_token_is_asked_for(rt: HostRuntime) {
    let snapshot = publication(&rt, rt.alloc(), 1, State::Document);
    let mut session = fed(&rt, rt.alloc(), &ASKED, Pieces::Whole);
    turn(&rt, &mut session, &snapshot, &mut Output::empty(rt.alloc()));
    assert!(rt; asks(&session));
}

/// The token `t` from 100 to 200, or that there is none.
fn jwt_outcome(rt: &impl Abort, alloc: Global, outcome: Outcome) -> JwtOutcome {
    match outcome {
        Outcome::Token => JwtOutcome::Token(JwtToken {
            token: Octets::from_slice(alloc, b"t").expect(rt, "memory"),
            issued_at: 100,
            expires_at: 200,
        }),
        Outcome::Failed => JwtOutcome::Failed,
    }
}

/// The ask that waits, if there is one, gets this outcome.
#[tactic(auto, using(wl_session::proofs::TurnPublications::tokens_follow))]
fn give(rt: &impl Abort, alloc: Global, session: &mut Session, outcome: Outcome, out: &mut Output)
    ensures keeps { (x : Publication) → MayTurn x session.old → MayTurn x session.new }
{
    if session.asks().is_none() {
        return;
    }
    let outcome = jwt_outcome(rt, alloc, outcome);
    session.given(outcome, out).expect(rt, "an outcome");
}

/// Takes a round on the publication after the one of this number, and asserts that it writes what is due: the number of
/// its publication.
fn take_round(
    rt: &impl Abort,
    alloc: Global,
    session: &mut Session,
    number: u64,
    name: &'static str,
    round: &Round,
) -> u64
    requires { (x : Publication) → number < x.number → MayTurn x session.old }
    ensures { (x : Publication) → result < x.number → MayTurn x session.new }
{
    let snapshot = following(rt, alloc, number, round.state);
    let mut out = Output::empty(alloc);
    feed(
        rt,
        alloc,
        session,
        round.caller,
        round.fed,
        Pieces::Whole,
        &mut out,
    );
    turn(rt, session, &snapshot, &mut out);
    give(rt, alloc, session, round.outcome, &mut out);
    assert!(rt; are_written(&out, round.wrote), "{name}");
    snapshot.number
}

/// Asserts that each round of a sequence writes what is due.
fn take_rounds(rt: &impl Abort, alloc: Global, case: &Sequence) {
    let mut session = fresh(rt, alloc);
    let number = take_round(rt, alloc, &mut session, 0, case.name, &case.first);
    let number = take_round(rt, alloc, &mut session, number, case.name, &case.second);
    let number = take_round(rt, alloc, &mut session, number, case.name, &case.third);
    take_round(rt, alloc, &mut session, number, case.name, &case.fourth);
}

#[test]
fn publications_are_followed(rt: HostRuntime) {
    for case in &PUBLICATIONS {
        take_rounds(&rt, rt.alloc(), case);
    }
}

#[test]
fn windows_hold_bytes_back(rt: HostRuntime) {
    for case in &WINDOWS {
        take_rounds(&rt, rt.alloc(), case);
    }
}

#[test]
fn second_calls_are_named_alone(rt: HostRuntime) {
    for case in &CALLS {
        take_rounds(&rt, rt.alloc(), case);
    }
}

#[test]
fn tokens_are_handed_on(rt: HostRuntime) {
    for case in &TOKENS {
        take_rounds(&rt, rt.alloc(), case);
    }
}

/// The code of the fault that bytes are, if they are one.
fn code_of(rt: &impl Abort, answer: Result<(), SessionFault>) -> Option<u32> {
    match answer {
        Ok(()) => None,
        Err(SessionFault::Protocol(fault)) => Some(fault.code),
        Err(SessionFault::Memory) => panic!(rt; "memory"),
    }
}

/// Asserts that bytes are answered so twice, and that what is due is written.
fn is_fault(rt: &impl Abort, alloc: Global, case: &Broken) {
    let bytes = repeated(rt, alloc, case.fed);
    let mut session = fresh(rt, alloc);
    let mut out = Output::empty(alloc);
    let first = session.feed(bytes.as_slice(), &mut out);
    let second = session.feed(b"", &mut out);
    assert!(rt;
        first == second && code_of(rt, first) == case.code,
        "{}",
        case.name
    );
    assert!(rt;
        session.unnamed().is_none() && !session.is_done(),
        "{}",
        case.name
    );
    assert!(rt;
        out.as_plain() == Some(repeated(rt, alloc, case.wrote).as_slice()),
        "{}",
        case.name
    );
}

#[test]
fn faults(rt: HostRuntime) {
    for case in &FAULTS {
        is_fault(&rt, rt.alloc(), case);
    }
}

/// A call is ready after the longest message.
#[test]
fn the_longest_message(rt: HostRuntime) {
    let bytes = repeated(&rt, rt.alloc(), LONGEST);
    let mut session = fresh(&rt, rt.alloc());
    let mut out = Output::empty(rt.alloc());
    hear(&rt, &mut session, bytes.as_slice(), Pieces::Whole, &mut out);
    assert!(rt; session.unnamed() == Some(1));
}

/// Asserts whether a session that heard this is done. It counts no message.
fn is_done(rt: &impl Abort, alloc: Global, parts: &[&[u8]], done: bool) {
    let bytes = joined(rt, alloc, parts);
    let mut session = fresh(rt, alloc);
    let mut out = Output::empty(alloc);
    hear(rt, &mut session, bytes.as_slice(), Pieces::Whole, &mut out);
    assert!(rt; session.begun() == 0 && session.is_done() == done);
}

#[test]
fn sessions_end(rt: HostRuntime) {
    is_done(&rt, rt.alloc(), &[OPENING], false);
    is_done(&rt, rt.alloc(), &[OPENING, GOAWAY], true);
}
