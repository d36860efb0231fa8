//! What a tally of calls counts.

use call_counts::*;
use std::alloc::AllocGlobal;
use std::process::Abort;

/// What happens to a connection.
#[derive(Clone, Copy)]
enum Step {
    /// A call of this method begins on this stream.
    Begin(u32, CallMethod),
    /// A message answers the call on this stream.
    Message(u32),
    /// The call on this stream ends with this status.
    End(u32, CallStatus),
    /// The stream is gone.
    Cancel(u32),
    /// The connection is gone.
    CancelAll,
}

/// A method, how many of its calls began, how many messages answered them, a status, and how many ended with it.
type Counted = (CallMethod, u32, u32, CallStatus, u32);

const SVID: CallMethod = CallMethod::FetchX509Svid;

const TOKEN: CallMethod = CallMethod::FetchJwtSvid;

/// Does the steps in order.
fn go(rt: &(impl AllocGlobal + Abort), tally: &mut CallTally, steps: &[Step]) {
    for step in steps {
        match *step {
            Step::Begin(stream, method) => tally.begin(stream, method).expect(rt, "memory"),
            Step::Message(stream) => tally.note_message(stream),
            Step::End(stream, status) => tally.end(stream, status),
            Step::Cancel(stream) => tally.cancel(stream),
            Step::CancelAll => tally.cancel_all(),
        }
    }
}

/// Asserts what was counted of a method.
fn has(rt: &(impl AllocGlobal + Abort), counts: &CallCounts, expected: Counted) {
    let (method, begun, messages, status, ended) = expected;
    let found = counts.of(method);
    assert_eq!(rt;
        (found.begun, found.messages, found.ended(status)),
        (begun, messages, ended),
        "{method:?} {status:?}"
    );
}

/// Asserts of which methods nothing was counted.
fn leaves_others_empty(rt: &(impl AllocGlobal + Abort), counts: &CallCounts, expected: &[Counted]) {
    for method in CallMethod::all() {
        let is_counted = expected.iter().any(|one| one.0 == method);
        assert_eq!(rt; counts.of(method).is_empty(), !is_counted, "{method:?}");
    }
}

/// Asserts what these steps of a connection count.
fn counts(rt: &(impl AllocGlobal + Abort), steps: &[Step], expected: &[Counted]) {
    let mut tally = CallTally::start(rt.alloc());
    go(rt, &mut tally, steps);
    let found = tally.take();
    assert_eq!(rt; found.is_empty(), expected.is_empty());
    leaves_others_empty(rt, &found, expected);
    for one in expected {
        has(rt, &found, *one);
    }
    assert!(rt; tally.take().is_empty());
}

#[test]
fn calls_are_counted_by_method_and_status(rt: HostRuntime) {
    counts(&rt, &[], &[]);
    counts(
        &rt,
        &[Step::Message(1), Step::Cancel(1), Step::CancelAll],
        &[],
    );
    counts(
        &rt,
        &[
            Step::Begin(1, SVID),
            Step::Message(1),
            Step::Message(1),
            Step::Cancel(1),
            Step::Cancel(1),
            Step::Message(1),
        ],
        &[(SVID, 1, 2, CallStatus::Cancelled, 1)],
    );
    counts(
        &rt,
        &[
            Step::Begin(1, TOKEN),
            Step::Begin(3, TOKEN),
            Step::End(3, CallStatus::InvalidArgument),
            Step::Message(1),
            Step::End(1, CallStatus::Ok),
        ],
        &[
            (TOKEN, 2, 1, CallStatus::Ok, 1),
            (TOKEN, 2, 1, CallStatus::InvalidArgument, 1),
        ],
    );
}

#[test]
fn calls_that_were_not_read_are_counted_when_they_end(rt: HostRuntime) {
    counts(
        &rt,
        &[Step::End(5, CallStatus::Http), Step::Cancel(5)],
        &[
            (CallMethod::Unread, 1, 0, CallStatus::Http, 1),
            (CallMethod::Unread, 1, 0, CallStatus::Cancelled, 0),
        ],
    );
}

#[test]
fn calls_end_with_their_connection(rt: HostRuntime) {
    counts(
        &rt,
        &[
            Step::Begin(1, SVID),
            Step::Begin(3, CallMethod::Watch),
            Step::Begin(5, SVID),
            Step::End(5, CallStatus::PermissionDenied),
            Step::CancelAll,
            Step::CancelAll,
        ],
        &[
            (SVID, 2, 0, CallStatus::PermissionDenied, 1),
            (SVID, 2, 0, CallStatus::Cancelled, 1),
            (CallMethod::Watch, 1, 0, CallStatus::Cancelled, 1),
        ],
    );
}

/// A call that goes on is counted once as begun, and what is taken is not there again.
#[test]
fn counts_are_taken_once(rt: HostRuntime) {
    let mut tally = CallTally::start(rt.alloc());
    go(&rt, &mut tally, &[Step::Begin(1, SVID), Step::Message(1)]);
    let first = tally.take();
    has(&rt, &first, (SVID, 1, 1, CallStatus::Cancelled, 0));
    go(&rt, &mut tally, &[Step::Message(1), Step::CancelAll]);
    let second = tally.take();
    has(&rt, &second, (SVID, 0, 1, CallStatus::Cancelled, 1));
    assert!(rt; tally.take().is_empty());
}
