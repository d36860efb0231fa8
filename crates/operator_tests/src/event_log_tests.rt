//! Lines of events, as an operator reads them.

use call_counts::{CallMethod, CallStatus};
use event_log::*;
use figures::LateCause;
use spiffe_id::SpiffeId;
use std::alloc::AllocGlobal;
use std::io::ErrorKind;
use std::process::Abort;
use wl_entry::{Ask, JwtUnfit, Unfit};
use wl_octets::{Octets, Row};

/// 2026-11-29T05:10:00Z.
const TIME: u64 = 1_795_929_000;

fn octets(rt: &(impl AllocGlobal + Abort), bytes: &[u8]) -> Octets {
    Octets::from_slice(rt.alloc(), bytes).expect(rt, "memory")
}

/// The line of an event at that time.
fn line_of(rt: &(impl AllocGlobal + Abort), event: &Event<'_>, held: u64) -> Octets {
    let mut out = Octets::empty(rt.alloc());
    let time = TimeText::at(rt.alloc(), TIME).expect(rt, "memory");
    put_line(rt.alloc(), &mut out, &time, event, held).expect(rt, "memory");
    out
}

/// Asserts that the line of an event begins with its time, and goes on so.
fn says(rt: &(impl AllocGlobal + Abort), event: &Event<'_>, held: u64, rest: &[u8]) {
    let line = line_of(rt, event, held);
    let time = b"ts=2026-11-29T05:10:00Z ".as_slice();
    assert_eq!(rt; line.as_slice().get(..24), Some(time));
    assert_eq!(rt; line.as_slice().get(24..), Some(rest));
}

/// Asserts that the line of an event ends so.
fn ends(rt: &(impl AllocGlobal + Abort), event: &Event<'_>, end: &[u8]) {
    assert!(rt; line_of(rt, event, 0).as_slice().ends_with(end), "{end:?}");
}

#[test]
fn paths_and_causes_stand_in_lines(rt: HostRuntime) {
    let name = octets(&rt, b"/run/a\\b.sock");
    let path = PathText::of_configuration(rt.alloc(), &name).expect(&rt, "memory");
    let reason = Reason::of_kind(ErrorKind::PermissionDenied);
    let refused = Event::BindFailed(&path, BindCause::Refused(reason));
    says(
        &rt,
        &refused,
        0,
        b"level=error event=bind_failed path=\"/run/a\\\\b.sock\" cause=refused reason=permission_denied\n",
    );
    ends(
        &rt,
        &Event::BindFailed(&path, BindCause::Taken),
        b" cause=taken\n",
    );
}

/// An ask for an entry with a name that is no plain word.
fn ask(rt: &(impl AllocGlobal + Abort)) -> Ask {
    Ask {
        entry_id: octets(rt, b"e \"1\"\n\xc3"),
        spiffe_id: SpiffeId::parse(rt.alloc(), b"spiffe://a.b/one").expect(rt, "an id"),
        dns_names: Row::empty(rt.alloc()),
        ttl: 60,
    }
}

#[test]
fn ids_are_escaped_and_repeats_are_told(rt: HostRuntime) {
    let ask = ask(&rt);
    says(
        &rt,
        &Event::SigningFailed(&ask, SignCause::NotReached),
        7,
        b"level=warn event=signing_failed entry=\"e \\\"1\\\"\\u000a\\u00c3\" cause=connect repeated=7\n",
    );
    ends(
        &rt,
        &Event::Signed(&ask, TIME),
        b"\\u00c3\" not_after=1795929000\n",
    );
    let other_id = Unfit::OtherId {
        asked: octets(&rt, b"spiffe://a.b/one"),
        named: octets(&rt, b"spiffe://a.b/two"),
    };
    let unfit = SignCause::Unfit(UnfitCause::of_reason(&other_id));
    drop(other_id);
    ends(
        &rt,
        &Event::SigningFailed(&ask, unfit),
        b"\\u00c3\" cause=unfit fault=other_id\n",
    );
    let bad_byte = SignCause::Unfit(UnfitCause::of_token(JwtUnfit::TokenByte(1)));
    let refused = Event::TokenFailed(&ask, bad_byte);
    ends(&rt, &refused, b"\\u00c3\" cause=unfit fault=token_byte\n");
    drop(ask);
}

#[test]
fn waiting_callers_are_named_by_socket_and_entry(rt: HostRuntime) {
    let ask = ask(&rt);
    let waits = Event::CallerWaits(3, &ask);
    ends(
        &rt,
        &waits,
        b"level=warn event=caller_waits socket=3 entry=\"e \\\"1\\\"\\u000a\\u00c3\"\n",
    );
    drop(waits);
    drop(ask);
}

#[test]
fn connections_are_named_by_their_socket(rt: HostRuntime) {
    let broken = Event::ConnectionBroken(0, ErrorCode::of_number(11));
    ends(
        &rt,
        &broken,
        b"level=warn event=connection_broken socket=0 code=ENHANCE_YOUR_CALM\n",
    );
    let unnamed = Event::ConnectionBroken(0, ErrorCode::of_number(14));
    ends(&rt, &unnamed, b" code=unnamed\n");
    let late = Event::LinkLate(2, LateCause::Silent);
    ends(
        &rt,
        &late,
        b"level=warn event=link_late socket=2 cause=silent\n",
    );
    ends(&rt, &Event::NoThread, b"level=error event=no_thread\n");
}

#[test]
fn refused_callers_are_named_by_socket_and_user(rt: HostRuntime) {
    ends(
        &rt,
        &Event::AttestationFailed(2),
        b"level=warn event=attestation_failed socket=2\n",
    );
    says(
        &rt,
        &Event::ConnectionsOfUidFull(0, 1_000),
        9,
        b"level=warn event=connections_of_uid_full socket=0 uid=1000 repeated=9\n",
    );
}

#[test]
fn calls_are_named_by_method_and_status(rt: HostRuntime) {
    let call = EndedCall {
        socket: 0,
        uid: None,
        method: CallMethod::FetchX509Svid,
        status: CallStatus::Ok,
    };
    let answered = Event::Call(call);
    says(
        &rt,
        &answered,
        0,
        b"level=debug event=call socket=0 method=FetchX509SVID status=OK\n",
    );
    let gone = Event::Call(EndedCall {
        uid: Some(1_000),
        status: CallStatus::Cancelled,
        ..call
    });
    ends(
        &rt,
        &gone,
        b" socket=0 method=FetchX509SVID status=CANCELLED uid=1000\n",
    );
}

#[test]
fn documents_are_named_by_their_publication(rt: HostRuntime) {
    let counts = DocumentCounts {
        entries: 7,
        bundles: 2,
        changed: 1,
        removed: 0,
    };
    let taken = Event::DocumentTaken(3, counts);
    says(
        &rt,
        &taken,
        0,
        b"level=info event=document_taken publication=3 entries=7 bundles=2 changed=1 removed=0\n",
    );
}

#[test]
fn sockets_that_are_bound_anew_are_named_by_their_path(rt: HostRuntime) {
    let name = octets(&rt, b"/run/a.sock");
    let path = PathText::of_configuration(rt.alloc(), &name).expect(&rt, "memory");
    ends(
        &rt,
        &Event::SocketBoundAnew(&path),
        b"level=warn event=socket_bound_anew path=\"/run/a.sock\"\n",
    );
}

#[test]
fn later_configurations_are_told(rt: HostRuntime) {
    let changes = SocketChanges {
        added: 2,
        removed: 1,
    };
    ends(
        &rt,
        &Event::ConfigurationTaken(changes),
        b"level=info event=configuration_taken added=2 removed=1\n",
    );
    let read = FaultLine::read(rt.alloc(), b"fault config 2");
    let fault = read.expect(&rt, "memory").expect(&rt, "a fault line");
    let refused = Event::LaterConfigurationRefused(&fault);
    ends(
        &rt,
        &refused,
        b"level=warn event=configuration_refused fault=\"fault config 2\" text=\"version: is not 1\"\n",
    );
    let first = Event::ConfigurationRefused(&fault);
    ends(
        &rt,
        &first,
        b"level=error event=configuration_refused fault=\"fault config 2\" text=\"version: is not 1\"\n",
    );
    for (member, line) in [
        (
            RestartMember::Threads,
            b"level=warn event=restart_wanted member=\"threads\"\n".as_slice(),
        ),
        (RestartMember::MemoryMib, b" member=\"memory_mib\"\n"),
    ] {
        ends(&rt, &Event::RestartWanted(member), line);
    }
}

#[test]
fn sockets_that_come_and_go_are_named_by_number_and_path(rt: HostRuntime) {
    let name = octets(&rt, b"/run/a.sock");
    let path = PathText::of_configuration(rt.alloc(), &name).expect(&rt, "memory");
    ends(
        &rt,
        &Event::SocketAdded(7, &path),
        b"level=info event=socket_added socket=7 path=\"/run/a.sock\"\n",
    );
    ends(
        &rt,
        &Event::SocketRemoved(2, &path),
        b"level=info event=socket_removed socket=2 path=\"/run/a.sock\"\n",
    );
    ends(
        &rt,
        &Event::SocketOpenToAll(3, &path),
        b"level=warn event=socket_open_to_all socket=3 path=\"/run/a.sock\"\n",
    );
}

#[test]
fn faults_have_their_sentence(rt: HostRuntime) {
    let read = FaultLine::read(rt.alloc(), b"fault document 5 2 0 2 0 4 9");
    let fault = read.expect(&rt, "memory").expect(&rt, "a fault line");
    says(
        &rt,
        &Event::FirstDocumentRefused(&fault),
        0,
        b"level=error event=first_document_refused fault=\"fault document 5 2 0 2 0 4 9\" text=\"entries[0].spiffe_id: byte 9 may not stand in a trust domain name\"\n",
    );
    let other = FaultLine::read(rt.alloc(), b"-----BEGIN");
    assert!(rt; other.expect(&rt, "memory").is_none());
}

#[test]
fn what_stands_still_is_said_once_a_minute(rt: HostRuntime) {
    let mut slot = Slot::empty();
    assert_eq!(rt; slot.admit(TIME), Some(0));
    assert_eq!(rt; slot.admit(TIME + 1), None);
    assert_eq!(rt; slot.admit(TIME + 59), None);
    assert!(rt; !slot.is_due(TIME + 59) && slot.is_due(TIME + MINUTE));
    assert_eq!(rt; slot.admit(TIME + MINUTE), Some(2));
}
