//! A page of figures, as Prometheus reads it.

use call_counts::{CallCounts, CallMethod, CallStatus};
use figures::*;
use std::alloc::AllocGlobal;
use std::process::Abort;
use wl_octets::{Octets, Row};

/// What is counted below.
const PAGE: &[u8] = b"# HELP agentd_documents_total Pulls of the document, by result.
# TYPE agentd_documents_total counter
agentd_documents_total{result=\"taken\"} 1
agentd_documents_total{result=\"refused\"} 0
agentd_documents_total{result=\"failed\"} 1
# HELP agentd_document_age_seconds Seconds since a document that was taken came last.
# TYPE agentd_document_age_seconds gauge
agentd_document_age_seconds 4
# HELP agentd_publication Number of the last publication.
# TYPE agentd_publication gauge
agentd_publication 12
# HELP agentd_entries Entries of the document in use.
# TYPE agentd_entries gauge
agentd_entries 7
# HELP agentd_bundles Bundles of the document in use.
# TYPE agentd_bundles gauge
agentd_bundles 2
# HELP agentd_identities Entries of the document in use, by the state of their identity.
# TYPE agentd_identities gauge
agentd_identities{state=\"kept\"} 3
agentd_identities{state=\"due\"} 2
agentd_identities{state=\"in_flight\"} 1
agentd_identities{state=\"missing\"} 4
# HELP agentd_next_end_seconds Seconds until the next identity ends.
# TYPE agentd_next_end_seconds gauge
agentd_next_end_seconds 300
# HELP agentd_signings_total Asks of the signer, by kind and result.
# TYPE agentd_signings_total counter
agentd_signings_total{kind=\"x509\",result=\"signed\"} 1
agentd_signings_total{kind=\"x509\",result=\"failed\"} 0
agentd_signings_total{kind=\"jwt\",result=\"signed\"} 0
agentd_signings_total{kind=\"jwt\",result=\"failed\"} 1
# HELP agentd_signing_seconds Seconds that asks of the signer took.
# TYPE agentd_signing_seconds histogram
agentd_signing_seconds_bucket{le=\"0.01\"} 0
agentd_signing_seconds_bucket{le=\"0.1\"} 1
agentd_signing_seconds_bucket{le=\"1\"} 1
agentd_signing_seconds_bucket{le=\"5\"} 1
agentd_signing_seconds_bucket{le=\"10\"} 1
agentd_signing_seconds_bucket{le=\"+Inf\"} 2
agentd_signing_seconds_sum 10.045
agentd_signing_seconds_count 2
# HELP agentd_connections Open connections, by socket.
# TYPE agentd_connections gauge
agentd_connections{socket=\"/run/a\\\"b\"} 1
agentd_connections{socket=\"/run/c\"} 0
# HELP agentd_connections_total Accepted connections, by socket.
# TYPE agentd_connections_total counter
agentd_connections_total{socket=\"/run/a\\\"b\"} 2
agentd_connections_total{socket=\"/run/c\"} 0
# HELP agentd_streams Calls that have not ended, by socket.
# TYPE agentd_streams gauge
agentd_streams{socket=\"/run/a\\\"b\"} 1
agentd_streams{socket=\"/run/c\"} 0
# HELP agentd_calls_total Calls that ended, by socket, method and status.
# TYPE agentd_calls_total counter
agentd_calls_total{socket=\"/run/a\\\"b\",method=\"FetchX509SVID\",status=\"CANCELLED\"} 1
agentd_calls_total{socket=\"/run/a\\\"b\",method=\"FetchX509SVID\",status=\"PERMISSION_DENIED\"} 2
agentd_calls_total{socket=\"/run/c\",method=\"Check\",status=\"OK\"} 1
agentd_calls_total{socket=\"/run/c\",method=\"unread\",status=\"HTTP\"} 1
# HELP agentd_messages_total Messages that answered calls, by socket and method.
# TYPE agentd_messages_total counter
agentd_messages_total{socket=\"/run/a\\\"b\",method=\"FetchX509SVID\"} 3
agentd_messages_total{socket=\"/run/c\",method=\"Check\"} 1
# HELP agentd_connection_faults_total Connections that failed, by cause.
# TYPE agentd_connection_faults_total counter
agentd_connection_faults_total{cause=\"receive_failed\"} 1
agentd_connection_faults_total{cause=\"send_failed\"} 0
agentd_connection_faults_total{cause=\"protocol\"} 2
agentd_connection_faults_total{cause=\"stalled\"} 1
agentd_connection_faults_total{cause=\"silent\"} 1
agentd_connection_faults_total{cause=\"unattested\"} 1
agentd_connection_faults_total{cause=\"uid_full\"} 0
# HELP agentd_bytes_total Bytes of connections, by direction.
# TYPE agentd_bytes_total counter
agentd_bytes_total{direction=\"received\"} 70
agentd_bytes_total{direction=\"sent\"} 900
# HELP agentd_log_lines_dropped_total Lines of the log that could not be written at once.
# TYPE agentd_log_lines_dropped_total counter
agentd_log_lines_dropped_total 5
# HELP process_start_time_seconds Start time of the process since the Unix epoch in seconds.
# TYPE process_start_time_seconds gauge
process_start_time_seconds 1795929000
";

fn octets(rt: &(impl AllocGlobal + Abort), bytes: &[u8]) -> Octets {
    Octets::from_slice(rt.alloc(), bytes).expect(rt, "memory")
}

/// Adds a socket at this path.
fn add(rt: &(impl AllocGlobal + Abort), counters: &Counters, path: &[u8]) -> u32 {
    let path = octets(rt, path);
    counters.add_socket(rt.alloc(), &path).expect(rt, "memory")
}

/// Counts some connections that failed.
fn count_failures(counters: &Counters) {
    for cause in [
        FaultCause::Failed(LinkCause::ReceiveFailed),
        FaultCause::Protocol,
        FaultCause::Late(LateCause::Stalled),
        FaultCause::Late(LateCause::Silent),
        FaultCause::Refused(RefusedCause::Unattested),
        FaultCause::Protocol,
    ] {
        counters.count_fault(cause);
    }
}

/// Counts of so many calls of this method that began, of messages for them, and of ends with this status.
fn calls(
    method: CallMethod,
    begun: u32,
    messages: u32,
    status: CallStatus,
    ended: u32,
) -> CallCounts {
    let mut counts = CallCounts::zero();
    for _ in 0..begun {
        counts.count_begin(method);
    }
    for _ in 0..messages {
        counts.count_message(method);
    }
    for _ in 0..ended {
        counts.count_end(method, status);
    }
    counts
}

/// Counts some calls of two sockets, and of one that isn't there.
fn count_calls(counters: &Counters) {
    let (svid, check, unread) = (
        CallMethod::FetchX509Svid,
        CallMethod::Check,
        CallMethod::Unread,
    );
    for (socket, counts) in [
        (0, calls(svid, 3, 3, CallStatus::PermissionDenied, 2)),
        (0, calls(svid, 1, 0, CallStatus::Cancelled, 1)),
        (1, calls(check, 1, 1, CallStatus::Ok, 1)),
        (1, calls(unread, 1, 0, CallStatus::Http, 1)),
        (1, CallCounts::zero()),
        (2, calls(check, 1, 1, CallStatus::Ok, 1)),
    ] {
        counters.count_calls(socket, &counts);
    }
}

#[test]
fn page_has_what_was_counted(rt: HostRuntime) {
    let alloc = rt.alloc();
    let counters = Counters::start(alloc);
    assert_eq!(rt; add(&rt, &counters, b"/run/a\"b"), 0);
    assert_eq!(rt; add(&rt, &counters, b"/run/c"), 1);
    counters.count_document(DocumentResult::Failed);
    counters.count_document(DocumentResult::Taken);
    counters.note_came(1_000);
    counters.note_document(7, 2);
    counters.count_signing(SigningKind::X509, SigningResult::Signed, 44);
    counters.count_signing(SigningKind::Jwt, SigningResult::Failed, 10_001);
    counters.count_opened(0);
    counters.count_opened(0);
    counters.count_closed(0);
    counters.count_opened(9);
    count_calls(&counters);
    counters.note_publication(12);
    counters.note_publication(11);
    count_failures(&counters);
    counters.count_bytes(Direction::Received, 70);
    counters.count_bytes(Direction::Sent, 900);
    let identities = Identities {
        kept: 3,
        due: 2,
        in_flight: 1,
        missing: 4,
        next_end: Some(300),
    };
    let figures = counters.figures(alloc, 5_999, 1_795_929_000, 5, identities);
    let figures = figures.expect(&rt, "memory");
    let text = metrics_text(alloc, &figures).expect(&rt, "memory");
    assert_eq!(rt; text.as_slice(), PAGE);
    drop(figures);
}

/// The entry `we\nb` alone, which lacks its identity.
fn lacking(rt: &(impl AllocGlobal + Abort)) -> Row<Lacking> {
    let id = octets(rt, b"we\nb");
    let entry = EntryId::of_entry(rt.alloc(), &id).expect(rt, "memory");
    let lacking = Lacking { entry, seconds: 75 };
    Row::from_vec(vec![in rt.alloc(); lacking].expect(rt, "memory"))
}

/// Asserts what a page says of this health.
fn says(rt: &(impl AllocGlobal + Abort), health: &Health, text: &[u8]) {
    let said = ready_text(rt.alloc(), health).expect(rt, "memory");
    assert_eq!(rt; said.as_slice(), text);
}

#[test]
fn health_is_written_in_lines(rt: HostRuntime) {
    let mut health = Health {
        is_live: true,
        has_document: false,
        lacking: lacking(&rt),
    };
    says(&rt, &health, b"no document was taken\n");
    health.has_document = true;
    says(
        &rt,
        &health,
        b"entry \"we\\nb\" has had no identity for 75 s\n",
    );
    assert!(rt; !health.is_ready());
    health.lacking = Row::empty(rt.alloc());
    says(&rt, &health, b"ready\n");
    assert_eq!(rt; live_text(health.is_live), b"live\n".as_slice());
    drop(health);
}

/// The figures of no sockets, and before the first document.
#[test]
fn figures_begin_with_nothing(rt: HostRuntime) {
    let alloc = rt.alloc();
    let counters = Counters::start(alloc);
    counters.count_calls(0, &CallCounts::zero());
    let identities = Identities {
        kept: 0,
        due: 0,
        in_flight: 0,
        missing: 0,
        next_end: None,
    };
    let figures = counters.figures(alloc, 0, 0, 0, identities);
    let figures = figures.expect(&rt, "memory");
    assert_eq!(rt; (figures.publication, figures.sockets.len()), (None, 0));
    counters.note_publication(0);
    drop(figures);
    let figures = counters.figures(alloc, 0, 0, 0, identities);
    let figures = figures.expect(&rt, "memory");
    assert_eq!(rt; figures.publication, Some(0));
    drop(figures);
}

/// A socket's line of streams stands always, and its lines of calls and messages only where there are any.
#[test]
fn sockets_without_calls_have_a_line_of_streams(rt: HostRuntime) {
    let alloc = rt.alloc();
    let counters = Counters::start(alloc);
    let socket = octets(&rt, b"/run/c");
    counters.add_socket(alloc, &socket).expect(&rt, "memory");
    let identities = Identities {
        kept: 0,
        due: 0,
        in_flight: 0,
        missing: 0,
        next_end: None,
    };
    let figures = counters.figures(alloc, 0, 0, 0, identities);
    let figures = figures.expect(&rt, "memory");
    let text = metrics_text(alloc, &figures).expect(&rt, "memory");
    let text = str::from_utf8(text.as_slice()).expect(&rt, "text");
    assert!(rt; text.contains("\nagentd_streams{socket=\"/run/c\"} 0\n"));
    assert!(rt;
        text.contains("\n# TYPE agentd_calls_total counter\n# HELP agentd_messages_total ")
    );
    assert!(rt;
        text.contains(
            "\n# TYPE agentd_messages_total counter\n# HELP agentd_connection_faults_total "
        )
    );
    drop(figures);
}

/// The lines of the page of these counters that begin so.
fn lines_of(rt: &(impl AllocGlobal + Abort), counters: &Counters, begin: &str) -> String {
    let identities = Identities {
        kept: 0,
        due: 0,
        in_flight: 0,
        missing: 0,
        next_end: None,
    };
    let figures = counters.figures(rt.alloc(), 0, 0, 0, identities);
    let figures = figures.expect(rt, "memory");
    let text = metrics_text(rt.alloc(), &figures).expect(rt, "memory");
    drop(figures);
    let page = str::from_utf8(text.as_slice()).expect(rt, "text");
    let mut found = String::new(rt.alloc());
    for line in page.lines().filter(|line| line.starts_with(begin)) {
        found.push_str(line).expect(rt, "memory");
        found.push_str(";").expect(rt, "memory");
    }
    found
}

/// A socket that is given up stands on the page until its last connection is over, and its number is not used again.
#[test]
fn sockets_come_and_go(rt: HostRuntime) {
    let counters = Counters::start(rt.alloc());
    for path in [b"/a", b"/b", b"/c"] {
        add(&rt, &counters, path);
    }
    counters.count_opened(1);
    for socket in [0, 1, 9] {
        counters.remove_socket(socket);
    }
    assert_eq!(rt;
        lines_of(&rt, &counters, "agentd_connections{").as_str(),
        "agentd_connections{socket=\"/b\"} 1;agentd_connections{socket=\"/c\"} 0;"
    );
    counters.count_closed(1);
    counters.count_opened(1);
    counters.count_opened(0);
    assert_eq!(rt; add(&rt, &counters, b"/a"), 3);
    counters.count_opened(3);
    assert_eq!(rt;
        lines_of(&rt, &counters, "agentd_connections{").as_str(),
        "agentd_connections{socket=\"/c\"} 0;agentd_connections{socket=\"/a\"} 1;"
    );
}

/// Sockets of one path, of which the first two are given up, have one line.
#[test]
fn sockets_of_one_path_are_summed(rt: HostRuntime) {
    let counters = Counters::start(rt.alloc());
    for path in [b"/a", b"/b", b"/a", b"/a"] {
        add(&rt, &counters, path);
    }
    let check = CallMethod::Check;
    for socket in [0, 2, 3] {
        counters.count_opened(socket);
        counters.count_opened(socket);
        counters.count_calls(socket, &calls(check, 2, 1, CallStatus::Ok, 1));
    }
    counters.count_closed(0);
    counters.remove_socket(0);
    counters.remove_socket(2);
    for (begin, expected) in [
        (
            "agentd_connections{",
            "agentd_connections{socket=\"/a\"} 5;agentd_connections{socket=\"/b\"} 0;",
        ),
        (
            "agentd_connections_total{",
            "agentd_connections_total{socket=\"/a\"} 6;agentd_connections_total{socket=\"/b\"} 0;",
        ),
        (
            "agentd_streams{",
            "agentd_streams{socket=\"/a\"} 3;agentd_streams{socket=\"/b\"} 0;",
        ),
        (
            "agentd_calls_total{",
            "agentd_calls_total{socket=\"/a\",method=\"Check\",status=\"OK\"} 3;",
        ),
        (
            "agentd_messages_total{",
            "agentd_messages_total{socket=\"/a\",method=\"Check\"} 3;",
        ),
    ] {
        assert_eq!(rt; lines_of(&rt, &counters, begin).as_str(), expected);
    }
}
