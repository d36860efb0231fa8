//! Calls of each kind, with what may become of them.

use crate::repeating::RepeatingLink;
use crate::samples::{bytes_of, joined, put};
use crate::scenes::*;
use std::alloc::Global;
use std::process::Abort;
use wl_control::{control, status};
use wl_edge::{MemoryLink, Origin};
use wl_octets::{Octets, Row};

const FETCHED: &str = r#"
wlctl fetch x509
hears BEGUN + SVID
exits DONE
svid spiffe://a.b/w chain=01 key=02 bundle=03 hint=
"#;

#[test]
fn client_fetch(rt: HostRuntime) {
    play_all(&rt, rt.alloc(), FETCHED);
}

const DENIED: &str = r#"
wlctl fetch x509
hears REFUSED
exits DENIED
status 7 no identity issued
"#;

#[test]
fn client_denied(rt: HostRuntime) {
    play_all(&rt, rt.alloc(), DENIED);
}

/// Two are asked for, and both come; one comes, and then the end of the stream or of the connection.
const COUNTED: &str = r#"
wlctl watch 2
hears BEGUN + SVID + SVID
exits DONE
svid spiffe://a.b/w chain=01 key=02 bundle=03 hint=
svid spiffe://a.b/w chain=01 key=02 bundle=03 hint=

wlctl watch +1
hears BEGUN + SVID + SVID
exits DONE
svid spiffe://a.b/w chain=01 key=02 bundle=03 hint=

wlctl watch 2
hears BEGUN + SVID + FINE
exits DENIED
svid spiffe://a.b/w chain=01 key=02 bundle=03 hint=
status 0 $

wlctl watch 2
hears BEGUN + SVID
exits CLIENT_FAULT
svid spiffe://a.b/w chain=01 key=02 bundle=03 hint=
fault client 8
"#;

#[test]
fn messages_are_counted(rt: HostRuntime) {
    play_all(&rt, rt.alloc(), COUNTED);
}

const FETCHED_BUNDLES: &str = r#"
wlctl fetch bundles
hears BEGUN + BUNDLES
exits DONE
bundle spiffe://a. bundle=03
bundle spiffe://b. bundle=ab

wlctl fetch bundles
hears BEGUN + FINE
exits DENIED
status 0 $
"#;

#[test]
fn bundles_are_fetched(rt: HostRuntime) {
    play_all(&rt, rt.alloc(), FETCHED_BUNDLES);
}

const TOKENS: &str = r#"
wlctl fetch jwt x
hears BEGUN + TOKEN + FINE
exits DONE
jwt spiffe://a.b/w t hint=

wlctl fetch jwt x
hears BEGUN + TOKEN
exits CLIENT_FAULT
jwt spiffe://a.b/w t hint=
fault client 8

wlctl fetch jwt x
hears BEGUN + FINE
exits DENIED
status 0 $
"#;

#[test]
fn tokens_await_their_status(rt: HostRuntime) {
    play_all(&rt, rt.alloc(), TOKENS);
}

/// What can't be read, in the last, is a second message too.
const SECOND_MESSAGES: &str = r#"
wlctl fetch jwt x
hears BEGUN + TOKEN + TOKEN + FINE
exits CLIENT_FAULT
jwt spiffe://a.b/w t hint=
fault client 14

wlctl health
hears BEGUN + SERVING + NOT_SERVING + FINE
exits CLIENT_FAULT
serving
fault client 14

wlctl health x
hears BEGUN + SERVING + SERVING
exits CLIENT_FAULT
serving
fault client 14

wlctl fetch jwt x
hears BEGUN + TOKEN + SERVING
exits CLIENT_FAULT
jwt spiffe://a.b/w t hint=
fault client 14
"#;

#[test]
fn one_message_comes_before_a_status(rt: HostRuntime) {
    play_all(&rt, rt.alloc(), SECOND_MESSAGES);
}

/// An id with a newline, a backslash and a byte above 126; a token with a newline; a text with a tab and a newline.
const TEXTS: &str = r#"
wlctl fetch x509
hears BEGUN + 000012.00.00.00000001.000000000d0a0b0a09780a'svid \y'
exits DONE
svid x\x0asvid \\y chain= key= bundle= hint=

wlctl fetch x509
hears BEGUN + 00000c.00.00.00000001.00000000070a050a037ec3a9
exits DONE
svid ~\xc3\xa9 chain= key= bundle= hint=

wlctl fetch jwt x
hears BEGUN + 00000f.00.00.00000001.000000000a0a080a017f1203740a00 + FINE
exits DONE
jwt \x7f t\x0a\x00 hint=

wlctl fetch x509
hears 000035.01.05.00000001.880f1010'application/grpc'000b'grpc-status'0137000c'grpc-message'03610a09
exits DENIED
status 7 a\x0a\x09
"#;

#[test]
fn texts_of_a_server_stay_in_their_lines(rt: HostRuntime) {
    play_all(&rt, rt.alloc(), TEXTS);
}

#[test]
fn lines_are_written_before_acknowledgements(rt: HostRuntime) {
    let alloc = rt.alloc();
    // The link takes the opening of the call and not one byte more, as where the server closes right after its answer.
    let gives = gives(&rt, alloc, 0, bytes_of(&rt, alloc, "BEGUN + SVID"));
    let mut link = link_with(&rt, alloc, gives, 10, 160);
    let line = b"svid spiffe://a.b/w chain=01 key=02 bundle=03 hint=\n";
    try_link(
        &rt,
        alloc,
        "fetch x509",
        &mut link,
        status::WRITE_FAILED,
        line,
    );
}

const STATES: &str = r#"
wlctl health
hears BEGUN + SERVING + FINE
exits DONE
serving

wlctl health x
hears BEGUN + UNKNOWN + FINE
exits DONE
service unknown

wlctl health-watch 2
hears BEGUN + SERVING + NOT_SERVING
exits DONE
serving
not serving
"#;

#[test]
fn states_are_told(rt: HostRuntime) {
    play_all(&rt, rt.alloc(), STATES);
}

/// A frame too long, an index of no table, DATA before the head, another `:status`, an end without a status, a flag that
/// is not 0, a message that says nothing, an end too early, RST_STREAM, and GOAWAY with a code.
const FAULTS: &str = r#"
wlctl fetch x509
hears BEGUN + 004001.00.00.00000001
exits CLIENT_FAULT
fault client 1

wlctl fetch x509
hears 000001.01.04.00000001.80
exits CLIENT_FAULT
fault client 2

wlctl fetch x509
hears SVID
exits CLIENT_FAULT
fault client 3

wlctl fetch x509
hears 000005.01.04.00000001.0803343034
exits CLIENT_FAULT
fault client 4

wlctl fetch x509
hears 000001.01.05.00000001.88
exits CLIENT_FAULT
fault client 5

wlctl fetch x509
hears BEGUN + 000005.00.00.00000001.0100000000
exits CLIENT_FAULT
fault client 6

wlctl fetch x509
hears BEGUN + SERVING
exits CLIENT_FAULT
fault client 7

wlctl fetch x509
hears nothing
exits CLIENT_FAULT
fault client 8

wlctl fetch x509
hears BEGUN + 000004.03.00.00000001.00000008
exits CLIENT_FAULT
fault client 11

wlctl fetch x509
hears BEGUN + 000008.07.00.00000000.000000010000000b
exits CLIENT_FAULT
fault client 12
"#;

#[test]
fn faults_are_told(rt: HostRuntime) {
    play_all(&rt, rt.alloc(), FAULTS);
}

const HEARD_LATE: &str = r#"
wlctl fetch x509
hears BEGUN + SVID
exits DONE
svid spiffe://a.b/w chain=01 key=02 bundle=03 hint=
"#;

const HEARD_TOO_LATE: &str = r#"
wlctl fetch x509
hears BEGUN + SVID
exits CLIENT_FAULT
fault client 10
"#;

#[test]
fn silence_ends_a_call(rt: HostRuntime) {
    play(&rt, rt.alloc(), 599, HEARD_LATE);
    play(&rt, rt.alloc(), 600, HEARD_TOO_LATE);
}

const WATCHED_LONG: &str = r#"
wlctl watch
hears BEGUN + SVID + SVID
exits CLIENT_FAULT
svid spiffe://a.b/w chain=01 key=02 bundle=03 hint=
svid spiffe://a.b/w chain=01 key=02 bundle=03 hint=
fault client 8
"#;

#[test]
fn watching_without_a_count_has_no_end(rt: HostRuntime) {
    // After 600 receives that are idle come two messages, and then the end of the connection.
    play(&rt, rt.alloc(), 600, WATCHED_LONG);
}

/// A frame of type 10, which is unknown: 16,137 bytes and so many more.
fn strange(rt: &impl Abort, alloc: Global, more: u8) -> Octets {
    let zeros = Vec::from_elem(alloc, 0, 16_128 + more as usize).expect(rt, "memory");
    let head = [0, 63, more, 10, 0, 0, 0, 0, 0];
    joined(rt, alloc, &[&head, zeros.as_slice()])
}

/// A link that gives 4,095 frames of 16,384 bytes, one of 16,137 bytes and so many more, and then an SVID.
fn chatty_link(rt: &impl Abort, alloc: Global, more: u8) -> RepeatingLink {
    let mut then = strange(rt, alloc, more);
    put(
        rt,
        &mut then,
        bytes_of(rt, alloc, "BEGUN + SVID").as_slice(),
    );
    RepeatingLink {
        origin: Origin::nowhere(alloc).expect(rt, "memory"),
        piece: strange(rt, alloc, 247),
        times: 4_095,
        then,
    }
}

fn try_chatty(rt: &impl Abort, alloc: Global, more: u8, status: u8, text: &[u8]) {
    let mut link = chatty_link(rt, alloc, more);
    try_link(rt, alloc, "fetch x509", &mut link, status, text);
    drop(link);
}

#[test]
fn only_so_much_is_read(rt: HostRuntime) {
    // The last byte of the SVID is byte 67,108,864, and then one after that.
    let line = b"svid spiffe://a.b/w chain=01 key=02 bundle=03 hint=\n";
    try_chatty(&rt, rt.alloc(), 147, status::DONE, line);
    try_chatty(
        &rt,
        rt.alloc(),
        148,
        status::CLIENT_FAULT,
        b"fault client 9\n",
    );
}

const UNFIT: &str = "
fetch
fetch y
fetch x509 x
fetch bundles x
fetch jwt
watch 0
watch 1001
watch 1 1
watch -1
health x y
health-watch
fetch --x x509
x
";

#[test]
fn words_that_fit_nothing(rt: HostRuntime) {
    fits_nothing(&rt, rt.alloc(), "BEGUN + SVID", "");
    fit_nothing(&rt, rt.alloc(), "BEGUN + SVID", UNFIT);
}

/// Asserts the status of a call over a link, whose lines go to a sink that takes so many bytes.
fn ends_with(rt: &impl Abort, alloc: Global, link: &mut MemoryLink, room: usize, status: u8) {
    let words = words_of(rt, alloc, "fetch x509");
    let mut sink = sink_of(rt, alloc, 100, room);
    let got = control(rt, alloc, words.as_slice(), link, &mut sink);
    assert_eq!(rt; got, status);
}

#[test]
fn failures_have_their_status(rt: HostRuntime) {
    let alloc = rt.alloc();
    // The link has room for no answer, and then for no byte; and then the sink has none.
    let mut link = link_with(&rt, alloc, Row::empty(alloc), 0, 65_536);
    ends_with(&rt, alloc, &mut link, 65_536, status::READ_FAILED);
    let mut link = link_with(&rt, alloc, Row::empty(alloc), 10, 8);
    ends_with(&rt, alloc, &mut link, 65_536, status::WRITE_FAILED);
    let mut link = link_of(&rt, alloc, bytes_of(&rt, alloc, "BEGUN + SVID"));
    ends_with(&rt, alloc, &mut link, 4, status::WRITE_FAILED);
}
