use grpc_wire::{MessageFault, Method};
use h2_frame::FrameFault;
use hpack::HpackFault;
use std::alloc::Global;
use std::process::Abort;
use wl_client::*;
use wl_octets::{Octets, Row};

/// The server's SETTINGS and its acknowledgement of the client's.
const GREETING: &[u8] =
    b"\x00\x00\x0c\x04\x00\x00\x00\x00\x00\x00\x03\x00\x00\x00\x10\x00\x06\x00\x00\x40\x00\
    \x00\x00\x00\x04\x01\x00\x00\x00\x00";

/// The client's acknowledgement of SETTINGS.
const ACK: &[u8] = b"\x00\x00\x00\x04\x01\x00\x00\x00\x00";

/// The head of an answer.
pub(crate) const HEAD: &[u8] =
    b"\x00\x00\x14\x01\x04\x00\x00\x00\x01\x88\x0f\x10\x10application/grpc";

/// DATA of one message, `abc`.
const ABC: &[u8] = b"\x00\x00\x08\x00\x00\x00\x00\x00\x01\x00\x00\x00\x00\x03abc";

/// What a client writes for eight bytes of DATA.
const CREDITS: &[u8] = b"\x00\x00\x04\x08\x00\x00\x00\x00\x00\x00\x00\x00\x08\
    \x00\x00\x04\x08\x00\x00\x00\x00\x01\x00\x00\x00\x08";

/// A head, and the trailers of status 0.
const ANSWER: &[u8] = b"\x00\x00\x14\x01\x04\x00\x00\x00\x01\x88\x0f\x10\x10application/grpc\
    \x00\x00\x0f\x01\x05\x00\x00\x00\x01\x00\x0bgrpc-status\x010";

/// The trailers of status 0.
const DONE: &[u8] = b"\x00\x00\x0f\x01\x05\x00\x00\x00\x01\x00\x0bgrpc-status\x010";

fn put(rt: &impl Abort, out: &mut Octets, bytes: &[u8]) {
    out.push_slice(bytes).expect(rt, "memory");
}

/// Puts what was heard after the others, as text.
fn put_heard(rt: &impl Abort, alloc: Global, text: &mut Octets, heard: &Heard) {
    match heard {
        Heard::Head => put(rt, text, b"head;"),
        Heard::Message(message) => {
            put(rt, text, b"message ");
            put(rt, text, message.as_slice());
            put(rt, text, b";");
        }
        Heard::Status { code, text: why } => {
            let front = format!(in alloc; "status {code} ").expect(rt, "memory");
            put(rt, text, front.as_bytes());
            put(rt, text, why.as_slice());
            put(rt, text, b";");
        }
    }
}

/// What was heard, in one text.
fn text_of(rt: &impl Abort, alloc: Global, told: &[Heard]) -> Octets {
    let mut text = Octets::empty(alloc);
    for heard in told {
        put_heard(rt, alloc, &mut text, heard);
    }
    text
}

/// Feeds pieces of this length, up to the first fault.
pub(crate) fn hear(
    rt: &impl Abort,
    alloc: Global,
    bytes: &[u8],
    piece: usize,
    out: &mut Octets,
    told: &mut Row<Heard>,
) -> Option<ClientFault> {
    let mut client = Client::start(alloc, Method::X509Svid, &[]).expect(rt, "memory");
    let mut met = None;
    for front in bytes.chunks(piece.max(1)) {
        if met.is_none() {
            met = client.feed(front, out, told).err();
        }
    }
    met
}

/// What is to come of a server's bytes: what is heard, what the client writes, and its fault.
type Due<'a> = (&'a [u8], &'a [u8], Option<ClientFault>);

/// Feeds bytes in pieces of this length.
fn try_pieces(rt: &impl Abort, alloc: Global, bytes: &[u8], piece: usize, due: Due<'_>) {
    let (text, wrote, fault) = due;
    let mut out = Octets::empty(alloc);
    let mut told = Row::empty(alloc);
    let met = hear(rt, alloc, bytes, piece, &mut out, &mut told);
    let heard = text_of(rt, alloc, told.as_slice());
    assert_eq!(rt; met, fault, "of {bytes:?} by {piece}");
    assert_eq!(rt; out.as_slice(), wrote, "of {bytes:?} by {piece}");
    assert_eq!(rt; heard.as_slice(), text, "of {bytes:?} by {piece}");
}

/// Feeds the front and then the rest, cut into pieces of several lengths.
fn try_bytes(rt: &impl Abort, alloc: Global, front: &[u8], rest: &[u8], due: Due<'_>) {
    let mut bytes = Octets::from_slice(alloc, front).expect(rt, "memory");
    put(rt, &mut bytes, rest);
    for piece in [1, 2, 7, 4096] {
        try_pieces(rt, alloc, bytes.as_slice(), piece, due);
    }
}

/// The same, where nothing is written and the client has a fault.
fn try_fault(
    rt: &impl Abort,
    alloc: Global,
    front: &[u8],
    rest: &[u8],
    text: &[u8],
    fault: ClientFault,
) {
    try_bytes(rt, alloc, front, rest, (text, b"", Some(fault)));
}

/// Feeds a recorded answer, a byte at a time and in one piece.
pub(crate) fn try_answer(rt: &impl Abort, alloc: Global, bytes: &[u8], text: &[u8]) {
    for piece in [1, 4096] {
        let mut out = Octets::empty(alloc);
        let mut told = Row::empty(alloc);
        let met = hear(rt, alloc, bytes, piece, &mut out, &mut told);
        let heard = text_of(rt, alloc, told.as_slice());
        assert_eq!(rt; met, None, "by {piece}");
        assert_eq!(rt; heard.as_slice(), text, "by {piece}");
    }
}

/// Asserts how a call of a method with this message opens.
fn opens_by(rt: &impl Abort, alloc: Global, method: Method, message: &[u8], want: &[u8]) {
    assert!(rt; message.len() <= 16_000);
    let client = Client::start(alloc, method, message).expect(rt, "memory");
    assert_eq!(rt; client.opening(), want);
}

#[test]
fn calls_open(rt: HostRuntime) {
    let want = b"PRI * HTTP/2.0\r\n\r\nSM\r\n\r\n\
        \x00\x00\x00\x04\x00\x00\x00\x00\x00\
        \x00\x00\x68\x01\x04\x00\x00\x00\x01\x83\x86\x04\x20/SpiffeWorkloadAPI/FetchX509SVID\x01\x09localhost\
        \x0f\x10\x10application/grpc\x00\x02te\x08trailers\x00\x12workload.spiffe.io\x04true\
        \x00\x00\x05\x00\x01\x00\x00\x00\x01\x00\x00\x00\x00\x00";
    opens_by(&rt, rt.alloc(), Method::X509Svid, b"", want);
    let want = b"PRI * HTTP/2.0\r\n\r\nSM\r\n\r\n\
        \x00\x00\x00\x04\x00\x00\x00\x00\x00\
        \x00\x00\x64\x01\x04\x00\x00\x00\x01\x83\x86\x04\x1c/grpc.health.v1.Health/Check\x01\x09localhost\
        \x0f\x10\x10application/grpc\x00\x02te\x08trailers\x00\x12workload.spiffe.io\x04true\
        \x00\x00\x08\x00\x01\x00\x00\x00\x01\x00\x00\x00\x00\x03\x0a\x01x";
    opens_by(&rt, rt.alloc(), Method::HealthCheck, b"\x0a\x01x", want);
}

#[test]
fn heads_and_statuses_are_heard(rt: HostRuntime) {
    let table: [(&[u8], &[u8], &[u8], &[u8]); 5] = [
        (b"", b"", b"", b""),
        (GREETING, b"", b"", ACK),
        (HEAD, DONE, b"head;status 0 ;", b""),
        (
            b"\x00\x00\x44\x01\x05\x00\x00\x00\x01\x88\x0f\x10\x10application/grpc",
            b"\x00\x0bgrpc-status\x017\x00\x0cgrpc-message\x12no identity issued",
            b"status 7 no identity issued;",
            b"",
        ),
        (
            HEAD,
            b"\x00\x00\x30\x01\x05\x00\x00\x00\x01\x00\x0bgrpc-status\x017\x00\x0cgrpc-message\x12no identity issued",
            b"head;status 7 no identity issued;",
            b"",
        ),
    ];
    for (front, rest, text, wrote) in table {
        try_bytes(&rt, rt.alloc(), front, rest, (text, wrote, None));
    }
}

#[test]
fn messages_are_heard(rt: HostRuntime) {
    // After the head: one message, two in one DATA frame, one in two frames with an empty frame between them, and an empty one with padding.
    let table: [(&[u8], &[u8], &[u8]); 4] = [
        (
            b"\x00\x00\x08\x00\x00\x00\x00\x00\x01\x00\x00\x00\x00\x03abc",
            b"head;message abc;",
            CREDITS,
        ),
        (
            b"\x00\x00\x0b\x00\x00\x00\x00\x00\x01\x00\x00\x00\x00\x01a\x00\x00\x00\x00\x00",
            b"head;message a;message ;",
            b"\x00\x00\x04\x08\x00\x00\x00\x00\x00\x00\x00\x00\x0b\x00\x00\x04\x08\x00\x00\x00\x00\x01\x00\x00\x00\x0b",
        ),
        (
            b"\x00\x00\x07\x00\x00\x00\x00\x00\x01\x00\x00\x00\x00\x03ab\x00\x00\x00\x00\x00\x00\x00\x00\x01\x00\x00\x01\x00\x00\x00\x00\x00\x01c",
            b"head;message abc;",
            b"\x00\x00\x04\x08\x00\x00\x00\x00\x00\x00\x00\x00\x07\x00\x00\x04\x08\x00\x00\x00\x00\x01\x00\x00\x00\x07\x00\x00\x04\x08\x00\x00\x00\x00\x00\x00\x00\x00\x01\x00\x00\x04\x08\x00\x00\x00\x00\x01\x00\x00\x00\x01",
        ),
        (
            b"\x00\x00\x08\x00\x08\x00\x00\x00\x01\x02\x00\x00\x00\x00\x00\x00\x00",
            b"head;message ;",
            CREDITS,
        ),
    ];
    for (rest, text, wrote) in table {
        try_bytes(&rt, rt.alloc(), HEAD, rest, (text, wrote, None));
    }
}

#[test]
fn other_frames_say_nothing(rt: HostRuntime) {
    // A block in three frames.
    try_bytes(
        &rt,
        rt.alloc(),
        b"\x00\x00\x01\x01\x00\x00\x00\x00\x01\x88\x00\x00\x03\x09\x00\x00\x00\x00\x01\x0f\x10\x10",
        b"\x00\x00\x10\x09\x04\x00\x00\x00\x01application/grpc",
        (b"head;", b"", None),
    );
    // PING is answered; its acknowledgement, WINDOW_UPDATE, PRIORITY, PUSH_PROMISE, a type of no meaning, RST_STREAM of
    // another stream and GOAWAY with code 0 are not.
    let table: [(&[u8], &[u8]); 8] = [
        (
            b"\x00\x00\x08\x06\x00\x00\x00\x00\x00\x01\x02\x03\x04\x05\x06\x07\x08",
            b"\x00\x00\x08\x06\x01\x00\x00\x00\x00\x01\x02\x03\x04\x05\x06\x07\x08",
        ),
        (
            b"\x00\x00\x08\x06\x01\x00\x00\x00\x00\x01\x02\x03\x04\x05\x06\x07\x08",
            b"",
        ),
        (b"\x00\x00\x04\x08\x00\x00\x00\x00\x00\x00\x00\x00\x01", b""),
        (
            b"\x00\x00\x05\x02\x00\x00\x00\x00\x01\x00\x00\x00\x00\x00",
            b"",
        ),
        (b"\x00\x00\x01\x05\x00\x00\x00\x00\x01\x00", b""),
        (b"\x00\x00\x01\x63\x00\x00\x00\x00\x01\x00", b""),
        (b"\x00\x00\x04\x03\x00\x00\x00\x00\x03\x00\x00\x00\x02", b""),
        (
            b"\x00\x00\x08\x07\x00\x00\x00\x00\x00\x00\x00\x00\x01\x00\x00\x00\x00",
            b"",
        ),
    ];
    for (rest, wrote) in table {
        try_bytes(&rt, rt.alloc(), HEAD, rest, (b"head;", wrote, None));
    }
}

#[test]
fn frames_and_blocks_are_refused(rt: HostRuntime) {
    let table: [(&[u8], &[u8], &[u8], ClientFault); 3] = [
        (
            HEAD,
            b"\x00\x40\x01\x00\x00\x00\x00\x00\x01",
            b"head;",
            ClientFault::Frame(FrameFault::TooLarge(16_385)),
        ),
        (
            b"",
            b"\x00\x00\x01\x01\x04\x00\x00\x00\x01\x80",
            b"",
            ClientFault::Header(HpackFault::Index),
        ),
        (
            HEAD,
            b"\x00\x00\x01\x01\x04\x00\x00\x00\x01\x80",
            b"head;",
            ClientFault::Header(HpackFault::Index),
        ),
    ];
    for (front, rest, text, fault) in table {
        try_fault(&rt, rt.alloc(), front, rest, text, fault);
    }
}

#[test]
fn order_is_kept(rt: HostRuntime) {
    // Another stream, a block that is interrupted or not open, DATA before the head, and a later block that goes on.
    let table: [(&[u8], &[u8], &[u8], ClientFault); 7] = [
        (
            b"",
            b"\x00\x00\x01\x01\x05\x00\x00\x00\x03\x88",
            b"",
            ClientFault::Order(3),
        ),
        (
            HEAD,
            b"\x00\x00\x00\x00\x00\x00\x00\x00\x00",
            b"head;",
            ClientFault::Order(0),
        ),
        (
            HEAD,
            b"\x00\x00\x00\x09\x04\x00\x00\x00\x05",
            b"head;",
            ClientFault::Order(5),
        ),
        (
            b"\x00\x00\x01\x01\x00\x00\x00\x00\x01\x88",
            GREETING,
            b"",
            ClientFault::Order(0),
        ),
        (
            HEAD,
            b"\x00\x00\x01\x09\x04\x00\x00\x00\x01\x88",
            b"head;",
            ClientFault::Order(1),
        ),
        (b"", ABC, b"", ClientFault::Order(1)),
        (HEAD, HEAD, b"head;", ClientFault::Order(1)),
    ];
    for (front, rest, text, fault) in table {
        try_fault(&rt, rt.alloc(), front, rest, text, fault);
    }
}

#[test]
fn nothing_comes_after_the_end(rt: HostRuntime) {
    // HEADERS, DATA and CONTINUATION after the end; RST_STREAM there.
    let table: [(&[u8], &[u8], &[u8], ClientFault); 4] = [
        (ANSWER, ABC, b"head;status 0 ;", ClientFault::Order(1)),
        (ANSWER, DONE, b"head;status 0 ;", ClientFault::Order(1)),
        (
            ANSWER,
            b"\x00\x00\x00\x09\x04\x00\x00\x00\x01",
            b"head;status 0 ;",
            ClientFault::Order(1),
        ),
        (
            ANSWER,
            b"\x00\x00\x04\x03\x00\x00\x00\x00\x01\x00\x00\x00\x00",
            b"head;status 0 ;",
            ClientFault::Reset(0),
        ),
    ];
    for (front, rest, text, fault) in table {
        try_fault(&rt, rt.alloc(), front, rest, text, fault);
    }
}

#[test]
fn other_http_statuses_are_refused(rt: HostRuntime) {
    let table: [(&[u8], &[u8], &[u8], ClientFault); 5] = [
        (
            b"",
            b"\x00\x00\x05\x01\x04\x00\x00\x00\x01\x08\x03404",
            b"",
            ClientFault::HttpStatus(404),
        ),
        (
            b"",
            b"\x00\x00\x06\x01\x04\x00\x00\x00\x01\x08\x040200",
            b"",
            ClientFault::HttpStatus(200),
        ),
        (
            b"",
            b"\x00\x00\x06\x01\x05\x00\x00\x00\x01\x08\x04200 ",
            b"",
            ClientFault::HttpStatus(0),
        ),
        (
            b"",
            b"\x00\x00\x02\x01\x05\x00\x00\x00\x01\x88\x88",
            b"",
            ClientFault::HttpStatus(0),
        ),
        (
            b"",
            b"\x00\x00\x00\x01\x05\x00\x00\x00\x01",
            b"",
            ClientFault::HttpStatus(0),
        ),
    ];
    for (front, rest, text, fault) in table {
        try_fault(&rt, rt.alloc(), front, rest, text, fault);
    }
}

#[test]
fn an_end_has_one_status(rt: HostRuntime) {
    // None, two, one that is no number, an empty one, one of 2^32, and an end by DATA.
    let table: [(&[u8], &[u8], &[u8], ClientFault); 6] = [
        (
            b"",
            b"\x00\x00\x01\x01\x05\x00\x00\x00\x01\x88",
            b"",
            ClientFault::NoStatus,
        ),
        (
            HEAD,
            b"\x00\x00\x1e\x01\x05\x00\x00\x00\x01\x00\x0bgrpc-status\x010\x00\x0bgrpc-status\x010",
            b"head;",
            ClientFault::NoStatus,
        ),
        (
            HEAD,
            b"\x00\x00\x10\x01\x05\x00\x00\x00\x01\x00\x0bgrpc-status\x02+0",
            b"head;",
            ClientFault::NoStatus,
        ),
        (
            HEAD,
            b"\x00\x00\x0e\x01\x05\x00\x00\x00\x01\x00\x0bgrpc-status\x00",
            b"head;",
            ClientFault::NoStatus,
        ),
        (
            HEAD,
            b"\x00\x00\x18\x01\x05\x00\x00\x00\x01\x00\x0bgrpc-status\x0a4294967296",
            b"head;",
            ClientFault::NoStatus,
        ),
        (
            HEAD,
            b"\x00\x00\x08\x00\x01\x00\x00\x00\x01\x00\x00\x00\x00\x03abc",
            b"head;message abc;",
            ClientFault::NoStatus,
        ),
    ];
    for (front, rest, text, fault) in table {
        try_fault(&rt, rt.alloc(), front, rest, text, fault);
    }
}

#[test]
fn messages_and_endings_are_refused(rt: HostRuntime) {
    let table: [(&[u8], &[u8], &[u8], ClientFault); 4] = [
        (
            HEAD,
            b"\x00\x00\x07\x00\x00\x00\x00\x00\x01\x00\x00\x00\x00\x01a\x01",
            b"head;message a;",
            ClientFault::Message(MessageFault::Flag(1)),
        ),
        (
            HEAD,
            b"\x00\x00\x05\x00\x00\x00\x00\x00\x01\x00\x00\x40\x00\x01",
            b"head;",
            ClientFault::Message(MessageFault::TooLong(4_194_305)),
        ),
        (
            b"",
            b"\x00\x00\x04\x03\x00\x00\x00\x00\x01\x00\x00\x00\x08",
            b"",
            ClientFault::Reset(8),
        ),
        (
            HEAD,
            b"\x00\x00\x08\x07\x00\x00\x00\x00\x00\x00\x00\x00\x01\x00\x00\x00\x0b",
            b"head;",
            ClientFault::GoAway(11),
        ),
    ];
    for (front, rest, text, fault) in table {
        try_fault(&rt, rt.alloc(), front, rest, text, fault);
    }
}

#[test]
fn faults_stay(rt: HostRuntime) {
    let alloc = rt.alloc();
    let mut client = Client::start(alloc, Method::JwtSvid, b"x").expect(&rt, "memory");
    let mut out = Octets::empty(alloc);
    let mut told = Row::empty(alloc);
    for piece in [ABC, HEAD, GREETING] {
        let met = client.feed(piece, &mut out, &mut told);
        assert_eq!(rt; met, Err(ClientFault::Order(1)));
    }
    assert_eq!(rt; (out.len(), told.len()), (0, 0));
}

#[test]
fn faults_have_numbers(rt: HostRuntime) {
    let faults = [
        ClientFault::Frame(FrameFault::BadPadding),
        ClientFault::Header(HpackFault::Index),
        ClientFault::Order(1),
        ClientFault::HttpStatus(404),
        ClientFault::NoStatus,
        ClientFault::Message(MessageFault::Flag(1)),
        ClientFault::Undecodable(pb_wire::FieldFault::FieldKind(1)),
        ClientFault::Cut(8),
        ClientFault::TooMuch,
        ClientFault::Idle,
        ClientFault::Reset(8),
        ClientFault::GoAway(11),
        ClientFault::Memory,
        ClientFault::TooMany,
    ];
    for (at, fault) in faults.iter().enumerate() {
        assert_eq!(rt; usize::from(fault.number()), at + 1);
    }
}
