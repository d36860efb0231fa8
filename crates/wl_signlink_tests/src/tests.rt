//! The lines of the format's description, replies that are cut and changed, and asks in memory.

use spiffe_id::SpiffeId;
use std::alloc::Global;
use std::process::Abort;
use wl_edge::{EdgeFault, MemorySink, MemorySource, Signer};
use wl_entry::{Ask, JwtToken, Signed};
use wl_octets::{Octets, Row};
use wl_signlink::*;

const IDENTITY: &str = r#"{"chain":"AQ==","key":"Ag==","not_before":100,"not_after":200}"#;

const TOKEN: &str = r#"{"token":"t","issued_at":100,"expires_at":200}"#;

const X509_LINE: &str =
    "{\"dns_names\":[],\"entry\":\"e1\",\"kind\":\"x509\",\"number\":1,\"spiffe_id\":\"spiffe://a.b/w\",\"ttl\":3600,\"version\":1}\n";

const JWT_LINE: &str =
    "{\"audience\":[\"x\"],\"entry\":\"e1\",\"kind\":\"jwt\",\"number\":2,\"spiffe_id\":\"spiffe://a.b/w\",\"version\":1}\n";

pub(crate) fn octets(rt: &impl Abort, alloc: Global, bytes: &[u8]) -> Octets {
    Octets::from_slice(alloc, bytes).expect(rt, "memory")
}

pub(crate) fn list(rt: &impl Abort, alloc: Global, texts: &[&[u8]]) -> Row<Octets> {
    let mut list = Vec::new(alloc);
    for text in texts {
        list.push(octets(rt, alloc, text)).expect(rt, "memory");
    }
    Row::from_vec(list)
}

/// The ask of an entry with this id and these DNS names.
pub(crate) fn ask_of(rt: &impl Abort, alloc: Global, entry_id: &[u8], dns_names: &[&[u8]]) -> Ask {
    Ask {
        entry_id: octets(rt, alloc, entry_id),
        spiffe_id: SpiffeId::parse(alloc, b"spiffe://a.b/w").expect(rt, "an id"),
        dns_names: list(rt, alloc, dns_names),
        ttl: 3600,
    }
}

/// Whether a line gives an identity.
fn gives_identity(rt: &impl Abort, alloc: Global, line: &[u8]) -> bool {
    match read_signed(alloc, 1, line) {
        Ok(_) => true,
        Err(LineFault::Wrong) => false,
        Err(LineFault::Memory) => panic!(rt; "memory"),
    }
}

/// Whether a line gives a token.
fn gives_token(rt: &impl Abort, alloc: Global, line: &[u8]) -> bool {
    match read_token(alloc, 1, line) {
        Ok(_) => true,
        Err(LineFault::Wrong) => false,
        Err(LineFault::Memory) => panic!(rt; "memory"),
    }
}

/// What a line gives as an identity and as a token.
fn outcomes(rt: &impl Abort, alloc: Global, line: &[u8]) -> (bool, bool) {
    (
        gives_identity(rt, alloc, line),
        gives_token(rt, alloc, line),
    )
}

/// What stood before, and the lines of both asks, where they are text.
fn lines(rt: &impl Abort, alloc: Global, ask: &Ask, audience: &[Octets]) -> Octets {
    let mut out = octets(rt, alloc, b"before");
    if is_text_ask(ask) && are_texts(audience) {
        put_x509(alloc, 1, ask, &mut out).expect(rt, "memory");
        put_jwt(alloc, 2, ask, audience, &mut out).expect(rt, "memory");
    }
    out
}

/// Asserts that these bytes are the texts, one after the other.
fn are_texts_of(rt: &impl Abort, alloc: Global, bytes: &[u8], texts: &[&str]) {
    let mut wanted = Octets::empty(alloc);
    for text in texts {
        wanted.push_slice(text.as_bytes()).expect(rt, "memory");
    }
    assert_eq!(rt; bytes, wanted.as_slice());
}

/// Asserts that these lines are put for an ask of an entry with this id and these DNS names, and for these audiences.
fn puts(
    rt: &impl Abort,
    alloc: Global,
    (entry_id, dns_names): (&[u8], &[&[u8]]),
    audience: &[&[u8]],
    wanted: &[&str],
) {
    let ask = ask_of(rt, alloc, entry_id, dns_names);
    let audience = list(rt, alloc, audience);
    let out = lines(rt, alloc, &ask, audience.as_slice());
    are_texts_of(rt, alloc, out.as_slice(), wanted);
    drop(ask);
}

#[test]
fn signer_lines(rt: HostRuntime) {
    let wanted = ["before", X509_LINE, JWT_LINE];
    puts(&rt, rt.alloc(), (b"e1", &[]), &[b"x"], &wanted);
}

/// Asserts that an identity is the one of `IDENTITY`.
fn is_identity(rt: &impl Abort, signed: &Signed) {
    assert_eq!(rt; signed.chain.as_slice(), [1].as_slice());
    assert_eq!(rt; signed.key.as_slice(), [2].as_slice());
    assert_eq!(rt; (signed.not_before, signed.not_after), (100, 200));
}

/// Asserts that a token is the one of `TOKEN`.
fn is_token(rt: &impl Abort, token: &JwtToken) {
    assert_eq!(rt; token.token.as_slice(), b"t".as_slice());
    assert_eq!(rt; (token.issued_at, token.expires_at), (100, 200));
}

#[test]
fn answers_of_lines(rt: HostRuntime) {
    let signed = read_signed(rt.alloc(), 1, IDENTITY.as_bytes()).expect(&rt, "an identity");
    is_identity(&rt, &signed);
    drop(signed);
    let token = read_token(rt.alloc(), 1, TOKEN.as_bytes()).expect(&rt, "a token");
    is_token(&rt, &token);
    drop(token);
}

const ESCAPED_X509_LINE: &str =
    "{\"dns_names\":[\"x.y\",\"z\"],\"entry\":\"a\\\"\\n\\\\\u{e9}\",\"kind\":\"x509\",\"number\":1,\"spiffe_id\":\"spiffe://a.b/w\",\"ttl\":3600,\"version\":1}\n";

const ESCAPED_JWT_LINE: &str =
    "{\"audience\":[],\"entry\":\"a\\\"\\n\\\\\u{e9}\",\"kind\":\"jwt\",\"number\":2,\"spiffe_id\":\"spiffe://a.b/w\",\"version\":1}\n";

#[test]
fn escaped_lines(rt: HostRuntime) {
    let wanted = ["before", ESCAPED_X509_LINE, ESCAPED_JWT_LINE];
    let entry: (&[u8], &[&[u8]]) = (b"a\"\n\\\xc3\xa9", &[b"x.y", b"z"]);
    puts(&rt, rt.alloc(), entry, &[], &wanted);
}

#[test]
fn asks_that_are_no_text(rt: HostRuntime) {
    let alloc = rt.alloc();
    puts(&rt, alloc, (b"\xff", &[]), &[], &["before"]);
    puts(&rt, alloc, (b"e", &[b"a", b"\xff"]), &[], &["before"]);
    puts(&rt, alloc, (b"e", &[]), &[b"\xff"], &["before"]);
}

/// Replies to the ask with number 1, a line for each: whether it is one with an identity, and with a token, and after a
/// colon the reply.
const REPLIES: &str = r#"
false false:
false false:{}
false false:null
false false:[]
false false:7
true false:{"chain":"","key":"","not_before":0,"not_after":18446744073709551615}
false false:{"chain":"","key":"","not_before":0,"not_after":18446744073709551616}
false false:{"chain":"","key":"","not_before":0,"not_after":-0}
false false:{"chain":"","key":"","not_before":0,"not_after":1.0}
false false:{"chain":"","key":"","not_before":"0","not_after":1}
false false:{"chain":"","key":"","not_before":null,"not_after":1}
false false:{"chain":"AQ=","key":"","not_before":0,"not_after":1}
false false:{"chain":"AQ","key":"","not_before":0,"not_after":1}
false false:{"chain":"AR==","key":"","not_before":0,"not_after":1}
false false:{"chain":[1],"key":"","not_before":0,"not_after":1}
false false:{"chain":"","not_before":0,"not_after":1}
false false:{"chain":"","key":"","not_before":0}
true false:{"chain":"","key":"","not_before":0,"not_after":1,"more":[{}]}
true false:{"chain":7,"chain":"","key":"","not_before":0,"not_after":1}
false true: {"expires_at":1 , "token":"", "issued_at":2} 
false false:{"token":1,"issued_at":100,"expires_at":200}
false false:{"token":"t","issued_at":100}
false true:{"number":1,"token":"t","issued_at":1,"expires_at":2}
false false:{"number":2,"token":"t","issued_at":1,"expires_at":2}
false true:{"number":2,"number":1,"token":"t","issued_at":1,"expires_at":2}
false false:{"number":"1","token":"t","issued_at":1,"expires_at":2}
false false:{"number":null,"token":"t","issued_at":1,"expires_at":2}
true false:{"number":1,"chain":"","key":"","not_before":0,"not_after":1}
false false:{"number":0,"chain":"","key":"","not_before":0,"not_after":1}
true true:{"token":"t","issued_at":1,"expires_at":2,"chain":"","key":"","not_before":0,"not_after":1}
"#;

fn replies_so(rt: &impl Abort, alloc: Global, row: &str) {
    let (_, line) = row.split_once(':').expect(rt, "a colon");
    let (identity, token) = outcomes(rt, alloc, line.as_bytes());
    let found = format!(in alloc; "{identity} {token}:{line}").expect(rt, "memory");
    assert_eq!(rt; found.as_str(), row);
}

#[test]
fn replies_of_each_kind(rt: HostRuntime) {
    for row in REPLIES.trim().lines() {
        replies_so(&rt, rt.alloc(), row);
    }
}

/// Asserts that a line is no reply.
fn is_none(rt: &impl Abort, alloc: Global, line: &[u8]) {
    assert_eq!(rt; outcomes(rt, alloc, line), (false, false));
}

/// Asserts that a reply with another byte at this place is none.
fn is_none_changed(rt: &impl Abort, alloc: Global, reply: &[u8], at: usize, byte: u8) {
    let mut changed = Vec::from_slice(alloc, reply).expect(rt, "memory");
    if let Some(place) = changed.get_mut(at) {
        *place = byte;
    }
    is_none(rt, alloc, &changed);
}

/// Asserts that a reply, cut anywhere or with any of its bytes changed to one that no such reply has, is none.
fn is_whole(rt: &impl Abort, alloc: Global, reply: &[u8], byte: u8) {
    for at in 0..reply.len() {
        is_none(rt, alloc, reply.split_at(at).0);
        is_none_changed(rt, alloc, reply, at, byte);
    }
}

#[test]
fn replies_cut_and_changed(rt: HostRuntime) {
    is_whole(&rt, rt.alloc(), IDENTITY.as_bytes(), b'~');
    is_whole(&rt, rt.alloc(), IDENTITY.as_bytes(), 0xff);
    is_whole(&rt, rt.alloc(), TOKEN.as_bytes(), 0xff);
}

/// A reply with spaces after it, so many bytes in all.
fn padded(rt: &impl Abort, alloc: Global, length: usize) -> Vec<u8> {
    let mut reply = Vec::from_slice(alloc, TOKEN.as_bytes()).expect(rt, "memory");
    for _ in reply.len()..length {
        reply.push(b' ').expect(rt, "memory");
    }
    reply
}

/// Asserts what a reply of this length gives.
fn gives_padded(rt: &impl Abort, alloc: Global, length: usize, wanted: (bool, bool)) {
    let reply = padded(rt, alloc, length);
    assert_eq!(rt; outcomes(rt, alloc, &reply), wanted);
}

#[test]
fn replies_at_their_limit(rt: HostRuntime) {
    gives_padded(&rt, rt.alloc(), REPLY_LIMIT, (false, true));
    gives_padded(&rt, rt.alloc(), REPLY_LIMIT + 1, (false, false));
}

/// A source of these bytes, so many in each read.
fn source(rt: &impl Abort, alloc: Global, bytes: &[u8], piece: usize) -> MemorySource {
    MemorySource::start(octets(rt, alloc, bytes), piece, Row::empty(alloc))
}

/// Asserts that this line comes first, and is said as the last or not.
fn reads(
    rt: &impl Abort,
    alloc: Global,
    bytes: &[u8],
    piece: usize,
    wanted: Option<(&[u8], bool)>,
) {
    let mut source = source(rt, alloc, bytes, piece);
    match read_line(alloc, &mut source).expect(rt, "memory") {
        Some(reply) => {
            let found = (reply.line.as_slice(), reply.is_last);
            assert!(rt; Some(found) == wanted);
            drop(reply);
        }
        None => assert!(rt; wanted.is_none()),
    }
}

/// Bytes, and the line that comes first.
const LINES: [(&[u8], Option<(&[u8], bool)>); 4] = [
    (b"", None),
    (b"abc", None),
    (b"\n", Some((b"", true))),
    (b"abc\n", Some((b"abc", true))),
];

/// Asserts that all of them come so in pieces of this size.
fn all_read(rt: &impl Abort, alloc: Global, piece: usize) {
    for (bytes, wanted) in &LINES {
        reads(rt, alloc, bytes, piece, *wanted);
    }
}

#[test]
fn first_lines(rt: HostRuntime) {
    for piece in 1..6 {
        all_read(&rt, rt.alloc(), piece);
    }
}

#[test]
fn lines_before_others(rt: HostRuntime) {
    reads(&rt, rt.alloc(), b"abc\nd\n", 4, Some((b"abc", true)));
    reads(&rt, rt.alloc(), b"abc\nd\n", 5, Some((b"abc", false)));
}

/// A reply of so many bytes and the newline.
fn ended(rt: &impl Abort, alloc: Global, length: usize) -> Vec<u8> {
    let mut reply = padded(rt, alloc, length);
    reply.push(b'\n').expect(rt, "memory");
    reply
}

/// The longest line comes where its newline does, and a longer one doesn't.
#[test]
fn longest_line(rt: HostRuntime) {
    let alloc = rt.alloc();
    let line = padded(&rt, alloc, REPLY_LIMIT);
    let whole = ended(&rt, alloc, REPLY_LIMIT);
    let longer = ended(&rt, alloc, REPLY_LIMIT + 1);
    reads(&rt, alloc, &line, 4_000, None);
    reads(&rt, alloc, &whole, 4_000, Some((line.as_slice(), true)));
    reads(&rt, alloc, &longer, 4_000, None);
}

/// Asserts that an identity is answered, and it is the one that is due; or that none is.
fn asks_identity(
    rt: &impl Abort,
    alloc: Global,
    output: &mut MemorySink,
    input: &mut MemorySource,
    ask: &Ask,
    is_answered: bool,
) {
    assert!(rt; is_text_ask(ask));
    match ask_x509(alloc, output, input, 1, ask).expect(rt, "memory") {
        Some(answer) => {
            assert!(rt; is_answered);
            is_identity(rt, &answer.value);
            drop(answer);
        }
        None => assert!(rt; !is_answered),
    }
}

/// The same of a token for these audiences.
fn asks_token(
    rt: &impl Abort,
    alloc: Global,
    output: &mut MemorySink,
    input: &mut MemorySource,
    ask: &Ask,
    audience: &[Octets],
) {
    assert!(rt; is_text_ask(ask) && are_texts(audience));
    match ask_jwt(alloc, output, input, 2, ask, audience).expect(rt, "memory") {
        Some(answer) => {
            is_token(rt, &answer.value);
            drop(answer);
        }
        None => panic!(rt; "no token"),
    }
}

/// Replies of an identity, a token, and neither, a byte at a time.
fn replies(rt: &impl Abort, alloc: Global) -> MemorySource {
    let mut text = String::new(alloc);
    for part in [IDENTITY, "\n", TOKEN, "\n{}\n"] {
        text.push_str(part).expect(rt, "memory");
    }
    source(rt, alloc, text.as_bytes(), 1)
}

/// Asks four times: for an identity, for a token, and for identities again, which don't come.
fn ask_four_times(
    rt: &impl Abort,
    alloc: Global,
    output: &mut MemorySink,
    ask: &Ask,
    audience: &[Octets],
) {
    let mut input = replies(rt, alloc);
    asks_identity(rt, alloc, output, &mut input, ask, true);
    asks_token(rt, alloc, output, &mut input, ask, audience);
    asks_identity(rt, alloc, output, &mut input, ask, false);
    asks_identity(rt, alloc, output, &mut input, ask, false);
}

#[test]
fn asked_in_memory(rt: HostRuntime) {
    let alloc = rt.alloc();
    let mut output = MemorySink::start(alloc, 1_000, 10_000, 7, Row::empty(alloc)).expect(
        &rt, "memory",
    );
    let ask = ask_of(&rt, alloc, b"e1", &[]);
    let audience = list(&rt, alloc, &[b"x"]);
    ask_four_times(&rt, alloc, &mut output, &ask, audience.as_slice());
    let wanted = [X509_LINE, JWT_LINE, X509_LINE, X509_LINE];
    are_texts_of(&rt, alloc, output.bytes(), &wanted);
    drop(ask);
}

/// Asserts that neither ask of a link is answered.
fn fails<S: Signer>(rt: &impl Abort, link: &mut S, ask: &Ask) {
    assert!(rt; link.sign_x509(ask).err() == Some(EdgeFault::Failed));
    assert!(rt; link.sign_jwt(ask, &[]).err() == Some(EdgeFault::Failed));
}

#[test]
fn signlink_start(rt: HostRuntime) {
    let alloc = rt.alloc();
    let mut link = SignLink::start(&rt, alloc, b"/run/wl_signlink/no_such.sock").expect(
        &rt, "memory",
    );
    let ask = ask_of(&rt, alloc, b"e1", &[]);
    fails(&rt, &mut link, &ask);
    drop(ask);
}
