//! What is said and counted of things in memory that fail and come back.

use event_log::{FaultLine, Level, PullCause, SignCause};
use figures::Shows;
use log_output::{Log, LogOutput};
use spiffe_id::SpiffeId;
use std::alloc::{AllocGlobal, Global};
use std::io::{ErrorKind, Read};
use std::os::fd::AsRawFd;
use std::os::unix::net::UnixStream;
use std::process::Abort;
use std::sync::Arc;
use std::sync::atomic::{AtomicBool, AtomicU64, Ordering};
use wl_document::DocFault;
use wl_edge::{
    Accepted, BEFORE_KEEPING, BEFORE_UPKEEP, EdgeFault, Gate, Listener, MemorySigner, MemorySink,
    MemoryUpstream, OpenGate, Script, Signer, Sink, Upstream,
};
use wl_edge_real::{BindFault, BoundAt, RealLink, Refusal, Stop};
use wl_entry::{Ask, JwtToken, Signed};
use wl_octets::{Memory, Octets, Row};
use wl_outlook::{DocumentJudge, FaultLines, Outlook};
use wl_saying::{
    AskFailures, KeepingSink, SayingGate, SayingListener, SayingSigner, SayingUpstream, say_unbound,
};

/// The point that a seat passes which ended with a fault.
const AFTER_FAILED_SEAT: u32 = 5;

/// A document with no entry.
const GOOD: &[u8] =
    br#"{"version":1,"trust_domain":"a.b","bundles":[{"trust_domain":"a.b","x509":"AQ=="}],"entries":[]}"#;

/// A document with the entry that is asked for below.
const ONE: &[u8] =
    br#"{"version":1,"trust_domain":"a.b","bundles":[{"trust_domain":"a.b","x509":"AQ=="}],"entries":[
{"id":"e1","spiffe_id":"spiffe://a.b/w","selectors":["unix:uid:1"],"ttl":60}]}"#;

/// Calls each fault by one name.
#[derive(Drop)]
struct OneName;

impl FaultLines for OneName {
    fn line_of(&self, alloc: Global, _fault: DocFault) -> Result<Option<FaultLine>, Memory> {
        FaultLine::read(alloc, b"fault document 2")
    }
}

/// What is known of an agent, and both ends of its log.
fn watched(
    own: &HostRuntime,
    rt: &(impl AllocGlobal + Abort),
) -> (Arc<Outlook>, UnixStream, UnixStream) {
    let alloc = rt.alloc();
    let (ours, theirs) = UnixStream::pair(own).expect(rt, "streams");
    let output = LogOutput::over(ours.as_raw_fd(), false);
    let log = Log::over(own.clone().expect(rt, "runtime"), output, Level::Info, None);
    let log = Arc::new(alloc, log).expect(rt, "log");
    let outlook = Outlook::start(alloc, log);
    (Arc::new(alloc, outlook).expect(rt, "outlook"), ours, theirs)
}

/// One more owner of it.
fn one_more(rt: &(impl AllocGlobal + Abort), outlook: &Arc<Outlook>) -> Arc<Outlook> {
    Arc::try_clone(outlook).expect(rt, "owner")
}

/// What the lines so far say, each without its time.
fn lines_of(rt: &(impl AllocGlobal + Abort), reader: &mut UnixStream) -> String {
    let mut bytes = [0u8; 2_000];
    let count = reader.read(&mut bytes).expect(rt, "lines");
    let text = str::from_utf8(bytes.get(..count).unwrap_or(&[])).expect(rt, "text");
    let mut said = String::new(rt.alloc());
    for line in text.lines() {
        said.push_str(line.get(24..).unwrap_or(line))
            .expect(rt, "line");
        said.push_str(";").expect(rt, "line");
    }
    said
}

/// Numbers of the page: pulls that failed, identities that were signed and that were not, and tokens that were not.
fn numbers(rt: &(impl AllocGlobal + Abort), outlook: &Outlook) -> [u64; 4] {
    let figures = outlook.figures().expect(rt, "figures");
    let (documents, x509, jwt) = (figures.documents, figures.x509, figures.jwt);
    drop(figures);
    [documents.failed, x509.signed, x509.failed, jwt.failed]
}

/// A script that fails twice, and then has this item.
fn late<T: Drop>(rt: &(impl AllocGlobal + Abort), item: T) -> Script<T> {
    let mut failing = Vec::new(rt.alloc());
    failing.push(0).expect(rt, "number");
    failing.push(1).expect(rt, "number");
    Script::start(row_of(rt, item), Row::from_vec(failing))
}

/// A row of one item.
fn row_of<T: Drop>(rt: &(impl AllocGlobal + Abort), item: T) -> Row<T> {
    let mut row = Vec::new(rt.alloc());
    row.push(item).expect(rt, "item");
    Row::from_vec(row)
}

/// A signer with these scripts.
fn signer_of(
    rt: &(impl AllocGlobal + Abort),
    identities: Script<Signed>,
    tokens: Script<JwtToken>,
    outlook: Arc<Outlook>,
) -> SayingSigner<MemorySigner> {
    let alloc = rt.alloc();
    let signer = MemorySigner::start(alloc, identities, tokens);
    let is_failing = Arc::new(alloc, AtomicBool::new(false)).expect(rt, "flag");
    SayingSigner::start(alloc, signer, outlook, is_failing)
}

/// A signer with this script for identities, and none for tokens.
fn saying_signer(
    rt: &(impl AllocGlobal + Abort),
    identities: Script<Signed>,
    outlook: Arc<Outlook>,
) -> SayingSigner<MemorySigner> {
    let tokens = Script::start(Row::empty(rt.alloc()), Row::empty(rt.alloc()));
    signer_of(rt, identities, tokens, outlook)
}

/// The smallest certificate of `spiffe://a.b/w` up to its first time, from there to its second, and after that (RFC 5280, section 4.1).
const LEAF: [&[u8]; 3] = [
    b"\x30\x56\x30\x4f\xa0\x03\x02\x01\x02\x02\x01\x01\x30\x00\x30\x00\x30\x1e\x17\x0d",
    b"\x17\x0d",
    b"\x30\x00\x30\x00\xa3\x1d\x30\x1b\x30\x19\x06\x03\x55\x1d\x11\x04\x12\x30\x10\x86\x0espiffe://a.b/w\x30\x00\x03\x01\x00",
];

/// 100 seconds after the Unix epoch.
const LONG_AGO: Moment = Moment {
    text: b"700101000140Z",
    second: 100,
};

/// 2049-01-01T00:00:00Z.
const FAR_OFF: Moment = Moment {
    text: b"490101000000Z",
    second: 2_493_072_000,
};

/// 2049-12-31T23:59:59Z.
const FARTHER_OFF: Moment = Moment {
    text: b"491231235959Z",
    second: 2_524_607_999,
};

/// A time, as a certificate has it and in Unix seconds.
#[derive(Clone, Copy)]
struct Moment {
    text: &'static [u8],
    second: u64,
}

/// A chain of one certificate of these times.
fn chain(rt: &(impl AllocGlobal + Abort), before: Moment, after: Moment) -> Octets {
    let mut chain = Octets::empty(rt.alloc());
    for part in [LEAF[0], before.text, LEAF[1], after.text, LEAF[2]] {
        chain.push_slice(part).expect(rt, "chain");
    }
    chain
}

/// An ask for one entry.
fn ask(rt: &(impl AllocGlobal + Abort)) -> Ask {
    let alloc = rt.alloc();
    Ask {
        entry_id: Octets::from_slice(alloc, b"e1").expect(rt, "id"),
        spiffe_id: SpiffeId::parse(alloc, b"spiffe://a.b/w").expect(rt, "id"),
        dns_names: Row::empty(alloc),
        ttl: 60,
    }
}

/// An identity of these times.
fn signed(rt: &(impl AllocGlobal + Abort), before: Moment, after: Moment) -> Signed {
    Signed {
        chain: chain(rt, before, after),
        key: Octets::from_slice(rt.alloc(), b"k").expect(rt, "key"),
        not_before: before.second,
        not_after: after.second,
    }
}

#[test]
fn failed_pulls_are_said_once(rt: HostRuntime) {
    let alloc = rt.alloc();
    let (outlook, ours, mut theirs) = watched(&rt, &rt);
    let document = Octets::from_slice(alloc, GOOD).expect(&rt, "document");
    let upstream = MemoryUpstream::start(alloc, late(&rt, document));
    let noted = one_more(&rt, &outlook);
    let mut saying = SayingUpstream::start(alloc, upstream, noted, OneName).expect(&rt, "upstream");
    let mut into = Octets::empty(alloc);
    let pulled = [(); 4].map(|()| saying.pull(&mut into).is_ok());
    assert_eq!(rt; pulled, [false, false, true, true]);
    outlook.note_taken(1);
    let said = lines_of(&rt, &mut theirs);
    assert!(rt; said.starts_with("level=warn event=authority_failed cause=file since=\"20"));
    assert!(rt;
        said.ends_with(
            "Z\";level=info event=authority_back;level=info event=document_taken publication=1 entries=0 bundles=1 changed=0 removed=0;"
        )
    );
    assert_eq!(rt; numbers(&rt, &outlook), [2, 0, 0, 0]);
    drop(ours);
}

/// Whether an upstream of this document that has nothing new is unchanged before its first pull, and after it.
fn rests(
    rt: &(impl AllocGlobal + Abort),
    outlook: &Arc<Outlook>,
    document: &'static [u8],
) -> [bool; 2] {
    let alloc = rt.alloc();
    let documents = row_of(
        rt,
        Octets::from_slice(alloc, document).expect(rt, "document"),
    );
    let mut inner = MemoryUpstream::start(alloc, Script::start(documents, Row::empty(alloc)));
    inner.rests = true;
    let noted = one_more(rt, outlook);
    let mut saying = SayingUpstream::start(alloc, inner, noted, OneName).expect(rt, "upstream");
    let before = saying.is_unchanged();
    let mut into = Octets::empty(alloc);
    saying.pull(&mut into).expect(rt, "document");
    [before, saying.is_unchanged()]
}

/// A document at rest counts as one that was pulled and taken, which it was once. One that was refused doesn't rest.
#[test]
fn a_document_at_rest_is_counted(rt: HostRuntime) {
    let (outlook, ours, theirs) = watched(&rt, &rt);
    assert_eq!(rt; rests(&rt, &outlook, GOOD), [false, true]);
    assert_eq!(rt; rests(&rt, &outlook, b"{}"), [false, false]);
    let figures = outlook.figures().expect(&rt, "figures");
    let (documents, age) = (figures.documents, figures.document_age);
    drop(figures);
    assert_eq!(rt; (documents.taken, documents.refused, age), (2, 1, Some(0)));
    drop(ours);
    drop(theirs);
}

/// Whether two asks for an identity fail, the third gives one, and one for a token fails.
fn asks_twice_in_vain<S: Signer>(rt: &(impl AllocGlobal + Abort), signer: &mut S) -> bool {
    let ask = ask(rt);
    let failed = [
        signer.sign_x509(&ask).is_err(),
        signer.sign_x509(&ask).is_err(),
        signer.sign_x509(&ask).is_err(),
    ];
    let no_token = signer.sign_jwt(&ask, &[]).is_err();
    drop(ask);
    failed == [true, true, false] && no_token
}

#[test]
fn failed_asks_are_said_for_each_entry(rt: HostRuntime) {
    let (outlook, ours, mut theirs) = watched(&rt, &rt);
    let identities = late(&rt, signed(&rt, LONG_AGO, FAR_OFF));
    let mut saying = saying_signer(&rt, identities, one_more(&rt, &outlook));
    let asked = asks_twice_in_vain(&rt, &mut saying);
    drop(saying);
    let said = lines_of(&rt, &mut theirs);
    assert_eq!(rt;
        said.as_str(),
        "level=warn event=signing_failed entry=\"e1\" cause=not_an_answer;\
        level=info event=signer_back;level=info event=signed entry=\"e1\" not_after=2493072000;\
        level=warn event=token_failed entry=\"e1\" cause=not_an_answer;"
    );
    assert!(rt; asked && numbers(&rt, &outlook) == [0, 1, 2, 1]);
    drop(ours);
}

/// A signer that looks at the figures while it is asked for an identity.
#[derive(Drop)]
struct Looking<S> {
    inner: S,
    outlook: Arc<Outlook>,
    /// How many entries were in flight then.
    seen: Arc<AtomicU64>,
}

impl<S: AskFailures> AskFailures for Looking<S> {
    fn cause(&self) -> SignCause {
        self.inner.cause()
    }
}

impl<S: Signer + Drop> Signer for Looking<S> {
    type V = S::V;

    ghost calls = { λ s. S.calls s.inner };

    ghost faults = { λ s. S.faults s.inner };

    fn sign_x509(&mut self, ask: &Ask) -> Result<Signed, EdgeFault> {
        if let Ok(figures) = self.outlook.figures() {
            self.seen
                .store(figures.identities.in_flight, Ordering::SeqCst);
        }
        self.inner.sign_x509(ask)
    }

    fn sign_jwt(&mut self, ask: &Ask, audience: &[Octets]) -> Result<JwtToken, EdgeFault> {
        self.inner.sign_jwt(ask, audience)
    }
}

/// How many entries are kept, due, in flight and missing.
fn states(rt: &(impl AllocGlobal + Abort), outlook: &Outlook) -> [u64; 4] {
    let figures = outlook.figures().expect(rt, "figures");
    let all = figures.identities;
    drop(figures);
    [all.kept, all.due, all.in_flight, all.missing]
}

/// An ask that fails and one that is answered by an identity that is half over.
#[test]
fn entries_are_in_flight_while_their_signer_is_asked(rt: HostRuntime) {
    let alloc = rt.alloc();
    let (outlook, ours, theirs) = watched(&rt, &rt);
    let mut judge = DocumentJudge::start(alloc, one_more(&rt, &outlook), OneName);
    judge.note_document(ONE);
    drop(judge);
    let identities = late(&rt, signed(&rt, LONG_AGO, FAR_OFF));
    let tokens = Script::start(Row::empty(alloc), Row::empty(alloc));
    let seen = Arc::new(alloc, AtomicU64::new(0)).expect(&rt, "number");
    let looking = Looking {
        inner: MemorySigner::start(alloc, identities, tokens),
        outlook: one_more(&rt, &outlook),
        seen: Arc::try_clone(&seen).expect(&rt, "number"),
    };
    let is_failing = Arc::new(alloc, AtomicBool::new(false)).expect(&rt, "flag");
    let noted = one_more(&rt, &outlook);
    let mut saying = SayingSigner::start(alloc, looking, noted, is_failing);
    let ask = ask(&rt);
    let mut found = [states(&rt, &outlook), [0; 4], [0; 4]];
    let failed = saying.sign_x509(&ask).is_err() && saying.sign_x509(&ask).is_err();
    let in_vain = seen.load(Ordering::SeqCst);
    found[1] = states(&rt, &outlook);
    let is_signed = saying.sign_x509(&ask).is_ok();
    found[2] = states(&rt, &outlook);
    drop(ask);
    drop(saying);
    drop(ours);
    drop(theirs);
    assert!(rt; failed && is_signed && (in_vain, seen.load(Ordering::SeqCst)) == (1, 1));
    assert_eq!(rt; found, [[0, 0, 0, 1], [0, 0, 0, 1], [0, 1, 0, 0]]);
}

#[test]
fn early_identities_are_said(rt: HostRuntime) {
    let (outlook, ours, mut theirs) = watched(&rt, &rt);
    let identity = signed(&rt, FAR_OFF, FARTHER_OFF);
    let identities = Script::start(row_of(&rt, identity), Row::empty(rt.alloc()));
    let mut saying = saying_signer(&rt, identities, outlook);
    let ask = ask(&rt);
    let is_signed = saying.sign_x509(&ask).is_ok();
    drop(ask);
    drop(saying);
    let said = lines_of(&rt, &mut theirs);
    drop(ours);
    assert!(rt;
        is_signed
            && said.as_str()
                == "level=info event=signed entry=\"e1\" not_after=2524607999;\
        level=warn event=identity_not_yet_valid entry=\"e1\" not_before=2493072000;"
    );
}

#[test]
fn unfit_identities_are_said_and_count_as_failed(rt: HostRuntime) {
    let (outlook, ours, mut theirs) = watched(&rt, &rt);
    let mut identity = signed(&rt, LONG_AGO, FAR_OFF);
    identity.not_after = FARTHER_OFF.second;
    let identities = Script::start(row_of(&rt, identity), Row::empty(rt.alloc()));
    let mut saying = saying_signer(&rt, identities, one_more(&rt, &outlook));
    let ask = ask(&rt);
    let is_answered = saying.sign_x509(&ask).is_ok();
    drop(ask);
    drop(saying);
    let said = lines_of(&rt, &mut theirs);
    drop(ours);
    assert_eq!(rt;
        said.as_str(),
        "level=warn event=signing_failed entry=\"e1\" cause=unfit fault=other_times;"
    );
    assert!(rt; is_answered && numbers(&rt, &outlook) == [0, 0, 1, 0]);
}

#[test]
fn unfit_tokens_are_said_and_count_as_failed(rt: HostRuntime) {
    let (outlook, ours, mut theirs) = watched(&rt, &rt);
    let token = JwtToken {
        token: Octets::from_slice(rt.alloc(), b"a b").expect(&rt, "token"),
        issued_at: LONG_AGO.second,
        expires_at: FARTHER_OFF.second,
    };
    let tokens = Script::start(row_of(&rt, token), Row::empty(rt.alloc()));
    let identities = Script::start(Row::empty(rt.alloc()), Row::empty(rt.alloc()));
    let mut saying = signer_of(&rt, identities, tokens, one_more(&rt, &outlook));
    let ask = ask(&rt);
    let is_answered = saying.sign_jwt(&ask, &[]).is_ok();
    drop(ask);
    drop(saying);
    let said = lines_of(&rt, &mut theirs);
    drop(ours);
    assert_eq!(rt;
        said.as_str(),
        "level=warn event=token_failed entry=\"e1\" cause=unfit fault=token_byte;"
    );
    assert!(rt; is_answered && numbers(&rt, &outlook) == [0, 0, 0, 1]);
}

/// A listener that refuses each caller for this reason, and tells nothing.
#[derive(Drop)]
struct Refusing {
    refusal: Refusal,
}

impl BoundAt for Refusing {
    ghost use Rattle.std.specs.Prelude.{[]};

    ghost paths = { λ l. [] };

    fn last_socket(&self) -> u32 {
        0
    }

    fn last_refusal(&self) -> Option<Refusal> {
        Some(self.refusal)
    }
}

impl Listener for Refusing {
    ghost use Rattle.std.specs.Prelude.{None};

    type L = RealLink;

    ghost sockets = { λ l. None };

    ghost told = { λ l. None };

    ghost faults = { λ l. 0 };

    fn accept(&mut self) -> Accepted<RealLink> {
        Accepted::Idle
    }

    fn finish(&mut self, _link: RealLink) {}
}

/// Three callers are refused for this reason.
fn refuse_three(outlook: Arc<Outlook>, refusal: Refusal) {
    let mut saying = SayingListener::start(Refusing { refusal }, outlook);
    for _ in 0..3 {
        saying.accept();
    }
}

#[test]
fn refused_callers_are_said_once(rt: HostRuntime) {
    let (outlook, ours, mut theirs) = watched(&rt, &rt);
    let unattested = Refusal::Unattested { socket: 1 };
    refuse_three(one_more(&rt, &outlook), unattested);
    let uid_full = Refusal::UidFull { socket: 0, uid: 7 };
    refuse_three(one_more(&rt, &outlook), uid_full);
    let said = lines_of(&rt, &mut theirs);
    drop(ours);
    assert_eq!(rt;
        said.as_str(),
        "level=warn event=attestation_failed socket=1;\
        level=warn event=connections_of_uid_full socket=0 uid=7;"
    );
    let figures = outlook.figures().expect(&rt, "figures");
    let faults = figures.faults;
    drop(figures);
    assert_eq!(rt; (faults.unattested, faults.uid_full), (3, 3));
}

/// Says of this path that it can't be bound.
fn say_path(
    rt: &(impl AllocGlobal + Abort),
    outlook: &Outlook,
    path: &[u8],
    fault: BindFault,
    is_socket: bool,
) {
    let path = Octets::from_slice(rt.alloc(), path).expect(rt, "path");
    say_unbound(outlook.log(), rt.alloc(), &path, fault, is_socket);
}

#[test]
fn unbound_paths_are_said(rt: HostRuntime) {
    let (outlook, ours, mut theirs) = watched(&rt, &rt);
    say_path(&rt, &outlook, b"/a", BindFault::NotASocket, false);
    let refused = BindFault::Refused(ErrorKind::NotFound);
    say_path(&rt, &outlook, b"/b", refused, true);
    let denied = BindFault::Refused(ErrorKind::PermissionDenied);
    say_path(&rt, &outlook, b"/b", denied, true);
    let said = lines_of(&rt, &mut theirs);
    drop(ours);
    assert_eq!(rt;
        said.as_str(),
        "level=error event=bind_failed path=\"/a\" cause=not_a_socket;\
        level=error event=bind_failed path=\"/b\" cause=refused reason=not_found;\
        level=error event=bind_failed path=\"/b\" cause=stale_of_other_user;"
    );
}

#[test]
fn serving_is_said_once_and_a_failed_seat_has_all_stop(rt: HostRuntime) {
    let (outlook, ours, mut theirs) = watched(&rt, &rt);
    let stop = Arc::new(rt.alloc(), Stop::start()).expect(&rt, "stop");
    let shared = Arc::try_clone(&stop).expect(&rt, "stop");
    let gate = SayingGate::start(OpenGate, outlook, 3, shared);
    gate.pass(BEFORE_UPKEEP);
    gate.pass(BEFORE_KEEPING);
    gate.pass(BEFORE_KEEPING);
    let before = stop.is_asked();
    gate.pass(AFTER_FAILED_SEAT);
    let asked = (stop.is_asked(), stop.is_urgent());
    for _ in 0..6 {
        gate.pass(BEFORE_KEEPING);
    }
    assert!(rt; !before && asked == (true, false) && stop.is_urgent());
    let said = lines_of(&rt, &mut theirs);
    drop(ours);
    assert_eq!(rt; said.as_str(), "level=info event=serving sockets=3;");
}

#[test]
fn first_line_is_kept(rt: HostRuntime) {
    let alloc = rt.alloc();
    let sink = MemorySink::start(alloc, 9, 9_000, 9_000, Row::empty(alloc)).expect(&rt, "a sink");
    let mut keeping = KeepingSink::start(alloc, sink);
    keeping.write(b"fault config");
    keeping.write(b" 1\nmore");
    keeping.write(&[b'a'; 300]);
    assert_eq!(rt; keeping.first_line(), b"fault config 1".as_slice());
}
