//! What is said and counted of documents, and which entries lack an identity.

use call_counts::{CallCounts, CallMethod, CallStatus};
use event_log::{FaultLine, Level};
use figures::{Shows, SigningKind, SigningResult};
use log_output::{Log, LogOutput};
use spiffe_id::{SpiffeId, TrustDomain};
use std::alloc::{AllocGlobal, Global};
use std::io::Read;
use std::os::fd::AsRawFd;
use std::os::unix::net::UnixStream;
use std::process::Abort;
use std::sync::Arc;
use wl_document::DocFault;
use wl_entry::{Ask, Entry, Signed};
use wl_octets::{Memory, Octets, Row};
use wl_outlook::*;
use wl_selector::{Selector, Selectors};

/// A document with no entry.
const GOOD: &[u8] =
    br#"{"version":1,"trust_domain":"a.b","bundles":[{"trust_domain":"a.b","x509":"AQ=="}],"entries":[]}"#;

/// One with a fault.
const BAD: &[u8] = b"{\"version\":9}";

/// A document with the entries `one` and `two`.
const TWO: &[u8] =
    br#"{"version":1,"trust_domain":"a.b","bundles":[{"trust_domain":"a.b","x509":"AQ=="}],"entries":[
{"id":"one","spiffe_id":"spiffe://a.b/one","selectors":["unix:uid:1"],"ttl":60},
{"id":"two","spiffe_id":"spiffe://a.b/two","selectors":["unix:uid:2"],"ttl":60}]}"#;

/// One without `one`, with another `two`, and with a new entry.
const OTHERS: &[u8] =
    br#"{"version":1,"trust_domain":"a.b","bundles":[{"trust_domain":"a.b","x509":"AQ=="}],"entries":[
{"id":"three","spiffe_id":"spiffe://a.b/three","selectors":["unix:uid:1"],"ttl":60},
{"id":"two","spiffe_id":"spiffe://a.b/two","selectors":["unix:uid:3"],"ttl":60}]}"#;

/// Calls each fault by one name.
#[derive(Drop)]
struct OneName;

impl FaultLines for OneName {
    fn line_of(&self, alloc: Global, _fault: DocFault) -> Result<Option<FaultLine>, Memory> {
        FaultLine::read(alloc, b"fault document 2")
    }
}

/// What is known of an agent, and both ends of its log.
fn watched(
    own: &HostRuntime,
    rt: &(impl AllocGlobal + Abort),
) -> (Arc<Outlook>, UnixStream, UnixStream) {
    let alloc = rt.alloc();
    let (ours, theirs) = UnixStream::pair(own).expect(rt, "streams");
    let output = LogOutput::over(ours.as_raw_fd(), false);
    let log = Log::over(own.clone().expect(rt, "runtime"), output, Level::Info, None);
    let log = Arc::new(alloc, log).expect(rt, "log");
    let outlook = Outlook::start(alloc, log);
    (Arc::new(alloc, outlook).expect(rt, "outlook"), ours, theirs)
}

/// What the log says so far.
fn text_of(rt: &(impl AllocGlobal + Abort), reader: &mut UnixStream) -> String {
    let mut bytes = [0u8; 2_000];
    let count = reader.read(&mut bytes).expect(rt, "lines");
    let text = str::from_utf8(bytes.get(..count).unwrap_or(&[])).expect(rt, "text");
    String::from_str(rt.alloc(), text).expect(rt, "memory")
}

/// Whether threads may share it.
fn is_shared<T: Send + Sync>(_value: &T) -> bool {
    true
}

/// The judge takes two good documents and two of the other.
fn judge_four(rt: &(impl AllocGlobal + Abort), outlook: &Arc<Outlook>) {
    let owner = Arc::try_clone(outlook).expect(rt, "owner");
    let mut judge = DocumentJudge::start(rt.alloc(), owner, OneName);
    for (document, is_good) in [(GOOD, true), (GOOD, true), (BAD, false), (BAD, false)] {
        assert_eq!(rt; judge.note_document(document), is_good);
    }
}

/// Asserts what was counted of them.
fn counts_four(rt: &(impl AllocGlobal + Abort), outlook: &Outlook) {
    let figures = outlook.figures().expect(rt, "figures");
    let documents = figures.documents;
    assert_eq!(rt;
        (documents.taken, documents.refused, documents.failed),
        (2, 2, 0)
    );
    assert_eq!(rt;
        (figures.entries, figures.bundles, figures.document_age),
        (0, 1, Some(0))
    );
    drop(figures);
}

fn is_ready(rt: &(impl AllocGlobal + Abort), outlook: &Outlook) -> bool {
    let health = outlook.health().expect(rt, "health");
    let ready = health.is_ready();
    drop(health);
    ready
}

#[test]
fn documents_are_counted_and_judged_once(rt: HostRuntime) {
    let (outlook, _ours, mut theirs) = watched(&rt, &rt);
    assert!(rt; !is_ready(&rt, &outlook));
    outlook.note_taken(1);
    judge_four(&rt, &outlook);
    outlook.note_taken(2);
    outlook.note_taken(3);
    counts_four(&rt, &outlook);
    assert!(rt; is_ready(&rt, &outlook) && is_shared(&outlook));
    let said = text_of(&rt, &mut theirs);
    let taken =
        "level=info event=document_taken publication=2 entries=0 bundles=1 changed=0 removed=0\n";
    let refused =
        "level=warn event=document_refused fault=\"fault document 2\" text=\"version: is neither 1 nor 2\"\n";
    assert!(rt; said.lines().count() == 2 && said.contains(taken) && said.contains(refused));
}

/// A document is compared with the last that was taken, though one was refused in between.
#[test]
fn documents_are_compared_with_the_one_before(rt: HostRuntime) {
    let (outlook, _ours, mut theirs) = watched(&rt, &rt);
    let owner = Arc::try_clone(&outlook).expect(&rt, "owner");
    let mut judge = DocumentJudge::start(rt.alloc(), owner, OneName);
    for (publication, document) in [(4, TWO), (5, BAD), (6, OTHERS), (9, TWO)] {
        judge.note_document(document);
        outlook.note_taken(publication);
    }
    let said = text_of(&rt, &mut theirs);
    let mut counts = said
        .lines()
        .filter_map(|line| line.split_once("document_taken "));
    for expected in [
        "publication=4 entries=2 bundles=1 changed=2 removed=0",
        "publication=6 entries=2 bundles=1 changed=2 removed=1",
        "publication=9 entries=2 bundles=1 changed=2 removed=1",
    ] {
        let found = counts.next().map(|parts| parts.1);
        assert_eq!(rt; found, Some(expected));
    }
}

#[test]
fn what_is_noted_is_counted(rt: HostRuntime) {
    let (outlook, _ours, _theirs) = watched(&rt, &rt);
    outlook.note_ask(SigningKind::X509, SigningResult::Signed, 0);
    outlook.note_ask(SigningKind::Jwt, SigningResult::Failed, 0);
    outlook.note_opened(0);
    outlook.note_closed(0);
    outlook.note_step();
    let figures = outlook.figures().expect(&rt, "figures");
    assert_eq!(rt; (figures.x509.signed, figures.jwt.failed), (1, 1));
    assert_eq!(rt; figures.seconds.count, 2);
    drop(figures);
    let health = outlook.health().expect(&rt, "health");
    assert!(rt; health.is_live);
    drop(health);
}

/// Counts of three calls: one is answered by a message, one is refused, and one's caller went away.
fn three_calls() -> CallCounts {
    let mut calls = CallCounts::zero();
    for (method, status) in [
        (CallMethod::FetchX509Svid, CallStatus::PermissionDenied),
        (CallMethod::FetchX509Svid, CallStatus::Cancelled),
        (CallMethod::Check, CallStatus::Ok),
    ] {
        calls.count_begin(method);
        calls.count_end(method, status);
    }
    calls.count_message(CallMethod::Check);
    calls
}

/// Calls that ended are said where the log says each connection, and nowhere else.
#[test]
fn calls_are_said_at_the_last_level(rt: HostRuntime) {
    let (outlook, _ours, mut theirs) = watched(&rt, &rt);
    let calls = three_calls();
    outlook.note_calls(0, None, &calls);
    outlook.log().set_level(Level::Debug);
    outlook.note_calls(1, Some(7), &calls);
    outlook.note_calls(1, None, &CallCounts::zero());
    outlook.note_publication(4);
    let said = text_of(&rt, &mut theirs);
    let mut calls = said
        .lines()
        .filter_map(|line| line.split_once("event=call "));
    for expected in [
        "socket=1 method=FetchX509SVID status=CANCELLED uid=7",
        "socket=1 method=FetchX509SVID status=PERMISSION_DENIED uid=7",
        "socket=1 method=Check status=OK uid=7",
    ] {
        let found = calls.next().map(|parts| parts.1);
        assert_eq!(rt; found, Some(expected));
    }
    assert!(rt; calls.next().is_none());
    let figures = outlook.figures().expect(&rt, "figures");
    assert_eq!(rt; figures.publication, Some(4));
    drop(figures);
}

fn octets(rt: &(impl AllocGlobal + Abort), bytes: &[u8]) -> Octets {
    Octets::from_slice(rt.alloc(), bytes).expect(rt, "memory")
}

fn spiffe_id(rt: &(impl AllocGlobal + Abort)) -> SpiffeId {
    SpiffeId::parse(rt.alloc(), b"spiffe://a.b/one").expect(rt, "an id")
}

/// The ask of the entry with this id.
fn ask(rt: &(impl AllocGlobal + Abort), id: &[u8]) -> Ask {
    Ask {
        entry_id: octets(rt, id),
        spiffe_id: spiffe_id(rt),
        dns_names: Row::empty(rt.alloc()),
        ttl: 60,
    }
}

/// An identity of the entry with this id was signed, which is valid from the second 1,000 on, and ends then.
fn sign(rt: &(impl AllocGlobal + Abort), standing: &mut Standing, id: &[u8], end: u64) {
    let ask = ask(rt, id);
    let signed = Signed {
        chain: octets(rt, b"chain"),
        key: octets(rt, b"key"),
        not_before: 1_000,
        not_after: end,
    };
    standing.note_signed(&ask, &signed);
    drop(signed);
    drop(ask);
}

/// A signer is asked for the entry with this id.
fn begin(rt: &(impl AllocGlobal + Abort), standing: &Standing, id: &[u8]) -> UnderWay {
    let ask = ask(rt, id);
    let asked = standing.begin_ask(&ask);
    drop(ask);
    asked
}

/// Asserts how many entries are kept, due, in flight and missing then.
fn are(rt: &(impl AllocGlobal + Abort), standing: &Standing, now: u64, expected: [u64; 4]) {
    let all = standing.identities(now);
    let found = [all.kept, all.due, all.in_flight, all.missing];
    assert_eq!(rt; found, expected, "at {now}");
}

/// An entry with this id, whose identity lasts so long.
fn entry(rt: &(impl AllocGlobal + Abort), id: &[u8], ttl: u32) -> Entry {
    let none = Selectors::from_list(rt.alloc(), Vec::new(rt.alloc()), 1);
    Entry {
        id: octets(rt, id),
        spiffe_id: spiffe_id(rt),
        selectors: none.expect(rt, "a set"),
        federates_with: Row::<TrustDomain>::empty(rt.alloc()),
        dns_names: Row::empty(rt.alloc()),
        ttl,
        hint: Octets::empty(rt.alloc()),
    }
}

/// A document comes then with the entries `one` and `two`, of which the second one's identity lasts so long.
fn take(rt: &(impl AllocGlobal + Abort), standing: &mut Standing, ttl: u32, now: u64) {
    take_renewed(rt, standing, ttl, 0, now);
}

/// The same, of a document with this `renew_before`.
fn take_renewed(
    rt: &(impl AllocGlobal + Abort),
    standing: &mut Standing,
    ttl: u32,
    renew_before: u64,
    now: u64,
) {
    let entries = [entry(rt, b"one", 60), entry(rt, b"two", ttl)];
    let taken = standing.take_document(&entries, renew_before, now);
    taken.expect(rt, "memory");
    drop(entries);
}

/// Asserts how many entries lack an identity then.
fn lack(rt: &(impl AllocGlobal + Abort), standing: &Standing, now: u64, count: usize) {
    let lacking = standing.lacking(now).expect(rt, "memory");
    assert_eq!(rt; lacking.len(), count, "at {now}");
}

#[test]
fn entries_lack_identities_after_a_minute(rt: HostRuntime) {
    let mut standing = Standing::start(rt.alloc());
    assert!(rt; !standing.has_document());
    take(&rt, &mut standing, 60, 1_000);
    lack(&rt, &standing, 1_060, 0);
    lack(&rt, &standing, 1_061, 2);
    sign(&rt, &mut standing, b"one", 1_100);
    sign(&rt, &mut standing, b"three", 1_100);
    lack(&rt, &standing, 1_061, 1);
    lack(&rt, &standing, 1_161, 2);
    take(&rt, &mut standing, 90, 1_150);
    lack(&rt, &standing, 1_161, 1);
}

#[test]
fn identities_are_kept_and_then_due(rt: HostRuntime) {
    let mut standing = Standing::start(rt.alloc());
    take(&rt, &mut standing, 60, 1_000);
    are(&rt, &standing, 1_000, [0, 0, 0, 2]);
    sign(&rt, &mut standing, b"one", 1_100);
    are(&rt, &standing, 1_049, [1, 0, 0, 1]);
    are(&rt, &standing, 1_050, [0, 1, 0, 1]);
    are(&rt, &standing, 1_100, [0, 0, 0, 2]);
    // it was signed while a clock was ahead
    are(&rt, &standing, 999, [0, 1, 0, 1]);
    take_renewed(&rt, &mut standing, 60, 1_000, 1_010);
    are(&rt, &standing, 1_010, [1, 0, 0, 1]);
    take_renewed(&rt, &mut standing, 60, 1_001, 1_010);
    are(&rt, &standing, 1_010, [0, 1, 0, 1]);
}

/// Two asks of one entry count once, until the last has ended.
#[test]
fn entries_are_in_flight_while_signers_are_asked(rt: HostRuntime) {
    let mut standing = Standing::start(rt.alloc());
    take(&rt, &mut standing, 60, 1_000);
    let (first, second) = (begin(&rt, &standing, b"one"), begin(&rt, &standing, b"one"));
    let nobodys = begin(&rt, &standing, b"three");
    are(&rt, &standing, 1_010, [0, 0, 1, 1]);
    first.end();
    nobodys.end();
    sign(&rt, &mut standing, b"one", 1_100);
    are(&rt, &standing, 1_010, [0, 0, 1, 1]);
    second.end();
    are(&rt, &standing, 1_010, [1, 0, 0, 1]);
}

/// A document that replaces an entry leaves its ask to nobody; one that doesn't change it leaves it as it is.
#[test]
fn replaced_entries_are_not_in_flight(rt: HostRuntime) {
    let mut standing = Standing::start(rt.alloc());
    take(&rt, &mut standing, 60, 1_000);
    let (one, two) = (begin(&rt, &standing, b"one"), begin(&rt, &standing, b"two"));
    are(&rt, &standing, 1_010, [0, 0, 2, 0]);
    take(&rt, &mut standing, 90, 1_010);
    are(&rt, &standing, 1_010, [0, 0, 1, 1]);
    two.end();
    are(&rt, &standing, 1_010, [0, 0, 1, 1]);
    one.end();
    are(&rt, &standing, 1_010, [0, 0, 0, 2]);
}

#[test]
fn ended_identities_are_said_once(rt: HostRuntime) {
    let (outlook, _ours, mut theirs) = watched(&rt, &rt);
    let mut standing = Standing::start(rt.alloc());
    take(&rt, &mut standing, 60, 1_000);
    sign(&rt, &mut standing, b"one", 1_100);
    let identities = standing.identities(1_050);
    assert_eq!(rt;
        (identities.due, identities.missing, identities.next_end),
        (1, 1, Some(50))
    );
    for now in [1_099, 1_100, 1_101] {
        standing.say_ended(outlook.log(), now);
    }
    let said = text_of(&rt, &mut theirs);
    assert_eq!(rt; said.lines().count(), 1);
    assert!(rt; said.ends_with("level=warn event=identity_ended entry=\"one\"\n"));
}

/// The selectors of a caller, or of an entry: one with this text.
fn selectors(rt: &(impl AllocGlobal + Abort), text: &[u8]) -> Selectors {
    let selector = Selector::parse(rt.alloc(), text).expect(rt, "a selector");
    let items = vec![in rt.alloc(); selector].expect(rt, "memory");
    Selectors::from_list(rt.alloc(), items, 1).expect(rt, "a set")
}

/// A document comes then with one entry, for callers that have `a:1`.
fn take_guarded(rt: &(impl AllocGlobal + Abort), standing: &mut Standing, now: u64) {
    let mut guarded = entry(rt, b"one", 60);
    guarded.selectors = selectors(rt, b"a:1");
    let entries = [guarded];
    standing
        .take_document(&entries, 0, now)
        .expect(rt, "memory");
    drop(entries);
}

/// Two sockets, of which the second has callers that have `a:1`.
fn two_sockets(rt: &(impl AllocGlobal + Abort)) -> Callers {
    let callers = Callers::start(rt.alloc());
    for (number, text) in [(0, b"b:1".as_slice()), (1, b"a:1".as_slice())] {
        let selectors = selectors(rt, text);
        let added = callers.add_socket(rt.alloc(), number, &selectors);
        added.expect(rt, "memory");
        drop(selectors);
    }
    callers
}

/// It is said once of an entry, after ten seconds, where a caller that is entitled to it is connected; and once again where
/// the identity that was signed then has ended.
#[test]
fn waiting_callers_are_said_once(rt: HostRuntime) {
    let (outlook, _ours, mut theirs) = watched(&rt, &rt);
    let callers = two_sockets(&rt);
    let mut standing = Standing::start(rt.alloc());
    take_guarded(&rt, &mut standing, 1_000);
    callers.note_opened(0);
    standing.say_waiting(outlook.log(), &callers, 1_020);
    callers.note_opened(1);
    for now in [1_009, 1_010, 1_011] {
        standing.say_waiting(outlook.log(), &callers, now);
    }
    callers.note_closed(1);
    sign(&rt, &mut standing, b"one", 1_100);
    standing.say_waiting(outlook.log(), &callers, 1_120);
    callers.note_opened(1);
    standing.say_waiting(outlook.log(), &callers, 1_109);
    standing.say_waiting(outlook.log(), &callers, 1_110);
    let said = text_of(&rt, &mut theirs);
    assert_eq!(rt; said.lines().count(), 2);
    assert!(rt; said.ends_with("level=warn event=caller_waits socket=1 entry=\"one\"\n"));
}

/// A caller of a socket that was given up may wait on, until its connection is over. A number is not used twice.
#[test]
fn callers_of_a_socket_that_is_given_up_may_wait(rt: HostRuntime) {
    let (outlook, _ours, _theirs) = watched(&rt, &rt);
    let (path, wanted) = (octets(&rt, b"/run/a"), selectors(&rt, b"a:1"));
    let added = [(); 2].map(|()| outlook.add_socket(&path, &wanted).ok());
    assert_eq!(rt; added, [Some(0), Some(1)]);
    outlook.remove_socket(0);
    assert_eq!(rt; outlook.add_socket(&path, &wanted).ok(), Some(2));
    let callers = two_sockets(&rt);
    callers.note_opened(1);
    callers.remove_socket(1);
    assert_eq!(rt; callers.entitled_to(&wanted), Some(1));
    callers.note_closed(1);
    callers.note_opened(1);
    assert_eq!(rt; callers.entitled_to(&wanted), None);
    drop(wanted);
}
