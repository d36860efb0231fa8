//! The things in memory: which calls fail or are put off, and what is recorded.

ghost use Rattle.std.specs.Prelude.{◌≡◌, [], Some, IfOk};

use spiffe_id::SpiffeId;
use std::alloc::Global;
use std::test::Fail;
use wl_edge::{
    AcceptKind, Accepted, Attestor, AttestorCall, BEFORE_TURN, Bell, Clock, EdgeFault, Gate, Heard,
    Link, LinkPlan, Listener, ListenerPlan, MemoryAttestor, MemoryBell, MemoryClock, MemoryLink,
    MemoryListener, MemoryReady, MemorySigner, MemoryUpstream, OpenGate, Origin, PullCall, Ready,
    Received, Script, Sent, Signer, SignerCall, TrySent, Upstream,
};
use wl_entry::{Ask, JwtToken, Signed};
use wl_octets::{Memory, Octets, Row};
use wl_selector::{Selector, Selectors};

/// The list of these numbers.
fn numbers(alloc: Global, numbers: &[u64]) -> Result<Row<u64>, Memory> {
    Ok(Row::from_vec(Vec::from_slice(alloc, numbers)?))
}

/// The list of one item.
fn only<T: Drop>(alloc: Global, item: T) -> Result<Row<T>, Memory> {
    let mut row = Row::empty(alloc);
    row.push(item)?;
    Ok(row)
}

/// The list of these two items.
fn pair<T: Drop>(alloc: Global, first: T, second: T) -> Result<Row<T>, Memory> {
    let mut row = only(alloc, first)?;
    row.push(second)?;
    Ok(row)
}

/// What a call gave, or nothing where it failed. Out of memory stays a fault.
fn value_unless_failed<T: Drop>(answer: Result<T, EdgeFault>) -> Result<Option<T>, EdgeFault> {
    match answer {
        Ok(value) => Ok(Some(value)),
        Err(EdgeFault::Failed) => Ok(None),
        Err(EdgeFault::Memory) => Err(EdgeFault::Memory),
    }
}

fn ask(alloc: Global) -> Result<Ask, Fail> {
    Ok(Ask {
        entry_id: Octets::from_slice(alloc, b"e1")?,
        spiffe_id: SpiffeId::parse(alloc, b"spiffe://a.b/w")?,
        dns_names: Row::empty(alloc),
        ttl: 60,
    })
}

fn signed(alloc: Global) -> Result<Signed, Memory> {
    Ok(Signed {
        chain: Octets::from_slice(alloc, b"c")?,
        key: Octets::from_slice(alloc, b"k")?,
        not_before: 100,
        not_after: 200,
    })
}

fn token(alloc: Global) -> Result<JwtToken, Memory> {
    Ok(JwtToken {
        token: Octets::from_slice(alloc, b"t")?,
        issued_at: 100,
        expires_at: 200,
    })
}

fn identities(alloc: Global) -> Result<Script<Signed>, Memory> {
    let signed = signed(alloc)?;
    let answers = only(alloc, signed)?;
    Ok(Script::start(answers, numbers(alloc, &[0])?))
}

fn tokens(alloc: Global) -> Result<Script<JwtToken>, Memory> {
    let token = token(alloc)?;
    let answers = only(alloc, token)?;
    Ok(Script::start(answers, numbers(alloc, &[0])?))
}

/// A signer of an identity and a token, of which the first call of each kind fails.
fn signer(alloc: Global) -> Result<MemorySigner, Memory> {
    let identities = identities(alloc)?;
    let tokens = tokens(alloc)?;
    Ok(MemorySigner::start(alloc, identities, tokens))
}

/// Whether it fails to sign, and then gives the identity.
fn signs_then(alloc: Global, signer: &mut MemorySigner, ask: &Ask) -> Result<bool, EdgeFault> {
    let due = signed(alloc)?;
    let first = value_unless_failed(signer.sign_x509(ask))?;
    Ok(first.is_none() && signer.sign_x509(ask)? == due)
}

/// The same of the token.
fn gives_token_then(
    alloc: Global,
    signer: &mut MemorySigner,
    ask: &Ask,
    audience: &[Octets],
) -> Result<bool, EdgeFault> {
    let due = token(alloc)?;
    let first = value_unless_failed(signer.sign_jwt(ask, audience))?;
    Ok(first.is_none() && signer.sign_jwt(ask, audience)? == due)
}

/// Whether it tells of four calls, of which the last gave the token.
fn tells(
    alloc: Global,
    signer: &MemorySigner,
    ask: Ask,
    audience: Row<Octets>,
) -> Result<bool, Memory> {
    let last = SignerCall::Jwt(ask, audience, Some(token(alloc)?));
    let calls = signer.calls();
    Ok(calls.len() == 4 && calls.last().is_some_and(|call| *call == last))
}

fn audience(alloc: Global) -> Result<Row<Octets>, Memory> {
    let audience = Octets::from_slice(alloc, b"x")?;
    only(alloc, audience)
}

/// Whether it fails, signs and gives a token as it should, and tells of that.
fn signs_and_tells(alloc: Global, signer: &mut MemorySigner, ask: Ask) -> Result<bool, EdgeFault> {
    let audience = audience(alloc)?;
    let signs = signs_then(alloc, signer, &ask)?;
    let gives = gives_token_then(alloc, signer, &ask, audience.as_slice())?;
    Ok(signs && gives && tells(alloc, signer, ask, audience)?)
}

#[test]
fn a_signer_fails_once_and_then_signs(rt: HostRuntime) -> Result<(), Fail> {
    let mut signer = signer(rt.alloc())?;
    let ask = ask(rt.alloc())?;
    assert!(rt; signs_and_tells(rt.alloc(), &mut signer, ask)?);
    Ok(())
}

fn selector(alloc: Global) -> Result<Selector, Fail> {
    Ok(Selector::parse(alloc, b"unix:uid:1")?)
}

fn set(alloc: Global, items: Row<Selector>) -> Result<Selectors, Fail> {
    Ok(Selectors::from_list(alloc, items.into_vec(), 9)?)
}

/// The set of one selector.
fn one(alloc: Global) -> Result<Selectors, Fail> {
    let selector = selector(alloc)?;
    let items = only(alloc, selector)?;
    set(alloc, items)
}

/// An attestor that answers a set of one selector, then sets of none; its third call fails.
fn attestor(alloc: Global) -> Result<MemoryAttestor, Fail> {
    let one = one(alloc)?;
    let none = set(alloc, Row::empty(alloc))?;
    let answers = pair(alloc, one, none)?;
    let script = Script::start(answers, numbers(alloc, &[2])?);
    Ok(MemoryAttestor::start(alloc, script))
}

/// The origin of what comes over the socket of this number.
fn over(alloc: Global, socket: u32) -> Result<Origin, Fail> {
    let selectors = one(alloc)?;
    Ok(Origin::new(alloc, selectors, socket, None)?)
}

/// How many selectors a caller from there has, or nothing where the call failed.
fn count_of(attestor: &mut MemoryAttestor, origin: &Origin) -> Result<Option<usize>, EdgeFault> {
    let selectors = value_unless_failed(attestor.attest(origin))?;
    Ok(selectors.map(|set| set.as_slice().len()))
}

/// Whether the call of this number was for this origin, and failed.
fn is_failed(attestor: &MemoryAttestor, origin: Origin, number: usize) -> bool {
    let failed = AttestorCall {
        origin,
        answer: None,
    };
    attestor
        .calls()
        .get(number)
        .is_some_and(|call| *call == failed)
}

#[test]
fn an_attestor_gives_its_answers_in_turn(rt: HostRuntime) -> Result<(), Fail> {
    let mut attestor = attestor(rt.alloc())?;
    let mut counts = [None; 4];
    for (socket, count) in (0..4).zip(counts.iter_mut()) {
        *count = count_of(&mut attestor, &over(rt.alloc(), socket)?)?;
    }
    assert_eq!(rt; counts, [Some(1), Some(0), None, Some(0)]);
    assert!(rt; is_failed(&attestor, over(rt.alloc(), 2)?, 2));
    Ok(())
}

/// An upstream of the document `{}`, whose first pull fails.
fn upstream(alloc: Global) -> Result<MemoryUpstream, Memory> {
    let document = Octets::from_slice(alloc, b"{}")?;
    let documents = only(alloc, document)?;
    let script = Script::start(documents, numbers(alloc, &[0])?);
    Ok(MemoryUpstream::start(alloc, script))
}

/// Whether it tells of two pulls, of which the last put the document after `a`.
fn tells_pulls(alloc: Global, upstream: &MemoryUpstream) -> Result<bool, Memory> {
    let document = Octets::from_slice(alloc, b"{}")?;
    let last = PullCall {
        into: Octets::from_slice(alloc, b"a")?,
        answer: Some(document),
    };
    let is_last = upstream.calls().last().is_some_and(|call| *call == last);
    Ok(is_last && upstream.number() == 2)
}

/// Whether a pull fails and leaves what was there, and the next one appends the document.
fn fails_then_appends(upstream: &mut MemoryUpstream, into: &mut Octets) -> Result<bool, EdgeFault> {
    let first = value_unless_failed(upstream.pull(into))?;
    let left = into.as_slice() == b"a".as_slice();
    upstream.pull(into)?;
    Ok(first.is_none() && left && into.as_slice() == b"a{}".as_slice())
}

#[test]
fn an_upstream_fails_once_and_then_appends(rt: HostRuntime) -> Result<(), Fail> {
    let mut upstream = upstream(rt.alloc())?;
    let mut into = Octets::from_slice(rt.alloc(), b"a")?;
    assert!(rt; fails_then_appends(&mut upstream, &mut into)?);
    assert!(rt; tells_pulls(rt.alloc(), &upstream)?);
    Ok(())
}

#[test]
fn a_clock_repeats_its_last_answer(rt: HostRuntime) -> Result<(), Fail> {
    let alloc = rt.alloc();
    let mut clock = MemoryClock::start(numbers(alloc, &[5, 7])?);
    assert_eq!(rt;
        [clock.now(), clock.now(), clock.now(), clock.now()],
        [5, 7, 7, 7]
    );
    assert_eq!(rt; clock.repeats(), 2);
    assert_eq!(rt; MemoryClock::start(Row::empty(alloc)).now(), 0);
    Ok(())
}

fn push_piece(alloc: Global, gives: &mut Row<Heard>, bytes: &[u8]) -> Result<(), Memory> {
    let bytes = Octets::from_slice(alloc, bytes)?;
    Ok(gives.push(Heard::Piece(bytes))?)
}

/// What a link gives: `abc`, nothing, `d`.
fn gives(alloc: Global) -> Result<Row<Heard>, Memory> {
    let mut gives = Row::empty(alloc);
    push_piece(alloc, &mut gives, b"abc")?;
    gives.push(Heard::Idle)?;
    push_piece(alloc, &mut gives, b"d")?;
    Ok(gives)
}

/// A link that gives this, with room for six answers; its second receive fails.
fn giving(alloc: Global) -> Result<MemoryLink, Memory> {
    let gives = gives(alloc)?;
    let mut plan = LinkPlan::smooth(alloc, Origin::nowhere(alloc)?, gives, 6, 0);
    plan.failing_receives = numbers(alloc, &[1])?;
    MemoryLink::start(alloc, plan)
}

/// Whether it tells of six answers, of which the first gave `ab`, and of two failures.
fn tells_answers(alloc: Global, link: &MemoryLink) -> Result<bool, Memory> {
    let part = Heard::Piece(Octets::from_slice(alloc, b"ab")?);
    let gave = link.gave();
    let is_first = gave.first().is_some_and(|heard| *heard == part);
    Ok(is_first && gave.len() == 6 && link.failed_receives() == 2)
}

#[test]
fn a_link_gives_its_pieces_in_parts(rt: HostRuntime) -> Result<(), Fail> {
    let mut link = giving(rt.alloc())?;
    let mut room = [0; 2];
    let wanted = [
        (Received::Got(2), b'a'),
        (Received::Failed, b'a'),
        (Received::Got(1), b'c'),
        (Received::Idle, b'c'),
        (Received::Got(1), b'd'),
        (Received::End, b'd'),
        (Received::Failed, b'd'),
    ];
    for (answer, first) in wanted {
        assert!(rt; link.receive(&mut room) == answer && room[0] == first);
    }
    assert!(rt; tells_answers(rt.alloc(), &link)?);
    Ok(())
}

/// A link that takes two bytes at once and three in all; sendings are put off, and the fourth one fails.
fn taking(alloc: Global) -> Result<MemoryLink, Memory> {
    let mut plan = LinkPlan::smooth(alloc, Origin::nowhere(alloc)?, Row::empty(alloc), 0, 3);
    plan.stalling = numbers(alloc, &[0, 2])?;
    plan.failing_sends = numbers(alloc, &[3])?;
    plan.piece = 2;
    MemoryLink::start(alloc, plan)
}

/// What sendings answer that do not wait, and those that do.
fn sent(link: &mut MemoryLink) -> ([TrySent; 3], [Sent; 2]) {
    let put_off = link.try_send(b"abc");
    let two = link.try_send(b"abc");
    let one = link.send(b"c");
    let failed = link.try_send(b"d");
    ([put_off, two, failed], [one, link.send(b"d")])
}

#[test]
fn a_link_takes_puts_off_and_fails(rt: HostRuntime) -> Result<(), Fail> {
    let mut link = taking(rt.alloc())?;
    let (tried, waited) = sent(&mut link);
    assert!(rt; tried == [TrySent::Later, TrySent::Took(2), TrySent::Failed]);
    assert!(rt; waited == [Sent::Took(1), Sent::Failed]);
    assert_eq!(rt;
        (link.took(), link.stalls(), link.failed_sends()),
        (b"abc".as_slice(), 1, 2)
    );
    Ok(())
}

/// A listener of one link, whose second accept finds none and whose third fails.
fn listener(alloc: Global) -> Result<MemoryListener, Memory>
    ensures { IfOk result (λ l. ⟦<MemoryListener as Listener>⟧.told l ≡ Some (record { kinds = []; finished = [] })) }
{
    let plan = ListenerPlan {
        links: only(
            alloc,
            LinkPlan::smooth(alloc, Origin::nowhere(alloc)?, gives(alloc)?, 9, 9),
        )?,
        idle: numbers(alloc, &[1])?,
        failing: numbers(alloc, &[2])?,
        answers: 4,
    };
    MemoryListener::start(alloc, plan)
}

/// What the first link of a fresh listener gives, which is taken back.
fn given(listener: &mut MemoryListener) -> Received
    requires { ⟦<MemoryListener as Listener>⟧.told listener.old
        ≡ Some (record { kinds = []; finished = [] }) }
{
    let mut room = [0; 4];
    let mut first = Received::Failed;
    if let Accepted::Link(mut link) = listener.accept() {
        first = link.receive(&mut room);
        listener.finish(link);
    }
    first
}

/// Whether it then finds none, fails, ends, and fails for ever.
fn ends(listener: &mut MemoryListener) -> bool {
    matches!(listener.accept(), Accepted::Idle)
        && matches!(listener.accept(), Accepted::Failed)
        && matches!(listener.accept(), Accepted::End)
        && matches!(listener.accept(), Accepted::Failed)
}

#[test]
fn a_listener_gives_and_takes_back(rt: HostRuntime) -> Result<(), Fail> {
    let mut listener = listener(rt.alloc())?;
    assert!(rt; given(&mut listener) == Received::Got(3) && ends(&mut listener));
    let (link, idle) = (AcceptKind::Link, AcceptKind::Idle);
    let kinds = [link, idle, AcceptKind::Failed, AcceptKind::End];
    assert!(rt; listener.kinds() == kinds.as_slice());
    assert_eq!(rt; (listener.finished().len(), listener.faults()), (1, 2));
    Ok(())
}

fn link(alloc: Global) -> Result<MemoryLink, Memory> {
    let gives = gives(alloc)?;
    MemoryLink::start(
        alloc,
        LinkPlan::smooth(alloc, Origin::nowhere(alloc)?, gives, 9, 9),
    )
}

/// A watcher whose third call fails.
fn watcher(alloc: Global) -> Result<MemoryReady, Memory> {
    Ok(MemoryReady::start(alloc, numbers(alloc, &[2])?))
}

/// Whether it takes two links, and then fails.
fn takes_and_fails(
    ready: &mut MemoryReady,
    link: &mut MemoryLink,
    told: &mut Row<u32>,
) -> Result<bool, EdgeFault> {
    ready.add(7, link)?;
    ready.add(8, link)?;
    let waited = value_unless_failed(Ready::<MemoryLink>::wait(ready, told))?;
    Ok(waited.is_none())
}

/// It gives one link up, takes another one, and tells.
fn tell_again(
    ready: &mut MemoryReady,
    link: &mut MemoryLink,
    told: &mut Row<u32>,
) -> Result<(), EdgeFault> {
    ready.remove(7, link);
    ready.add(9, link)?;
    Ready::<MemoryLink>::wait(ready, told)
}

#[test]
fn a_watcher_tells_of_all_and_fails_once(rt: HostRuntime) -> Result<(), Fail> {
    let mut ready = watcher(rt.alloc())?;
    let mut link = link(rt.alloc())?;
    let mut told = Row::empty(rt.alloc());
    assert!(rt; takes_and_fails(&mut ready, &mut link, &mut told)?);
    tell_again(&mut ready, &mut link, &mut told)?;
    assert!(rt; told.as_slice() == [8, 9].as_slice());
    Ok(())
}

#[test]
fn a_bell_counts_its_rings(rt: HostRuntime) {
    let bell = MemoryBell::start();
    bell.ring();
    OpenGate.pass(BEFORE_TURN);
    assert_eq!(rt; bell.rings(), 1);
}
