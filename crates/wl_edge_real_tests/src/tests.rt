//! Each thing over the operating system's.

ghost use Rattle.std.specs.Prelude.{◌≡◌, [], Some, IfOk};
ghost use Rattle.wl_edge.specs.Listeners.{HasOpenLink};

use std::alloc::{AllocGlobal, Global};
use std::fs::Files;
use std::io::{Read, Write};
use std::net::Net;
use std::os::unix::fs::PermissionsExt;
use std::os::unix::net::{UnixListener, UnixStream};
use std::sync::Arc;
use std::test::Fail;
use std::time::{Duration, Instant};
use std::{env, fs, process, thread};
use wl_edge::{
    Accepted, BEFORE_TURN, BEFORE_UPKEEP, Bell, Clock, EdgeFault, Gate, Link, Listener, Origin,
    Ready, Received, Sent, TrySent, Upstream,
};
use wl_edge_real::{
    BindFault, DialedLink, Guard, MAX_OPEN_LINKS, OpenLinks, Pace, RealBell, RealClock, RealGate,
    RealLink, RealListener, RealReady, RealUpstream, Stop, bind,
};
use wl_octets::{Octets, Row};
use wl_selector::{Selector, Selectors};

/// A path of this test's own at which nothing stands.
pub(crate) fn path_of(rt: &HostRuntime, name: &str) -> Result<String, Fail> {
    let directory = env::temp_dir(rt)?;
    let file = format!(in rt.alloc(); "wl-{}-{name}", process::id(rt.process()))?;
    let path = directory.join(rt.alloc(), file.as_str())?;
    let path = String::from_str(rt.alloc(), path.as_path().as_str())?;
    let _ = fs::remove_file(rt, path.as_str());
    Ok(path)
}

/// The first link of a listener to which a peer has connected.
pub(crate) fn accepted(listener: &mut RealListener) -> Result<RealLink, Fail>
    requires { ⟦<RealListener as Listener>⟧.told listener.old ≡ Some (record { kinds = []; finished = [] }) }
    ensures { IfOk result (λ _. HasOpenLink (⟦<RealListener as Listener>⟧.told listener.new)) }
{
    match listener.accept() {
        Accepted::Link(link) => Ok(link),
        _ => Err("no link")?,
    }
}

/// The next link of a listener to which a peer has connected. One that is watched gives one of them before a wait, and then says once that
/// none is there.
pub(crate) fn next_link(listener: &mut RealListener) -> Result<RealLink, Fail> {
    for _ in 0..2 {
        if let Accepted::Link(link) = listener.accept() {
            return Ok(link);
        }
    }
    Err("no link")?
}

/// Read and write for the process's own user.
pub(crate) const OWN: Guard = Guard {
    owner: None,
    group: None,
    mode: 0o600,
};

/// A listener at no socket.
pub(crate) fn nowhere<R: AllocGlobal + Net>(rt: &R) -> Result<RealListener, Fail>
    ensures { IfOk result (λ l. ⟦<RealListener as Listener>⟧.told l ≡ Some (record { kinds = []; finished = [] })) }
{
    let all = OpenLinks::share(rt.alloc(), MAX_OPEN_LINKS)?;
    Ok(RealListener::start(rt, rt.alloc(), all)?)
}

/// Has a listener listen at this path, too.
pub(crate) fn listen_at<R: AllocGlobal + Files + Net>(
    rt: &R,
    listener: &mut RealListener,
    path: &str,
    origin: Origin,
    connections: u32,
) -> Result<(), Fail>
    ensures { ⟦<RealListener as Listener>⟧.told listener.new ≡ ⟦<RealListener as Listener>⟧.told listener.old }
{
    match bind(rt, rt.alloc(), path, OWN) {
        Ok(socket) => Ok(listener.add(socket, origin, connections)?),
        Err(_) => Err("bind")?,
    }
}

/// A listener at this path.
pub(crate) fn bound<R: AllocGlobal + Files + Net>(rt: &R, path: &str) -> Result<RealListener, Fail>
    ensures { IfOk result (λ l. ⟦<RealListener as Listener>⟧.told l ≡ Some (record { kinds = []; finished = [] })) }
{
    let mut listener = nowhere(rt)?;
    let origin = Origin::nowhere(rt.alloc())?;
    listen_at(rt, &mut listener, path, origin, u32::MAX)?;
    Ok(listener)
}

/// Whether a file that isn't a socket stays.
fn leaves_a_file<R: AllocGlobal + Files + Net>(rt: &R, path: &str) -> Result<bool, Fail> {
    fs::write(rt, path, "abc")?;
    let refused = bind(rt, rt.alloc(), path, OWN).err();
    let text = fs::read_to_string(rt, path)?;
    fs::remove_file(rt, path)?;
    Ok(refused == Some(BindFault::NotASocket) && text.as_str() == "abc")
}

/// Whether nobody else can listen where one listens.
fn is_taken<R: Files + Net>(rt: &R, alloc: Global, path: &str) -> Result<bool, Fail> {
    Ok(bind(rt, alloc, path, OWN).err() == Some(BindFault::Taken))
}

#[test]
fn a_listener_replaces_what_is_stale(rt: HostRuntime) -> Result<(), Fail> {
    let path = path_of(&rt, "stale")?;
    assert!(rt; leaves_a_file(&rt, path.as_str())?);
    let mut listener = bound(&rt, path.as_str())?;
    assert!(rt; matches!(listener.accept(), Accepted::Idle));
    assert!(rt; is_taken(&rt, rt.alloc(), path.as_str())?);
    drop(listener);
    drop(bound(&rt, path.as_str())?);
    fs::remove_file(&rt, path.as_str())?;
    Ok(())
}

/// Whether nothing stands beside a socket in its folder, and the socket's file has this mode.
fn stands_alone(rt: &HostRuntime, folder: &str, path: &str, mode: u32) -> Result<bool, Fail> {
    let mut count: u32 = 0;
    for entry in fs::read_dir(rt, folder)? {
        entry?;
        count = count.saturating_add(1);
    }
    let found = fs::symlink_metadata(rt, path)?.permissions().mode();
    Ok(count == 1 && found & 0o777 == mode)
}

/// The umask takes no bit of a mode away, and the hidden folder is gone, whatever name it found.
#[test]
fn a_socket_has_its_mode(rt: HostRuntime) -> Result<(), Fail> {
    let folder = path_of(&rt, "guarded")?;
    fs::create_dir(&rt, folder.as_str())?;
    let path = format!(in rt.alloc(); "{folder}/w.sock")?;
    for mode in [0o600, 0o666, 0o777, 0o660, 0] {
        let guard = Guard { mode, ..OWN };
        let listener = bind(&rt, rt.alloc(), path.as_str(), guard).map_err(|_| "bind")?;
        assert!(rt;
            stands_alone(&rt, folder.as_str(), path.as_str(), mode)?,
            "{mode}"
        );
        drop(listener);
        fs::remove_file(&rt, path.as_str())?;
    }
    fs::remove_dir(&rt, folder.as_str())?;
    Ok(())
}

/// Whether a link hears its peer, and it the link, until the peer is gone.
fn carries(link: &mut RealLink, mut peer: UnixStream) -> Result<bool, Fail> {
    let mut room = [0; 8];
    let idle = link.receive(&mut room);
    peer.write_all(b"abc")?;
    let got = link.receive(&mut room);
    let sent = link.send(b"de");
    drop(peer);
    let heard = (idle, got) == (Received::Idle, Received::Got(3)) && room.starts_with(b"abc");
    Ok(heard && sent == Sent::Took(2) && link.try_send(b"f") == TrySent::Failed)
}

#[test]
fn a_listener_gives_links(rt: HostRuntime) -> Result<(), Fail> {
    let path = path_of(&rt, "listen")?;
    let mut listener = bound(&rt, path.as_str())?;
    let peer = UnixStream::connect(&rt, path.as_str())?;
    let mut link = accepted(&mut listener)?;
    assert!(rt; carries(&mut link, peer)?);
    listener.finish(link);
    fs::remove_file(&rt, path.as_str())?;
    Ok(())
}

/// Whether the next link takes three bytes and is then finished.
fn says_bye(listener: &mut RealListener) -> Result<bool, Fail>
    requires { ⟦<RealListener as Listener>⟧.told listener.old ≡ Some (record { kinds = []; finished = [] }) }
{
    let mut link = accepted(listener)?;
    let answer = link.try_send(b"bye");
    listener.finish(link);
    Ok(answer == TrySent::Took(3))
}

/// Whether these three bytes come, and then the end.
fn reads_bye(alloc: Global, peer: &mut UnixStream) -> Result<bool, Fail> {
    let mut text = Vec::new(alloc);
    peer.read_to_end(&mut text)?;
    Ok(text.as_slice() == b"bye".as_slice())
}

/// What a peer reads of a connection that was finished over bytes of its own that nobody read: the last bytes, then
/// the end.
#[test]
fn a_finished_link_gives_its_peer_the_end(rt: HostRuntime) -> Result<(), Fail> {
    let path = path_of(&rt, "finish")?;
    let mut listener = bound(&rt, path.as_str())?;
    let mut peer = UnixStream::connect(&rt, path.as_str())?;
    peer.write_all(b"unread")?;
    assert!(rt; says_bye(&mut listener)? && reads_bye(rt.alloc(), &mut peer)?);
    fs::remove_file(&rt, path.as_str())?;
    Ok(())
}

/// Sends until the link takes no more for now: its last answer.
pub(crate) fn fill(link: &mut RealLink) -> TrySent {
    let piece = [1; 65_536];
    let mut last = TrySent::Failed;
    for _ in 0..1_000 {
        last = link.try_send(&piece);
        if last == TrySent::Later {
            break;
        }
    }
    last
}

#[test]
fn a_link_puts_off_what_its_peer_does_not_read(rt: HostRuntime) -> Result<(), Fail> {
    let (near, far) = UnixStream::pair(&rt)?;
    let origin = Origin::nowhere(rt.alloc())?;
    let mut link = RealLink::start(origin, near)?;
    let mut room = [0; 4];
    assert_eq!(rt; fill(&mut link), TrySent::Later);
    assert_eq!(rt; link.receive(&mut room), Received::Idle);
    far.shutdown(std::net::Shutdown::Write)?;
    assert_eq!(rt; link.receive(&mut room), Received::End);
    Ok(())
}

/// The set of one selector.
fn one_selector(alloc: Global) -> Result<Selectors, Fail> {
    let mut items = Vec::new(alloc);
    items.push(Selector::parse(alloc, b"app:web").map_err(|_| "selector")?)?;
    Ok(Selectors::from_list(alloc, items, 1).map_err(|_| "selectors")?)
}

/// The numbers that the next wait appends.
pub(crate) fn told(alloc: Global, ready: &mut RealReady<HostRuntime>) -> Result<Row<u32>, Fail> {
    let mut numbers = Row::empty(alloc);
    ready.wait(&mut numbers).map_err(|_| "wait")?;
    Ok(numbers)
}

/// The numbers that the first wait appends that appends any, within ten of them.
pub(crate) fn next_told(
    alloc: Global,
    ready: &mut RealReady<HostRuntime>,
) -> Result<Row<u32>, Fail> {
    for _ in 0..9 {
        let numbers = told(alloc, ready)?;
        if numbers.len() > 0 {
            return Ok(numbers);
        }
    }
    told(alloc, ready)
}

#[test]
fn a_watcher_tells_of_links_and_a_bell_of_all(rt: HostRuntime) -> Result<(), Fail> {
    let alloc = rt.alloc();
    let path = path_of(&rt, "ready")?;
    let origin = Origin::new(alloc, one_selector(alloc)?, 7, None)?;
    let mut listener = nowhere(&rt)?;
    listen_at(&rt, &mut listener, path.as_str(), origin.share()?, 3)?;
    let (mut ready, bell) = RealReady::start(&rt, alloc, &listener, None)?;
    let mut peers = Vec::new(alloc);
    let mut links = Vec::new(alloc);
    for number in 3..6 {
        peers.push(UnixStream::connect(&rt, path.as_str())?)?;
        let mut link = next_link(&mut listener)?;
        assert!(rt; *link.origin() == origin);
        assert_eq!(rt; ready.add(number, &mut link), Ok(()));
        links.push(link)?;
    }
    // All are new, so all may be ready, and two are listed at a time; once each was found idle, none is.
    assert_eq!(rt; told(alloc, &mut ready)?.as_slice(), [3, 4].as_slice());
    assert_eq!(rt; told(alloc, &mut ready)?.as_slice(), [5, 3].as_slice());
    let mut room = [0; 2];
    for link in links.iter_mut() {
        assert_eq!(rt; link.receive(&mut room), Received::Idle);
    }
    let _ = told(alloc, &mut ready)?;
    assert_eq!(rt; told(alloc, &mut ready)?.len(), 0);

    // A link with bytes that were not read stays in the list.
    if let Some(peer) = peers.get_mut(1) {
        peer.write_all(b"abc")?;
    }
    for _ in 0..2 {
        assert_eq!(rt; told(alloc, &mut ready)?.as_slice(), [4].as_slice());
        if let Some(link) = links.get_mut(1) {
            let _ = link.receive(&mut room);
        }
    }
    if let Some(link) = links.get_mut(1) {
        assert_eq!(rt; link.receive(&mut room), Received::Idle);
    }
    assert_eq!(rt; told(alloc, &mut ready)?.len(), 0);

    // After a ring, from another thread, each that is watched is reported.
    if let Some(link) = links.get_mut(0) {
        ready.remove(3, link);
    }
    let ringer = thread::spawn(&rt, move || ring_later(&rt, bell))?;
    assert_eq!(rt; next_told(alloc, &mut ready)?.as_slice(), [4, 5].as_slice());
    ringer.join(&rt);
    fs::remove_file(&rt, path.as_str())?;
    Ok(())
}

/// Whether waits tell of a link for each of these: bytes that come, which are read whole; the last bytes together with
/// the end, and then the end; and of nothing else.
fn tells_to_the_end(
    alloc: Global,
    ready: &mut RealReady<HostRuntime>,
    link: &mut RealLink,
    mut peer: UnixStream,
) -> Result<bool, Fail> {
    let mut room = [0; 4];
    peer.write_all(b"ab")?;
    let first = (told(alloc, ready)?.len(), link.receive(&mut room));
    let between = told(alloc, ready)?.len();
    peer.write_all(b"c")?;
    drop(peer);
    let last = (told(alloc, ready)?.len(), link.receive(&mut room));
    let end = (told(alloc, ready)?.len(), link.receive(&mut room));
    let came = (first, last) == ((1, Received::Got(2)), (1, Received::Got(1)));
    Ok(came && (between, end) == (0, (1, Received::End)))
}

#[test]
fn a_watcher_tells_of_what_comes_and_of_the_end(rt: HostRuntime) -> Result<(), Fail> {
    let path = path_of(&rt, "end")?;
    let mut listener = bound(&rt, path.as_str())?;
    let (mut ready, _bell) = RealReady::start(&rt, rt.alloc(), &listener, None)?;
    let peer = UnixStream::connect(&rt, path.as_str())?;
    let mut link = accepted(&mut listener)?;
    assert_eq!(rt; ready.add(7, &mut link), Ok(()));
    assert!(rt; tells_to_the_end(rt.alloc(), &mut ready, &mut link, peer)?);
    fs::remove_file(&rt, path.as_str())?;
    Ok(())
}

/// A peer that connects after an accept found none is found once a wait was told of it.
#[test]
fn a_watched_listener_gives_links_after_a_wait(rt: HostRuntime) -> Result<(), Fail> {
    let path = path_of(&rt, "arrival")?;
    let mut listener = bound(&rt, path.as_str())?;
    let (mut ready, _bell) = RealReady::start(&rt, rt.alloc(), &listener, None)?;
    assert!(rt; matches!(listener.accept(), Accepted::Idle));
    let _peer = UnixStream::connect(&rt, path.as_str())?;
    assert!(rt; matches!(listener.accept(), Accepted::Idle));
    assert_eq!(rt; told(rt.alloc(), &mut ready)?.len(), 0);
    let _link = next_link(&mut listener)?;
    fs::remove_file(&rt, path.as_str())?;
    Ok(())
}

/// Reads all that a link sent.
fn read_away(peer: &mut UnixStream) -> Result<(), Fail> {
    let mut room = [0; 65_536];
    peer.set_nonblocking(true)?;
    for _ in 0..1_000 {
        if !matches!(peer.read(&mut room), Ok(count) if count > 0) {
            break;
        }
    }
    Ok(())
}

/// Whether no wait tells of a link with bytes that were not read while it is stalled, and one does once its peer reads;
/// then it is stalled no more.
fn waits_for_its_peer(
    alloc: Global,
    ready: &mut RealReady<HostRuntime>,
    link: &mut RealLink,
    peer: &mut UnixStream,
) -> Result<bool, Fail> {
    let mut room = [0; 2];
    peer.write_all(b"abcd")?;
    let got = link.receive(&mut room);
    let filled = fill(link);
    let _ = told(alloc, ready)?;
    let stalled = told(alloc, ready)?;
    read_away(peer)?;
    let later = next_told(alloc, ready)?;
    let sent = link.try_send(b"x");
    let _ = told(alloc, ready)?;
    let held = (got, filled, stalled.len()) == (Received::Got(2), TrySent::Later, 0);
    Ok(held && later.as_slice() == [7].as_slice() && sent == TrySent::Took(1))
}

#[test]
fn a_watcher_tells_of_a_stalled_link_once_its_peer_reads(rt: HostRuntime) -> Result<(), Fail> {
    let path = path_of(&rt, "stalled")?;
    let mut listener = bound(&rt, path.as_str())?;
    let (mut ready, _bell) = RealReady::start(&rt, rt.alloc(), &listener, None)?;
    let mut peer = UnixStream::connect(&rt, path.as_str())?;
    let mut link = accepted(&mut listener)?;
    assert_eq!(rt; ready.add(7, &mut link), Ok(()));
    for _ in 0..2 {
        assert!(rt; waits_for_its_peer(rt.alloc(), &mut ready, &mut link, &mut peer)?);
    }
    fs::remove_file(&rt, path.as_str())?;
    Ok(())
}

/// Rings a bell after a moment.
fn ring_later(rt: &HostRuntime, bell: RealBell) -> RealBell {
    thread::sleep(rt, Duration::from_millis(30));
    bell.ring();
    bell
}

/// Answers one connection with a document, and ends it.
fn answer_once(listener: UnixListener, document: &'static [u8]) -> bool {
    match listener.accept() {
        Ok((mut stream, _)) => stream.write_all(document).is_ok(),
        Err(_) => false,
    }
}

#[test]
fn an_upstream_reads_a_document_at_each_pull(rt: HostRuntime) -> Result<(), Fail> {
    let path = path_of(&rt, "upstream")?;
    let mut upstream = RealUpstream::start(
        rt,
        rt.alloc(),
        String::from_str(rt.alloc(), path.as_str())?,
    );
    let mut into = Octets::from_slice(rt.alloc(), b"a")?;
    assert_eq!(rt; upstream.pull(&mut into), Err(EdgeFault::Failed));
    let listener = UnixListener::bind(&rt, path.as_str())?;
    let server = thread::spawn(&rt, move || answer_once(listener, b"{}"))?;
    assert_eq!(rt; upstream.pull(&mut into), Ok(()));
    assert!(rt; server.join(&rt));
    assert_eq!(rt; into.as_slice(), b"a{}".as_slice());
    fs::remove_file(&rt, path.as_str())?;
    Ok(())
}

#[test]
fn a_dialed_link_connects_at_its_first_sending(rt: HostRuntime) -> Result<(), Fail> {
    let path = path_of(&rt, "dialed")?;
    let mut link = DialedLink::start(rt, rt.alloc(), String::from_str(rt.alloc(), path.as_str())?)?;
    let mut room = [0; 8];
    assert_eq!(rt; link.receive(&mut room), Received::Idle);
    assert_eq!(rt; link.send(b"a"), Sent::Failed);
    let listener = UnixListener::bind(&rt, path.as_str())?;
    let server = thread::spawn(&rt, move || answer_once(listener, b"bc"))?;
    assert_eq!(rt; link.try_send(b"a"), TrySent::Took(1));
    assert!(rt; server.join(&rt));
    assert_eq!(rt; link.receive(&mut room), Received::Got(2));
    fs::remove_file(&rt, path.as_str())?;
    Ok(())
}

#[test]
fn a_clock_tells_the_time_and_a_gate_holds_upkeep(rt: HostRuntime) -> Result<(), Fail> {
    let mut clock = RealClock::start(rt);
    let stop = Arc::new(rt.alloc(), Stop::start())?;
    let pace = Arc::new(rt.alloc(), Pace::start(3))?;
    let gate = RealGate::start(rt, Arc::try_clone(&pace)?, Arc::try_clone(&stop)?);
    let before = clock.now();
    gate.pass(BEFORE_TURN);
    gate.pass(BEFORE_UPKEEP);
    assert!(rt; clock.now() < before.saturating_add(3));
    let begun = Instant::now(&rt)?;
    gate.pass(BEFORE_UPKEEP);
    assert!(rt; begun.elapsed(&rt)? >= Duration::from_secs(3));
    stop.ask();
    let asked = Instant::now(&rt)?;
    gate.pass(BEFORE_UPKEEP);
    assert!(rt; asked.elapsed(&rt)? < Duration::from_secs(3));
    assert!(rt; before > 1_700_000_000 && clock.now() > before);
    Ok(())
}

/// Whether a link that is to end gives what came first, and then its end.
fn gives_what_came(link: &mut RealLink, peer: &mut UnixStream) -> bool {
    let mut room = [0; 4];
    let is_sent = peer.write_all(b"ab").is_ok();
    let got = (link.receive(&mut room), link.receive(&mut room));
    is_sent && got == (Received::Got(2), Received::End)
}

/// How many links a wait lists.
fn count_listed(alloc: Global, ready: &mut RealReady<HostRuntime>) -> usize {
    let mut numbers = Row::empty(alloc);
    let _ = ready.wait(&mut numbers);
    numbers.len()
}

/// Whether a wait lists no idle link, and lists it once a stop was asked for.
fn lists_at_a_stop(alloc: Global, ready: &mut RealReady<HostRuntime>, stop: &Stop) -> bool {
    let _ = count_listed(alloc, ready);
    let before = count_listed(alloc, ready);
    stop.ask();
    before == 0 && count_listed(alloc, ready) == 1
}

/// Whether a link that is stalled fails after an urgent stop, and is at its end whatever its peer has sent.
fn fails_where_urgent(link: &mut RealLink, peer: &mut UnixStream, stop: &Stop) -> bool {
    let filled = fill(link);
    stop.hurry();
    let is_sent = peer.write_all(b"ab").is_ok();
    let last = (link.try_send(b"x"), link.receive(&mut [0; 4]));
    is_sent && filled == TrySent::Later && last == (TrySent::Failed, Received::End)
}

#[test]
fn after_a_stop_links_and_their_listener_end(rt: HostRuntime) -> Result<(), Fail> {
    let alloc = rt.alloc();
    let path = path_of(&rt, "stop")?;
    let stop = Arc::new(alloc, Stop::start())?;
    let mut listener = bound(&rt, path.as_str())?;
    listener.obey(Arc::try_clone(&stop)?);
    let (mut ready, bell) = RealReady::start(&rt, alloc, &listener, None)?;
    let mut peer = UnixStream::connect(&rt, path.as_str())?;
    let mut link = next_link(&mut listener)?;
    let is_idle = ready.add(7, &mut link).is_ok() && link.receive(&mut [0; 4]) == Received::Idle;
    let is_listed = lists_at_a_stop(alloc, &mut ready, &stop);
    let is_over = matches!(listener.accept(), Accepted::End);
    let gives = gives_what_came(&mut link, &mut peer);
    let fails = fails_where_urgent(&mut link, &mut peer, &stop);
    drop((ready, bell, listener, link, peer));
    let _ = fs::remove_file(&rt, path.as_str());
    assert_eq!(rt; [is_idle, is_listed, is_over, gives, fails], [true; 5]);
    Ok(())
}
