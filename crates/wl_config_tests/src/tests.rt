//! What a configuration says.

use std::alloc::Global;
use std::net::{IpAddr, Ipv4Addr, Ipv6Addr, SocketAddr};
use std::process::Abort;
use wl_config::*;
use wl_edge::{Attestor, Origin};

const EXAMPLE: &str =
    r#"{"version":1,"upstream":"/run/authority.sock","signer":"/run/signer.sock","poll_seconds":5,"signers":7,"log":"debug","metrics":"/m","threads":3,"stall_seconds":40,"opening_seconds":50,"memory_mib":60,"sockets":[{"path":"/run/web.sock","owner":1000,"group":33,"mode":"0660","workers":4,"selectors":["unix:uid:1000"]}]}"#;

/// Who may open a file: its owner, its group and its mode.
fn guarded(owner: Option<u32>, group: Option<u32>, mode: u32) -> SocketGuard {
    SocketGuard { owner, group, mode }
}

/// Asserts that a socket is as it is said to be.
fn is_socket(
    rt: &impl Abort,
    socket: &SocketFact,
    path: &str,
    guard: SocketGuard,
    connections: u32,
    selectors: &[&str],
) {
    assert_eq!(rt; socket.place.name().as_slice(), path.as_bytes());
    match &socket.place {
        SocketPlace::Path {
            path: found,
            guard: open,
        } => {
            assert_eq!(rt; found.as_slice(), path.as_bytes());
            assert_eq!(rt; *open, guard);
        }
        SocketPlace::Loopback { .. } => panic!(rt; "a path"),
    }
    has_callers(rt, socket, connections, selectors);
}

/// Asserts how many connections a socket serves, and the selectors of its callers.
fn has_callers(rt: &impl Abort, socket: &SocketFact, connections: u32, selectors: &[&str]) {
    assert_eq!(rt; socket.connections, connections);
    let found = socket.selectors.as_slice();
    assert_eq!(rt; found.len(), selectors.len());
    for (selector, wanted) in found.iter().zip(selectors.iter()) {
        assert_eq!(rt; selector.as_bytes(), wanted.as_bytes());
    }
}

/// The path of the authority's socket, of the file of documents, and of the signer's socket.
fn suppliers(config: &Config) -> [Option<&[u8]>; 3] {
    let (socket, file) = match &config.documents {
        DocumentSource::Socket(path) => (Some(path.as_slice()), None),
        DocumentSource::File(path) => (None, Some(path.as_slice())),
    };
    let signer = match &config.signer {
        Some(path) => Some(path.as_slice()),
        None => None,
    };
    [socket, file, signer]
}

fn config_of(rt: &impl Abort, alloc: Global, text: &str) -> Config {
    read_config(alloc, text.as_bytes()).expect(rt, "a configuration")
}

/// Asserts the path of the authority's socket, of the file of documents, and of the signer's socket.
fn is_supplied(rt: &impl Abort, config: &Config, wanted: [Option<&[u8]>; 3]) {
    assert!(rt; suppliers(config) == wanted);
}

/// A node that is run by two files.
#[test]
fn a_document_without_a_signer(rt: HostRuntime) {
    let text = r#"{"version":1,"document":"d","sockets":[{"path":"/a","selectors":["a:1"]}]}"#;
    let config = config_of(&rt, rt.alloc(), text);
    is_supplied(&rt, &config, [None, Some(b"d"), None]);
    drop(config);
}

/// Asserts that a caller of a socket is attested to the socket's own selectors.
fn is_attested(rt: &impl Abort, alloc: Global, socket: &SocketFact) {
    let own = socket.selectors.copy(alloc).expect(rt, "memory");
    let origin = Origin::new(alloc, own, 0, None).expect(rt, "memory");
    let selectors = SocketAttestor::start(alloc)
        .attest(&origin)
        .expect(rt, "selectors");
    assert!(rt; selectors == socket.selectors);
}

/// Asserts how many threads serve, and the limits of connections in the order of their members.
fn are_limits(rt: &impl Abort, config: &Config, threads: u32, limits: [u32; 3]) {
    let found = &config.limits;
    assert_eq!(rt; config.threads, threads);
    assert!(rt; [found.stall_seconds, found.opening_seconds, found.memory_mib] == limits);
}

fn is_example(rt: &impl Abort, alloc: Global, config: &Config) {
    is_supplied(
        rt,
        config,
        [
            Some(b"/run/authority.sock"),
            None,
            Some(b"/run/signer.sock"),
        ],
    );
    assert_eq!(rt; config.poll_seconds, 5);
    assert!(rt; (config.signers, config.log) == (7, LogLevel::Debug));
    match &config.metrics {
        Some(MetricsPlace::Path(path)) => assert_eq!(rt; path.as_slice(), b"/m".as_slice()),
        _ => panic!(rt; "a path"),
    }
    are_limits(rt, config, 3, [40, 50, 60]);
    match config.sockets.as_slice() {
        [web] => {
            let open = guarded(Some(1_000), Some(33), 0o660);
            is_socket(rt, web, "/run/web.sock", open, 4, &["unix:uid:1000"]);
            is_attested(rt, alloc, web);
        }
        _ => panic!(rt; "one socket"),
    }
}

#[test]
fn config_calls(rt: HostRuntime) {
    let config = config_of(&rt, rt.alloc(), EXAMPLE);
    is_example(&rt, rt.alloc(), &config);
    drop(config);
}

fn has_defaults(rt: &impl Abort, config: &Config) {
    is_supplied(rt, config, [Some(b"u"), None, Some(b"s")]);
    assert_eq!(rt; config.poll_seconds, 5);
    assert!(rt; (config.signers, config.log) == (4, LogLevel::Info));
    assert!(rt; config.metrics.is_none());
    are_limits(rt, config, 2, [30, 20, 256]);
    match config.sockets.as_slice() {
        [first, second] => {
            let own = guarded(None, None, 0o600);
            is_socket(rt, first, "/b\n", own, 64, &["a:1", "b:2"]);
            is_socket(rt, second, "/a", own, 28, &["a:1"]);
        }
        _ => panic!(rt; "two sockets"),
    }
}

#[test]
fn defaults_and_order(rt: HostRuntime) {
    let text =
        r#" {"sockets":[{"selectors":["b:2","a:1","b:2"],"path":"/b\n","extra":0},{"path":"/a","selectors":["a:1"],"workers":28}],"signer":"s","upstream":"u","version":1} "#;
    let config = config_of(&rt, rt.alloc(), text);
    has_defaults(&rt, &config);
    drop(config);
}

/// Asserts that a socket is for this uid, with the selectors of the first socket and one of its own.
fn is_of_uid(rt: &impl Abort, socket: &SocketFact, uid: u32, path: &str, own: &str) {
    let guard = guarded(Some(uid), None, 0o600);
    is_socket(rt, socket, path, guard, 2, &["a:1", own, "z:1"]);
}

/// A socket for each uid, whose selector is one of its own, beside those that are given.
#[test]
fn sockets_by_uid(rt: HostRuntime) {
    let text =
        r#"{"version":1,"document":"d","sockets":[{"path":"/r/{uid}.s","uids":["33","1000-1001"],"selectors":["z:1","a:1"],"connections":2},{"path":"{uid}","uids":["0"]}]}"#;
    let config = config_of(&rt, rt.alloc(), text);
    match config.sockets.as_slice() {
        [web, first, second, root] => {
            is_of_uid(&rt, web, 33, "/r/33.s", "unix:uid:33");
            is_of_uid(&rt, first, 1_000, "/r/1000.s", "unix:uid:1000");
            is_of_uid(&rt, second, 1_001, "/r/1001.s", "unix:uid:1001");
            let guard = guarded(Some(0), None, 0o600);
            is_socket(&rt, root, "0", guard, 64, &["unix:uid:0"]);
        }
        _ => panic!(rt; "four sockets"),
    }
    drop(config);
}

/// Asserts that a socket is at a loopback address.
fn is_endpoint(rt: &impl Abort, socket: &SocketFact, text: &str, address: SocketAddr, each: u32) {
    assert_eq!(rt; socket.place.name().as_slice(), text.as_bytes());
    match &socket.place {
        SocketPlace::Loopback {
            text: found,
            address: at,
            connections_per_uid,
        } => {
            assert_eq!(rt; found.as_slice(), text.as_bytes());
            assert_eq!(rt; *at, address);
            assert_eq!(rt; *connections_per_uid, each);
        }
        SocketPlace::Path { .. } => panic!(rt; "an address"),
    }
}

/// An endpoint at a loopback address of each version, and figures at another.
#[test]
fn loopback_endpoints(rt: HostRuntime) {
    let text =
        r#"{"version":1,"document":"d","metrics":"127.0.0.1:9469","sockets":[{"tcp":"127.2.3.4:8082","connections_per_uid":3,"connections":9},{"tcp":"[::1]:65535","selectors":["b:1","a:1"]}]}"#;
    let config = config_of(&rt, rt.alloc(), text);
    match config.sockets.as_slice() {
        [first, second] => {
            let address = IpAddr::V4(Ipv4Addr::new(127, 2, 3, 4));
            let address = SocketAddr::new(address, 8_082);
            is_endpoint(&rt, first, "127.2.3.4:8082", address, 3);
            has_callers(&rt, first, 9, &[]);
            let address = SocketAddr::new(IpAddr::V6(Ipv6Addr::LOCALHOST), 65_535);
            is_endpoint(&rt, second, "[::1]:65535", address, 64);
            has_callers(&rt, second, 64, &["a:1", "b:1"]);
            is_attested_to(&rt, rt.alloc(), 0, first, Some(33), "unix:uid:33 ");
        }
        _ => panic!(rt; "two sockets"),
    }
    match &config.metrics {
        Some(MetricsPlace::Loopback(at)) => {
            let localhost = IpAddr::V4(Ipv4Addr::LOCALHOST);
            assert_eq!(rt; *at, SocketAddr::new(localhost, 9_469));
        }
        _ => panic!(rt; "an address"),
    }
    drop(config);
}

/// Asserts the mode of a socket with these digits.
fn is_mode(rt: &impl Abort, alloc: Global, digits: &str, mode: u32) {
    let text = format!(in alloc;
        r#"{{"version":1,"document":"d","sockets":[{{"path":"s","mode":"{digits}","selectors":["a:1"]}}]}}"#
    ).expect(rt, "memory");
    let config = config_of(rt, alloc, text.as_str());
    match config.sockets.as_slice() {
        [
            SocketFact {
                place: SocketPlace::Path { guard, .. },
                ..
            },
        ] => assert_eq!(rt; guard.mode, mode, "of {digits}"),
        _ => panic!(rt; "one path"),
    }
    drop(config);
}

/// Each mode by its digits.
#[test]
fn modes(rt: HostRuntime) {
    for (digits, mode) in [
        ("0", 0),
        ("7", 0o7),
        ("70", 0o70),
        ("0600", 0o600),
        ("660", 0o660),
        ("0642", 0o642),
        ("0777", 0o777),
    ] {
        is_mode(&rt, rt.alloc(), digits, mode);
    }
}

/// Asserts what a caller of this uid is attested to over this socket, as texts with a space after each.
fn is_attested_to(
    rt: &impl Abort,
    alloc: Global,
    number: u32,
    socket: &SocketFact,
    uid: Option<u32>,
    wanted: &str,
) {
    let own = socket.selectors.copy(alloc).expect(rt, "memory");
    let origin = Origin::new(alloc, own, number, uid).expect(rt, "memory");
    let selectors = SocketAttestor::start(alloc)
        .attest(&origin)
        .expect(rt, "selectors");
    let mut text = String::new(alloc);
    for selector in selectors.as_slice() {
        let selector = str::from_utf8(selector.as_bytes()).expect(rt, "text");
        text.push_str(selector).expect(rt, "memory");
        text.push(' ').expect(rt, "memory");
    }
    assert_eq!(rt; text.as_str(), wanted);
}

/// By the socket, and by the uid where the kernel names it. A selector that both give counts once.
#[test]
fn attested_by_origin(rt: HostRuntime) {
    let alloc = rt.alloc();
    let text =
        r#"{"version":1,"upstream":"u","signer":"s","sockets":[{"path":"a","selectors":["x:1"]},{"path":"b","selectors":["b:2","unix:uid:33"]}]}"#;
    let config = config_of(&rt, alloc, text);
    match config.sockets.as_slice() {
        [first, second] => {
            is_attested_to(&rt, alloc, 0, first, None, "x:1 ");
            is_attested_to(&rt, alloc, 0, first, Some(33), "unix:uid:33 x:1 ");
            let both = "b:2 unix:uid:0 unix:uid:33 ";
            is_attested_to(&rt, alloc, 1, second, Some(0), both);
            is_attested_to(&rt, alloc, 1, second, Some(33), "b:2 unix:uid:33 ");
        }
        _ => panic!(rt; "two sockets"),
    }
    drop(config);
}
