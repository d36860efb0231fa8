//! A signer behind a socket: streams that are kept and dropped, numbers, and an answer that comes late.

use crate::tests::{ask_of, list};
use std::alloc::{AllocError, Global};
use std::io;
use std::io::{ErrorKind, Read, Write};
use std::os::unix::net::UnixListener;
use std::process::{Abort, id};
use std::rt::Clock;
use std::sync::atomic::{AtomicUsize, Ordering};
use std::thread::{join, sleep};
use std::time::Duration;
use wl_edge::{EdgeFault, Signer};
use wl_entry::Ask;
use wl_octets::{Memory, Octets, Row};
use wl_signlink::*;

/// Reads a line and drops it. False where none came.
fn passes_a_line(stream: &mut impl Read) -> io::Result<bool> {
    let mut byte = [0u8; 1];
    for _ in 0..10_000 {
        if stream.read(&mut byte)? == 0 {
            return Ok(false);
        }
        if byte == [b'\n'] {
            return Ok(true);
        }
    }
    Ok(false)
}

/// Answers each request of a connection by these texts, then ends the connection.
fn answers_one(listener: &UnixListener, replies: &[&str]) -> io::Result<()> {
    let (mut stream, _) = listener.accept()?;
    for reply in replies {
        if passes_a_line(&mut stream)? {
            stream.write_all(reply.as_bytes())?;
        }
    }
    Ok(())
}

/// Answers these connections in turn, and counts those that it ended.
fn answers(
    listener: &UnixListener,
    connections: &[&[&str]],
    ended: &AtomicUsize,
) -> io::Result<()> {
    for replies in connections {
        answers_one(listener, replies)?;
        ended.fetch_add(1, Ordering::SeqCst);
    }
    Ok(())
}

/// Waits until so many connections ended, some seconds at most.
fn wait_for(rt: &impl Clock, ended: &AtomicUsize, count: usize) {
    for _ in 0..5_000 {
        if ended.load(Ordering::SeqCst) >= count {
            return;
        }
        sleep(rt, Duration::from_millis(1));
    }
}

/// What a signer answers.
#[derive(Clone, Copy, Debug, PartialEq)]
enum Outcome {
    Due,
    Other,
    Failed,
    Memory,
}

/// The outcome of an answer, and whether it is the one that is due.
fn told(answer: Result<bool, EdgeFault>) -> Outcome {
    match answer {
        Ok(true) => Outcome::Due,
        Ok(false) => Outcome::Other,
        Err(EdgeFault::Failed) => Outcome::Failed,
        Err(EdgeFault::Memory) => Outcome::Memory,
    }
}

/// What a signer answers to the ask for an identity.
fn x509_outcome<S: Signer>(signer: &mut S, ask: &Ask) -> Outcome {
    match signer.sign_x509(ask) {
        Ok(signed) => told(Ok(signed.chain.as_slice() == [1].as_slice())),
        Err(fault) => told(Err(fault)),
    }
}

/// What a signer answers to the ask for a token.
fn jwt_outcome<S: Signer>(signer: &mut S, ask: &Ask, audience: &[Octets]) -> Outcome {
    match signer.sign_jwt(ask, audience) {
        Ok(token) => told(Ok(token.token.as_slice() == b"t".as_slice())),
        Err(fault) => told(Err(fault)),
    }
}

/// The first connection ends after an answer that has a late one after it; the second gives no reply that can be
/// read; the third ends before its second answer; the fourth hands back the number of its ask, and then the same again.
const CONNECTIONS: [&[&str]; 5] = [
    &[
        "{\"chain\":\"AQ==\",\"key\":\"Ag==\",\"not_before\":100,\"not_after\":200}\n",
        "{\"token\":\"t\",\"issued_at\":100,\"expires_at\":200}\n{\"chain\":\"Aw==\",\"key\":\"Ag==\",\"not_before\":1,\"not_after\":2}\n",
    ],
    &["{}\n"],
    &["{\"chain\":\"AQ==\",\"key\":\"Ag==\",\"not_before\":100,\"not_after\":200}\n"],
    &[
        "{\"number\":1,\"token\":\"t\",\"issued_at\":100,\"expires_at\":200}\n",
        "{\"number\":1,\"token\":\"t\",\"issued_at\":100,\"expires_at\":200}\n",
    ],
    &["{\"number\":1,\"token\":\"t\",\"issued_at\":100,\"expires_at\":200}\n"],
];

/// The outcomes of asks over the first three of these connections.
fn asked<S: Signer>(signer: &mut S, ask: &Ask, audience: &[Octets]) -> [Outcome; 4] {
    [
        x509_outcome(signer, ask),
        jwt_outcome(signer, ask, audience),
        x509_outcome(signer, ask),
        x509_outcome(signer, ask),
    ]
}

/// The outcomes over the last two: an answer with the number of another ask is none, and its stream is dropped.
fn asked_by_number<S: Signer>(signer: &mut S, ask: &Ask, audience: &[Octets]) -> [Outcome; 3] {
    [
        jwt_outcome(signer, ask, audience),
        jwt_outcome(signer, ask, audience),
        jwt_outcome(signer, ask, audience),
    ]
}

/// An ask and audiences.
#[derive(Drop)]
struct Asks {
    ask: Ask,
    audience: Row<Octets>,
}

fn make_asks(rt: &impl Abort, alloc: Global) -> Asks {
    Asks {
        ask: ask_of(rt, alloc, b"e1", &[]),
        audience: list(rt, alloc, &[b"x"]),
    }
}

const FOUND: [Outcome; 4] = [Outcome::Due, Outcome::Due, Outcome::Failed, Outcome::Due];

const FOUND_BY_NUMBER: [Outcome; 3] = [Outcome::Due, Outcome::Failed, Outcome::Due];

/// A path in the folder for temporary files that no other test uses.
fn path_of(rt: &HostRuntime, name: &str) -> Result<String, AllocError> {
    let path = format!(in rt.alloc(); "/tmp/wl_signlink_{name}_{}.sock", id(rt.process()))?;
    let _ = std::fs::remove_file(rt, path.as_str());
    Ok(path)
}

/// A link to the signer at a path, whose exchanges may take so many milliseconds.
fn link_within(
    rt: &HostRuntime,
    path: &str,
    milliseconds: u64,
) -> Result<SignLink<HostRuntime>, Memory> {
    let limit = Duration::from_millis(milliseconds);
    SignLink::start_within(rt, rt.alloc(), path.as_bytes(), limit)
}

#[test]
fn a_signer_behind_a_socket(rt: HostRuntime) {
    let path = path_of(&rt, "asks").expect(&rt, "memory");
    let listener = UnixListener::bind(&rt, path.as_str()).expect(&rt, "a listener");
    let mut link = SignLink::start(&rt, rt.alloc(), path.as_bytes()).expect(&rt, "memory");
    let asks = make_asks(&rt, rt.alloc());
    let audience = asks.audience.as_slice();
    let ended = AtomicUsize::new(0);
    let (served, (found, by_number)) = join(
        &rt,
        || answers(&listener, &CONNECTIONS, &ended).is_ok(),
        || {
            let found = asked(&mut link, &asks.ask, audience);
            wait_for(&rt, &ended, 3);
            (found, asked_by_number(&mut link, &asks.ask, audience))
        },
    );
    let _ = std::fs::remove_file(&rt, path.as_str());
    assert!(rt; served && found == FOUND && by_number == FOUND_BY_NUMBER);
    drop(asks);
}

/// How many milliseconds an exchange with a late signer may take.
const SHORT_LIMIT: u64 = 200;

/// Lets the first ask wait. Where another comes on its stream, answers that by what is due to the first; else answers
/// the next stream.
fn answers_late(listener: &UnixListener) -> io::Result<()> {
    let (mut stream, _) = listener.accept()?;
    if passes_a_line(&mut stream)? && passes_a_line(&mut stream)? {
        return stream.write_all(
            b"{\"chain\":\"Aw==\",\"key\":\"Ag==\",\"not_before\":1,\"not_after\":2}\n",
        );
    }
    answers_one(
        listener,
        &["{\"chain\":\"AQ==\",\"key\":\"Ag==\",\"not_before\":100,\"not_after\":200}\n"],
    )
}

#[test]
fn a_late_answer(rt: HostRuntime) {
    let path = path_of(&rt, "late").expect(&rt, "memory");
    let listener = UnixListener::bind(&rt, path.as_str()).expect(&rt, "a listener");
    let mut link = link_within(&rt, path.as_str(), SHORT_LIMIT).expect(&rt, "memory");
    let asks = make_asks(&rt, rt.alloc());
    let (served, found) = join(
        &rt,
        || answers_late(&listener).is_ok(),
        || {
            [
                x509_outcome(&mut link, &asks.ask),
                x509_outcome(&mut link, &asks.ask),
            ]
        },
    );
    let _ = std::fs::remove_file(&rt, path.as_str());
    assert!(rt; served && found == [Outcome::Failed, Outcome::Due]);
    drop(asks);
}

/// Takes an ask and sends a byte every few milliseconds that never become a line, until the peer is gone.
fn answers_in_drips(rt: &impl Clock, listener: &UnixListener) -> io::Result<()> {
    let (mut stream, _) = listener.accept()?;
    let _ = passes_a_line(&mut stream)?;
    for _ in 0..10_000 {
        if stream.write_all(b" ").is_err() {
            return Ok(());
        }
        sleep(rt, Duration::from_millis(10));
    }
    Err(io::Error::from(ErrorKind::TimedOut))
}

#[test]
fn an_answer_in_drips(rt: HostRuntime) {
    let path = path_of(&rt, "drips").expect(&rt, "memory");
    let listener = UnixListener::bind(&rt, path.as_str()).expect(&rt, "a listener");
    let mut link = link_within(&rt, path.as_str(), SHORT_LIMIT).expect(&rt, "memory");
    let asks = make_asks(&rt, rt.alloc());
    let (served, found) = join(
        &rt,
        || answers_in_drips(&rt, &listener).is_ok(),
        || x509_outcome(&mut link, &asks.ask),
    );
    let _ = std::fs::remove_file(&rt, path.as_str());
    assert!(rt; served && found == Outcome::Failed);
    drop(asks);
}
