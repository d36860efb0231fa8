//! What serving comes to.

use super::bytes::{HEAD, LEAF, MESSAGE, NEXT_HEAD, NEXT_MESSAGE, OPENING, TWO};
use super::gates::Holding;
use super::hosts::{CALLS, LINKS, Stop, Trial, served};
use std::alloc::Global;
use std::rt::Clock;
use std::sync::Wait;
use std::test::Fail;
use std::thread::Threads;
use wl_config::ConfigFault;
use wl_document::DocFault;
use wl_edge::{BEFORE_SIGNING, Gate, OpenGate};
use wl_serve::{MemoryHost, Parts, ServeEnd};
use wl_worker::SeatEnd;

/// What is served, and its end.
const ENDS: [(Trial, ServeEnd); 10] = [
    (LINKS, ServeEnd::Done),
    // the first pull, and later ones
    (
        Trial {
            pulls: &[0],
            ..LINKS
        },
        ServeEnd::NoDocument,
    ),
    (
        Trial {
            pulls: &[1, 2, 3, 4],
            ..LINKS
        },
        ServeEnd::Done,
    ),
    (
        Trial {
            accepts: &[1],
            ..LINKS
        },
        ServeEnd::HostFault,
    ),
    (
        Trial {
            waits: &[1],
            ..LINKS
        },
        ServeEnd::HostFault,
    ),
    (
        Trial {
            configuration: b"{",
            ..LINKS
        },
        ServeEnd::Config(ConfigFault::NotJson),
    ),
    (
        Trial {
            document: b"{",
            ..LINKS
        },
        ServeEnd::Document(DocFault::NotJson),
    ),
    // more sockets than seats
    (
        Trial {
            configuration: TWO,
            ..LINKS
        },
        ServeEnd::Unprepared,
    ),
    // sockets that can't be opened; nobody tries that before the first document was taken
    (
        Trial {
            is_shut: true,
            ..LINKS
        },
        ServeEnd::Unprepared,
    ),
    (
        Trial {
            is_shut: true,
            pulls: &[0],
            ..LINKS
        },
        ServeEnd::NoDocument,
    ),
];

/// The end, over a gate that holds nobody.
fn end_of<R: Threads + Wait + Sync>(
    rt: &R,
    alloc: Global,
    trial: &Trial,
) -> Result<ServeEnd, Stop> {
    let (end, _) = served(rt, alloc, trial, OpenGate)?;
    Ok(end)
}

#[test]
fn each_end(rt: HostRuntime) -> Result<(), Fail> {
    for (trial, end) in &ENDS {
        assert_eq!(rt; end_of(&rt, rt.alloc(), trial)?, *end);
    }
    Ok(())
}

/// How the first seat ended, and how many links it finished.
fn first_seat<G: Gate + Sync + Drop>(
    kept: &Option<Parts<MemoryHost<G>>>,
) -> Option<(SeatEnd, usize)> {
    let seat = kept.as_ref()?.seats.first()?;
    Some((seat.end?, seat.listener.finished().len()))
}

#[test]
fn all_links_are_served(rt: HostRuntime) -> Result<(), Fail> {
    let (_, kept) = served(&rt, rt.alloc(), &LINKS, OpenGate)?;
    assert_eq!(rt; first_seat(&kept), Some((SeatEnd::End, 2)));
    Ok(())
}

/// Whether one of the seats was served, or has finished a link.
fn was_served<G: Gate + Sync + Drop>(kept: &Option<Parts<MemoryHost<G>>>) -> Option<bool> {
    let seats = kept.as_ref()?.seats.as_slice();
    Some(seats.iter().any(|seat| seat.end.is_some() || !seat.listener.finished().is_empty()))
}

#[test]
fn sockets_that_cannot_be_opened(rt: HostRuntime) -> Result<(), Fail> {
    let trial = Trial {
        is_shut: true,
        ..LINKS
    };
    let (end, kept) = served(&rt, rt.alloc(), &trial, OpenGate)?;
    assert_eq!(rt; end, ServeEnd::Unprepared);
    assert_eq!(rt; was_served(&kept), Some(false));
    Ok(())
}

/// Whether the bytes hold this part.
fn holds(bytes: &[u8], part: &[u8]) -> bool {
    for at in 0..bytes.len() {
        if bytes[at..].starts_with(part) {
            return true;
        }
    }
    false
}

/// How many links of this seat took this.
pub fn takers_at<G: Gate + Sync + Drop>(
    kept: &Option<Parts<MemoryHost<G>>>,
    seat: usize,
    part: &[u8],
) -> Option<usize> {
    let links = kept.as_ref()?.seats.get(seat)?.listener.finished();
    Some(links.iter().filter(|link| holds(link.took(), part)).count())
}

/// How many links took this, where each turn is held until the signer waits for a second ask, so that the identity is signed.
fn takers_of<R: Threads + Wait + Sync + Clock>(
    rt: &R,
    alloc: Global,
    trial: &Trial,
    part: &[u8],
) -> Result<Option<usize>, Stop> {
    let (_, kept) = served(rt, alloc, trial, Holding::start(rt, BEFORE_SIGNING, 2))?;
    Ok(takers_at(&kept, 0, part))
}

/// The id of a message, and the chain's field.
const ID_IN_MESSAGE: &[u8] = b"\x0a\x0espiffe://a.b/w\x12";

/// The same with the length of the sample's leaf and its first bytes.
pub const LEAF_IN_MESSAGE: &[u8] = b"spiffe://a.b/w\x12\x58\x30\x56\x30\x4f";

/// A call on stream 1, whose caller cannot be attested, and one on stream 3.
const TWO_CALLS: Trial = Trial {
    pieces: &[OPENING, HEAD, MESSAGE, NEXT_HEAD, NEXT_MESSAGE],
    attests: &[0],
    links: 1,
    ..LINKS
};

#[test]
fn an_attestor_that_fails_once(rt: HostRuntime) -> Result<(), Fail> {
    for part in [b"caller cannot be attested".as_slice(), LEAF_IN_MESSAGE] {
        assert_eq!(rt; takers_of(&rt, rt.alloc(), &TWO_CALLS, part)?, Some(1));
    }
    Ok(())
}

/// The chain that the signer gives, and how many of the two links take a message.
const CHAINS: [(&[u8], usize); 2] = [(LEAF, 2), (b"\x01", 0)];

#[test]
fn the_store_is_strict(rt: HostRuntime) -> Result<(), Fail> {
    for (chain, count) in CHAINS {
        let trial = Trial { chain, ..CALLS };
        assert_eq!(rt;
            takers_of(&rt, rt.alloc(), &trial, ID_IN_MESSAGE)?,
            Some(count)
        );
    }
    Ok(())
}
