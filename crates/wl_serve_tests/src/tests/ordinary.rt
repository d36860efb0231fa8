//! An ordinary node: fifty entries behind three sockets, each with a client that keeps the three streaming calls open
//! while every identity is signed anew. Its bytes are of `tests/vectors/ordinary_node.py`.

mod answers;
mod bytes;
mod host;
mod reading;
mod rows;

use super::hosts::Stop;
use answers::put_due;
use bytes::{CLIENTS, Client};
use h2_frame::Frame;
use host::serve_node;
use reading::{carried, counts, frames};
use rows::Rows;
use std::alloc::Global;
use std::rt::Clock;
use std::sync::atomic::Ordering;
use std::test::Fail;
use wl_octets::{Memory, Octets, Row};
use wl_serve::{MemoryHost, Parts, ServeEnd};

/// What was prepared.
pub type Kept<'a, R> = Option<Parts<MemoryHost<Rows<'a, R>>>>;

/// How many frames of each kind are due to this client: DATA of the identities, twice, and of each list of bundles; heads; the
/// two SETTINGS; acknowledged PINGs; a step for each request; and nothing else.
fn due_counts(client: &Client) -> [usize; 6] {
    [2 * client.frames as usize + 2, 3, 2, 13, 3, 0]
}

/// How many passes of the gate were let go although what they waited for had not come.
fn given_up<'a, R: Clock + Sync>(kept: &Kept<'a, R>) -> Option<u64> {
    Some(kept.as_ref()?.gate.given_up.load(Ordering::SeqCst))
}

/// What the link of this client took.
fn took<'k, 'a, R: Clock + Sync>(kept: &'k Kept<'a, R>, client: &Client) -> Option<&'k [u8]> {
    let seat = kept.as_ref()?.seats.get(client.socket as usize)?;
    Some(seat.listener.finished().first()?.took())
}

/// The frames that the link of this client took.
fn frames_of<'a, R: Clock + Sync>(
    alloc: Global,
    kept: &Kept<'a, R>,
    client: &Client,
) -> Result<Row<Frame>, Stop> {
    frames(alloc, took(kept, client).unwrap_or(b""))
}

/// Whether a stream carries what is due to this client.
fn is_due(alloc: Global, frames: &[Frame], client: &Client, stream: u32) -> Result<bool, Memory> {
    let mut due = Octets::empty(alloc);
    put_due(&mut due, client, stream)?;
    Ok(carried(alloc, frames, stream)? == due)
}

/// The first stream that carries something else than what is due to this client.
fn wrong_stream(alloc: Global, frames: &[Frame], client: &Client) -> Result<Option<u32>, Memory> {
    for stream in [1, 3, 5] {
        if !is_due(alloc, frames, client, stream)? {
            return Ok(Some(stream));
        }
    }
    Ok(None)
}

#[test]
fn an_ordinary_node_is_served(rt: HostRuntime) -> Result<(), Fail> {
    let (end, kept) = serve_node(&rt, rt.alloc())?;
    assert_eq!(rt; (end, given_up(&kept)), (ServeEnd::Done, Some(0)));
    for client in &CLIENTS {
        let frames = frames_of(rt.alloc(), &kept, client)?;
        assert_eq!(rt; counts(frames.as_slice()), due_counts(client));
        assert_eq!(rt; wrong_stream(rt.alloc(), frames.as_slice(), client)?, None);
    }
    Ok(())
}
