//! The live streams of a connection.

ghost use Rattle.std.specs.Prelude.{◌≡◌, ◌<◌, ◌≤◌, ◌++◌, ◌∷◌, [], length, vec_capacity, vec_len, IfOk};
ghost use Rattle.h2_wire.specs.declared.limit.TheConstants.{MAX_LIVE_STREAMS};
ghost use Rattle.h2_conn.specs.Streams.{is_live, is_remote_closed, is_local_closed, without, remote_closed_if, local_closed_if, with_remote_closed, with_local_closed};

use h2_wire::limit::MAX_LIVE_STREAMS;
use std::alloc::Global;
use std::marker::Model;
use wl_octets::Memory;

/// A live stream.
#[derive(Clone, Copy, Debug, PartialEq, Eq)]
pub struct Stream {
    pub number: u32,
    /// Whether its request has ended: half-closed (remote) in RFC 9113, section 5.1.
    pub remote_closed: bool,
    /// Whether its END_STREAM was written: half-closed (local).
    pub local_closed: bool,
}

/// The live streams, at most 16, in the order in which they were opened.
#[derive(Drop)]
pub struct Streams {
    items: Vec<Stream>,
}

impl Model for Streams {
    ghost use Rattle.std.specs.Prelude.{◌≤◌, List, length, vec_capacity};
    ghost use Rattle.h2_wire.specs.declared.limit.TheConstants.{MAX_LIVE_STREAMS};
    ghost use Rattle.h2_conn.specs.declared.streams.Stream.{Stream};

    ghost Value = { List Stream };

    ghost view = { λ s. s.items.items };

    ghost invariant = { λ s. (MAX_LIVE_STREAMS ≤ vec_capacity s.items) × (length s.items.items ≤ MAX_LIVE_STREAMS) };
}

fn live_in(streams: &[Stream], number: u32) -> bool
    ensures { result ≡ is_live number streams.now }
{
    streams.iter().any(|stream| stream.number == number)
}

fn remote_closed_in(streams: &[Stream], number: u32) -> bool
    ensures { result ≡ is_remote_closed number streams.now }
{
    streams
        .iter()
        .any(|stream| stream.number == number && stream.remote_closed)
}

fn local_closed_in(streams: &[Stream], number: u32) -> bool
    ensures { result ≡ is_local_closed number streams.now }
{
    streams
        .iter()
        .any(|stream| stream.number == number && stream.local_closed)
}

fn take_out(streams: &mut Vec<Stream>, number: u32)
    ensures items { streams.new.items ≡ without number streams.old.items }
    ensures capacity { vec_capacity streams.new ≡ vec_capacity streams.old }
    ensures fewer { length streams.new.items ≤ length streams.old.items }
{
    streams.retain(|stream| stream.number != number);
}

fn remote_closed_if(stream: Stream, number: u32) -> Stream
    ensures { result ≡ remote_closed_if number stream }
{
    if stream.number == number {
        Stream {
            remote_closed: true,
            ..stream
        }
    } else {
        stream
    }
}

fn local_closed_if(stream: Stream, number: u32) -> Stream
    ensures { result ≡ local_closed_if number stream }
{
    if stream.number == number {
        Stream {
            local_closed: true,
            ..stream
        }
    } else {
        stream
    }
}

fn close_remote_in(streams: &mut [Stream], number: u32)
    ensures { streams.new ≡ with_remote_closed number streams.old }
{
    for stream in streams.iter_mut() {
        *stream = remote_closed_if(*stream, number);
    }
}

fn close_local_in(streams: &mut [Stream], number: u32)
    ensures { streams.new ≡ with_local_closed number streams.old }
{
    for stream in streams.iter_mut() {
        *stream = local_closed_if(*stream, number);
    }
}

impl Streams {
    /// No streams, with room for 16.
    pub fn start(alloc: Global) -> Result<Streams, Memory>
        ensures { IfOk result (λ streams. streams ≡ []) }
    {
        Ok(Streams {
            items: Vec::with_capacity(alloc, MAX_LIVE_STREAMS)?,
        })
    }

    pub fn is_live(&self, number: u32) -> bool
        ensures { result ≡ is_live number self.now }
    {
        live_in(self.items.as_slice(), number)
    }

    /// Whether the request of a live stream has ended.
    pub fn is_remote_closed(&self, number: u32) -> bool
        ensures { result ≡ is_remote_closed number self.now }
    {
        remote_closed_in(self.items.as_slice(), number)
    }

    /// Whether the END_STREAM of a live stream was written.
    pub fn is_local_closed(&self, number: u32) -> bool
        ensures { result ≡ is_local_closed number self.now }
    {
        local_closed_in(self.items.as_slice(), number)
    }

    pub fn len(&self) -> u32
        ensures value { result ≡ length self.now }
        ensures room { length self.now ≤ MAX_LIVE_STREAMS }
    {
        self.items.len() as u32
    }

    /// Adds a stream, where fewer than 16 are live. It takes no memory.
    pub fn push(&mut self, stream: Stream)
        requires { length self.old < MAX_LIVE_STREAMS }
        ensures { self.new ≡ self.old ++ stream ∷ [] }
    {
        let _ = self.items.push(stream);
    }

    pub fn remove(&mut self, number: u32)
        ensures { self.new ≡ without number self.old }
    {
        take_out(&mut self.items, number);
    }

    /// The request of this stream has ended.
    pub fn close_remote(&mut self, number: u32)
        ensures { self.new ≡ with_remote_closed number self.old }
    {
        close_remote_in(self.items.as_mut_slice(), number);
    }

    /// The END_STREAM of this stream was written.
    pub fn close_local(&mut self, number: u32)
        ensures { self.new ≡ with_local_closed number self.old }
    {
        close_local_in(self.items.as_mut_slice(), number);
    }
}
