//! A stream that tells the bytes that the operating system gave and took. It is the only place that reads or writes the
//! socket of a link.

ghost use Rattle.std.specs.Prelude.{◌≡◌, ◌≤◌, ◌++◌, [], length, take, IfOk, OnErr, MatchResult};

use crate::stream::Stream;
use crate::telling::{Front, Took};
use std::io;
use std::io::{Read, Write};
use std::os::fd::RawFd;
use wl_told::Told;

/// A socket, with what came of it and what went into it.
#[derive(Drop)]
pub(crate) struct ToldStream<S> {
    stream: S,
    pub(crate) got: Told<u8>,
    pub(crate) put: Told<u8>,
}

impl<S: Read + Write + Drop> ToldStream<S> {
    /// Over this socket, which was not used yet.
    pub(crate) fn start(stream: S) -> ToldStream<S>
        ensures got { result.got.list ≡ [] }
        ensures put { result.put.list ≡ [] }
    {
        ToldStream {
            stream,
            got: Told::new(),
            put: Told::new(),
        }
    }

    /// One read.
    pub(crate) fn read(&mut self, into: &mut [u8]) -> io::Result<usize>
        ensures within { IfOk result (λ n. n ≤ length into.new) }
        ensures room { length into.new ≡ length into.old }
        ensures got { MatchResult result (λ n. self.new.got.list ≡ self.old.got.list ++ take n into.new)
            (λ e. self.new.got.list ≡ self.old.got.list) }
        ensures put { self.new.put ≡ self.old.put }
    {
        let count = self.stream.read(into)?;
        self.got = self
            .got
            .and::<Front<'_>, Took>(&Front { bytes: into, count });
        Ok(count)
    }

    /// One write.
    pub(crate) fn write(&mut self, bytes: &[u8]) -> io::Result<usize>
        ensures within { IfOk result (λ n. n ≤ length bytes.now) }
        ensures put { IfOk result (λ n. self.new.put.list ≡ self.old.put.list ++ take n bytes.now) }
        ensures nothing { OnErr result (self.new.put ≡ self.old.put) }
        ensures got { self.new.got ≡ self.old.got }
    {
        let count = self.stream.write(bytes)?;
        self.put = self.put.and::<Front<'_>, Took>(&Front { bytes, count });
        Ok(count)
    }
}

impl ToldStream<Stream> {
    /// Has its calls wait, or not.
    pub(crate) fn set_nonblocking(&self, nonblocking: bool) -> io::Result<()> {
        self.stream.set_nonblocking(nonblocking)
    }

    /// The socket.
    pub(crate) fn descriptor(&self) -> RawFd {
        self.stream.descriptor()
    }

    /// Nothing more is written.
    pub(crate) fn shut(&self) -> io::Result<()> {
        self.stream.shut()
    }
}
