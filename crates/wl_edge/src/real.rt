//! Sources and sinks over real streams.

ghost use Rattle.std.specs.Prelude.{None, ◌≡◌};

use crate::sink::{Sent, Sink};
use crate::source::{Source, Taken};
use std::io::{Read, Write};

/// A source over a real stream. It tells no content.
#[derive(Drop)]
pub struct RealSource<R> {
    stream: R,
    faults: u64,
}

impl<R: Read + Drop> RealSource<R> {
    /// A source over this stream.
    pub fn start(stream: R) -> RealSource<R>
        ensures untold { ⟦<RealSource<R> as Source>⟧.left result ≡ None }
        ensures fresh { ⟦<RealSource<R> as Source>⟧.faults result ≡ 0 }
    {
        RealSource { stream, faults: 0 }
    }
}

impl<R: Read + Drop> Source for RealSource<R> {
    ghost left = { λ s. None };

    ghost faults = { λ s. s.faults };

    fn read(&mut self, into: &mut [u8]) -> Taken {
        match self.stream.read(into) {
            Ok(0) => Taken::End,
            Ok(count) => Taken::Got(count),
            Err(_) => {
                self.faults = self.faults.saturating_add(1);
                Taken::Failed
            }
        }
    }
}

/// A sink over a real stream. It tells no content.
#[derive(Drop)]
pub struct RealSink<W> {
    stream: W,
    faults: u64,
}

impl<W: Write + Drop> RealSink<W> {
    /// A sink over this stream.
    pub fn start(stream: W) -> RealSink<W>
        ensures untold { ⟦<RealSink<W> as Sink>⟧.taken result ≡ None }
        ensures fresh { ⟦<RealSink<W> as Sink>⟧.faults result ≡ 0 }
    {
        RealSink { stream, faults: 0 }
    }
}

impl<W: Write + Drop> Sink for RealSink<W> {
    ghost taken = { λ s. None };

    ghost faults = { λ s. s.faults };

    fn write(&mut self, bytes: &[u8]) -> Sent {
        match self.stream.write(bytes) {
            Ok(count) if count > 0 => Sent::Took(count),
            _ => {
                self.faults = self.faults.saturating_add(1);
                Sent::Failed
            }
        }
    }
}
