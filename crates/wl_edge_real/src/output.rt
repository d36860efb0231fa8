//! Where a program writes.

ghost use Rattle.std.specs.Prelude.{◌≡◌, ◌≤◌, ◌++◌, [], Some, take, length, IfOk, OnErr};

use crate::telling::{Front, Took};
use std::io;
use std::io::Write;
use wl_edge::{Sent, Sink};
use wl_told::Told;

/// A sink over a stream that the operating system takes bytes by, as standard output. It tells what was taken, by a list
/// that exists only in proofs.
#[derive(Drop)]
pub struct RealOutput<W> {
    stream: W,
    put: Told<u8>,
    faults: u64,
}

impl<W: Write + Drop> RealOutput<W> {
    /// Over this stream, of which nothing is recorded yet.
    pub fn start(stream: W) -> RealOutput<W>
        ensures empty { ⟦<RealOutput<W> as Sink>⟧.taken result ≡ Some [] }
        ensures fresh { ⟦<RealOutput<W> as Sink>⟧.faults result ≡ 0 }
    {
        RealOutput {
            stream,
            put: Told::new(),
            faults: 0,
        }
    }

    /// One write. Nothing else touches the stream.
    fn write_told(&mut self, bytes: &[u8]) -> io::Result<usize>
        ensures within { IfOk result (λ n. n ≤ length bytes.now) }
        ensures put { IfOk result (λ n. self.new.put.list ≡ self.old.put.list ++ take n bytes.now) }
        ensures nothing { OnErr result (self.new.put ≡ self.old.put) }
        ensures faults { self.new.faults ≡ self.old.faults }
    {
        let count = self.stream.write(bytes)?;
        self.put = self.put.and::<Front<'_>, Took>(&Front { bytes, count });
        Ok(count)
    }
}

impl<W: Write + Drop> Sink for RealOutput<W> {
    ghost taken = { λ s. Some s.put.list };

    ghost faults = { λ s. s.faults };

    fn write(&mut self, bytes: &[u8]) -> Sent {
        match self.write_told(bytes) {
            Ok(count) if count > 0 => Sent::Took(count),
            _ => {
                self.faults = self.faults.saturating_add(1);
                Sent::Failed
            }
        }
    }
}
