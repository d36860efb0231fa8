//! A sink of which the first bytes are kept.

ghost use Rattle.std.specs.Prelude.{◌≡◌};

use std::alloc::Global;
use wl_edge::{Sent, Sink};
use wl_octets::Octets;

/// How many bytes are kept at most: more than a fault line has.
const MAX_KEPT: usize = 256;

/// A sink that writes as another does, and keeps the first bytes, so that a fault line can be explained.
#[derive(Drop)]
pub struct KeepingSink<O> {
    inner: O,
    kept: Octets,
}

impl<O: Sink + Drop> KeepingSink<O> {
    /// Over this sink. Nothing is kept yet.
    pub fn start(alloc: Global, inner: O) -> KeepingSink<O>
        ensures taken { ⟦<KeepingSink<O> as Sink>⟧.taken result ≡ O.taken inner }
        ensures faults { ⟦<KeepingSink<O> as Sink>⟧.faults result ≡ O.faults inner }
    {
        KeepingSink {
            inner,
            kept: Octets::empty(alloc),
        }
    }

    /// The first line that was written, without its newline; all that was kept where it has none.
    pub fn first_line(&self) -> &[u8] {
        match self.kept.as_slice().split(|byte| *byte == b'\n').next() {
            Some(line) => line,
            None => &[],
        }
    }
}

/// Keeps these bytes too, where there is room for all of them. Where memory runs out nothing more is kept.
fn keep(kept: &mut Octets, bytes: &[u8]) {
    if bytes.len() <= MAX_KEPT && kept.len() <= MAX_KEPT - bytes.len() {
        let _ = kept.push_slice(bytes);
    }
}

impl<O: Sink + Drop> Sink for KeepingSink<O> {
    ghost taken = { λ o. O.taken o.inner };

    ghost faults = { λ o. O.faults o.inner };

    fn write(&mut self, bytes: &[u8]) -> Sent {
        let sent = self.inner.write(bytes);
        if let Sent::Took(count) = sent {
            if let Some(taken) = bytes.get(..count) {
                keep(&mut self.kept, taken);
            }
        }
        sent
    }
}
