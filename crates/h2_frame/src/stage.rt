//! How far a parser has come.

use crate::fault::FrameFault;

/// What the next byte belongs to.
#[derive(Clone, Copy)]
pub enum Stage {
    /// The preface, of which so many bytes have come.
    Preface(usize),
    Frames,
    /// Nothing, after this fault.
    Failed(FrameFault),
}
