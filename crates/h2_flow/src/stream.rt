//! What one stream has to write.

ghost use Rattle.std.specs.Prelude.{◌≡◌, ◌-◌, ◌<◌, ◌^◌, true, pos, ◌+ℤ◌, ◌≤ℤ◌, Some, length, drop};
ghost use Rattle.h2_wire.specs.declared.limit.TheConstants.{MAX_WINDOW_SIZE};
ghost use Rattle.h2_flow.specs.Outboxes.{new_stream, with_offer};

use crate::block::Block;
use crate::message::Message;
use std::alloc::Global;

/// A stream that is there.
#[derive(Drop)]
pub struct Stream {
    pub number: u32,
    /// All steps of WINDOW_UPDATE on it, less all bytes of DATA written on it. With the
    /// peer's initial window it is the stream's window, which may be below zero.
    pub credit: i64,
    /// The head block that is due.
    pub head: Option<Block>,
    /// The message that began last, or nothing: no message is empty.
    pub last: Message,
    /// How many of its bytes were written.
    pub sent: usize,
    /// The message after it.
    pub waiting: Option<Message>,
    /// The block that ends the stream, where that is due.
    pub trailers: Option<Block>,
    /// Whether its last block was given.
    pub finished: bool,
    /// Whether a frame was written on it.
    pub written: bool,
}

impl Stream {
    /// A stream on which nothing was given or written.
    pub fn new(alloc: Global, number: u32) -> Stream
        ensures { result ≡ new_stream number }
    {
        Stream {
            number,
            credit: 0,
            head: None,
            last: Message::empty(alloc),
            sent: 0,
            waiting: None,
            trailers: None,
            finished: false,
            written: false,
        }
    }

    /// Adds a step of WINDOW_UPDATE.
    pub fn raise(&mut self, step: u32)
        requires { (self.old.credit +ℤ pos step) ≤ℤ pos MAX_WINDOW_SIZE }
        ensures { self.new ≡ record self.old { credit = self.old.credit +ℤ pos step } }
    {
        self.credit += i64::from(step);
    }

    /// Has a message wait, or none where it is the last one again.
    pub fn offer(&mut self, message: Message)
        ensures { self.new ≡ with_offer message self.old }
    {
        if message == self.last {
            self.waiting = None;
        } else {
            self.waiting = Some(message);
        }
    }

    /// Makes the last block due.
    pub fn finish(&mut self, block: Block)
        ensures { self.new ≡ record self.old { trailers = Some block; finished = true } }
    {
        self.trailers = Some(block);
        self.finished = true;
    }

    /// How many bytes its messages hold, those that others share too.
    pub fn held(&self) -> usize {
        let waiting = match &self.waiting {
            Some(message) => message.len(),
            None => 0,
        };
        self.last.len().saturating_add(waiting)
    }
}

/// What is left of the message that began last.
pub(crate) fn left(stream: &Stream) -> &[u8]
    ensures value { result.now ≡ drop stream.now.sent stream.now.last }
    ensures length { length result.now ≡ length stream.now.last - stream.now.sent }
    ensures bound { length stream.now.last < 2 ^ 63 }
{
    let last = stream.last.as_slice();
    if stream.sent <= last.len() {
        last.split_at(stream.sent).1
    } else {
        last.split_at(last.len()).1
    }
}
