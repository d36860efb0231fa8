//! An outbox: what is to be written on a connection.

ghost use Rattle.std.specs.Prelude.{◌≡◌, ◌<◌, ◌≤◌, ◌^◌, ◌==◌, ◌||◌, ◌&&◌, ◌++◌, true, false, List, ℕ, length, vec_capacity, IfOk, OnOk, OnErr, IsErr, pos, ◌+ℤ◌, ◌≤ℤ◌, int_lt, map, IfErr};
ghost use Rattle.h2_wire.specs.declared.limit.TheConstants.{MAX_BLOCK_LEN, MAX_LIVE_STREAMS, MAX_WINDOW_SIZE};
ghost use Rattle.h2_flow.specs.Windows.{window_of};
ghost use Rattle.std.specs.List.{list_any, AllByRecursion};
ghost use Rattle.list_laws.specs.Lists.{GainsFront};
ghost use Rattle.h2_flow.specs.Outboxes.{Out, new_outbox, with_failure, has_stream, is_open, is_written, has_size_update, RisesFrom, IsLowestOver, IsAbove, with_stream, without_stream, with_control, with_size_update, with_head, with_message, without_waiting, with_trailers, with_step, with_connection_step, with_stream_step, first_over, is_number, set_initial_window, pull_of, Changes};

use crate::block::Block;
use crate::flow::{Flow, TableSizeUpdate};
use crate::message::Message;
use crate::overflow::Overflow;
use crate::pull::take_rounds;
use crate::stream::Stream;
use crate::streams;
use crate::streams::{credit, has_in, open_in, raise, take_out, written_in};
use h2_wire::limit::{INITIAL_WINDOW_SIZE, MAX_LIVE_STREAMS, MAX_WINDOW_SIZE};
use output_parts::Output;
use std::alloc::Global;
use std::marker::Model;
use wl_octets::{Memory, Octets, Row, Shared};

/// What is to be written on a connection: control frames, and for at most 16 streams a head
/// block, messages and trailers.
///
/// After it ran out of memory it fails for good: each later call that can answer it answers it.
#[derive(Drop)]
pub struct Outbox {
    alloc: Global,
    flow: Flow,
    control: Vec<u8>,
    streams: Vec<Stream>,
    failed: bool,
}

impl Model for Outbox {
    ghost Value = { Out };

    ghost view = { λ o. record { flow = o.flow; control = o.control.items; streams = o.streams.items; failed = o.failed } };

    ghost invariant = { λ o. (MAX_LIVE_STREAMS ≤ vec_capacity o.streams) × RisesFrom 0 (map (λ s. s.number) o.streams.items) };
}

impl Outbox {
    /// An outbox without streams, with both windows at 65,535 bytes.
    pub fn start(alloc: Global) -> Result<Outbox, Memory>
        ensures { IfOk result (λ o. o ≡ new_outbox) }
    {
        let streams = Vec::with_capacity(alloc, MAX_LIVE_STREAMS)?;
        let flow = Flow {
            connection_window: INITIAL_WINDOW_SIZE,
            initial_window_size: INITIAL_WINDOW_SIZE,
            update: TableSizeUpdate::Unasked,
            begun: 0,
        };
        Ok(Outbox {
            alloc,
            flow,
            control: Vec::new(alloc),
            streams,
            failed: false,
        })
    }

    /// Adds a stream, whose number is above all that are there. It takes no memory.
    #[tactic(auto, unfolding(crate::specs::Outboxes::with_stream))]
    pub fn add(&mut self, stream: u32)
        requires room { length self.old.streams < MAX_LIVE_STREAMS }
        requires positive { 0 < stream }
        requires low { stream < 2 ^ 31 }
        requires above { IsAbove stream self.old.streams }
        ensures { self.new ≡ with_stream stream self.old }
    {
        let new = Stream::new(self.alloc, stream);
        let _ = self.streams.push(new);
    }

    /// Drops a stream with all that waits on it, if it is there.
    #[tactic(auto, unfolding(crate::specs::Outboxes::without_stream))]
    pub fn remove(&mut self, stream: u32)
        ensures { self.new ≡ without_stream stream self.old }
    {
        take_out(&mut self.streams, stream);
    }

    /// Sets the peer's initial window of streams, in bytes; the windows of the streams that
    /// are there move with it, below zero too (RFC 9113, section 6.9.2). Nothing changes
    /// where one would pass 2,147,483,647; the answer then names the lowest such stream.
    #[tactic(auto, unfolding(crate::specs::Outboxes::set_initial_window))]
    pub fn initial(&mut self, value: u32) -> Result<(), Overflow>
        requires { value < 2 ^ 31 }
        ensures changes { Changes result (set_initial_window value self.old) self.old self.new }
        ensures lowest { IfErr result (λ over. IsLowestOver value over.stream self.old.streams) }
        ensures fits { OnOk result
            (AllByRecursion (λ s. window_of value s.credit ≤ℤ pos MAX_WINDOW_SIZE) self.old.streams) }
    {
        match passing(self.streams.as_slice(), value) {
            Some(stream) => Err(Overflow { stream }),
            None => {
                self.flow.initial_window_size = value;
                Ok(())
            }
        }
    }

    /// Takes a step of WINDOW_UPDATE, in bytes, on a stream that is there, or on stream 0, the
    /// connection. Nothing changes where that window would pass 2,147,483,647.
    #[tactic(auto, unfolding(crate::specs::Outboxes::with_step))]
    pub fn grow(&mut self, stream: u32, step: u32) -> Result<(), Overflow>
        requires step { step < 2 ^ 31 }
        requires there { (stream == 0 || has_stream stream self.old) ≡ true }
        ensures { Changes result (with_step stream step self.old) self.old self.new }
    {
        if stream == 0 {
            self.grow_connection(step)
        } else {
            self.grow_stream(stream, step)
        }
    }

    #[tactic(auto, unfolding(crate::specs::Outboxes::with_connection_step))]
    fn grow_connection(&mut self, step: u32) -> Result<(), Overflow>
        requires { step < 2 ^ 31 }
        ensures { Changes result (with_connection_step step self.old) self.old self.new }
    {
        if MAX_WINDOW_SIZE - step < self.flow.connection_window {
            return Err(Overflow { stream: 0 });
        }
        self.flow.connection_window += step;
        Ok(())
    }

    #[tactic(auto, unfolding(crate::specs::Outboxes::with_stream_step))]
    fn grow_stream(&mut self, stream: u32, step: u32) -> Result<(), Overflow>
        requires step { step < 2 ^ 31 }
        requires there { has_stream stream self.old ≡ true }
        ensures { Changes result (with_stream_step stream step self.old) self.old self.new }
    {
        let credit = credit(self.streams.as_slice(), stream);
        if passes_by(self.flow.initial_window_size, credit, step) {
            return Err(Overflow { stream });
        }
        raise(self.streams.as_mut_slice(), stream, step);
        Ok(())
    }

    /// Queues a control frame, which the next pull writes first.
    #[tactic(auto, unfolding(crate::specs::Outboxes::with_control))]
    pub fn control(&mut self, frame: &[u8]) -> Result<(), Memory>
        ensures ok { OnOk result (self.new ≡ with_control frame.now self.old) }
        ensures err { OnErr result (self.new ≡ with_failure self.old) }
        ensures again { self.old.failed ≡ true → IsErr result }
    {
        if self.failed {
            return Err(Memory);
        }
        match self.control.extend_from_slice(frame) {
            Ok(()) => Ok(()),
            Err(_) => {
                self.failed = true;
                Err(Memory)
            }
        }
    }

    /// The control frames that are queued, as bytes. It takes no memory.
    pub fn queued(&self) -> &[u8]
        ensures { result.now ≡ self.now.control }
    {
        self.control.as_slice()
    }

    /// Has the next block that a pull writes, on whichever stream, begin with a size update to
    /// 0 (RFC 7541, section 4.2). It is called once at most.
    #[tactic(auto, unfolding(crate::specs::Outboxes::with_size_update))]
    pub fn shrink(&mut self)
        requires { has_size_update self.old ≡ false }
        ensures { self.new ≡ with_size_update self.old }
    {
        self.flow.update = TableSizeUpdate::Due;
    }

    /// Whether `shrink` was called. It takes no memory.
    pub fn is_shrunk(&self) -> bool
        ensures { result ≡ has_size_update self.now }
    {
        match self.flow.update {
            TableSizeUpdate::Unasked => false,
            TableSizeUpdate::Due | TableSizeUpdate::Written => true,
        }
    }

    /// Gives a stream the block of its response head, of at most 16,383 bytes.
    #[tactic(auto, using(crate::proofs::Places::open_there), unfolding(crate::specs::Outboxes::with_head))]
    pub fn head(&mut self, stream: u32, block: Octets)
        requires open { is_open stream self.old ≡ true }
        requires small { length block ≤ MAX_BLOCK_LEN }
        ensures { self.new ≡ with_head stream block self.old }
    {
        streams::head(self.streams.as_mut_slice(), stream, Block::new(block));
    }

    #[tactic(auto, using(crate::proofs::Places::open_there), unfolding(crate::specs::Outboxes::with_message))]
    fn offer_message(&mut self, stream: u32, message: Message)
        requires { is_open stream self.old ≡ true }
        ensures { self.new ≡ with_message stream message self.old }
    {
        streams::offer(self.streams.as_mut_slice(), stream, message);
    }

    /// Offers a stream a message, which isn't empty. Where it equals the message that began
    /// last there, one that waits is withdrawn; else it takes that one's place.
    pub fn offer(&mut self, stream: u32, message: Octets)
        requires open { is_open stream self.old ≡ true }
        requires some { 0 < length message }
        ensures { self.new ≡ with_message stream message self.old }
    {
        self.offer_message(stream, Message::own(message));
    }

    /// The same of a message that other streams share. It takes no memory.
    pub fn offer_shared(&mut self, stream: u32, message: Shared<Octets>)
        requires open { is_open stream self.old ≡ true }
        requires some { 0 < length message }
        ensures { self.new ≡ with_message stream message self.old }
    {
        self.offer_message(stream, Message::common(message));
    }

    /// Withdraws a stream's waiting message, if it has one. A message whose first byte was
    /// written is finished.
    #[tactic(auto, using(crate::proofs::Places::open_there), unfolding(crate::specs::Outboxes::without_waiting))]
    pub fn withdraw(&mut self, stream: u32)
        requires { is_open stream self.old ≡ true }
        ensures { self.new ≡ without_waiting stream self.old }
    {
        streams::withdraw(self.streams.as_mut_slice(), stream);
    }

    /// Gives a stream its last block, of at most 16,383 bytes, which is written with
    /// END_STREAM once no message is left. It withdraws nothing.
    #[tactic(auto, using(crate::proofs::Places::open_there), unfolding(crate::specs::Outboxes::with_trailers))]
    pub fn finish(&mut self, stream: u32, block: Octets)
        requires open { is_open stream self.old ≡ true }
        requires small { length block ≤ MAX_BLOCK_LEN }
        ensures { self.new ≡ with_trailers stream block self.old }
    {
        streams::finish(self.streams.as_mut_slice(), stream, Block::new(block));
    }

    /// Whether a stream is there. It takes no memory.
    pub fn has(&self, stream: u32) -> bool
        ensures { result ≡ has_stream stream self.now }
    {
        has_in(self.streams.as_slice(), stream)
    }

    /// Whether a stream is there and its last block was not given. It takes no memory.
    pub fn is_open(&self, stream: u32) -> bool
        ensures { result ≡ is_open stream self.now }
    {
        open_in(self.streams.as_slice(), stream)
    }

    /// Whether a frame was written on a stream that is there. It takes no memory.
    pub fn is_written(&self, stream: u32) -> bool
        requires { has_stream stream self.now ≡ true }
        ensures { result ≡ is_written stream self.now }
    {
        written_in(self.streams.as_slice(), stream)
    }

    /// How many messages began since the start, those of removed streams too.
    pub fn begun(&self) -> u64
        ensures { result ≡ self.now.flow.begun }
    {
        self.flow.begun
    }

    /// Writes all that may be written after what `out` holds: the control frames, and then
    /// rounds of the streams until one writes nothing. Tells in `ended` the streams whose
    /// END_STREAM it wrote. Where memory runs out the windows, the counts and the control
    /// frames stay as they were, and no later call writes anything.
    #[tactic(auto, unfolding(crate::specs::Outboxes::pull_of))]
    pub fn pull(&mut self, out: &mut Output, ended: &mut Row<u32>) -> Result<(), Memory>
        ensures left { OnOk result (self.new ≡ (pull_of self.old).left) }
        ensures bytes { OnOk result (out.new ≡ out.old ++ (pull_of self.old).bytes) }
        ensures ended { OnOk result (ended.new ≡ ended.old ++ (pull_of self.old).ended) }
        ensures prefix { GainsFront (pull_of self.old).bytes out.old out.new }
        ensures ended_front { GainsFront (pull_of self.old).ended ended.old ended.new }
        ensures fails { OnErr result (self.new.failed ≡ true) }
        ensures again { self.old.failed ≡ true → IsErr result }
        ensures still { self.old.failed ≡ true
            → (out.new ≡ out.old) × (ended.new ≡ ended.old) × (self.new ≡ self.old) }
        ensures counts { OnErr result (self.new.flow ≡ self.old.flow) }
        ensures kept { OnErr result (self.new.control ≡ self.old.control) }
    {
        if self.failed {
            return Err(Memory);
        }
        self.failed = true;
        out.push_slice(self.control.as_slice())?;
        let mut flow = self.flow;
        take_rounds(&mut flow, self.streams.as_mut_slice(), out, ended)?;
        self.flow = flow;
        self.control.clear();
        self.failed = false;
        Ok(())
    }

    /// How many bytes it holds: the queued control frames, and the messages of its streams. One that several streams
    /// share counts for each. It takes no memory.
    pub fn held(&self) -> usize {
        let mut held = self.control.len();
        for stream in self.streams.as_slice() {
            held = held.saturating_add(stream.held());
        }
        held
    }
}

/// Whether a stream's window would pass the largest with this initial window.
fn passes(value: u32, credit: i64) -> bool
    requires { value < 2 ^ 31 }
    ensures { result ≡ int_lt (pos MAX_WINDOW_SIZE) (window_of value credit) }
{
    i64::from(MAX_WINDOW_SIZE) - i64::from(value) < credit
}

/// Whether a stream's window would pass the largest by this step.
fn passes_by(initial: u32, credit: i64, step: u32) -> bool
    requires { step < 2 ^ 31 }
    ensures { result ≡ int_lt (pos MAX_WINDOW_SIZE) (window_of initial credit +ℤ pos step) }
{
    i64::from(MAX_WINDOW_SIZE) - i64::from(step) - i64::from(initial) < credit
}

/// The first stream whose window would pass the largest with this initial window.
#[tactic(auto, using(crate::proofs::Places::over_next, crate::proofs::Places::over_here), unfolding(crate::specs::Outboxes::first_over))]
fn passing(streams: &[Stream], value: u32) -> Option<u32>
    requires { value < 2 ^ 31 }
    ensures { result ≡ first_over value streams.now }
{
    for stream in streams {
        if passes(value, stream.credit) {
            return Some(stream.number);
        }
    }
    None
}
