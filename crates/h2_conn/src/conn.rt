//! A connection.

ghost use Rattle.std.specs.Prelude.{◌≡◌, ◌≤◌, ◌<◌, ◌^◌, ◌++◌, IfOk, IfErr, OnOk, OnErr, IsErr, length};
ghost use Rattle.list_laws.specs.Lists.{GainsFront};
ghost use Rattle.hpack.specs.declared.limit.TheConstants.{MAX_LIST_SIZE};
ghost use Rattle.hpack.specs.Tables.{list_size};
ghost use Rattle.hpack.specs.Writing.{block_bytes};
ghost use Rattle.h2_frame.specs.declared.fault.FrameFault.TheVariants as frames;
ghost use Rattle.h2_conn.specs.declared.phase.Phase.TheVariants.{Open, Failed};
ghost use Rattle.h2_conn.specs.Faults.{cause_of};
ghost use Rattle.h2_conn.specs.Kinds.{Fits};
ghost use Rattle.h2_conn.specs.Naming.{NamesOn};
ghost use Rattle.h2_conn.specs.Conns.{is_live_on, live_on, is_going, begun_on, new_state, told_list, frame_result, Refuses, Repeats, Lasts, out_of_memory, GivesState, frame_fault_on, after_frame_fault, goaway, with_head_on, with_trailers_on, after_reset, on_open, offers, withdraws, flush_of};

use crate::answers;
use crate::control::failure;
use crate::fault::{ConnCause, ConnError, ConnFault};
use crate::happening::Happening;
use crate::phase::{Phase, Totals};
use crate::state::State;
use crate::streams::Streams;
use crate::table::step;
use crate::writing::{final_bytes, pull};
use h2_flow::Outbox;
use h2_frame::{Frame, FrameFault};
use hpack::Decoder;
use output_parts::Output;
use std::alloc::Global;
use std::marker::Model;
use std::mem;
use wl_octets::{Header, Memory, Octets, Row, Shared};

/// A connection of HTTP/2, as a server sees its peer (RFC 9113).
///
/// After a fault it has no live stream, and writes nothing after its GOAWAY. After it ran out
/// of memory it fails for good: each later call that can answer that answers it.
#[derive(Drop)]
pub struct Conn {
    alloc: Global,
    phase: Phase,
}

impl Model for Conn {
    ghost use Rattle.h2_conn.specs.declared.phase.Phase.{Phase};
    ghost use Rattle.h2_conn.specs.Sound.{SoundPhase};

    ghost Value = { Phase };

    ghost view = { λ conn. conn.phase };

    ghost invariant = { λ conn. SoundPhase conn.phase };
}

/// What is kept of a connection for good.
fn totals(phase: &Phase) -> Totals
    ensures { result
        ≡ record { goaway_received = is_going phase.now; messages_started = begun_on phase.now } }
{
    match phase {
        Phase::Open(state) => Totals {
            goaway_received: state.goaway_received,
            messages_started: state.outbox.begun(),
        },
        Phase::Failed { totals, .. } => *totals,
        Phase::OutOfMemory(totals) => *totals,
    }
}

/// Takes a connection's phase out. Until one is put back the connection is out of memory, so a
/// call that stops on its way leaves it so.
fn take(phase: &mut Phase) -> Phase
    ensures taken { result ≡ phase.old }
    ensures left { phase.new ≡ out_of_memory phase.old }
{
    let totals = totals(phase);
    mem::replace(phase, Phase::OutOfMemory(totals))
}

/// Takes the state out of a connection that goes on. One that has failed stays as it is.
fn take_state(phase: &mut Phase) -> Result<Option<State>, Memory>
    ensures { GivesState result phase.old phase.new }
{
    match take(phase) {
        Phase::Open(state) => Ok(Some(state)),
        Phase::OutOfMemory(_) => Err(Memory),
        failed => {
            *phase = failed;
            Ok(None)
        }
    }
}

/// Where a fault leaves a connection: the queued control frames and GOAWAY are all that is
/// still written.
fn failed_phase(
    alloc: Global,
    state: &State,
    fault: ConnFault,
    totals: Totals,
) -> Result<Phase, Memory>
    ensures { IfOk result
        (λ phase. phase ≡ Failed fault (state.now.outbox.control ++ goaway fault) totals) }
{
    let left = final_bytes(alloc, state.outbox.queued(), fault)?;
    Ok(Phase::Failed {
        fault,
        left,
        totals,
    })
}

/// The cause of bytes that aren't frames.
fn cause_of(why: FrameFault) -> ConnCause
    requires { why ≡ frames.Memory → ⊥ }
    ensures { result ≡ cause_of why }
{
    match why {
        FrameFault::BadPreface(at) => ConnCause::Preface(at),
        FrameFault::TooLarge(length) => ConnCause::TooLarge(length),
        FrameFault::WrongLength(kind, length) => ConnCause::WrongLength(kind, length),
        FrameFault::BadPadding => ConnCause::BadPadding,
        FrameFault::Memory => unreachable!(),
    }
}

/// Appends what a frame told.
fn tell(told: Option<Happening>, into: &mut Row<Happening>) -> Result<(), Memory>
    ensures ok { OnOk result (into.new ≡ into.old ++ told_list told) }
    ensures err { OnErr result (into.new ≡ into.old) }
{
    match told {
        None => Ok(()),
        Some(happening) => match into.push(happening) {
            Ok(()) => Ok(()),
            Err((_, memory)) => Err(memory),
        },
    }
}

impl Conn {
    /// A new connection: no frame came, and no stream was opened.
    pub fn start(alloc: Global) -> Result<Conn, Memory>
        ensures { IfOk result (λ conn. conn ≡ Open new_state) }
    {
        let state = State {
            settings_received: false,
            goaway_received: false,
            last_stream_id: 0,
            streams: Streams::start(alloc)?,
            open_block: None,
            settings_count: 0,
            empty_data_count: 0,
            rapid_reset_count: 0,
            decoder: Decoder::start(alloc),
            outbox: Outbox::start(alloc)?,
        };
        Ok(Conn {
            alloc,
            phase: Phase::Open(state),
        })
    }

    /// Takes one frame, by the first row of the connection table that applies to it: queues
    /// what it is answered by, and tells in `into` what happened, at most one happening. A
    /// fault is answered where a row gives one, and by each later frame again.
    #[tactic(auto, using(crate::proofs::Sounds::names_on), unfolding(crate::specs::Conns::frame_result))]
    pub fn frame(&mut self, frame: Frame, into: &mut Row<Happening>) -> Result<(), ConnError>
        requires { Fits frame }
        ensures after { OnOk result (self.new ≡ (frame_result self.old frame).after) }
        ensures told { OnOk result (into.new ≡ into.old ++ (frame_result self.old frame).told) }
        ensures right { OnOk result ((frame_result self.old frame).fault ≡ None) }
        ensures refused { IfErr result
            (λ error. Refuses error (frame_result self.old frame) self.old self.new) }
        ensures kept { OnErr result (into.new ≡ into.old) }
        ensures again { Repeats self.old result }
        ensures named { NamesOn self.old frame }
    {
        match take(&mut self.phase) {
            Phase::Open(mut state) => match step(&mut state, self.alloc, frame) {
                Ok(told) => {
                    tell(told, into)?;
                    self.phase = Phase::Open(state);
                    Ok(())
                }
                Err(ConnError::Fault(fault)) => {
                    self.phase = failed_phase(self.alloc, &state, fault, totals(&self.phase))?;
                    Err(ConnError::Fault(fault))
                }
                Err(ConnError::Memory) => Err(ConnError::Memory),
            },
            Phase::Failed {
                fault,
                left,
                totals,
            } => {
                self.phase = Phase::Failed {
                    fault,
                    left,
                    totals,
                };
                Err(ConnError::Fault(fault))
            }
            Phase::OutOfMemory(_) => Err(ConnError::Memory),
        }
    }

    /// Fails the connection for bytes that aren't frames, and answers the fault. Where it has
    /// failed before, it answers that fault.
    pub fn fail(&mut self, why: FrameFault) -> Result<ConnFault, Memory>
        requires { why ≡ frames.Memory → ⊥ }
        ensures fault { IfOk result (λ fault. frame_fault_on why self.old ≡ Some fault) }
        ensures after { OnOk result (self.new ≡ after_frame_fault why self.old) }
        ensures err { OnErr result (self.new ≡ out_of_memory self.old) }
        ensures again { Lasts self.old result }
    {
        match take(&mut self.phase) {
            Phase::Open(state) => {
                let fault = failure(&state, cause_of(why));
                self.phase = failed_phase(self.alloc, &state, fault, totals(&self.phase))?;
                Ok(fault)
            }
            Phase::Failed {
                fault,
                left,
                totals,
            } => {
                self.phase = Phase::Failed {
                    fault,
                    left,
                    totals,
                };
                Ok(fault)
            }
            Phase::OutOfMemory(_) => Err(Memory),
        }
    }

    /// Gives a stream the head of its response. A stream that is not live, or was given its
    /// last headers, takes nothing. The sizes of the headers (name, value and 32 each) sum to
    /// at most 16,384.
    #[tactic(auto, using(crate::proofs::Sounds::s_headed_on))]
    pub fn head(&mut self, stream: u32, headers: &[Header]) -> Result<(), Memory>
        requires { list_size headers.now ≤ MAX_LIST_SIZE }
        ensures after { OnOk result
            (self.new ≡ on_open (with_head_on stream (block_bytes headers.now)) self.old) }
        ensures err { OnErr result (self.new ≡ out_of_memory self.old) }
        ensures again { Lasts self.old result }
    {
        if let Some(mut state) = take_state(&mut self.phase)? {
            answers::head(&mut state, self.alloc, stream, headers)?;
            self.phase = Phase::Open(state);
        }
        Ok(())
    }

    /// Gives a stream its last headers, which are written with END_STREAM once no message is
    /// left. Else it is as `head`.
    #[tactic(auto, using(crate::proofs::Sounds::s_finished_on))]
    pub fn finish(&mut self, stream: u32, headers: &[Header]) -> Result<(), Memory>
        requires { list_size headers.now ≤ MAX_LIST_SIZE }
        ensures after { OnOk result
            (self.new ≡ on_open (with_trailers_on stream (block_bytes headers.now)) self.old) }
        ensures err { OnErr result (self.new ≡ out_of_memory self.old) }
        ensures again { Lasts self.old result }
    {
        if let Some(mut state) = take_state(&mut self.phase)? {
            answers::finish(&mut state, self.alloc, stream, headers)?;
            self.phase = Phase::Open(state);
        }
        Ok(())
    }

    /// Offers a stream a message, which isn't empty: it takes the place of one that waits, and
    /// one that equals the message begun last withdraws it. A stream that is not live, or was
    /// given its last headers, takes nothing.
    #[tactic(auto, using(crate::proofs::Sounds::s_offered_on))]
    pub fn offer(&mut self, stream: u32, message: Octets)
        requires { 0 < length message }
        ensures { self.new ≡ offers stream message self.old }
    {
        if let Phase::Open(state) = &mut self.phase {
            answers::offer(state, stream, message);
        }
    }

    /// The same of a message that other streams share.
    #[tactic(auto, using(crate::proofs::Sounds::s_offered_on))]
    pub fn offer_shared(&mut self, stream: u32, message: Shared<Octets>)
        requires { 0 < length message }
        ensures { self.new ≡ offers stream message self.old }
    {
        if let Phase::Open(state) = &mut self.phase {
            answers::offer_shared(state, stream, message);
        }
    }

    /// Withdraws the message that waits on a stream, if one does.
    #[tactic(auto, using(crate::proofs::Sounds::s_withdrawn_on))]
    pub fn withdraw(&mut self, stream: u32)
        ensures { self.new ≡ withdraws stream self.old }
    {
        if let Phase::Open(state) = &mut self.phase {
            answers::withdraw(state, stream);
        }
    }

    /// Resets a live stream with this code (RFC 9113, section 7): it is live no more, and what
    /// waits for it is dropped. A stream that is not live takes nothing.
    #[tactic(auto, using(crate::proofs::Sounds::s_reset_by))]
    pub fn reset(&mut self, stream: u32, code: u32) -> Result<(), Memory>
        ensures after { OnOk result (self.new ≡ on_open (after_reset stream code) self.old) }
        ensures err { OnErr result (self.new ≡ out_of_memory self.old) }
        ensures again { Lasts self.old result }
    {
        if let Some(mut state) = take_state(&mut self.phase)? {
            answers::reset(&mut state, stream, code)?;
            self.phase = Phase::Open(state);
        }
        Ok(())
    }

    /// Appends to `out` all that may be written: the control frames in the order in which they
    /// were queued, and then rounds of the streams. After a fault it writes what control frames
    /// were still queued and GOAWAY, once, and nothing after it.
    #[tactic(auto, unfolding(crate::specs::Conns::flush_of))]
    pub fn flush(&mut self, out: &mut Output) -> Result<(), Memory>
        ensures after { OnOk result (self.new ≡ (flush_of self.old).after) }
        ensures bytes { OnOk result (out.new ≡ out.old ++ (flush_of self.old).bytes) }
        ensures prefix { GainsFront (flush_of self.old).bytes out.old out.new }
        ensures err { OnErr result (self.new ≡ out_of_memory self.old) }
        ensures again { self.old ≡ out_of_memory self.old → IsErr result }
    {
        match take(&mut self.phase) {
            Phase::Open(mut state) => {
                pull(&mut state, self.alloc, out)?;
                self.phase = Phase::Open(state);
                Ok(())
            }
            Phase::Failed {
                fault,
                left,
                totals,
            } => {
                out.push_slice(left.as_slice())?;
                self.phase = Phase::Failed {
                    fault,
                    left: Octets::empty(self.alloc),
                    totals,
                };
                Ok(())
            }
            Phase::OutOfMemory(_) => Err(Memory),
        }
    }

    /// How many streams are live.
    pub fn live(&self) -> u32
        ensures { result ≡ live_on self.now }
    {
        match &self.phase {
            Phase::Open(state) => state.streams.len(),
            Phase::Failed { .. } | Phase::OutOfMemory(_) => 0,
        }
    }

    /// Whether a stream is live: from its accepted head on, until it is reset, or its request
    /// has ended and its END_STREAM was written.
    pub fn is_live(&self, stream: u32) -> bool
        ensures { result ≡ is_live_on self.now stream }
    {
        match &self.phase {
            Phase::Open(state) => state.streams.is_live(stream),
            Phase::Failed { .. } | Phase::OutOfMemory(_) => false,
        }
    }

    /// Whether the peer sent GOAWAY.
    pub fn is_going(&self) -> bool
        ensures { result ≡ is_going self.now }
    {
        totals(&self.phase).goaway_received
    }

    /// How many messages began, those of streams that are live no more too.
    pub fn begun(&self) -> u64
        ensures { result ≡ begun_on self.now }
    {
        totals(&self.phase).messages_started
    }

    /// How many bytes it holds that are still to be written: queued control frames and GOAWAY, and the messages of its
    /// streams. One that several streams share counts for each. It takes no memory.
    pub fn held(&self) -> usize {
        match &self.phase {
            Phase::Open(state) => state.outbox.held(),
            Phase::Failed { left, .. } => left.len(),
            Phase::OutOfMemory(_) => 0,
        }
    }
}
