//! A parser that is fed pieces of a stream.

ghost use Rattle.std.specs.Prelude.{◌≡◌, ℕ, List, [], ◌++◌, length, OnOk, IfErr, Err};
ghost use Rattle.h2_frame.specs.declared.fault.FrameFault.{FrameFault};
ghost use Rattle.h2_frame.specs.declared.stage.Stage.TheVariants.{Frames};
ghost use Rattle.h2_frame.specs.Reading.{End, Opening, Rest, Fault, preface, frames_of, reading_from, Refuses, Feeds, StandsFor, rest_of};
ghost use Rattle.h2_frame.specs.Parsing.{ending_of, IsWithin};
ghost use Rattle.list_laws.specs.Lists.{GainsFront};

use crate::fault::FrameFault;
use crate::frame::Frame;
use crate::opening::{Greeting, PREFACE, greet};
use crate::pending::Pending;
use crate::reading::frames;
use crate::stage::Stage;
use std::alloc::Global;
use std::marker::Model;
use wl_octets::Row;

/// Reads the frames of one stream, however it is cut.
///
/// Contracts see where the bytes so far end: within the preface, within a frame, or at a
/// fault. Bytes of a frame that is whole are not kept.
#[derive(Drop)]
pub struct Parser {
    stage: Stage,
    pending: Pending,
}

impl Model for Parser {
    ghost Value = { End };

    ghost view = { λ a. ending_of a.stage a.pending };

    ghost invariant = { λ a. IsWithin a.stage };
}

impl Parser {
    /// A parser of a stream that begins with the preface (RFC 9113, section 3.4).
    pub fn start(alloc: Global) -> Parser
        ensures { result ≡ Opening preface }
    {
        Parser {
            stage: Stage::Preface(0),
            pending: Pending::empty(alloc),
        }
    }

    /// A parser of a stream without a preface, as a server sends it.
    pub fn start_bare(alloc: Global) -> Parser
        ensures { result ≡ Rest [] }
    {
        Parser {
            stage: Stage::Frames,
            pending: Pending::empty(alloc),
        }
    }

    /// How many bytes have come of the frame that isn't whole; 0 within the preface and after a fault. It takes no memory.
    pub fn rest(&self) -> usize
        ensures { result ≡ length (rest_of self.now) }
    {
        match self.stage {
            Stage::Frames => self.pending.len(),
            Stage::Preface(_) | Stage::Failed(_) => 0,
        }
    }

    /// Reads on with more bytes of the stream, and puts each frame that is whole after what
    /// `into` holds. After a fault, each later call answers that fault again; the frames
    /// before it are in `into`.
    ///
    /// A byte is copied once into its frame, and once before that where its frame comes in
    /// several pieces and is not DATA without padding.
    #[tactic(auto, using(crate::proofs::FedPieces::stands_on))]
    pub fn feed(
        &mut self,
        alloc: Global,
        piece: &[u8],
        into: &mut Row<Frame>,
    ) -> Result<(), FrameFault>
        ensures fed { Feeds result (reading_from self.old piece.now) into.old into.new self.new }
        ensures prefix { GainsFront (reading_from self.old piece.now).frames into.old into.new }
        ensures again { (fault : FrameFault) → self.old ≡ Fault fault → result ≡ Err fault }
        ensures stands { (first : End) (fed : List ℕ) → StandsFor first self.old fed
            → StandsFor first self.new (fed ++ piece.now) }
    {
        self.feed_parts(alloc, piece, into)
    }

    /// What completes a frame that was begun goes after its other bytes; all else is read
    /// where it lies.
    fn feed_parts(
        &mut self,
        alloc: Global,
        piece: &[u8],
        into: &mut Row<Frame>,
    ) -> Result<(), FrameFault>
        ensures fed { Feeds result (reading_from self.old piece.now) into.old into.new self.new }
        ensures prefix { GainsFront (reading_from self.old piece.now).frames into.old into.new }
        ensures again { (fault : FrameFault) → self.old ≡ Fault fault → result ≡ Err fault }
    {
        let (head, rest) = piece.split_at(self.lacking().min(piece.len()));
        match self.advance(alloc, head, into) {
            Ok(()) => self.feed_behind(alloc, rest, into),
            Err(fault) => Err(fault),
        }
    }

    /// As `feed`, where the head of a frame that was begun is whole.
    fn feed_behind(
        &mut self,
        alloc: Global,
        piece: &[u8],
        into: &mut Row<Frame>,
    ) -> Result<(), FrameFault>
        ensures fed { Feeds result (reading_from self.old piece.now) into.old into.new self.new }
        ensures prefix { GainsFront (reading_from self.old piece.now).frames into.old into.new }
        ensures again { (fault : FrameFault) → self.old ≡ Fault fault → result ≡ Err fault }
    {
        let (payload, rest) = piece.split_at(self.lacking().min(piece.len()));
        match self.advance(alloc, payload, into) {
            Ok(()) => self.advance(alloc, rest, into),
            Err(fault) => Err(fault),
        }
    }

    /// How many bytes complete what was begun: the preface, a head, or a payload.
    fn lacking(&self) -> usize {
        match self.stage {
            Stage::Preface(matched) => PREFACE.len() - matched,
            Stage::Frames => self.pending.lacking(),
            Stage::Failed(_) => 0,
        }
    }

    #[tactic(auto, unfolding(crate::specs::Reading::reading_from))]
    fn advance(
        &mut self,
        alloc: Global,
        piece: &[u8],
        into: &mut Row<Frame>,
    ) -> Result<(), FrameFault>
        ensures fed { Feeds result (reading_from self.old piece.now) into.old into.new self.new }
        ensures prefix { GainsFront (reading_from self.old piece.now).frames into.old into.new }
        ensures again { (fault : FrameFault) → self.old ≡ Fault fault → result ≡ Err fault }
    {
        match self.stage {
            Stage::Preface(matched) => match greet(matched, piece) {
                Greeting::Whole(used) => {
                    let (_, rest) = piece.split_at(used);
                    self.stage = Stage::Frames;
                    self.pending.clear();
                    read(alloc, &mut self.stage, &mut self.pending, rest, into)
                }
                Greeting::Partly(matched) => {
                    self.stage = Stage::Preface(matched);
                    Ok(())
                }
                Greeting::Wrong(at) => {
                    self.stage = Stage::Failed(FrameFault::BadPreface(at));
                    Err(FrameFault::BadPreface(at))
                }
            },
            Stage::Frames => read(alloc, &mut self.stage, &mut self.pending, piece, into),
            Stage::Failed(fault) => Err(fault),
        }
    }
}

/// Reads frames, and keeps the fault.
#[tactic(auto, unfolding(crate::specs::Reading::reading_from))]
fn read(
    alloc: Global,
    stage: &mut Stage,
    pending: &mut Pending,
    piece: &[u8],
    into: &mut Row<Frame>,
) -> Result<(), FrameFault>
    requires { stage.old ≡ Frames }
    ensures fed { Feeds result (reading_from (Rest pending.old) piece.now) into.old into.new
        (ending_of stage.new pending.new) }
    ensures within { IsWithin stage.new }
    ensures prefix { GainsFront (reading_from (Rest pending.old) piece.now).frames into.old into.new }
{
    match take_in(alloc, pending, piece, into) {
        Ok(()) => Ok(()),
        Err(fault) => {
            *stage = Stage::Failed(fault);
            Err(fault)
        }
    }
}

/// Reads frames from the bytes that were kept and a piece after them, and keeps the rest.
fn take_in(
    alloc: Global,
    pending: &mut Pending,
    piece: &[u8],
    into: &mut Row<Frame>,
) -> Result<(), FrameFault>
    ensures ok { OnOk result
        ((into.new ≡ into.old ++ (frames_of (pending.old ++ piece.now)).frames)
        × ((frames_of (pending.old ++ piece.now)).ending ≡ Rest pending.new)) }
    ensures fault { IfErr result
        (λ fault. Refuses fault
        ((into.new ≡ into.old ++ (frames_of (pending.old ++ piece.now)).frames)
        × ((frames_of (pending.old ++ piece.now)).ending ≡ Fault fault))) }
    ensures prefix { GainsFront (frames_of (pending.old ++ piece.now)).frames into.old into.new }
{
    if pending.len() == 0 {
        let used = frames(alloc, piece, into)?;
        let (_, rest) = piece.split_at(used);
        return pending.keep(rest);
    }
    pending.keep(piece)?;
    pending.read(alloc, into)
}
