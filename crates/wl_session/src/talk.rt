//! A talk: frames, names, turns and tokens in, bytes out.

ghost use Rattle.std.specs.Prelude.{◌≡◌, ◌++◌, ◌==◌, ◌&&◌, true, IfOk, IfSome, OnOk, Option, Some, option_map};
ghost use Rattle.std.specs.List.{AllByRecursion, list_any};
ghost use Rattle.list_laws.specs.Lists.{GainsFront};
ghost use Rattle.h2_frame.specs.declared.fault.FrameFault.TheVariants as frame_faults;
ghost use Rattle.h2_conn.specs.declared.fault.ConnFault.{ConnFault};
ghost use Rattle.h2_conn.specs.Conns.{frame_result, is_going, live_on, begun_on, frame_fault_on, after_frame_fault};
ghost use Rattle.h2_conn.specs.Kinds.{Fits};
ghost use Rattle.wl_session.specs.Settled.{is_new, is_new_view};
ghost use Rattle.wl_session.specs.Answering.{calls_turn};
ghost use Rattle.wl_session.specs.Sharing.{MayShare};
ghost use Rattle.wl_session.specs.Sessions.{with_turned, turn_said, name_said, given_said};
ghost use Rattle.wl_session.specs.Talks.{fresh_talk, after_event, after_body, after_happening, after_happenings, after_frame, with_served, others, settings_bytes, greeting, written, first_of, frame_said, frames_said, break_said};
ghost use Rattle.wl_session.specs.Tokens.{first_unnamed, first_ask, name_first, give_first};

use crate::asks::{JwtAsk, JwtOutcome};
use crate::counted::{CountedConn, call_method};
use crate::giving::{first_ask, give_first};
use crate::naming::{name_first, unnamed_stream};
use crate::replies::refuse;
use crate::served::{CallKind, ServedCall, Stage, others, with_served};
use crate::shared_views::SharedViews;
use crate::turn::turn_all;
use call_counts::{CallCounts, CallTally};
use grpc_conn::{CallEvent, Calls};
use h2_conn::{Conn, ConnError, ConnFault, Happening};
use h2_frame::{Body, Frame, FrameFault, Setting, put_frame};
use h2_wire::{error_code, setting};
use output_parts::Output;
use std::alloc::Global;
use std::marker::Model;
use std::mem;
use wl_match::Index;
use wl_octets::{Memory, Octets, Row, Shared};
use wl_selector::Selectors;
use wl_snapshot::{Snapshot, View};

/// How many streams a peer may have at once (own rule).
const MAX_STREAMS: u32 = 16;

/// How large a header list may be, by the sizes of HPACK (own rule).
const MAX_HEADER_LIST: u32 = 16_384;

/// The connection, the calls whose verdict is not there yet, and the ready ones by ascending stream.
#[derive(Drop)]
pub struct Talk {
    alloc: Global,
    greeted: bool,
    conn: CountedConn,
    calls: Calls,
    served: Row<ServedCall>,
}

impl Model for Talk {
    ghost use Rattle.wl_session.specs.Talks.{Talking};

    ghost Value = { Talking };

    ghost view = { λ t. record { greeted = t.greeted; phase = t.conn; calls = t.calls.calls; served = t.served } };
}

/// This side's SETTINGS: what a peer may do.
#[tactic(auto, unfolding(crate::specs::Talks::settings_bytes))]
fn put_settings(alloc: Global, out: &mut Output) -> Result<(), Memory>
    ensures ok { OnOk result (out.new ≡ out.old ++ settings_bytes) }
    ensures prefix { GainsFront settings_bytes out.old out.new }
{
    let mut pairs = Row::empty(alloc);
    pairs.push(Setting {
        id: setting::MAX_CONCURRENT_STREAMS,
        value: MAX_STREAMS,
    })?;
    pairs.push(Setting {
        id: setting::MAX_HEADER_LIST_SIZE,
        value: MAX_HEADER_LIST,
    })?;
    let frame = Frame {
        stream: 0,
        body: Body::Settings { pairs },
    };
    let mut bytes = Octets::empty(alloc);
    put_frame(&mut bytes, &frame)?;
    out.push_slice(bytes.as_slice())
}

/// The first of two faults.
pub fn first_of(first: Option<ConnFault>, second: Option<ConnFault>) -> Option<ConnFault>
    ensures { result ≡ first_of first second }
{
    match first {
        Some(fault) => Some(fault),
        None => second,
    }
}

/// Whether no turn answered the call yet.
fn is_new(call: &ServedCall) -> bool
    ensures { result ≡ is_new call.now }
{
    match &call.stage {
        Stage::Ready { seen, .. } => is_new_view(seen),
        _ => false,
    }
}

fn is_new_view(seen: &Option<Shared<View>>) -> bool
    ensures { result ≡ is_new_view seen.now }
{
    seen.is_none()
}

impl Talk {
    pub fn start(alloc: Global) -> Result<Talk, Memory>
        ensures { IfOk result (λ t. t ≡ fresh_talk) }
    {
        Ok(Talk {
            alloc,
            greeted: false,
            conn: CountedConn {
                inner: Conn::start(alloc)?,
                calls: CallTally::start(alloc),
            },
            calls: Calls::start(alloc)?,
            served: Row::empty(alloc),
        })
    }

    /// One more ready call.
    fn serve(&mut self, call: ServedCall) -> Result<(), Memory>
        ensures { OnOk result (self.new ≡ record self.old { served = with_served call self.old.served }) }
    {
        let served = mem::replace(&mut self.served, Row::empty(self.alloc));
        self.served = with_served(served, call)?;
        Ok(())
    }

    /// The stream is gone, and what it asked for.
    fn leave(&mut self, stream: u32)
        ensures { self.new ≡ record self.old { served = others stream self.old.served } }
    {
        let served = mem::replace(&mut self.served, Row::empty(self.alloc));
        self.served = others(served, stream);
    }

    /// What becomes of a call by its verdict, with which it leaves those that wait for theirs.
    #[tactic(auto, unfolding(crate::specs::Talks::after_event))]
    fn heed(&mut self, stream: u32, event: CallEvent) -> Result<(), Memory>
        ensures { OnOk result (self.new ≡ after_event stream event self.old) }
    {
        match event {
            CallEvent::Nothing => Ok(()),
            CallEvent::Malformed => {
                self.conn.inner.reset(stream, error_code::PROTOCOL_ERROR)?;
                self.calls.gone(stream);
                Ok(())
            }
            CallEvent::Refuse(refusal) => {
                refuse(self.alloc, &mut self.conn, stream, false, refusal)?;
                self.calls.gone(stream);
                Ok(())
            }
            CallEvent::Ready {
                method,
                request,
                ..
            } => {
                self.calls.gone(stream);
                self.conn.calls.begin(stream, call_method(method))?;
                self.serve(ServedCall {
                    stream,
                    stage: Stage::Unnamed(CallKind::new(method, request)),
                })
            }
        }
    }

    #[tactic(auto, unfolding(crate::specs::Talks::after_body))]
    fn body(&mut self, stream: u32, bytes: &[u8], ended: bool) -> Result<(), Memory>
        ensures { OnOk result (self.new ≡ after_body stream bytes.now ended self.old) }
    {
        let event = self.calls.body(self.alloc, stream, bytes, ended)?;
        self.heed(stream, event)
    }

    #[tactic(auto, unfolding(crate::specs::Talks::after_happening))]
    fn happening(&mut self, happening: Happening) -> Result<(), Memory>
        ensures { OnOk result (self.new ≡ after_happening happening self.old) }
    {
        match happening {
            Happening::Head {
                stream,
                headers,
                ended,
            } => {
                let event = self
                    .calls
                    .head(self.alloc, stream, headers.as_slice(), ended)?;
                self.heed(stream, event)
            }
            Happening::Body {
                stream,
                bytes,
                ended,
            } => self.body(stream, bytes.as_slice(), ended),
            Happening::End { stream } => self.body(stream, &[], true),
            Happening::Gone { stream } => {
                self.conn.calls.cancel(stream);
                self.calls.gone(stream);
                self.leave(stream);
                Ok(())
            }
        }
    }

    #[tactic(auto, using(crate::proofs::ItemSequences::happened_more))]
    fn happenings(&mut self, told: Row<Happening>) -> Result<(), Memory>
        ensures { OnOk result (self.new ≡ after_happenings told self.old) }
    {
        for happening in told.into_vec() {
            self.happening(happening)?;
        }
        Ok(())
    }

    /// What a frame of the peer does, and the fault with which the connection fails.
    #[tactic(auto, unfolding(crate::specs::Talks::after_frame), using(crate::proofs::ItemSequences::faults_tell_nothing))]
    fn frame(&mut self, frame: Frame) -> Result<Option<ConnFault>, Memory>
        requires { Fits frame }
        ensures after { OnOk result (self.new ≡ after_frame frame self.old) }
        ensures fault { IfOk result (λ fault. fault ≡ (frame_result self.old.phase frame).fault) }
    {
        let mut told = Row::empty(self.alloc);
        match self.conn.inner.frame(frame, &mut told) {
            Ok(()) => {
                self.happenings(told)?;
                Ok(None)
            }
            Err(ConnError::Fault(fault)) => Ok(Some(fault)),
            Err(ConnError::Memory) => Err(Memory),
        }
    }

    /// This side's SETTINGS before all else, and then what may be written now.
    #[tactic(auto, unfolding(crate::specs::Talks::written), using(crate::proofs::ItemSequences::greet_front, crate::proofs::ItemSequences::flush_front))]
    fn write(&mut self, out: &mut Output) -> Result<(), Memory>
        ensures after { OnOk result ((fault : Option ConnFault) → self.new ≡ (written fault self.old).after) }
        ensures bytes { OnOk result
            ((fault : Option ConnFault) → out.new ≡ out.old ++ (written fault self.old).bytes) }
        ensures prefix { (fault : Option ConnFault)
            → GainsFront (written fault self.old).bytes out.old out.new }
    {
        self.greet(out)?;
        self.conn.inner.flush(out)
    }

    fn greet(&mut self, out: &mut Output) -> Result<(), Memory>
        ensures after { OnOk result (self.new ≡ record self.old { greeted = true }) }
        ensures bytes { OnOk result (out.new ≡ out.old ++ greeting self.old.greeted) }
        ensures prefix { GainsFront (greeting self.old.greeted) out.old out.new }
        ensures phase { self.new.phase ≡ self.old.phase }
    {
        if !self.greeted {
            put_settings(self.alloc, out)?;
            self.greeted = true;
        }
        Ok(())
    }

    /// A frame, and what is written after it.
    #[tactic(auto, unfolding(crate::specs::Talks::frame_said), using(crate::proofs::ItemSequences::written_fault))]
    fn step(&mut self, frame: Frame, out: &mut Output) -> Result<Option<ConnFault>, Memory>
        requires { Fits frame }
        ensures after { OnOk result (self.new ≡ (frame_said frame self.old).after) }
        ensures bytes { OnOk result (out.new ≡ out.old ++ (frame_said frame self.old).bytes) }
        ensures fault { IfOk result (λ fault. fault ≡ (frame_said frame self.old).fault) }
        ensures prefix { GainsFront (frame_said frame self.old).bytes out.old out.new }
    {
        let fault = self.frame(frame)?;
        self.write(out)?;
        Ok(fault)
    }

    /// Frames in turn, each with what is written after it, and the first fault.
    #[tactic(auto, using(crate::proofs::ItemSequences::said_more))]
    pub fn frames(
        &mut self,
        frames: Row<Frame>,
        out: &mut Output,
    ) -> Result<Option<ConnFault>, Memory>
        requires { AllByRecursion Fits frames }
        ensures after { OnOk result (self.new ≡ (frames_said frames self.old).after) }
        ensures bytes { OnOk result (out.new ≡ out.old ++ (frames_said frames self.old).bytes) }
        ensures fault { IfOk result (λ fault. fault ≡ (frames_said frames self.old).fault) }
        ensures prefix { GainsFront (frames_said frames self.old).bytes out.old out.new }
    {
        let mut first = None;
        for frame in frames.into_vec() {
            first = first_of(first, self.step(frame, out)?);
        }
        Ok(first)
    }

    /// The connection fails by bytes that aren't frames.
    fn take_fault(&mut self, why: FrameFault) -> Result<ConnFault, Memory>
        requires { why ≡ frame_faults.Memory → ⊥ }
        ensures after { OnOk result
            (self.new ≡ record self.old { phase = after_frame_fault why self.old.phase }) }
        ensures fault { IfOk result (λ fault. frame_fault_on why self.old.phase ≡ Some fault) }
    {
        self.conn.inner.fail(why)
    }

    /// Bytes that aren't frames, and what is written after them.
    #[tactic(auto, unfolding(crate::specs::Talks::break_said), using(crate::proofs::ItemSequences::written_fault))]
    pub fn fail(&mut self, why: FrameFault, out: &mut Output) -> Result<Option<ConnFault>, Memory>
        requires { why ≡ frame_faults.Memory → ⊥ }
        ensures after { OnOk result (self.new ≡ (break_said why self.old).after) }
        ensures bytes { OnOk result (out.new ≡ out.old ++ (break_said why self.old).bytes) }
        ensures fault { IfOk result (λ fault. fault ≡ (break_said why self.old).fault) }
        ensures prefix { GainsFront (break_said why self.old).bytes out.old out.new }
    {
        let fault = self.take_fault(why)?;
        self.write(out)?;
        Ok(Some(fault))
    }

    fn take_turn(
        &mut self,
        views: &mut SharedViews,
        snapshot: &Snapshot,
        index: Option<&Index>,
    ) -> Result<(), Memory>
        requires index { IfSome index (λ i. i.now ≡ snapshot.now.entries) }
        requires shares { MayShare snapshot.now views.old }
        ensures turned { OnOk result
            (self.new ≡ with_turned self.old (calls_turn snapshot.now self.old.served self.old.phase)) }
        ensures shown { views.new ≡ Some snapshot.now }
    {
        let served = mem::replace(&mut self.served, Row::empty(self.alloc));
        self.served = turn_all(self.alloc, &mut self.conn, served, views, snapshot, index)?;
        Ok(())
    }

    /// A turn on this publication, and what is written after it.
    #[tactic(auto, unfolding(crate::specs::Sessions::turn_said))]
    pub fn turn(
        &mut self,
        views: &mut SharedViews,
        snapshot: &Snapshot,
        index: Option<&Index>,
        out: &mut Output,
    ) -> Result<(), Memory>
        requires index { IfSome index (λ i. i.now ≡ snapshot.now.entries) }
        requires shares { MayShare snapshot.now views.old }
        ensures shown { views.new ≡ Some snapshot.now }
        ensures after { OnOk result (self.new ≡ (turn_said snapshot.now self.old).after) }
        ensures bytes { OnOk result (out.new ≡ out.old ++ (turn_said snapshot.now self.old).bytes) }
        ensures prefix { GainsFront (turn_said snapshot.now self.old).bytes out.old out.new }
    {
        self.take_turn(views, snapshot, index)?;
        self.write(out)
    }

    fn take_name(&mut self, selectors: Option<Selectors>) -> Result<(), Memory>
        ensures { OnOk result
            (self.new ≡ with_turned self.old (name_first selectors self.old.served self.old.phase)) }
    {
        let served = mem::replace(&mut self.served, Row::empty(self.alloc));
        self.served = name_first(self.alloc, &mut self.conn, served, selectors)?;
        Ok(())
    }

    /// The first unnamed call takes these selectors, or its stream ends and what may be written is.
    #[tactic(auto, unfolding(crate::specs::Sessions::name_said))]
    pub fn name(&mut self, selectors: Option<Selectors>, out: &mut Output) -> Result<(), Memory>
        ensures after { OnOk result (self.new ≡ (name_said selectors self.old).after) }
        ensures bytes { OnOk result (out.new ≡ out.old ++ (name_said selectors self.old).bytes) }
        ensures prefix { GainsFront (name_said selectors self.old).bytes out.old out.new }
    {
        match selectors {
            Some(selectors) => self.take_name(Some(selectors)),
            None => {
                self.take_name(None)?;
                self.write(out)
            }
        }
    }

    fn take_outcome(&mut self, outcome: JwtOutcome) -> Result<(), Memory>
        ensures { OnOk result
            (self.new ≡ with_turned self.old (give_first outcome self.old.served self.old.phase)) }
    {
        let served = mem::replace(&mut self.served, Row::empty(self.alloc));
        self.served = give_first(self.alloc, &mut self.conn, served, outcome)?;
        Ok(())
    }

    /// The first ask gets this outcome, and what may be written is.
    #[tactic(auto, unfolding(crate::specs::Sessions::given_said))]
    pub fn give(&mut self, outcome: JwtOutcome, out: &mut Output) -> Result<(), Memory>
        ensures after { OnOk result (self.new ≡ (given_said outcome self.old).after) }
        ensures bytes { OnOk result (out.new ≡ out.old ++ (given_said outcome self.old).bytes) }
        ensures prefix { GainsFront (given_said outcome self.old).bytes out.old out.new }
    {
        self.take_outcome(outcome)?;
        self.write(out)
    }

    /// Whether no turn answered one of the ready calls yet.
    pub fn has_new(&self) -> bool
        ensures { result ≡ list_any is_new self.now.served }
    {
        self.served.as_slice().iter().any(|call| is_new(call))
    }

    pub fn unnamed(&self) -> Option<u32>
        ensures { result ≡ first_unnamed self.now.served }
    {
        unnamed_stream(self.served.as_slice())
    }

    pub fn ask(&self) -> Option<&JwtAsk>
        ensures { option_map (λ a. a.now) result ≡ first_ask self.now.served }
    {
        first_ask(self.served.as_slice())
    }

    pub fn is_done(&self) -> bool
        ensures { result ≡ (is_going self.now.phase && (live_on self.now.phase == 0)) }
    {
        self.conn.inner.is_going() && self.conn.inner.live() == 0
    }

    pub fn begun(&self) -> u64
        ensures { result ≡ begun_on self.now.phase }
    {
        self.conn.inner.begun()
    }

    /// How many bytes its connection holds.
    pub fn held(&self) -> usize {
        self.conn.inner.held()
    }

    /// What became of its calls since this was asked last.
    pub fn take_calls(&mut self) -> CallCounts
        ensures { self.new ≡ self.old }
    {
        self.conn.calls.take()
    }

    /// The same, at its end: the calls that are left end with it.
    pub fn end_calls(&mut self) -> CallCounts
        ensures { self.new ≡ self.old }
    {
        self.conn.calls.cancel_all();
        self.conn.calls.take()
    }
}
