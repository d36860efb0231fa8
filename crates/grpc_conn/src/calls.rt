//! The calls of a connection.

ghost use Rattle.std.specs.Prelude.{◌≡◌, ◌<◌, ◌++◌, ◌==◌, ℕ, List, [], true, false, length, None, position, IfOk, IsErr, OnOk, OnErr};
ghost use Rattle.wl_octets.specs.declared.header.Header.{Header};
ghost use Rattle.grpc_conn.specs.Verdicts.{verdict, news};
ghost use Rattle.grpc_conn.specs.Calls.{CallTable, standing_of_head, standing_at, event_at, calls_after, with_call, without, CallStandsFor};

use crate::event::CallEvent;
use crate::judge::advance;
use crate::standing::{Call, Standing};
use grpc_wire::{HeadVerdict, judge_head};
use std::alloc::Global;
use std::marker::Model;
use wl_octets::{Header, Memory, Octets};

/// How many calls a connection has room for from its start (own rule; more streams are refused below).
pub const CALLS_AT_ONCE: usize = 16;

/// The calls of a connection whose streams are there.
///
/// Contracts see what is kept of each call, and whether memory ran out; from then on each call that can answer so does.
#[derive(Drop)]
pub struct Calls {
    calls: Vec<Call>,
    failed: bool,
}

impl Model for Calls {
    ghost Value = { CallTable };

    ghost view = { λ a. record { calls = a.calls.items; failed = a.failed } };
}

impl Calls {
    /// No calls, and room for [`CALLS_AT_ONCE`].
    pub fn start(alloc: Global) -> Result<Calls, Memory>
        ensures { IfOk result (λ a. a ≡ record { calls = []; failed = false }) }
    {
        Ok(Calls {
            calls: Vec::with_capacity(alloc, CALLS_AT_ONCE)?,
            failed: false,
        })
    }

    /// A call begins, on a stream that has none: its header list, and whether its request ends with that.
    ///
    /// There is room for [`CALLS_AT_ONCE`] calls; one more may need memory. When memory runs out the call isn't there,
    /// and each later call that can answer so does.
    #[tactic(auto, using(crate::proofs::Histories::begins_so))]
    pub fn head(
        &mut self,
        alloc: Global,
        stream: u32,
        headers: &[Header],
        ended: bool,
    ) -> Result<CallEvent, Memory>
        // The verdict on this head, no body, and whether the request has ended.
        ensures event { IfOk result (λ event. event ≡ verdict headers.now [] ended) }
        ensures calls { OnOk result (self.new.calls ≡ with_call stream
            (standing_of_head headers.now ended) self.old.calls) }
        // What is kept of a call on a stream that had none.
        ensures stands { OnOk result (standing_at stream self.old.calls ≡ None → ended ≡ false
            → CallStandsFor stream self.new.calls headers.now []) }
        ensures ok { OnOk result (self.new.failed ≡ false) }
        ensures err { OnErr result (self.new.failed ≡ true) }
        ensures absent { OnErr result (self.new.calls ≡ self.old.calls) }
        ensures again { self.old.failed ≡ true → IsErr result }
    {
        // The public clauses follow from those of the inner call.
        self.head_inner(alloc, stream, headers, ended)
    }

    fn head_inner(
        &mut self,
        alloc: Global,
        stream: u32,
        headers: &[Header],
        ended: bool,
    ) -> Result<CallEvent, Memory>
        ensures event { IfOk result (λ event. event ≡ verdict headers.now [] ended) }
        ensures calls { OnOk result (self.new.calls ≡ with_call stream
            (standing_of_head headers.now ended) self.old.calls) }
        ensures ok { OnOk result (self.new.failed ≡ false) }
        ensures err { OnErr result (self.new.failed ≡ true) }
        ensures absent { OnErr result (self.new.calls ≡ self.old.calls) }
        ensures again { self.old.failed ≡ true → IsErr result }
    {
        if self.failed {
            return Err(Memory);
        }
        match begin(alloc, headers, ended) {
            Ok((event, standing)) => match self.calls.push(Call { stream, standing }) {
                Ok(()) => Ok(event),
                Err(_) => {
                    self.failed = true;
                    Err(Memory)
                }
            },
            Err(memory) => {
                self.failed = true;
                Err(memory)
            }
        }
    }

    /// More bytes of a call's body, and whether its request ends with them.
    ///
    /// A verdict is given once: Nothing for a stream whose call was decided before, or that isn't there. After the end of
    /// the request no more bytes are due. When memory runs out each later call that can answer so does.
    #[tactic(auto, using(crate::proofs::Histories::tells_so, crate::proofs::Histories::goes_so))]
    pub fn body(
        &mut self,
        alloc: Global,
        stream: u32,
        bytes: &[u8],
        ended: bool,
    ) -> Result<CallEvent, Memory>
        // What is kept of the call and these bytes come to.
        ensures event { IfOk result (λ event. event ≡ event_at (standing_at stream self.old.calls)
            bytes.now ended) }
        ensures calls { OnOk result (self.new.calls ≡ calls_after stream bytes.now ended self.old.calls) }
        // The verdict on the head, on all bytes so far, and on whether the request has ended, if it wasn't given before.
        ensures verdict { IfOk result (λ event. (headers : List Header) (fed : List ℕ)
            → CallStandsFor stream self.old.calls headers fed
            → event ≡ news (verdict headers fed false) (verdict headers (fed ++ bytes.now) ended)) }
        ensures stands { OnOk result ((headers : List Header) (fed : List ℕ)
            → CallStandsFor stream self.old.calls headers fed → ended ≡ false
            → CallStandsFor stream self.new.calls headers (fed ++ bytes.now)) }
        ensures ok { OnOk result (self.new.failed ≡ false) }
        ensures err { OnErr result (self.new.failed ≡ true) }
        ensures again { self.old.failed ≡ true → IsErr result }
    {
        // The public clauses follow from those of the inner call.
        self.body_inner(alloc, stream, bytes, ended)
    }

    fn body_inner(
        &mut self,
        alloc: Global,
        stream: u32,
        bytes: &[u8],
        ended: bool,
    ) -> Result<CallEvent, Memory>
        ensures event { IfOk result (λ event. event ≡ event_at (standing_at stream self.old.calls)
            bytes.now ended) }
        ensures calls { OnOk result (self.new.calls ≡ calls_after stream bytes.now ended self.old.calls) }
        ensures ok { OnOk result (self.new.failed ≡ false) }
        ensures err { OnErr result (self.new.failed ≡ true) }
        ensures again { self.old.failed ≡ true → IsErr result }
    {
        if self.failed {
            return Err(Memory);
        }
        match advance_in(alloc, self.calls.as_mut_slice(), stream, bytes, ended) {
            Ok(event) => Ok(event),
            Err(memory) => {
                self.failed = true;
                Err(memory)
            }
        }
    }

    /// The stream isn't there any more. It takes no memory.
    pub fn gone(&mut self, stream: u32)
        ensures calls { self.new.calls ≡ without stream self.old.calls }
        ensures failed { self.new.failed ≡ self.old.failed }
    {
        self.calls.retain(|call| call.stream != stream);
    }
}

/// What a head comes to, and what is kept of its call.
#[tactic(auto, unfolding(crate::specs::Verdicts::verdict, crate::specs::Calls::standing_of_head, crate::specs::Calls::event_of, crate::specs::Calls::standing_after))]
fn begin(alloc: Global, headers: &[Header], ended: bool) -> Result<(CallEvent, Standing), Memory>
    ensures event { IfOk result (λ standing_of_head. standing_of_head.0 ≡ verdict headers.now [] ended) }
    ensures kept { IfOk result (λ made. made.1 ≡ standing_of_head headers.now ended) }
{
    match judge_head(headers) {
        HeadVerdict::Malformed => Ok((CallEvent::Malformed, Standing::Decided)),
        HeadVerdict::Refused(refusal) => Ok((CallEvent::Refuse(refusal), Standing::Decided)),
        HeadVerdict::Call(method) => {
            let body = Octets::empty(alloc);
            let mut standing = Standing::Waiting { method, body };
            let event = advance(alloc, &mut standing, &[], ended)?;
            Ok((event, standing))
        }
    }
}

/// The place of the call on a stream.
fn place(calls: &[Call], stream: u32) -> Option<usize>
    ensures { result ≡ position (λ c. c.stream == stream) calls.now }
{
    calls.iter().position(|call| call.stream == stream)
}

/// More bytes of a body, for the call on a stream.
fn advance_in(
    alloc: Global,
    calls: &mut [Call],
    stream: u32,
    bytes: &[u8],
    ended: bool,
) -> Result<CallEvent, Memory>
    ensures event { IfOk result (λ event. event ≡ event_at (standing_at stream calls.old) bytes.now ended) }
    ensures calls { OnOk result (calls.new ≡ calls_after stream bytes.now ended calls.old) }
{
    match place(calls, stream) {
        Some(at) => {
            let call = &mut calls[at];
            advance(alloc, &mut call.standing, bytes, ended)
        }
        None => Ok(CallEvent::Nothing),
    }
}
