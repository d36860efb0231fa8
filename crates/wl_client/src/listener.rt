//! Frames, one after another, as a client hears them.

ghost use Rattle.std.specs.Prelude.{◌≡◌, ◌≤◌, ◌+◌, ◌++◌, length, nat_lt, map, OnOk, IfOk, IfErr};
ghost use Rattle.list_laws.specs.Lists.{GainsFront};
ghost use Rattle.h2_wire.specs.declared.limit.TheConstants.{MAX_FRAME_SIZE};
ghost use Rattle.h2_frame.specs.declared.frame.Body.TheVariants as bodies;
ghost use Rattle.h2_frame.specs.Writing.{frame_encoding, payload_of};
ghost use Rattle.grpc_wire.specs.Messages.{reading_from};
ghost use Rattle.wl_client.specs.declared.fault.ClientFault.TheVariants as faults;
ghost use Rattle.wl_client.specs.declared.reply.Heard.TheVariants.{Message};
ghost use Rattle.wl_client.specs.Statuses.{http_fault, grpc_code};
ghost use Rattle.wl_client.specs.Hearing.{fresh_listener, Says, Tells, Writes, is_in_place, is_ended, is_answering, credits, credits_of, fault_in, data_heard, block_heard, first_heard, list_heard, status_heard, continued, control_heard, body_heard, frame_heard, frames_heard};

use crate::assembly::Assembly;
use crate::fault::ClientFault;
use crate::headers::{grpc_code, grpc_text, http_fault};
use crate::opening::CALL_STREAM;
use crate::reply::Heard;
use grpc_wire::MessageFault;
use h2_frame::{Body, Frame, put_frame};
use h2_wire::error_code;
use hpack::{Decoder, HpackFault};
use std::alloc::Global;
use std::mem;
use wl_octets::{Header, Memory, Octets, Row};
use workload_proto::MAX_RESPONSE_LEN;

/// How many bytes the header block of an answer may have (own rule).
const MAX_HEADER_BLOCK_LEN: usize = 1_048_576;

/// How far the call's stream is.
#[derive(Clone, Copy, PartialEq, Eq)]
pub enum Stage {
    /// Its head is awaited.
    Opening,
    /// Messages and its status are.
    Answering,
    /// It has ended.
    Ended,
}

/// A header block whose end is awaited.
#[derive(Drop)]
pub struct OpenBlock {
    /// Whether it ends the stream.
    pub ended: bool,
    pub bytes: Octets,
}

/// The call so far: the table of header blocks, a block that is not whole, the stream's stage, and its messages.
#[derive(Drop)]
pub struct Listener {
    pub decoder: Decoder,
    pub block: Option<OpenBlock>,
    pub stage: Stage,
    pub messages: Assembly,
}

/// Whether a block has too many bytes with these after it.
fn is_too_long(block: &OpenBlock, more: &[u8]) -> bool
    ensures { result ≡ nat_lt MAX_HEADER_BLOCK_LEN (length block.now.bytes + length more.now) }
{
    block.bytes.len() + more.len() > MAX_HEADER_BLOCK_LEN
}

/// Puts each message after what was heard.
fn tell_messages(found: Row<Octets>, into: &mut Row<Heard>) -> Result<(), Memory>
    ensures ok { OnOk result (into.new ≡ into.old ++ map Message found) }
    ensures prefix { GainsFront (map Message found) into.old into.new }
{
    for message in found.into_vec() {
        into.push(Heard::Message(message))?;
    }
    Ok(())
}

/// Gives the windows of the connection and of the stream back what DATA of this size took of them.
#[tactic(auto, unfolding(crate::specs::Hearing::credits))]
fn put_credits(out: &mut Octets, size: u32) -> Result<(), Memory>
    ensures ok { OnOk result (out.new ≡ out.old ++ credits size) }
    ensures prefix { GainsFront (credits size) out.old out.new }
{
    if size == 0 {
        return Ok(());
    }
    put_both(out, size)
}

/// WINDOW_UPDATE of the connection, and of the stream.
fn put_both(out: &mut Octets, step: u32) -> Result<(), Memory>
    ensures ok { OnOk result (out.new ≡ out.old ++ credits_of step) }
    ensures prefix { GainsFront (credits_of step) out.old out.new }
{
    put_credit(out, 0, step)?;
    put_credit(out, CALL_STREAM, step)
}

fn put_credit(out: &mut Octets, stream: u32, step: u32) -> Result<(), Memory>
    ensures ok { OnOk result (out.new ≡ out.old ++ frame_encoding (record { stream = stream; body = bodies.WindowUpdate step })) }
    ensures prefix { GainsFront (frame_encoding (record { stream = stream; body = bodies.WindowUpdate step })) out.old out.new }
{
    put_frame(
        out,
        &Frame {
            stream,
            body: Body::WindowUpdate { step },
        },
    )
}

/// Writes a frame of the connection, which has no payload that is too long.
fn put_answer(out: &mut Octets, body: Body) -> Result<(), ClientFault>
    requires { length (payload_of body) ≤ MAX_FRAME_SIZE }
    ensures ok { OnOk result (out.new ≡ out.old ++ frame_encoding (record { stream = 0; body = body })) }
    ensures err { IfErr result (λ fault. fault ≡ faults.Memory) }
    ensures prefix { GainsFront (frame_encoding (record { stream = 0; body = body })) out.old out.new }
{
    put_frame(out, &Frame { stream: 0, body })?;
    Ok(())
}

impl Listener {
    pub fn start(alloc: Global) -> Listener
        ensures { result ≡ fresh_listener }
    {
        Listener {
            decoder: Decoder::start(alloc),
            block: None,
            stage: Stage::Opening,
            messages: Assembly::start(alloc, MAX_RESPONSE_LEN),
        }
    }

    fn is_ended(&self) -> bool
        ensures { result ≡ is_ended self.now.stage }
    {
        matches!(self.stage, Stage::Ended)
    }

    fn is_answering(&self) -> bool
        ensures { result ≡ is_answering self.now.stage }
    {
        matches!(self.stage, Stage::Answering)
    }

    /// Whether a frame is where it may be.
    #[tactic(auto, unfolding(crate::specs::Hearing::is_in_place))]
    fn is_in_place(&self, frame: &Frame) -> bool
        ensures { result ≡ is_in_place frame.now.stream frame.now.body self.now }
    {
        match frame.body {
            Body::Headers { .. } => {
                frame.stream == CALL_STREAM && self.block.is_none() && !self.is_ended()
            }
            Body::Bytes { .. } => {
                frame.stream == CALL_STREAM && self.block.is_none() && self.is_answering()
            }
            Body::Continuation { .. } => frame.stream == CALL_STREAM && self.block.is_some(),
            _ => self.block.is_none(),
        }
    }

    /// Takes the block that ends the stream.
    fn end(
        &mut self,
        alloc: Global,
        headers: &[Header],
        into: &mut Row<Heard>,
    ) -> Result<(), ClientFault>
        ensures said { Tells (status_heard (grpc_code headers.now) headers.now self.old) result into.old into.new self.new }
        ensures prefix { GainsFront (status_heard (grpc_code headers.now) headers.now self.old).told into.old into.new }
    {
        let Some(code) = grpc_code(headers) else {
            return Err(ClientFault::NoStatus);
        };
        let text = Octets::from_slice(alloc, grpc_text(headers))?;
        into.push(Heard::Status { code, text })?;
        self.stage = Stage::Ended;
        Ok(())
    }

    /// Takes the stream's first block.
    fn begin(
        &mut self,
        alloc: Global,
        ended: bool,
        headers: &[Header],
        into: &mut Row<Heard>,
    ) -> Result<(), ClientFault>
        ensures said { Tells (first_heard (http_fault headers.now) ended headers.now self.old) result into.old into.new self.new }
        ensures prefix { GainsFront (first_heard (http_fault headers.now) ended headers.now self.old).told into.old into.new }
    {
        if let Some(number) = http_fault(headers) {
            return Err(ClientFault::HttpStatus(number));
        }
        if ended {
            return self.end(alloc, headers, into);
        }
        into.push(Heard::Head)?;
        self.stage = Stage::Answering;
        Ok(())
    }

    /// Takes the headers of a whole block.
    fn take_headers(
        &mut self,
        alloc: Global,
        ended: bool,
        headers: &[Header],
        into: &mut Row<Heard>,
    ) -> Result<(), ClientFault>
        ensures said { Tells (list_heard self.old.stage ended headers.now self.old) result into.old into.new self.new }
        ensures prefix { GainsFront (list_heard self.old.stage ended headers.now self.old).told into.old into.new }
    {
        match self.stage {
            Stage::Opening => self.begin(alloc, ended, headers, into),
            Stage::Answering => {
                if ended {
                    self.end(alloc, headers, into)
                } else {
                    Err(ClientFault::Order(CALL_STREAM))
                }
            }
            Stage::Ended => Err(ClientFault::Order(CALL_STREAM)),
        }
    }

    /// Takes a block with the bytes of its last frame so far.
    #[tactic(auto, unfolding(crate::specs::Hearing::block_heard))]
    fn take_block(
        &mut self,
        alloc: Global,
        block: OpenBlock,
        whole: bool,
        into: &mut Row<Heard>,
    ) -> Result<(), ClientFault>
        ensures said { Tells (block_heard block whole self.old) result into.old into.new self.new }
        ensures prefix { GainsFront (block_heard block whole self.old).told into.old into.new }
    {
        if !whole {
            self.block = Some(block);
            return Ok(());
        }
        self.block = None;
        let headers = self.decoder.block(alloc, block.bytes.as_slice())?;
        self.take_headers(alloc, block.ended, headers.as_slice(), into)
    }

    /// Takes more bytes of the block that is not whole.
    fn continue_block(
        &mut self,
        alloc: Global,
        more: &[u8],
        whole: bool,
        into: &mut Row<Heard>,
    ) -> Result<(), ClientFault>
        ensures said { Tells (continued self.old.block more.now whole self.old) result into.old into.new self.new }
        ensures prefix { GainsFront (continued self.old.block more.now whole self.old).told into.old into.new }
    {
        match mem::replace(&mut self.block, None) {
            Some(mut block) => {
                if is_too_long(&block, more) {
                    return Err(ClientFault::Header(HpackFault::ListTooLong));
                }
                block.bytes.push_slice(more)?;
                self.take_block(alloc, block, whole, into)
            }
            None => Err(ClientFault::Order(CALL_STREAM)),
        }
    }

    /// Cuts more of the stream's DATA into messages, and gives the fault that ends them.
    fn cut(
        &mut self,
        alloc: Global,
        bytes: &[u8],
        into: &mut Row<Heard>,
    ) -> Result<Option<MessageFault>, Memory>
        ensures told { OnOk result (into.new ≡ into.old
            ++ map Message (reading_from self.old.messages.limit self.old.messages.ending bytes.now).messages) }
        ensures fault { IfOk result (λ fault. fault
            ≡ fault_in (reading_from self.old.messages.limit self.old.messages.ending bytes.now).ending) }
        ensures after { OnOk result (self.new ≡ record self.old {
          messages = record {
            limit = self.old.messages.limit;
            ending = (reading_from self.old.messages.limit self.old.messages.ending bytes.now).ending;
          };
        }) }
        ensures prefix { GainsFront
            (map Message (reading_from self.old.messages.limit self.old.messages.ending bytes.now).messages)
            into.old into.new }
    {
        let mut found = Row::empty(alloc);
        let cut = self.messages.feed(alloc, bytes, &mut found);
        tell_messages(found, into)?;
        match cut {
            Ok(()) => Ok(None),
            Err(MessageFault::Memory) => Err(Memory),
            Err(fault) => Ok(Some(fault)),
        }
    }

    /// Takes DATA of the stream.
    #[tactic(auto, unfolding(crate::specs::Hearing::data_heard))]
    fn take_data(
        &mut self,
        alloc: Global,
        bytes: &[u8],
        size: u32,
        ended: bool,
        out: &mut Octets,
        into: &mut Row<Heard>,
    ) -> Result<(), ClientFault>
        ensures said { Says (data_heard bytes.now size ended self.old) result into.old into.new out.old out.new self.new }
        ensures told_front { GainsFront (data_heard bytes.now size ended self.old).told into.old into.new }
        ensures bytes_front { GainsFront (data_heard bytes.now size ended self.old).bytes out.old out.new }
    {
        let fault = self.cut(alloc, bytes, into)?;
        if ended {
            return Err(ClientFault::NoStatus);
        }
        if let Some(fault) = fault {
            return Err(ClientFault::Message(fault));
        }
        put_credits(out, size)?;
        Ok(())
    }

    /// Takes a frame of the connection, or one that concerns the stream as a whole: it tells nothing.
    #[tactic(auto, unfolding(crate::specs::Hearing::control_heard))]
    fn take_control(&self, stream: u32, body: Body, out: &mut Octets) -> Result<(), ClientFault>
        ensures said { Writes (control_heard stream body self.now) result out.old out.new self.now }
        ensures prefix { GainsFront (control_heard stream body self.now).bytes out.old out.new }
    {
        match body {
            Body::Reset { code } if stream == CALL_STREAM => Err(ClientFault::Reset(code)),
            Body::GoAway { code, .. } if code != error_code::NO_ERROR => {
                Err(ClientFault::GoAway(code))
            }
            Body::Settings { .. } => put_answer(out, Body::SettingsAck),
            Body::Ping { ack: false, word } => put_answer(out, Body::Ping { ack: true, word }),
            _ => Ok(()),
        }
    }

    /// Takes a frame that is in its place.
    #[tactic(auto, unfolding(crate::specs::Hearing::body_heard))]
    fn take_body(
        &mut self,
        alloc: Global,
        frame: Frame,
        out: &mut Octets,
        into: &mut Row<Heard>,
    ) -> Result<(), ClientFault>
        ensures said { Says (body_heard frame.stream frame.body self.old) result into.old into.new out.old out.new self.new }
        ensures told_front { GainsFront (body_heard frame.stream frame.body self.old).told into.old into.new }
        ensures bytes_front { GainsFront (body_heard frame.stream frame.body self.old).bytes out.old out.new }
    {
        match frame.body {
            Body::Bytes { bytes, size, ended } => {
                self.take_data(alloc, bytes.as_slice(), size, ended, out, into)
            }
            Body::Headers {
                block,
                ended,
                whole,
            } => self.take_block(
                alloc,
                OpenBlock {
                    ended,
                    bytes: block,
                },
                whole,
                into,
            ),
            Body::Continuation { block, whole } => {
                self.continue_block(alloc, block.as_slice(), whole, into)
            }
            body => self.take_control(frame.stream, body, out),
        }
    }

    /// Takes a frame.
    #[tactic(auto, unfolding(crate::specs::Hearing::frame_heard))]
    fn take(
        &mut self,
        alloc: Global,
        frame: Frame,
        out: &mut Octets,
        into: &mut Row<Heard>,
    ) -> Result<(), ClientFault>
        ensures said { Says (frame_heard frame self.old) result into.old into.new out.old out.new self.new }
        ensures told_front { GainsFront (frame_heard frame self.old).told into.old into.new }
        ensures bytes_front { GainsFront (frame_heard frame self.old).bytes out.old out.new }
    {
        if !self.is_in_place(&frame) {
            return Err(ClientFault::Order(frame.stream));
        }
        self.take_body(alloc, frame, out, into)
    }

    /// Takes frames in turn, up to the first that has a fault.
    pub fn take_all(
        &mut self,
        alloc: Global,
        frames: Row<Frame>,
        out: &mut Octets,
        into: &mut Row<Heard>,
    ) -> Result<(), ClientFault>
        ensures said { Says (frames_heard frames self.old) result into.old into.new out.old out.new self.new }
        ensures told_front { GainsFront (frames_heard frames self.old).told into.old into.new }
        ensures bytes_front { GainsFront (frames_heard frames self.old).bytes out.old out.new }
    {
        for frame in frames.into_vec() {
            self.take(alloc, frame, out, into)?;
        }
        Ok(())
    }
}
