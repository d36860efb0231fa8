//! Answering the streaming calls.

ghost use Rattle.std.specs.Prelude.{◌≡◌, ◌≤◌, ◌+◌, length, IfOk, IfErr};
ghost use Rattle.grpc_wire.specs.declared.prefix.TheConstants.{PREFIX_LEN};
ghost use Rattle.grpc_wire.specs.Messages.{framed};
ghost use Rattle.workload_proto.specs.declared.limits.TheConstants.{MAX_RESPONSE_LEN};
ghost use Rattle.workload_proto.specs.Spelling.{capped};
ghost use Rattle.wl_snapshot.specs.Answers.{answer_of, with_prefix, message_of, waits, IsShort, IsFramed};
ghost use Rattle.wl_snapshot.specs.declared.answers.Answer.TheVariants as answers;

use crate::answers::{Answer, Method3};
use crate::messages::put_message;
use crate::sizes::size_of;
use crate::views::View;
use grpc_wire::{PREFIX_LEN, message_prefix};
use std::alloc::Global;
use wl_octets::{Memory, Octets};
use workload_proto::MAX_RESPONSE_LEN;

/// Whether the call waits for SVIDs.
fn must_wait(method: Method3, view: &View) -> bool
    ensures { result ≡ waits method view.now }
{
    match method {
        Method3::X509Svid => !view.is_whole(),
        Method3::X509Bundles | Method3::JwtBundles => false,
    }
}

/// The size of the message that the call is answered; or, as an error, what it is answered in place of one.
#[tactic(auto, unfolding(crate::specs::Answers::answer_of))]
fn message_size(method: Method3, view: &View) -> Result<u64, Answer>
    ensures message { IfOk result
        (λ size. answer_of method view.now ≡ answers.Message (message_of method view.now)) }
    ensures size { IfOk result (λ size. size ≡ length (message_of method view.now)) }
    ensures within { IfOk result (λ size. size ≤ MAX_RESPONSE_LEN) }
    ensures other { IfErr result (λ a. a ≡ answer_of method view.now) }
    ensures short { IfErr result IsShort }
    ensures framed { IfErr result IsFramed }
    ensures bare { IfErr result (λ a. a ≡ with_prefix a) }
{
    if view.is_empty() {
        return Err(Answer::Denied);
    }
    if must_wait(method, view) {
        return Err(Answer::Wait);
    }
    let size = size_of(method, view);
    if size > u64::from(MAX_RESPONSE_LEN) {
        return Err(Answer::TooLong(size));
    }
    Ok(size)
}

/// A method's message in its encoding, which has this size.
fn message(alloc: Global, method: Method3, view: &View, size: u64) -> Result<Octets, Memory>
    requires { length (message_of method view.now) ≤ MAX_RESPONSE_LEN }
    ensures { IfOk result (λ o. o ≡ message_of method view.now) }
{
    let mut out = Vec::with_capacity(alloc, size as usize)?;
    put_message(alloc, &mut out, method, view)?;
    Ok(Octets::from_vec(out))
}

/// A method's message in its encoding, which has this size, after its gRPC prefix.
#[tactic(auto, unfolding(grpc_wire::specs::Messages::framed))]
fn framed_message(alloc: Global, method: Method3, view: &View, size: u64) -> Result<Octets, Memory>
    requires size { size ≡ length (message_of method view.now) }
    requires within { size ≤ MAX_RESPONSE_LEN }
    ensures value { IfOk result (λ o. o ≡ framed (message_of method view.now)) }
    ensures size { IfOk result (λ o. length o ≡ PREFIX_LEN + size) }
{
    let mut out = Vec::with_capacity(alloc, PREFIX_LEN + size as usize)?;
    out.extend_from_slice(&message_prefix(size as u32))?;
    put_message(alloc, &mut out, method, view)?;
    Ok(Octets::from_vec(out))
}

/// What a streaming call is answered on a view. The message's size is counted first, so that one over the limit of
/// 4,194,304 bytes is never made, and the message takes one allocation.
pub fn answer(alloc: Global, method: Method3, view: &View) -> Result<Answer, Memory>
    ensures value { IfOk result (λ a. a ≡ answer_of method view.now) }
    ensures short { IfOk result IsShort }
{
    match message_size(method, view) {
        Ok(size) => Ok(Answer::Message(message(alloc, method, view, size)?)),
        Err(other) => Ok(other),
    }
}

/// The same answer, with a message after its gRPC prefix of five bytes. It too takes one allocation, so that a message
/// can be sent without a copy.
pub fn framed_answer(alloc: Global, method: Method3, view: &View) -> Result<Answer, Memory>
    ensures value { IfOk result (λ a. a ≡ with_prefix (answer_of method view.now)) }
    ensures framed { IfOk result IsFramed }
{
    match message_size(method, view) {
        Ok(size) => Ok(Answer::Message(framed_message(alloc, method, view, size)?)),
        Err(other) => Ok(other),
    }
}
