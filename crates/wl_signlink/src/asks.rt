//! One ask of a signer, over any sink and source.

ghost use Rattle.std.specs.Prelude.{◌≡◌, true, IfOk, MatchOption, Ok, Err};
ghost use Rattle.wl_signlink.specs.Requests.{are_texts, is_text_ask, x509_line, jwt_line};
ghost use Rattle.wl_signlink.specs.Replies.{signed_of, token_of};
ghost use Rattle.wl_signlink.specs.Exchanges.{NotAnswered, Answered};

use crate::exchanges::exchange;
use crate::fault::LineFault;
use crate::replies::{read_signed, read_token};
use crate::requests::{put_jwt, put_x509};
use std::alloc::Global;
use wl_edge::{Sink, Source};
use wl_entry::{Ask, JwtToken, Signed};
use wl_octets::{Memory, Octets};

/// What a signer answered, and whether nothing came with it after its line.
#[derive(Drop)]
pub struct Answer<T> {
    pub value: T,
    pub is_last: bool,
}

/// Asks for an identity, as the ask with this number. None where the request was not sent whole, or no reply that can be read came.
pub fn ask_x509<O: Sink, I: Source>(
    alloc: Global,
    output: &mut O,
    input: &mut I,
    number: u64,
    ask: &Ask,
) -> Result<Option<Answer<Signed>>, Memory>
    requires { is_text_ask ask.now ≡ true }
    ensures { IfOk result (λ r. MatchOption r
        (NotAnswered (signed_of number) (O.faults output.old) (O.faults output.new) (I.faults input.old) (I.faults input.new)
        (O.taken output.old) (O.taken output.new) (I.left input.old) (I.left input.new) (x509_line number ask.now))
        (λ a. Answered (signed_of number) (O.taken output.old) (O.taken output.new) (I.left input.old) (I.left input.new)
        (x509_line number ask.now) a.is_last (Ok a.value))) }
{
    let mut request = Octets::empty(alloc);
    put_x509(alloc, number, ask, &mut request)?;
    let reply = match exchange(alloc, output, input, request.as_slice())? {
        Some(reply) => reply,
        None => return Ok(None),
    };
    match read_signed(alloc, number, reply.line.as_slice()) {
        Ok(value) => Ok(Some(Answer {
            value,
            is_last: reply.is_last,
        })),
        Err(LineFault::Wrong) => Ok(None),
        Err(LineFault::Memory) => Err(Memory),
    }
}

/// Asks for a token for these audiences, as the ask with this number. None where the request was not sent whole, or no
/// reply that can be read came.
pub fn ask_jwt<O: Sink, I: Source>(
    alloc: Global,
    output: &mut O,
    input: &mut I,
    number: u64,
    ask: &Ask,
    audience: &[Octets],
) -> Result<Option<Answer<JwtToken>>, Memory>
    requires ask { is_text_ask ask.now ≡ true }
    requires audience { are_texts audience.now ≡ true }
    ensures { IfOk result (λ r. MatchOption r
        (NotAnswered (token_of number) (O.faults output.old) (O.faults output.new) (I.faults input.old) (I.faults input.new)
        (O.taken output.old) (O.taken output.new) (I.left input.old) (I.left input.new)
        (jwt_line number ask.now audience.now))
        (λ a. Answered (token_of number) (O.taken output.old) (O.taken output.new) (I.left input.old) (I.left input.new)
        (jwt_line number ask.now audience.now) a.is_last (Ok a.value))) }
{
    let mut request = Octets::empty(alloc);
    put_jwt(alloc, number, ask, audience, &mut request)?;
    let reply = match exchange(alloc, output, input, request.as_slice())? {
        Some(reply) => reply,
        None => return Ok(None),
    };
    match read_token(alloc, number, reply.line.as_slice()) {
        Ok(value) => Ok(Some(Answer {
            value,
            is_last: reply.is_last,
        })),
        Err(LineFault::Wrong) => Ok(None),
        Err(LineFault::Memory) => Err(Memory),
    }
}
