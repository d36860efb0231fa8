//! The messages at the front of some bytes.

ghost use Rattle.std.specs.Prelude.{◌≡◌, ◌≤◌, length, drop, IfOk, IfErr, OnOk, ◌++◌};
ghost use Rattle.grpc_wire.specs.declared.fault.MessageFault.{MessageFault};
ghost use Rattle.grpc_wire.specs.Messages.{Steps, Refuses, Rest, Fault, messages_of};
ghost use Rattle.list_laws.specs.Lists.{GainsFront};

use crate::fault::MessageFault;
use crate::prefix::{PREFIX_LEN, judge_prefix};
use std::alloc::Global;
use wl_octets::{Octets, Row};

/// The first message and how many bytes it takes, if it is whole.
#[tactic(auto, unfolding(crate::specs::Messages::first_message))]
fn first(alloc: Global, limit: u32, bytes: &[u8]) -> Result<Option<(Octets, usize)>, MessageFault>
    ensures { Steps limit result bytes.now }
{
    let said = judge_prefix(limit, bytes)?;
    let Some(length) = said else {
        return Ok(None);
    };
    let length = length as usize;
    let (_, after) = bytes.split_at(PREFIX_LEN);
    if after.len() < length {
        return Ok(None);
    }
    let (message, _) = after.split_at(length);
    let message = Octets::from_slice(alloc, message)?;
    Ok(Some((message, PREFIX_LEN + length)))
}

/// Cuts all whole messages, and tells how many bytes they take.
pub(crate) fn messages(
    alloc: Global,
    limit: u32,
    bytes: &[u8],
    into: &mut Row<Octets>,
) -> Result<usize, MessageFault>
    ensures within { IfOk result (λ used. used ≤ length bytes.now) }
    ensures ending { IfOk result (λ used. (messages_of limit bytes.now).ending ≡ Rest (drop used bytes.now)) }
    ensures all { OnOk result (into.new ≡ into.old ++ (messages_of limit bytes.now).messages) }
    ensures fault { IfErr result (λ fault. Refuses fault ((into.new ≡ into.old
        ++ (messages_of limit bytes.now).messages) × ((messages_of limit bytes.now).ending ≡ Fault fault))) }
    ensures prefix { GainsFront (messages_of limit bytes.now).messages into.old into.new }
{
    let mut at = 0;
    'each: loop {
        let (_, rest) = bytes.split_at(at);
        match first(alloc, limit, rest) {
            Ok(Some((message, used))) => match into.push(message) {
                Ok(()) => at += used,
                Err(_) => return Err(MessageFault::Memory),
            },
            Ok(None) => return Ok(at),
            Err(fault) => return Err(fault),
        }
    }
}
