//! Cutting a body that comes in pieces, and encoding a message.

ghost use Rattle.std.specs.Prelude.{◌≡◌, ◌≤◌, ◌<◌, ◌^◌, ℕ, List, [], ◌∷◌, ◌++◌, length, Option, None, OnOk, IfErr, Err};
ghost use Rattle.std.specs.Int.{w32, to_be_bytes};
ghost use Rattle.grpc_wire.specs.declared.fault.MessageFault.{MessageFault};
ghost use Rattle.grpc_wire.specs.Messages.{Cutting, Rest, Fault, framed, first_message, whole, messages_of, reading_from, rest_of, Refuses, Feeds, StandsFor};
ghost use Rattle.grpc_wire.specs.Cutting.{ending_of, IsCut};
ghost use Rattle.list_laws.specs.Lists.{GainsFront};

use crate::fault::MessageFault;
use crate::prefix::{PREFIX_LEN, judge_prefix};
use crate::reading::messages;
use std::alloc::Global;
use std::marker::Model;
use wl_octets::{Memory, Octets, Row};

/// Cuts the messages out of a body, however it comes.
///
/// Contracts see the limit of a message, and how the bytes so far end: within a message, or at a fault. Bytes of a
/// message that is whole are not kept.
#[derive(Drop)]
pub struct Messages {
    limit: u32,
    fault: Option<MessageFault>,
    /// The bytes of a message that isn't whole, with those of its prefix.
    pending: Vec<u8>,
}

impl Model for Messages {
    ghost Value = { Cutting };

    ghost view = { λ a. record { limit = a.limit; ending = ending_of a.fault a.pending.items } };

    ghost invariant = { λ a. IsCut a.limit a.fault a.pending.items };
}

impl Messages {
    /// A body from its start, whose messages have at most this many bytes. It takes no memory.
    #[tactic(auto, unfolding(crate::specs::Messages::first_message, crate::specs::Messages::prefix_of))]
    pub fn start(alloc: Global, limit: u32) -> Messages
        requires { limit ≤ 2 ^ 31 }
        ensures { result ≡ record { limit = limit; ending = Rest [] } }
    {
        Messages {
            limit,
            fault: None,
            pending: Vec::new(alloc),
        }
    }

    /// How many bytes have come of the message that isn't whole, its prefix among them; 0 after a fault.
    #[tactic(auto, using(crate::proofs::Fronts::part_small))]
    pub fn rest(&self) -> u32
        ensures { result ≡ length (rest_of self.now.ending) }
    {
        match self.fault {
            Some(_) => 0,
            None => self.pending.len() as u32,
        }
    }

    /// Goes on with more bytes of the body, and puts each message that is whole after what `into` holds. After a fault,
    /// each later call answers that fault again; the messages before it are in `into`.
    ///
    /// A byte is copied once into its message, and once before that if its message comes in several pieces.
    #[tactic(auto, using(crate::proofs::Pieces::stands_on))]
    pub fn feed(
        &mut self,
        alloc: Global,
        piece: &[u8],
        into: &mut Row<Octets>,
    ) -> Result<(), MessageFault>
        ensures fed { Feeds result (reading_from self.old.limit self.old.ending piece.now)
            into.old into.new self.new.ending }
        ensures limit { self.new.limit ≡ self.old.limit }
        ensures prefix { GainsFront (reading_from self.old.limit self.old.ending piece.now).messages
            into.old into.new }
        ensures again { (fault : MessageFault) → self.old.ending ≡ Fault fault → result ≡ Err fault }
        ensures stands { (fed : List ℕ) → StandsFor self.old.limit self.old.ending fed
            → StandsFor self.new.limit self.new.ending (fed ++ piece.now) }
    {
        // The public clauses follow from those of the inner call.
        self.feed_inner(alloc, piece, into)
    }

    /// What completes a message that was begun goes after its other bytes; all else is cut where it lies.
    fn feed_inner(
        &mut self,
        alloc: Global,
        piece: &[u8],
        into: &mut Row<Octets>,
    ) -> Result<(), MessageFault>
        ensures fed { Feeds result (reading_from self.old.limit self.old.ending piece.now)
            into.old into.new self.new.ending }
        ensures limit { self.new.limit ≡ self.old.limit }
        ensures prefix { GainsFront (reading_from self.old.limit self.old.ending piece.now).messages
            into.old into.new }
        ensures again { (fault : MessageFault) → self.old.ending ≡ Fault fault → result ≡ Err fault }
    {
        let (head, rest) = piece.split_at(self.missing_bytes().min(piece.len()));
        match self.advance(alloc, head, into) {
            Ok(()) => self.feed_content(alloc, rest, into),
            Err(fault) => Err(fault),
        }
    }

    /// As `feed`, where the prefix of a message that was begun is whole.
    fn feed_content(
        &mut self,
        alloc: Global,
        piece: &[u8],
        into: &mut Row<Octets>,
    ) -> Result<(), MessageFault>
        ensures fed { Feeds result (reading_from self.old.limit self.old.ending piece.now)
            into.old into.new self.new.ending }
        ensures limit { self.new.limit ≡ self.old.limit }
        ensures prefix { GainsFront (reading_from self.old.limit self.old.ending piece.now).messages
            into.old into.new }
        ensures again { (fault : MessageFault) → self.old.ending ≡ Fault fault → result ≡ Err fault }
    {
        let (content, rest) = piece.split_at(self.missing_bytes().min(piece.len()));
        match self.advance(alloc, content, into) {
            Ok(()) => self.advance(alloc, rest, into),
            Err(fault) => Err(fault),
        }
    }

    /// How many bytes complete what was begun: a prefix, or a message.
    fn missing_bytes(&self) -> usize {
        count_missing(self.limit, self.pending.as_slice())
    }

    #[tactic(auto, unfolding(crate::specs::Messages::reading_from))]
    fn advance(
        &mut self,
        alloc: Global,
        piece: &[u8],
        into: &mut Row<Octets>,
    ) -> Result<(), MessageFault>
        ensures fed { Feeds result (reading_from self.old.limit self.old.ending piece.now)
            into.old into.new self.new.ending }
        ensures limit { self.new.limit ≡ self.old.limit }
        ensures prefix { GainsFront (reading_from self.old.limit self.old.ending piece.now).messages
            into.old into.new }
        ensures again { (fault : MessageFault) → self.old.ending ≡ Fault fault → result ≡ Err fault }
    {
        match self.fault {
            Some(fault) => Err(fault),
            None => cut(
                alloc,
                self.limit,
                &mut self.fault,
                &mut self.pending,
                piece,
                into,
            ),
        }
    }
}

/// How many bytes complete a prefix or a message of which these are the first. It has no clause, since any answer cuts
/// the same messages: it only decides how many bytes are copied into `pending` and how many are cut where they lie.
fn count_missing(limit: u32, pending: &[u8]) -> usize {
    if pending.is_empty() {
        return 0;
    }
    match judge_prefix(limit, pending) {
        Ok(Some(length)) => (PREFIX_LEN + length as usize).saturating_sub(pending.len()),
        Ok(None) => PREFIX_LEN.saturating_sub(pending.len()),
        Err(_) => 0,
    }
}

/// Cuts messages, and keeps the fault.
#[tactic(auto, using(crate::proofs::Cuts::left_part), unfolding(crate::specs::Messages::reading_from))]
fn cut(
    alloc: Global,
    limit: u32,
    fault: &mut Option<MessageFault>,
    pending: &mut Vec<u8>,
    piece: &[u8],
    into: &mut Row<Octets>,
) -> Result<(), MessageFault>
    requires small { limit ≤ 2 ^ 31 }
    requires open { fault.old ≡ None }
    ensures fed { Feeds result (reading_from limit (Rest pending.old.items) piece.now) into.old into.new
        (ending_of fault.new pending.new.items) }
    ensures cut { IsCut limit fault.new pending.new.items }
    ensures prefix { GainsFront (reading_from limit (Rest pending.old.items) piece.now).messages
        into.old into.new }
{
    match take_in(alloc, limit, pending, piece, into) {
        Ok(()) => Ok(()),
        Err(cause) => {
            *fault = Some(cause);
            Err(cause)
        }
    }
}

/// Cuts messages out of the bytes that were kept and a piece after them, and keeps the rest.
fn take_in(
    alloc: Global,
    limit: u32,
    pending: &mut Vec<u8>,
    piece: &[u8],
    into: &mut Row<Octets>,
) -> Result<(), MessageFault>
    ensures ok { OnOk result ((into.new ≡ into.old ++ (messages_of limit (pending.old.items
        ++ piece.now)).messages)
        × ((messages_of limit (pending.old.items ++ piece.now)).ending ≡ Rest pending.new.items)) }
    ensures fault { IfErr result (λ fault. Refuses fault ((into.new ≡ into.old
        ++ (messages_of limit (pending.old.items ++ piece.now)).messages)
        × ((messages_of limit (pending.old.items ++ piece.now)).ending ≡ Fault fault))) }
    ensures prefix { GainsFront
        (messages_of limit (pending.old.items ++ piece.now)).messages into.old into.new }
{
    if pending.is_empty() {
        let used = messages(alloc, limit, piece, into)?;
        let (_, rest) = piece.split_at(used);
        return keep(pending, rest);
    }
    keep(pending, piece)?;
    let used = messages(alloc, limit, pending.as_slice(), into)?;
    if used > 0 {
        pending.rotate_left(used);
        pending.truncate(pending.len() - used);
    }
    Ok(())
}

fn keep(pending: &mut Vec<u8>, bytes: &[u8]) -> Result<(), MessageFault>
    ensures ok { OnOk result (pending.new.items ≡ pending.old.items ++ bytes.now) }
    ensures err { IfErr result (λ fault. fault ≡ MessageFault.Memory) }
{
    match pending.extend_from_slice(bytes) {
        Ok(()) => Ok(()),
        Err(_) => Err(MessageFault::Memory),
    }
}

/// Writes a message after what `out` holds: a flag of 0, its length in four bytes, the highest first, and its bytes.
#[tactic(auto, using(crate::proofs::MessageFrames::read_again), unfolding(crate::specs::Messages::framed))]
pub fn put_message(out: &mut Octets, message: &[u8]) -> Result<(), Memory>
    requires { length message.now < 2 ^ 32 }
    ensures ok { OnOk result (out.new ≡ out.old ++ framed message.now) }
    ensures prefix { GainsFront (framed message.now) out.old out.new }
    ensures read_again { (limit : ℕ) (rest : List ℕ) → length message.now ≤ limit
        → first_message limit (framed message.now ++ rest) ≡ whole message.now rest }
{
    out.push_slice(&message_prefix(message.len() as u32))?;
    out.push_slice(message)
}

/// What stands before a message of this length: a flag of 0, and the length in four bytes, the highest first.
pub fn message_prefix(length: u32) -> [u8; 5]
    ensures { result ≡ 0 ∷ to_be_bytes w32 length }
{
    let [first, second, third, fourth] = length.to_be_bytes();
    [0, first, second, third, fourth]
}
