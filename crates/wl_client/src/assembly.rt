//! Messages of a body that comes in pieces, each put together where it stays.

ghost use Rattle.std.specs.Prelude.{◌≡◌, ◌≤◌, ◌<◌, ◌++◌, [], ◌∷◌, length, take, OnOk, IfOk, IfErr, None, Some, Ok};
ghost use Rattle.list_laws.specs.Lists.{GainsFront};
ghost use Rattle.grpc_wire.specs.declared.fault.MessageFault.{MessageFault};
ghost use Rattle.grpc_wire.specs.Messages.{Rest, Fault, messages_of, reading_from, Feeds, Refuses};
ghost use Rattle.grpc_wire.specs.Cutting.{ending_of};
ghost use Rattle.wl_client.specs.Assembling.{bytes_of, IsPart, HasCome, IsAssembly};

use grpc_wire::{MessageFault, PREFIX_LEN, judge_prefix};
use std::alloc::Global;
use std::marker::Model;
use std::mem;
use wl_octets::{Octets, Row};

/// What came of a message.
#[derive(Drop)]
pub struct Begun {
    /// The bytes of its prefix, as far as they came.
    pub prefix: Octets,
    /// The length that the prefix says, once it is whole.
    pub length: Option<u32>,
    /// The bytes after it, as far as they came.
    pub message: Octets,
}

/// Puts the messages of a body together, however it comes.
///
/// Contracts see the limit of a message, and how the bytes so far end: within a message, or at a fault. A byte is copied
/// into its message, which grows with what comes: no room is taken for a length before its bytes.
#[derive(Drop)]
pub struct Assembly {
    limit: u32,
    fault: Option<MessageFault>,
    begun: Begun,
}

impl Model for Assembly {
    ghost use Rattle.grpc_wire.specs.Cutting.{ending_of};
    ghost use Rattle.grpc_wire.specs.Messages.{Cutting};
    ghost use Rattle.wl_client.specs.Assembling.{bytes_of, IsAssembly};

    ghost Value = { Cutting };

    ghost view = { λ a. record { limit = a.limit; ending = ending_of a.fault (bytes_of a.begun) } };

    ghost invariant = { λ a. IsAssembly a.limit a.fault a.begun };
}

impl Assembly {
    /// A body from its start, whose messages have at most this many bytes. It takes no memory.
    #[tactic(auto, unfolding(grpc_wire::specs::Messages::prefix_of))]
    pub fn start(alloc: Global, limit: u32) -> Assembly
        ensures { result ≡ record { limit = limit; ending = Rest [] } }
    {
        Assembly {
            limit,
            fault: None,
            begun: Begun {
                prefix: Octets::empty(alloc),
                length: None,
                message: Octets::empty(alloc),
            },
        }
    }

    /// Goes on with more bytes of the body, and puts each message that is whole after what `into` holds. After a fault,
    /// each later call answers that fault again; the messages before it are in `into`.
    #[tactic(auto, unfolding(grpc_wire::specs::Messages::reading_from))]
    pub fn feed(
        &mut self,
        alloc: Global,
        piece: &[u8],
        into: &mut Row<Octets>,
    ) -> Result<(), MessageFault>
        ensures fed { Feeds result (reading_from self.old.limit self.old.ending piece.now)
            into.old into.new self.new.ending }
        ensures limit { self.new.limit ≡ self.old.limit }
        ensures prefix { GainsFront (reading_from self.old.limit self.old.ending piece.now).messages
            into.old into.new }
    {
        if let Some(fault) = self.fault {
            return Err(fault);
        }
        match assemble(alloc, self.limit, &mut self.begun, piece, into) {
            Ok(()) => Ok(()),
            Err(fault) => {
                self.fault = Some(fault);
                Err(fault)
            }
        }
    }
}

/// Takes a piece, a prefix or a message at a time.
fn assemble(
    alloc: Global,
    limit: u32,
    begun: &mut Begun,
    piece: &[u8],
    into: &mut Row<Octets>,
) -> Result<(), MessageFault>
    requires { IsPart limit begun.old }
    ensures ok { OnOk result ((into.new ≡ into.old ++ (messages_of limit (bytes_of begun.old ++ piece.now)).messages)
        × ((messages_of limit (bytes_of begun.old ++ piece.now)).ending ≡ Rest (bytes_of begun.new))) }
    ensures part { OnOk result (IsPart limit begun.new) }
    ensures fault { IfErr result (λ fault. Refuses fault
        ((into.new ≡ into.old ++ (messages_of limit (bytes_of begun.old ++ piece.now)).messages)
        × ((messages_of limit (bytes_of begun.old ++ piece.now)).ending ≡ Fault fault))) }
    ensures prefix { GainsFront (messages_of limit (bytes_of begun.old ++ piece.now)).messages into.old into.new }
{
    let mut rest = piece;
    while !rest.is_empty() {
        let used = match take_part(limit, begun, rest) {
            Ok(used) => used,
            Err(fault) => return Err(fault),
        };
        match finish(alloc, limit, begun, into) {
            Ok(()) => {}
            Err(fault) => return Err(fault),
        }
        let (_, behind) = rest.split_at(used);
        rest = behind;
    }
    Ok(())
}

/// Takes the bytes that complete the prefix or the message that was begun, or all where they are fewer, and says how
/// many it took.
fn take_part(limit: u32, begun: &mut Begun, piece: &[u8]) -> Result<usize, MessageFault>
    requires part { IsPart limit begun.old }
    requires some { 0 < length piece.now }
    ensures used { IfOk result (λ used. (0 < used) × (used ≤ length piece.now)) }
    ensures bytes { IfOk result (λ used. bytes_of begun.new ≡ bytes_of begun.old ++ take used piece.now) }
    ensures come { OnOk result (HasCome limit begun.new) }
    ensures fault { IfErr result (λ fault. Refuses fault
        (messages_of limit (bytes_of begun.old ++ piece.now) ≡ record { messages = []; ending = Fault fault })) }
{
    match begun.length {
        Some(length) => take_front(&mut begun.message, length as usize, piece),
        None => take_prefix(limit, begun, piece),
    }
}

/// Takes bytes of a prefix that is not whole, and judges it.
fn take_prefix(limit: u32, begun: &mut Begun, piece: &[u8]) -> Result<usize, MessageFault>
    requires part { IsPart limit begun.old }
    requires short { begun.old.length ≡ None }
    requires some { 0 < length piece.now }
    ensures used { IfOk result (λ used. (0 < used) × (used ≤ length piece.now)) }
    ensures bytes { IfOk result (λ used. bytes_of begun.new ≡ bytes_of begun.old ++ take used piece.now) }
    ensures come { OnOk result (HasCome limit begun.new) }
    ensures fault { IfErr result (λ fault. Refuses fault
        (messages_of limit (bytes_of begun.old ++ piece.now) ≡ record { messages = []; ending = Fault fault })) }
{
    match take_front(&mut begun.prefix, PREFIX_LEN, piece) {
        Ok(used) => match judge_prefix(limit, begun.prefix.as_slice()) {
            Ok(length) => {
                begun.length = length;
                Ok(used)
            }
            Err(fault) => Err(fault),
        },
        Err(fault) => Err(fault),
    }
}

/// Puts bytes after others, up to this many in all, and says how many.
fn take_front(bytes: &mut Octets, most: usize, piece: &[u8]) -> Result<usize, MessageFault>
    requires room { length bytes.old < most }
    requires some { 0 < length piece.now }
    ensures used { IfOk result (λ used. (0 < used) × (used ≤ length piece.now)) }
    ensures taken { IfOk result (λ used. bytes.new ≡ bytes.old ++ take used piece.now) }
    ensures within { OnOk result (length bytes.new ≤ most) }
    ensures memory { IfErr result (λ fault. fault ≡ MessageFault.Memory) }
{
    let used = (most - bytes.len()).min(piece.len());
    let (front, _) = piece.split_at(used);
    bytes.push_slice(front)?;
    Ok(used)
}

/// Tells the message that was begun where it is whole.
fn finish(
    alloc: Global,
    limit: u32,
    begun: &mut Begun,
    into: &mut Row<Octets>,
) -> Result<(), MessageFault>
    requires { HasCome limit begun.old }
    ensures ok { OnOk result ((into.new ≡ into.old ++ (messages_of limit (bytes_of begun.old)).messages)
        × ((messages_of limit (bytes_of begun.old)).ending ≡ Rest (bytes_of begun.new))) }
    ensures part { OnOk result (IsPart limit begun.new) }
    ensures fault { IfErr result (λ fault. fault ≡ MessageFault.Memory) }
    ensures prefix { GainsFront (messages_of limit (bytes_of begun.old)).messages into.old into.new }
{
    match begun.length {
        None => Ok(()),
        Some(length) => {
            if begun.message.len() < length as usize {
                Ok(())
            } else {
                tell(alloc, begun, into)
            }
        }
    }
}

/// Puts the message after what `into` holds, and begins the next one.
#[tactic(auto, unfolding(grpc_wire::specs::Messages::prefix_of))]
fn tell(alloc: Global, begun: &mut Begun, into: &mut Row<Octets>) -> Result<(), MessageFault>
    ensures ok { OnOk result (into.new ≡ into.old ++ begun.old.message ∷ []) }
    ensures next { OnOk result (begun.new ≡ record { prefix = []; length = None; message = [] }) }
    ensures prefix { GainsFront (begun.old.message ∷ []) into.old into.new }
    ensures memory { IfErr result (λ fault. fault ≡ MessageFault.Memory) }
{
    begun.prefix = Octets::empty(alloc);
    begun.length = None;
    match into.push(mem::replace(&mut begun.message, Octets::empty(alloc))) {
        Ok(()) => Ok(()),
        Err(_) => Err(MessageFault::Memory),
    }
}
