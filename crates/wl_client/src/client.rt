//! A client that is fed what a server sends.

ghost use Rattle.std.specs.Prelude.{◌≡◌, ◌≤◌, ◌++◌, ℕ, List, length, Some, None, Err, IfOk, OnOk};
ghost use Rattle.list_laws.specs.Lists.{GainsFront};
ghost use Rattle.h2_frame.specs.declared.fault.FrameFault.TheVariants as frame_faults;
ghost use Rattle.h2_frame.specs.Reading.{reading_from};
ghost use Rattle.wl_client.specs.declared.fault.ClientFault.{ClientFault};
ghost use Rattle.wl_client.specs.Openings.{opening_of};
ghost use Rattle.wl_client.specs.Clients.{Failed, fresh_state, heard_in, heard_from, Feeds, StandsFor, Arrives, frame_fault_in, rest_in};

use crate::fault::ClientFault;
use crate::listener::Listener;
use crate::opening::{MAX_MESSAGE_LEN, opening};
use crate::reply::Heard;
use grpc_wire::Method;
use h2_frame::{Frame, FrameFault, Parser};
use std::alloc::Global;
use std::marker::Model;
use wl_octets::{Memory, Octets, Row};

/// A call of one method, and its answer as far as it came.
///
/// Contracts see the bytes that open the call, and where the server's bytes so far lead: the rest of them that is no
/// whole frame and what is known of the call, or the fault with which the client has failed.
#[derive(Drop)]
pub struct Client {
    alloc: Global,
    opening: Octets,
    parser: Parser,
    listener: Listener,
    failed: Option<ClientFault>,
}

impl Model for Client {
    ghost use Rattle.wl_client.specs.Clients.{Calling, state_by};

    ghost Value = { Calling };

    ghost view = { λ c. record { opening = c.opening; state = state_by c.failed c.parser c.listener } };
}

impl Client {
    /// A call of this method with this message, which has at most 16,000 bytes.
    pub fn start(alloc: Global, method: Method, message: &[u8]) -> Result<Client, Memory>
        requires { length message.now ≤ MAX_MESSAGE_LEN }
        ensures { IfOk result (λ c. c ≡ record { opening = opening_of method message.now; state = fresh_state }) }
    {
        Ok(Client {
            alloc,
            opening: opening(alloc, method, message)?,
            parser: Parser::start_bare(alloc),
            listener: Listener::start(alloc),
            failed: None,
        })
    }

    /// The bytes that open the call, for the server: the connection's preface and SETTINGS, the call's head, and its
    /// message. It takes no memory.
    pub fn opening(&self) -> &[u8]
        ensures { result.now ≡ self.now.opening }
    {
        self.opening.as_slice()
    }

    /// How many bytes have come of the last frame that isn't whole; 0 after a fault. It takes no memory.
    pub fn rest(&self) -> usize
        ensures { result ≡ length (rest_in self.now.state) }
    {
        match self.failed {
            None => self.parser.rest(),
            Some(_) => 0,
        }
    }

    /// More of what the server sends, however it is cut. What is heard in it goes after what `into` holds, and what is
    /// to be written for it (acknowledgements of SETTINGS and PING, and for each DATA frame a WINDOW_UPDATE of the
    /// connection and of the stream) after what `out` holds. After a fault or out of memory each later call gives that
    /// answer again; what came before the fault is in `into` and `out`, and out of memory a prefix of it.
    pub fn feed(
        &mut self,
        piece: &[u8],
        out: &mut Octets,
        into: &mut Row<Heard>,
    ) -> Result<(), ClientFault>
        // It is one step of Heard.
        ensures fed { Feeds (heard_from self.old.state piece.now) result into.old into.new out.old out.new self.new.state }
        ensures told_front { GainsFront (heard_from self.old.state piece.now).told into.old into.new }
        ensures bytes_front { GainsFront (heard_from self.old.state piece.now).bytes out.old out.new }
        // It fails for good.
        ensures again { (fault : ClientFault) → self.old.state ≡ Failed fault → result ≡ Err fault }
        // It stands for the bytes that it was fed, however they were cut.
        ensures stands { (fed : List ℕ) → StandsFor self.old.state fed → StandsFor self.new.state (fed ++ piece.now) }
        ensures opening { self.new.opening ≡ self.old.opening }
    {
        self.feed_inner(piece, out, into)
    }

    #[tactic(auto, unfolding(crate::specs::Clients::heard_from))]
    fn feed_inner(
        &mut self,
        piece: &[u8],
        out: &mut Octets,
        into: &mut Row<Heard>,
    ) -> Result<(), ClientFault>
        ensures fed { Feeds (heard_from self.old.state piece.now) result into.old into.new out.old out.new self.new.state }
        ensures told_front { GainsFront (heard_from self.old.state piece.now).told into.old into.new }
        ensures bytes_front { GainsFront (heard_from self.old.state piece.now).bytes out.old out.new }
        ensures again { (fault : ClientFault) → self.old.state ≡ Failed fault → result ≡ Err fault }
        ensures opening { self.new.opening ≡ self.old.opening }
    {
        if let Some(fault) = self.failed {
            return Err(fault);
        }
        match advance(
            self.alloc,
            &mut self.parser,
            &mut self.listener,
            piece,
            out,
            into,
        ) {
            Ok(()) => Ok(()),
            Err(fault) => {
                self.failed = Some(fault);
                Err(fault)
            }
        }
    }
}

/// What came: frames, and the fault of bytes that are none.
#[derive(Drop)]
struct Arrival {
    frames: Row<Frame>,
    fault: Option<FrameFault>,
}

/// The frames of these bytes, and the fault of those that are none.
fn read(alloc: Global, parser: &mut Parser, piece: &[u8]) -> Result<Arrival, Memory>
    ensures ending { OnOk result (parser.new ≡ (reading_from parser.old piece.now).ending) }
    ensures frames { IfOk result (λ arrival. arrival.frames ≡ (reading_from parser.old piece.now).frames) }
    ensures fault { IfOk result (λ arrival. arrival.fault ≡ frame_fault_in (reading_from parser.old piece.now).ending) }
    ensures named { IfOk result (λ arrival. arrival.fault ≡ Some frame_faults.Memory → ⊥) }
{
    let mut frames = Row::empty(alloc);
    match parser.feed(alloc, piece, &mut frames) {
        Ok(()) => Ok(Arrival {
            frames,
            fault: None,
        }),
        Err(FrameFault::Memory) => Err(Memory),
        Err(why) => Ok(Arrival {
            frames,
            fault: Some(why),
        }),
    }
}

/// The frames of these bytes in turn, and then the fault of bytes that are none.
fn advance(
    alloc: Global,
    parser: &mut Parser,
    listener: &mut Listener,
    piece: &[u8],
    out: &mut Octets,
    into: &mut Row<Heard>,
) -> Result<(), ClientFault>
    ensures fed { Arrives (heard_in (reading_from parser.old piece.now) listener.old) result into.old into.new out.old out.new parser.new listener.new }
    ensures told_front { GainsFront (heard_in (reading_from parser.old piece.now) listener.old).told into.old into.new }
    ensures bytes_front { GainsFront (heard_in (reading_from parser.old piece.now) listener.old).bytes out.old out.new }
{
    let arrival = read(alloc, parser, piece)?;
    listener.take_all(alloc, arrival.frames, out, into)?;
    match arrival.fault {
        None => Ok(()),
        Some(why) => Err(ClientFault::Frame(why)),
    }
}
