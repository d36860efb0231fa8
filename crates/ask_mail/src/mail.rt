//! An ask on its way, and what came for it.

ghost use Rattle.std.specs.Prelude.{◌≡◌, ◌↔◌, true, ℕ, List, Option, Err, IsSome, IfOk, IfSome};
ghost use Rattle.wl_selector.specs.Selectors.{sorted_texts};
ghost use Rattle.ask_mail.specs.Mail.{delivery, Looks, Opens};
ghost use Rattle.ask_mail.specs.declared.mail.Delivery.{Delivery};

use std::marker::{Model, PhantomData};
use std::sync::Wait;
use wl_entry::{Ask, JwtToken, Voucher};
use wl_octets::{Octets, Row};

/// An ask of a connection, on its way. The number of a connection is never used again at its seat.
#[derive(Drop)]
pub struct Asked {
    /// The seat whose mailbox takes the answer.
    pub seat: u32,
    /// The socket over which the connection came.
    pub socket: u32,
    pub connection: u64,
    pub ask: Ask,
    pub audience: Row<Octets>,
}

/// What came for an ask of a connection; none where it failed.
#[derive(Drop)]
pub struct Delivery {
    pub connection: u64,
    pub ask: Ask,
    pub audience: Row<Octets>,
    pub answer: Option<JwtToken>,
}

/// An ask with its answer, which is vouched for it. Contracts see it as what is delivered.
#[derive(Drop)]
pub struct Answered<V: Voucher> {
    asked: Asked,
    answer: Option<JwtToken>,
    by: PhantomData<V>,
}

impl<V: Voucher> Model for Answered<V> {
    ghost use Rattle.std.specs.Prelude.{IfSome};
    ghost use Rattle.wl_selector.specs.Selectors.{sorted_texts};
    ghost use Rattle.ask_mail.specs.Mail.{delivery};
    ghost use Rattle.ask_mail.specs.declared.mail.Delivery.{Delivery};

    ghost Value = { Delivery };

    ghost view = { λ s. delivery s.asked.connection s.asked.ask s.asked.audience s.answer };

    ghost invariant = { λ s. IfSome s.answer (V.token s.asked.ask (sorted_texts s.asked.audience)) };
}

impl<V: Voucher> Answered<V> {
    /// The ask with its answer.
    pub fn new(asked: Asked, answer: Option<JwtToken>) -> Answered<V>
        requires { IfSome answer (V.token asked.ask (sorted_texts asked.audience)) }
        ensures { result ≡ delivery asked.connection asked.ask asked.audience answer }
    {
        Answered {
            asked,
            answer,
            by: PhantomData,
        }
    }
}

impl<V: Voucher> Answered<V> {
    /// The number of its connection.
    pub fn connection(&self) -> u64
        ensures { result ≡ self.now.connection }
    {
        self.asked.connection
    }

    /// The seat whose mailbox takes it.
    pub fn seat(&self) -> u32 {
        self.asked.seat
    }

    /// The socket over which its connection came.
    pub fn socket(&self) -> u32 {
        self.asked.socket
    }

    /// Whether it is for this connection.
    pub fn is_of(&self, connection: u64) -> bool
        ensures { result ≡ true ↔ self.now.connection ≡ connection }
    {
        self.asked.connection == connection
    }

    /// Whether it is a token.
    pub fn has_token(&self) -> bool
        ensures { result ≡ true ↔ IsSome self.now.answer }
    {
        self.answer.is_some()
    }

    /// Its answer, where it is for this ask and these audiences.
    pub fn open(self, ask: &Ask, audience: &[Octets]) -> Opened
        ensures { Opens V.token self ask.now audience.now result }
    {
        if self.asked.ask == *ask && self.asked.audience.as_slice() == audience {
            Opened::This(self.answer)
        } else {
            Opened::Other(self.asked.ask, self.asked.audience, self.answer)
        }
    }

    /// The ask, its audiences, and the answer.
    pub fn into_parts(self) -> (Ask, Row<Octets>, Option<JwtToken>)
        ensures same { self ≡ delivery self.connection result.0 result.1 result.2 }
        ensures vouched { IfSome result.2 (V.token result.0 (sorted_texts result.1)) }
    {
        (self.asked.ask, self.asked.audience, self.answer)
    }
}

/// What is in an answer.
#[derive(Drop)]
pub enum Opened {
    /// The token for the ask that was meant, or that it failed.
    This(Option<JwtToken>),
    /// That of another ask of the connection.
    Other(Ask, Row<Octets>, Option<JwtToken>),
}

/// Why there is no token.
#[derive(Clone, Copy, Debug, Drop, PartialEq, Eq)]
pub enum NoAnswer {
    /// The ask is on its way.
    Waits,
    /// The signer failed, or the ask could not be put; the count of faults rose.
    Failed,
    /// Memory ran out.
    Memory,
}

/// Where the asks of connections go, and their answers come. No call waits for more than a lock.
pub trait TokenAsks {
    /// By which its answers are vouched for what was asked.
    type V: Voucher + Send + Sync;

    /// What was taken, where it tells it.
    ghost taken: { Self → Option (List Delivery) };

    /// How often an ask has failed. It never falls; at 2^64-1 it stays.
    ghost faults: { Self → ℕ };

    /// An ask of this connection is in the queue or under way, or its answer is in the mailbox.
    ghost holds: { Self → ℕ → Type 0 };

    /// The token for this ask of this connection, which came over this socket, where it has come. Else the ask is put
    /// into the queue, unless one of the connection is under way.
    fn look<R: Wait>(
        &mut self,
        rt: &R,
        connection: u64,
        socket: u32,
        ask: &Ask,
        audience: &[Octets],
    ) -> Result<JwtToken, NoAnswer>
        ensures told { Looks (taken self.old) (taken self.new) (faults self.old) (faults self.new)
            (delivery connection ask.now audience.now) result }
        ensures vouched { IfOk result (Self.V.token ask.now (sorted_texts audience.now)) }
        ensures waits { result ≡ Err NoAnswer.Waits → holds self.new connection };

    /// No ask of this connection waits any more: what still comes for it is given to nobody.
    fn forget<R: Wait>(&self, rt: &R, connection: u64);
}
