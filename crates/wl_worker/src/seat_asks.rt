//! Where the connections of a seat ask for tokens.

ghost use Rattle.std.specs.Prelude.{◌≡◌, ◌≤◌, ℕ, None, Some, Err, IfOk};
ghost use Rattle.wl_selector.specs.Selectors.{sorted_texts};
ghost use Rattle.wl_edge.specs.Edge.{Rose};

use crate::asks::{AskHub, Missing, Putting};
use ask_mail::{Asked, NoAnswer, TokenAsks};
use std::alloc::Global;
use std::sync::{Arc, Wait};
use wl_entry::{Ask, JwtToken, Voucher};
use wl_octets::{Memory, Octets, clone_all};

/// The asks of one seat, over the posts that all seats and signers share. It tells nothing of what was taken.
#[derive(Drop)]
pub struct SeatAsks<V: Voucher> {
    alloc: Global,
    hub: Arc<AskHub<V>>,
    seat: u32,
    /// The connection that looked last and whose ask waits.
    waiting: Option<u64>,
    faults: u64,
}

impl<V: Voucher + Send + Sync> SeatAsks<V> {
    /// The asks of the seat of this number, counted from 0.
    pub fn start(alloc: Global, hub: &Arc<AskHub<V>>, seat: u32) -> Result<SeatAsks<V>, Memory>
        ensures { IfOk result (λ asks. ⟦<SeatAsks<V> as TokenAsks>⟧.faults asks ≡ 0) }
    {
        Ok(SeatAsks {
            alloc,
            hub: Arc::try_clone(hub)?,
            seat,
            waiting: None,
            faults: 0,
        })
    }
}

impl<V: Voucher> SeatAsks<V> {
    /// An ask of a connection of the seat, with its audiences.
    fn asked(
        &self,
        connection: u64,
        socket: u32,
        ask: &Ask,
        audience: &[Octets],
    ) -> Result<Asked, Memory> {
        Ok(Asked {
            seat: self.seat,
            socket,
            connection,
            ask: ask.copy(self.alloc)?,
            audience: clone_all(self.alloc, audience)?,
        })
    }

    /// One failure more.
    fn fail(&mut self) -> NoAnswer
        ensures failed { result ≡ NoAnswer.Failed }
        ensures count { Rose self.old.faults self.new.faults }
        ensures later { self.old.faults ≤ self.new.faults }
    {
        self.faults = self.faults.saturating_add(1);
        NoAnswer::Failed
    }

    /// The connection's ask waits.
    fn wait(&mut self, connection: u64) -> NoAnswer
        ensures waits { result ≡ NoAnswer.Waits }
        ensures holds { self.new.waiting ≡ Some connection }
        ensures same { self.new.faults ≡ self.old.faults }
    {
        self.waiting = Some(connection);
        NoAnswer::Waits
    }
}

impl<V: Voucher + Send + Sync> TokenAsks for SeatAsks<V> {
    type V = V;

    ghost taken = { λ s. None };

    ghost faults = { λ s. s.faults };

    // It looked last, and its ask was in the queue or under way.
    ghost holds = { λ s connection. s.waiting ≡ Some connection };

    fn look<R: Wait>(
        &mut self,
        rt: &R,
        connection: u64,
        socket: u32,
        ask: &Ask,
        audience: &[Octets],
    ) -> Result<JwtToken, NoAnswer> {
        match self.hub.find(rt, self.seat, connection, ask, audience) {
            Ok(Some(token)) => return Ok(token),
            Ok(None) => return Err(self.fail()),
            Err(Missing::Waits) => return Err(self.wait(connection)),
            Err(Missing::NoAsk) => {}
        }
        let Ok(asked) = self.asked(connection, socket, ask, audience) else {
            return Err(NoAnswer::Memory);
        };
        match self.hub.put(rt, asked) {
            Putting::Done => Err(self.wait(connection)),
            Putting::Refused => Err(self.fail()),
            Putting::Memory => Err(NoAnswer::Memory),
        }
    }

    fn forget<R: Wait>(&self, rt: &R, connection: u64) {
        self.hub.forget(rt, self.seat, connection);
    }
}
