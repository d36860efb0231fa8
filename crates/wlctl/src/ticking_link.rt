//! A link that renews what is due while nothing comes.

ghost use Rattle.std.specs.Prelude.{◌≡◌, IsSome, option_map};
ghost use Rattle.wl_edge.specs.Links.{LinkLog};
ghost use Rattle.wlctl.specs.Ticking.{told_of};

use crate::keeper::Keeper;
use crate::telling::heard;
use std::cell::RefCell;
use wl_edge::{Heard, Link, Origin, Received, Sent, TrySent};
use wl_told::Told;

/// A link to a server, whose receive, which waits for a second at most, first renews what is due of a keeper. Where that can't go
/// on the receive fails. It tells what it gave, and what the inner link took.
#[derive(Drop)]
pub struct TickingLink<'k, 'w, L> {
    link: L,
    keeper: &'k RefCell<Keeper<'w>>,
    gave: Told<Heard>,
    failed_receives: u64,
}

impl<'k, 'w, L: Link + Drop> TickingLink<'k, 'w, L> {
    /// The same link for this keeper.
    pub fn start(link: L, keeper: &'k RefCell<Keeper<'w>>) -> TickingLink<'k, 'w, L>
        ensures tells { IsSome (L.told link) → IsSome (⟦<TickingLink<'k, 'w, L> as Link>⟧.told result) }
    {
        TickingLink {
            link,
            keeper,
            gave: Told::new(),
            failed_receives: 0,
        }
    }
}

/// Renews what is due. False where the keeper can't go on.
fn tick(keeper: &RefCell<Keeper<'_>>) -> bool {
    match keeper.try_borrow_mut() {
        Ok(mut keeper) => keeper.tick(),
        Err(_) => true,
    }
}

impl<L: Link + Drop> Link for TickingLink<'_, '_, L> {
    ghost origin = { λ l. L.origin l.link };

    ghost told = { λ l. told_of l.gave.list (L.told l.link) };

    ghost failed_receives = { λ l. l.failed_receives };

    ghost failed_sends = { λ l. L.failed_sends l.link };

    ghost stalls = { λ l. L.stalls l.link };

    fn origin(&self) -> &Origin {
        self.link.origin()
    }

    fn note_call(&mut self) {
        self.link.note_call();
    }

    fn note_error(&mut self, code: u32) {
        self.link.note_error(code);
    }

    fn receive(&mut self, into: &mut [u8]) -> Received {
        let answer = if tick(self.keeper) {
            self.link.receive(into)
        } else {
            Received::Failed
        };
        self.gave = heard(&self.gave, into, answer);
        if answer == Received::Failed {
            self.failed_receives = self.failed_receives.saturating_add(1);
        }
        answer
    }

    fn send(&mut self, bytes: &[u8]) -> Sent {
        self.link.send(bytes)
    }

    fn try_send(&mut self, bytes: &[u8]) -> TrySent {
        self.link.try_send(bytes)
    }
}
