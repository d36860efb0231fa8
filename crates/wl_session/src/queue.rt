//! Asks that wait after the first.

ghost use Rattle.std.specs.Prelude.{◌≡◌};
ghost use Rattle.wl_session.specs.Queues.{PopsFront};

use std::collections::VecDeque;
use std::marker::Model;
use wl_octets::Row;
use wl_snapshot::Wanted;

/// A list from which asks are taken one by one, from the front. A contract sees the list.
#[derive(Drop)]
pub struct Queue {
    asks: VecDeque<Wanted>,
}

impl Model for Queue {
    ghost use Rattle.std.specs.Prelude.{List};
    ghost use Rattle.wl_snapshot.specs.declared.token_asks.Wanted.{Wanted};

    ghost Value = { List Wanted };

    ghost view = { λ q. q.asks.items };
}

impl Queue {
    /// The queue of these asks. It takes no memory.
    pub fn from_row(asks: Row<Wanted>) -> Queue
        ensures { result ≡ asks }
    {
        Queue {
            asks: VecDeque::from_vec(asks.into_vec()),
        }
    }

    /// Takes the first one.
    pub fn pop(&mut self) -> Option<Wanted>
        ensures { PopsFront result self.old self.new }
    {
        self.asks.pop_front()
    }
}
