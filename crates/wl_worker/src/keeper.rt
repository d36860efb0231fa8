//! What has ended is let go, and what is due gets a ticket.

ghost use Rattle.std.specs.Prelude.{◌≡◌};
ghost use Rattle.wl_worker.specs.Upkeep.{KeepGives, Keeps};

use std::alloc::Global;
use std::sync::{Mutex, Wait};
use wl_desk::Desk;
use wl_edge::Clock;
use wl_entry::Voucher;
use wl_octets::{Memory, Row};
use wl_publish::Note;
use wl_store::Ticket;

/// What one look at the desk came to.
pub enum Kept<V: Voucher> {
    /// The note's last publication has no identity that had ended. There is a ticket for each identity that is due
    /// and has none in flight.
    Done(Note<V>, Row<Ticket>),
    /// Memory ran out, and nothing has changed.
    Memory,
}

/// Lets go of what has ended by the clock's time, and claims what is due then; a note is made under the same lock.
/// It waits for nothing but the lock.
pub fn keep_once<V: Voucher, C: Clock, R: Wait>(
    rt: &R,
    alloc: Global,
    desk: &Mutex<Desk<V>>,
    clock: &mut C,
) -> Kept<V>
    ensures { Keeps (C.answers clock.old) (C.answers clock.new) result }
{
    let now = clock.now();
    let mut held = desk.lock(rt);
    claim(rt, alloc, &mut held, now)
}

/// The desk lets go of what has ended at this time, and makes a note of all publications so far.
fn claim<V: Voucher, R: Wait>(rt: &R, alloc: Global, desk: &mut Desk<V>, now: u64) -> Kept<V>
    ensures { KeepGives now result }
{
    match desk.claim(rt, alloc, now) {
        Ok((tickets, published)) => {
            drop(published);
            match desk.note(rt) {
                Ok(note) => Kept::Done(note, tickets),
                Err(Memory) => unreachable!(),
            }
        }
        Err(Memory) => Kept::Memory,
    }
}
