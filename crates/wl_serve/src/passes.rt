//! Each seat gets a pass.

ghost use Rattle.std.specs.Prelude.{◌≡◌, ◌<◌, ◌≤◌, ℕ, length, map, slice_index_or, IfOk};
ghost use Rattle.std.specs.List.{AllByRecursion};
ghost use Rattle.wl_publish.specs.Lists.{IsLast};
ghost use Rattle.wl_publish.specs.Listings.{Passing};
ghost use Rattle.wl_serve.specs.Seating.{with_pass, ArePassesOf};

use crate::seats::SeatShown;
use ask_mail::TokenAsks;
use std::alloc::Global;
use std::sync::Wait;
use wl_desk::last_snapshot;
use wl_edge::{Attestor, Clock, Listener, Ready};
use wl_entry::Voucher;
use wl_manager::Manager;
use wl_octets::{Memory, Row};
use wl_publish::{Pass, Publisher};
use wl_worker::Seat;

/// A publisher that begins with the manager's publication, and so many passes of it, of which nothing was read.
pub(crate) fn first_passes<V: Voucher, R: Wait>(
    rt: &R,
    alloc: Global,
    manager: &Manager<V>,
    count: u32,
) -> Result<(Publisher<V>, Row<Pass<V>>), Memory>
    requires { (0 < count) × (count ≤ 64) }
    ensures last { IfOk result (λ r. IsLast r.0.list manager.now.stored.published) }
    ensures count { IfOk result (λ r. length r.1 ≡ count) }
    ensures passes { IfOk result (λ r. ArePassesOf manager.now.stored.published r.1) }
{
    let first = last_snapshot(alloc, manager)?;
    wl_publish::start(rt, alloc, first, count)
}

/// Each seat gets one of the passes, of which there are as many and which contracts see as one.
fn hand_out<L: Listener, T: TokenAsks, A: Attestor, C: Clock, P: Ready<L::L>>(
    mut passes: Vec<Pass<T::V>>,
    seats: &mut [Seat<L, T, A, C, P>],
)
    requires count { length passes.items ≡ length seats.old }
    ensures count { length seats.new ≡ length seats.old }
    ensures given { (given : Passing) → AllByRecursion (λ p. p ≡ given) passes.items → (i : ℕ) (d : _)
        → i < length seats.old
        → ⟦<Seat<L, T, A, C, P> as SeatShown>⟧.shown (slice_index_or seats.new i d)
        ≡ with_pass given (⟦<Seat<L, T, A, C, P> as SeatShown>⟧.shown (slice_index_or seats.old i d)) }
{
    for seat in seats.iter_mut() {
        let Some(pass) = passes.pop() else {
            unreachable!()
        };
        seat.pass = Some(pass);
    }
}

/// The same, by what contracts see of the seats.
pub(crate) fn give_passes<L: Listener, T: TokenAsks, A: Attestor, C: Clock, P: Ready<L::L>>(
    passes: Row<Pass<T::V>>,
    seats: &mut [Seat<L, T, A, C, P>],
)
    requires { length passes ≡ length seats.old }
    ensures count { length seats.new ≡ length seats.old }
    ensures given { (given : Passing) → AllByRecursion (λ p. p ≡ given) passes
        → map ⟦<Seat<L, T, A, C, P> as SeatShown>⟧.shown seats.new
        ≡ map (with_pass given) (map ⟦<Seat<L, T, A, C, P> as SeatShown>⟧.shown seats.old) }
{
    hand_out(passes.into_vec(), seats);
}
