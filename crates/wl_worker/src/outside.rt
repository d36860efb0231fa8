//! What the steps of a round are handed together.

ghost use Rattle.std.specs.Prelude.{◌≡◌};

use crate::seat_pass::SeatPass;
use ask_mail::TokenAsks;
use std::alloc::Global;
use std::sync::Mutex;
use wl_desk::Desk;
use wl_entry::Voucher;

/// A connection, by its number, and the desk whose tokens it gets.
#[derive(Drop)]
pub struct Caller<'a, V: Voucher, R> {
    pub rt: &'a R,
    pub alloc: Global,
    pub desk: &'a Mutex<Desk<V>>,
    pub connection: u64,
}

impl<'a, V: Voucher, R> Caller<'a, V, R> {
    /// The connection of this number at this desk.
    pub fn new(
        rt: &'a R,
        alloc: Global,
        desk: &'a Mutex<Desk<V>>,
        connection: u64,
    ) -> Caller<'a, V, R>
        ensures { result.connection ≡ connection }
    {
        Caller {
            rt,
            alloc,
            desk,
            connection,
        }
    }
}

/// What stands around a round beside its link: the pass, and the outside. Of a gate contracts see nothing.
#[derive(Drop)]
pub struct Outside<'a, A, T: TokenAsks, C, G> {
    pub pass: &'a mut SeatPass<T::V>,
    pub attestor: &'a mut A,
    pub asks: &'a mut T,
    pub clock: &'a mut C,
    pub gate: &'a G,
}

impl<'a, A, T: TokenAsks, C, G> Outside<'a, A, T, C, G> {
    /// Lends these on together: each field is the reference that was handed in.
    pub fn new(
        pass: &'a mut SeatPass<T::V>,
        attestor: &'a mut A,
        asks: &'a mut T,
        clock: &'a mut C,
        gate: &'a G,
    ) -> Outside<'a, A, T, C, G>
        ensures pass { result.pass.now ≡ pass.old }
        ensures attestor { result.attestor.now ≡ attestor.old }
        ensures asks { result.asks.now ≡ asks.old }
        ensures clock { result.clock.now ≡ clock.old }
        ensures lent { (result.pass.ghost_name ≡ pass.entry.ghost_name)
            × (result.attestor.ghost_name ≡ attestor.entry.ghost_name)
            × (result.asks.ghost_name ≡ asks.entry.ghost_name)
            × (result.clock.ghost_name ≡ clock.entry.ghost_name) }
    {
        Outside {
            pass,
            attestor,
            asks,
            clock,
            gate,
        }
    }
}
