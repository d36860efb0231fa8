//! The places of a seat: the links that it serves, and what they hold.

ghost use Rattle.std.specs.Prelude.{◌≡◌, ◌≤◌, [], IfOk};
ghost use Rattle.wl_edge.specs.Listeners.{HasOpenLink, Finishes};
ghost use Rattle.wl_worker.specs.Seating.{finished_link};

use crate::ended::Ended;
use crate::served::{Buffer, Served};
use slab::Slab;
use std::alloc::Global;
use wl_edge::{Link, Listener, Ready};
use wl_octets::Memory;

/// A link that is served, and the numbers under which it is watched and asks for tokens.
#[derive(Drop)]
pub(crate) struct Connection<L> {
    /// Its key in the slab of links.
    pub number: u32,
    pub asker: u64,
    pub link: L,
    pub served: Served,
    /// How many bytes it held after its last round.
    pub held: usize,
}

/// The links that a seat serves.
#[derive(Drop)]
pub(crate) struct Places<L> {
    /// Each under the number by which it is watched.
    pub links: Slab<Connection<L>>,
    /// What a receive is lent.
    pub buffer: Buffer,
    /// How many bytes all links together held after their last rounds.
    pub held: usize,
}

impl<L> Places<L> {
    /// No links.
    pub fn start(alloc: Global) -> Result<Places<L>, Memory>
        ensures { IfOk result (λ p. p.links.slots ≡ []) }
    {
        let buffer = Buffer::new(alloc)?;
        Ok(Places {
            links: Slab::new(alloc),
            buffer,
            held: 0,
        })
    }
}

/// The number of the link that holds most.
pub(crate) fn greatest<L>(links: &Slab<Connection<L>>) -> usize {
    let mut greatest = 0;
    let mut most = 0;
    for number in 0..links.capacity() {
        if let Some(connection) = links.get(number) {
            if connection.held > most {
                most = connection.held;
                greatest = number;
            }
        }
    }
    greatest
}

/// Gives up a link, which is watched no more and finished.
pub(crate) fn release<L: Listener, P: Ready<L::L>>(
    listener: &mut L,
    ready: &mut P,
    number: u32,
    link: L::L,
)
    requires { HasOpenLink (L.told listener.old) }
    ensures finishes { Finishes (L.told listener.old) (L.told listener.new)
        (finished_link (L.L.origin link) (L.L.told link) (L.L.failed_receives link) (L.L.failed_sends link)
        (L.L.stalls link)) }
    ensures sockets { L.sockets listener.new ≡ L.sockets listener.old }
    ensures listens { L.faults listener.new ≡ L.faults listener.old }
    ensures waits { P.faults ready.old ≤ P.faults ready.new }
{
    let mut link = link;
    ready.remove(number, &mut link);
    listener.finish(link);
}

/// Gives a link the error code with which its connection ends, where its peer broke a rule of HTTP/2.
fn note_end<L: Link>(link: &mut L, ended: Ended)
    ensures told { L.told link.new ≡ L.told link.old }
    ensures receives { L.failed_receives link.new ≡ L.failed_receives link.old }
    ensures sends { L.failed_sends link.new ≡ L.failed_sends link.old }
    ensures stalls { L.stalls link.new ≡ L.stalls link.old }
    ensures origin { L.origin link.new ≡ L.origin link.old }
{
    if let Ended::Protocol(fault) = ended {
        link.note_error(fault.code);
    }
}

/// Gives up a link whose connection ended so.
pub(crate) fn end_link<L: Listener, P: Ready<L::L>>(
    listener: &mut L,
    ready: &mut P,
    number: u32,
    link: L::L,
    ended: Ended,
)
    requires { HasOpenLink (L.told listener.old) }
    ensures finishes { Finishes (L.told listener.old) (L.told listener.new)
        (finished_link (L.L.origin link) (L.L.told link) (L.L.failed_receives link) (L.L.failed_sends link)
        (L.L.stalls link)) }
    ensures sockets { L.sockets listener.new ≡ L.sockets listener.old }
    ensures listens { L.faults listener.new ≡ L.faults listener.old }
    ensures waits { P.faults ready.old ≤ P.faults ready.new }
{
    let mut link = link;
    note_end(&mut link, ended);
    release(listener, ready, number, link);
}

/// Hands on what became of the calls of a link in its last round.
pub(crate) fn note_calls<L: Listener>(listener: &L, link: &L::L, served: &mut Served)
    ensures { served.new ≡ served.old }
{
    let calls = served.take_calls();
    listener.note_calls(link.origin(), &calls);
}

/// Hands on what became of the calls of a link that is over, and of those that end with it.
pub(crate) fn note_last_calls<L: Listener>(listener: &L, link: &L::L, served: Served) {
    let mut served = served;
    let calls = served.end_calls();
    listener.note_calls(link.origin(), &calls);
}
