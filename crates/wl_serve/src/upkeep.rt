//! Upkeep beside the seats.

ghost use Rattle.std.specs.Prelude.{◌<◌, ◌≤◌, length};
ghost use Rattle.std.specs.Fork.{AcceptsEach};
ghost use Rattle.wl_worker.specs.Upkeep.{PulledAgain};

use at_once::for_each_beside;
use std::alloc::Global;
use std::sync::{Mutex, Wait};
use std::thread::{Threads, join_mut};
use wl_desk::Desk;
use wl_edge::{Bell, Clock, Gate, Upstream};
use wl_entry::Voucher;
use wl_worker::{Signing, TicketQueue, keep_time, pull_documents};

/// What upkeep needs: the source of documents and the clock of the puller, the clock of the keeper, and the signers, at
/// least one.
#[derive(Drop)]
pub struct Upkeep<U, S, C> {
    pub upstream: U,
    pub puller: C,
    pub keeper: C,
    pub signers: Vec<Signing<S, C>>,
}

/// Keeps the desk until no seat serves: `sign` at each signer in a thread of its own, the keeper in another, and the
/// puller in this one.
pub(crate) fn keep_up<
    V: Voucher + Send + Sync,
    U: Upstream,
    C: Clock + Send,
    G: Gate + Sync,
    B: Bell + Sync,
    T: Send,
    W: Fn(usize, &mut T) + Sync,
    R: Threads + Wait + Sync,
>(
    rt: &R,
    alloc: Global,
    desk: &Mutex<Desk<V>>,
    queue: &TicketQueue<V>,
    gate: &G,
    bells: &[B],
    upstream: &mut U,
    puller: &mut C,
    keeper: &mut C,
    sign: &W,
    signers: &mut [T],
)
    requires some { 0 < length signers.old }
    requires each { AcceptsEach W.Fn sign.now signers.old }
    ensures pulled { PulledAgain (U.told upstream.old) (U.told upstream.new) }
    ensures pull_faults { U.faults upstream.old ≤ U.faults upstream.new }
{
    for_each_beside(
        rt,
        sign,
        &mut || keep_and_pull(
            rt, alloc, desk, queue, gate, bells, upstream, puller, keeper,
        ),
        signers,
    );
}

/// The keeper and the puller at once.
fn keep_and_pull<
    V: Voucher + Send + Sync,
    U: Upstream,
    C: Clock + Send,
    G: Gate + Sync,
    B: Bell + Sync,
    R: Threads + Wait + Sync,
>(
    rt: &R,
    alloc: Global,
    desk: &Mutex<Desk<V>>,
    queue: &TicketQueue<V>,
    gate: &G,
    bells: &[B],
    upstream: &mut U,
    puller: &mut C,
    keeper: &mut C,
)
    ensures pulled { PulledAgain (U.told upstream.old) (U.told upstream.new) }
    ensures pull_faults { U.faults upstream.old ≤ U.faults upstream.new }
{
    let mut keep = || keep_time(rt, alloc, desk, queue, keeper, gate, bells);
    let mut pull = || pull_documents(rt, alloc, desk, queue, upstream, puller, gate, bells);
    join_mut(rt, &mut keep, &mut pull);
}
