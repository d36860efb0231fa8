//! Work on each element of a slice, and one more thing beside it, at once.
//!
//! A thread works on each element, and the calling thread does the other thing. What that holds need not be
//! sent to a thread, so it may write through any number of references. The call returns when all are done. Where no thread can
//! be made, the calls run one after another: [`can_start`] looks whether as many threads can be had.
#![tactic(auto)]

ghost use Rattle.std.specs.Prelude.{◌<◌, length};
ghost use Rattle.std.specs.Fork.{AcceptsEach, ChangesEach};
ghost use Rattle.at_once.specs.Works.{Worked};

mod muster;

pub use muster::can_start;
use std::thread;
use std::thread::{Threads, join_mut};

/// Calls `work` at each element of `each`, with its place, in as many threads as there are elements, and
/// `beside` in this thread, all at once. Where no thread can be made, the calls run one after another.
pub fn for_each_beside<R: Threads + Sync, T: Send, F: Fn(usize, &mut T) + Sync, G: FnMut()>(
    rt: &R,
    work: &F,
    beside: &mut G,
    each: &mut [T],
)
    requires some { 0 < length each.old }
    requires each { AcceptsEach F.Fn work.now each.old }
    requires beside { G.pre beside.old }
    ensures each { ChangesEach F.Fn work.now each.old each.new }
    ensures beside { G.step beside.old tt beside.new }
{
    both(rt, work, beside, each);
}

/// The same. What was worked is one record, which comes through the join.
fn both<R: Threads + Sync, T: Send, F: Fn(usize, &mut T) + Sync, G: FnMut()>(
    rt: &R,
    work: &F,
    beside: &mut G,
    each: &mut [T],
)
    requires some { 0 < length each.old }
    requires each { AcceptsEach F.Fn work.now each.old }
    requires beside { G.pre beside.old }
    ensures each { Worked F.Fn work.now each.old each.new }
    ensures beside { G.step beside.old tt beside.new }
{
    let mut front = ||
        requires { (0 < length each.now) × AcceptsEach F.Fn work.now each.now }
        ensures { Worked F.Fn work.entry.now each.entry.now each.exit.now }
    { at_each(rt, work, each) };
    join_mut(rt, &mut front, beside);
}

/// Calls `work` at each element, in as many threads as there are elements.
fn at_each<R: Threads + Sync, T: Send, F: Fn(usize, &mut T) + Sync>(
    rt: &R,
    work: &F,
    each: &mut [T],
)
    requires some { 0 < length each.old }
    requires each { AcceptsEach F.Fn work.now each.old }
    ensures { Worked F.Fn work.now each.old each.new }
{
    let count = each.len();
    thread::for_each_mut(rt, each, count, work);
}
