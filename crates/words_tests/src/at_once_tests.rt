//! Numbers are doubled beside a sum, and threads come together.

ghost use Rattle.std.specs.Prelude.{◌≡◌, ◌*◌, ◌<◌, ℕ, All, length, slice_index};

use at_once::{can_start, for_each_beside};
use std::thread::Threads;

// Doubles each, and adds up others beside it.
fn double_beside<R: Threads + Sync>(rt: &R, numbers: &mut [u32], beside: &mut u32)
    requires some { 0 < length numbers.old }
    requires small { All (λ x. x < 1000) numbers.old }
    ensures each { (i : ℕ) → i < length numbers.old
        → slice_index numbers.new i ≡ 2 * slice_index numbers.old i }
    ensures beside { beside.new ≡ 7 }
{
    for_each_beside(
        rt,
        &|_, number: &mut u32| *number *= 2,
        &mut || *beside = 7,
        numbers,
    );
}

#[test]
fn each_element_and_the_rest(rt: HostRuntime) {
    let mut numbers = [1, 20, 300];
    let mut beside = 0;
    double_beside(&rt, &mut numbers, &mut beside);
    assert_eq!(rt; numbers, [2, 40, 600]);
    assert_eq!(rt; beside, 7);
}

#[test]
fn some_threads_start(rt: HostRuntime) {
    assert!(rt; can_start(&rt, &rt, 2));
    assert!(rt; can_start(&rt, &rt, 64));
}
