ghost use Rattle.std.specs.Prelude.{◌≡◌, IfOk};
ghost use mathlib.Core.List.{IsPrefix};
ghost use Rattle.wl_publish.specs.Lists.{IsVouched};

use sorted_blocks::SortedBlocks;
use spiffe_id::TrustDomain;
use std::alloc::{AllocGlobal, Global};
use std::sync::Wait;
use std::test::Fail;
use std::thread::join;
use wl_entry::Free;
use wl_match::Index;
use wl_octets::{Memory, Row, Shared};
use wl_publish::{Note, Pass, PublishedSnapshot, Publisher, start};
use wl_snapshot::Snapshot;

fn shared<T: Drop>(alloc: Global, part: T) -> Result<Shared<T>, Memory>
    ensures { IfOk result (λ s. s ≡ part) }
{
    match Shared::new(alloc, part) {
        Ok(part) => Ok(part),
        Err((_, Memory)) => Err(Memory),
    }
}

/// A publication of this number without entries.
fn published_snapshot(alloc: Global, number: u64) -> Result<PublishedSnapshot, Memory>
    ensures { IfOk result (λ e. (e.number ≡ number) × IsVouched (λ ask signed. Unit {0}) e) }
{
    let Ok(domain) = TrustDomain::parse(alloc, b"a.b") else {
        return Err(Memory);
    };
    let snapshot = Snapshot {
        number,
        domain,
        entries: shared(alloc, Row::empty(alloc))?,
        svids: SortedBlocks::empty(alloc),
        bundles: shared(alloc, Row::empty(alloc))?,
    };
    let index = Index::build(alloc, &[])?;
    let index = shared(alloc, index)?;
    let snapshot = shared(alloc, snapshot)?;
    let published_snapshot = PublishedSnapshot::new(alloc, snapshot, index)?;
    Ok(published_snapshot)
}

/// Publishes the next number.
fn publish_next<R: Wait>(
    rt: &R,
    alloc: Global,
    publisher: &mut Publisher<Free>,
) -> Result<Note<Free>, Memory>
    ensures note { IfOk result (λ note. note ≡ publisher.new) }
    ensures store { publisher.new.store ≡ publisher.old.store }
{
    let number = publisher.note(rt)?.number();
    let Some(next) = number.checked_add(1) else {
        return Err(Memory);
    };
    match publisher.publish(rt, published_snapshot(alloc, next)?) {
        Ok(note) => Ok(note),
        Err((_, Memory)) => Err(Memory),
    }
}

/// Publishes, tells the pass, and reads: the pass sees all that was published.
fn publish_and_read<R: Wait>(
    rt: &R,
    alloc: Global,
    publisher: &mut Publisher<Free>,
    pass: &mut Pass<Free>,
) -> Result<u64, Fail>
    requires { pass.old.store ≡ publisher.old.store }
    ensures { IfOk result (λ n. IsPrefix publisher.new.list pass.new.seen) }
{
    let note = publish_next(rt, alloc, publisher)?;
    pass.learn(note);
    let read = pass.read()?;
    Ok(read.snapshot().number)
}

#[test]
fn publish_calls(rt: HostRuntime) -> Result<(), Fail> {
    let alloc = rt.alloc();
    let (mut publisher, passes): (Publisher<Free>, Row<Pass<Free>>) = start(
        &rt,
        alloc,
        published_snapshot(alloc, 0)?,
        2,
    )?;
    let mut passes = passes.into_vec();
    assert_eq!(rt; passes.len(), 2);
    assert_eq!(rt; publisher.note(&rt)?.number(), 0);
    let read = passes[0].read()?;
    assert_eq!(rt; read.snapshot().number, 0);
    let seen = publish_and_read(&rt, alloc, &mut publisher, &mut passes[0])?;
    assert_eq!(rt; seen, 1);
    assert_eq!(rt; publisher.note(&rt)?.number(), 1);
    let read = passes[1].read()?;
    assert_eq!(rt; read.snapshot().number, 1);
    assert_eq!(rt; read.index().entries().len(), 0);
    publisher.end(&rt);
    Ok(())
}

/// Whether the numbers of this many reads do not fall.
fn reads_rise(pass: &mut Pass<Free>, times: u32) -> bool {
    let mut last = 0;
    for _ in 0..times {
        let Ok(read) = pass.read() else {
            return false;
        };
        let number = read.snapshot().number;
        if number < last {
            return false;
        }
        last = number;
    }
    true
}

/// Publishes the next numbers, this many.
fn publish_all<R: Wait>(
    rt: &R,
    alloc: Global,
    publisher: &mut Publisher<Free>,
    count: u64,
) -> bool {
    for _ in 0..count {
        if publish_next(rt, alloc, publisher).is_err() {
            return false;
        }
    }
    true
}

#[test]
fn two_readers(rt: HostRuntime) -> Result<(), Fail> {
    let alloc = rt.alloc();
    let (mut publisher, passes): (Publisher<Free>, Row<Pass<Free>>) = start(
        &rt,
        alloc,
        published_snapshot(alloc, 0)?,
        2,
    )?;
    let mut passes = passes.into_vec();
    let (Some(mut one), Some(mut two)) = (passes.pop(), passes.pop()) else {
        return Err(Fail::from("two passes"));
    };
    let (published, read) = join(
        &rt,
        || publish_all(&rt, alloc, &mut publisher, 100),
        || {
            let (first, second) = join(
                &rt,
                || reads_rise(&mut one, 1000),
                || reads_rise(&mut two, 1000),
            );
            first && second
        },
    );
    assert!(rt; published);
    assert!(rt; read);
    let last = one.read()?;
    assert_eq!(rt; last.snapshot().number, 100);
    publisher.end(&rt);
    Ok(())
}
