//! Each step on what is shown, by value.

ghost use Rattle.std.specs.Prelude.{◌≡◌, ◌++◌, ◌∷◌, ◌⊎◌, [], true, ◌<◌, ◌≤◌, drop, IfOk, IfErr, MatchResult, MatchBool};
ghost use mathlib.Core.List.{IsPrefix};
ghost use Rattle.wl_publish.specs.Places.{known_at};
ghost use Rattle.wl_snapshot.specs.Snapshots.{Publication};
ghost use Rattle.wl_publish.specs.Lists.{IsLast};
ghost use Rattle.wl_publish.specs.Books.{Legal, head_of};
ghost use Rattle.wl_publish.specs.Listings.{Listing, listing};
ghost use Rattle.wl_publish.specs.History.{book_of, knowing, HasRead, Took};

use crate::book::{Head, Prefix};
use crate::published_snapshot::PublishedSnapshot;
use crate::rule::{
    Begins, Current, ListReader, ListWriter, OwnReader, Publishes, Reads, Starts, Tells,
};
use std::alloc::{AllocError, Global};
use std::mem::ManuallyDrop;
use std::sync::Wait;
use wl_entry::Voucher;
use wl_octets::Memory;

/// A writer that shows this, which is the first of its list, and knows it.
pub fn make<V: Voucher, R: Wait>(
    rt: &R,
    alloc: Global,
    first: Current,
    places: usize,
) -> Result<ListWriter<V>, Memory>
    requires places { (0 < places) × (places ≤ 64) }
    requires first { first.prefix.list ≡ first.published_snapshot ∷ [] }
    requires legal { Legal V.signed first.prefix.list }
    ensures shown { IfOk result (λ w. (w.desk.shown.value.prefix ≡ first.prefix)
        × (w.desk.shown.value.published_snapshot ≡ first.published_snapshot)) }
    ensures none { IfOk result (λ w. drop w.behind w.log.items ≡ []) }
    ensures known { IfOk result
        (λ w. known_at w.desk.place ≡ knowing first.prefix.store first.prefix.list []) }
{
    let Ok(published_snapshot) = first.published_snapshot.share() else {
        return Err(Memory);
    };
    let Ok(other) = first.published_snapshot.share() else {
        return Err(Memory);
    };
    let second = Current {
        published_snapshot,
        prefix: first.prefix.again(),
    };
    let again = Current {
        published_snapshot: other,
        prefix: first.prefix.again(),
    };
    let Ok(writer) = ListWriter::<V>::new(alloc, first, second, places) else {
        return Err(Memory);
    };
    begin(rt, writer, again)
}

/// Has the writer's place know the list, by showing once more what is shown.
fn begin<V: Voucher, R: Wait>(
    rt: &R,
    writer: ListWriter<V>,
    again: Current,
) -> Result<ListWriter<V>, Memory>
    requires none { drop writer.behind writer.log.items ≡ [] }
    requires same { (again.prefix ≡ writer.desk.shown.value.prefix)
        × (again.published_snapshot ≡ writer.desk.shown.value.published_snapshot) }
    ensures shown { IfOk result (λ w. (w.desk.shown.value.prefix ≡ again.prefix)
        × (w.desk.shown.value.published_snapshot ≡ again.published_snapshot)) }
    ensures none { IfOk result (λ w. drop w.behind w.log.items ≡ []) }
    ensures known { IfOk result
        (λ w. known_at w.desk.place ≡ knowing again.prefix.store again.prefix.list []) }
{
    match queue(writer, again) {
        Ok(writer) => match writer.publish_as::<Begins, R>(rt) {
            (writer, Ok(())) => Ok(writer),
            (writer, Err(_)) => {
                leak(writer);
                Err(Memory)
            }
        },
        Err((writer, _)) => {
            leak(writer);
            Err(Memory)
        }
    }
}

/// Gives a writer up without waiting for its readers: its memory is lost.
pub fn leak<V: Voucher>(writer: ListWriter<V>) {
    let _ = unsafe { ManuallyDrop::new_unchecked(writer) };
}

/// A reader that knows what the writer does.
pub fn reader_of<V: Voucher>(writer: &mut ListWriter<V>) -> Result<ListReader<V>, AllocError>
    ensures known { IfOk result (λ r. known_at r.place ≡ known_at writer.old.desk.place) }
    ensures shown { (writer.new.desk.shown ≡ writer.old.desk.shown) × (writer.new.log ≡ writer.old.log)
        × (writer.new.behind ≡ writer.old.behind) }
    ensures same { known_at writer.new.desk.place ≡ known_at writer.old.desk.place }
{
    let mut reader = writer.factory().reader()?;
    reader.learn::<Starts>(writer.tell::<Tells>());
    Ok(reader)
}

/// Reads the last publication, with the list that it ends. It waits for nobody.
fn read<V: Voucher>(
    held: OwnReader<V>,
) -> (OwnReader<V>, Result<(PublishedSnapshot, Prefix), Memory>)
    requires known { ((known_at held.reader.place).known ≡ true)
        × (book_of (known_at held.reader.place) ≡ held.own.prefix.store) }
    requires last { IsLast held.own.prefix.list held.own.published_snapshot }
    ensures own { (result.0.own.prefix.store ≡ held.own.prefix.store)
        × IsLast result.0.own.prefix.list result.0.own.published_snapshot }
    ensures read { MatchResult result.1
        (λ r. HasRead V.signed r.1.store r.1.list (known_at held.reader.place) r.0 (known_at result.0.reader.place))
        (λ _. (known_at result.0.reader.place ≡ known_at held.reader.place) ⊎ ((l : Listing)
        × (s : Publication) × HasRead V.signed l.store l.list (known_at held.reader.place) s (known_at result.0.reader.place))) }
{
    let OwnReader {
        reader,
        mut own,
        alloc,
    } = held;
    match reader.enter_as::<Reads<V>>() {
        Ok(reading) => {
            let published_snapshot = own.follow(alloc, reading.get());
            let prefix = reading.get().prefix.again();
            let reader = reading.leave();
            let held = OwnReader { reader, own, alloc };
            match published_snapshot {
                Ok(published_snapshot) => (held, Ok((published_snapshot, prefix))),
                Err(Memory) => (held, Err(Memory)),
            }
        }
        Err(reader) => (OwnReader { reader, own, alloc }, Err(Memory)),
    }
}

/// Reads the last publication, where its list begins with what was told.
pub fn read_after<V: Voucher>(
    held: OwnReader<V>,
    told: &Prefix,
) -> (OwnReader<V>, Result<PublishedSnapshot, Memory>)
    requires known { ((known_at held.reader.place).known ≡ true)
        × (book_of (known_at held.reader.place) ≡ told.now.store) }
    requires own { (held.own.prefix.store ≡ told.now.store) × IsLast held.own.prefix.list held.own.published_snapshot }
    ensures store { ((known_at result.0.reader.place).known ≡ true)
        × (book_of (known_at result.0.reader.place) ≡ told.now.store) }
    ensures own { (result.0.own.prefix.store ≡ told.now.store)
        × IsLast result.0.own.prefix.list result.0.own.published_snapshot }
    ensures read { MatchResult result.1
        (λ s. Took V.signed (known_at held.reader.place) s (known_at result.0.reader.place)
        × IsPrefix told.now.list (known_at result.0.reader.place).seen)
        (λ _. (known_at result.0.reader.place ≡ known_at held.reader.place) ⊎ ((s : Publication)
        × Took V.signed (known_at held.reader.place) s (known_at result.0.reader.place))) }
{
    match read(held) {
        (held, Ok((published_snapshot, prefix))) => {
            if told.begins(&prefix) {
                (held, Ok(published_snapshot))
            } else {
                (held, Err(Memory))
            }
        }
        (held, Err(Memory)) => (held, Err(Memory)),
    }
}

/// Adds a publication to the book, and says whether it did.
pub fn add<V: Voucher>(head: &Head, prefix: &mut Prefix, next: &PublishedSnapshot) -> bool
    requires head { head.now ≡ head_of prefix.old.store }
    requires legal { Legal V.signed (prefix.old.list ++ next.now ∷ []) }
    ensures { MatchBool result ((prefix.new ≡ listing prefix.old.store (prefix.old.list ++ next.now ∷ []))
        × Legal V.signed prefix.new.list) (prefix.new ≡ prefix.old) }
{
    prefix.add(head, next)
}

/// Queues what is to be shown next; out of memory, both come back.
fn queue<V: Voucher>(
    mut writer: ListWriter<V>,
    next: Current,
) -> Result<ListWriter<V>, (ListWriter<V>, Current)>
    requires none { drop writer.behind writer.log.items ≡ [] }
    ensures queued { IfOk result (λ w. (drop w.behind w.log.items ≡ next ∷ []) × (w.desk ≡ writer.desk)) }
    ensures back { IfErr result (λ e. (drop e.0.behind e.0.log.items ≡ []) × (e.0.desk ≡ writer.desk)
        × (e.1 ≡ next)) }
{
    match writer.append(next) {
        Ok(()) => Ok(writer),
        Err(back) => Err((writer, back)),
    }
}

/// Queues what is to be shown next. It waits for as long as there is no memory for that.
fn enqueue<V: Voucher, R: Wait>(rt: &R, writer: ListWriter<V>, next: Current) -> ListWriter<V>
    requires none { drop writer.behind writer.log.items ≡ [] }
    ensures queued { drop result.behind result.log.items ≡ next ∷ [] }
    ensures shown { result.desk ≡ writer.desk }
{
    let mut writer = writer;
    let mut next = next;
    for _ in rt.forever() {
        match queue(writer, next) {
            Ok(queued) => return queued,
            Err((same, back)) => {
                writer = same;
                next = back;
            }
        }
    }
    unreachable!()
}

/// Shows readers the next publication. It waits for as long as that does not succeed.
pub fn show<V: Voucher, R: Wait>(rt: &R, writer: ListWriter<V>, next: Current) -> ListWriter<V>
    requires none { drop writer.behind writer.log.items ≡ [] }
    requires store { next.prefix.store ≡ writer.desk.shown.value.prefix.store }
    requires list { next.prefix.list ≡ writer.desk.shown.value.prefix.list ++ next.published_snapshot ∷ [] }
    requires legal { Legal V.signed next.prefix.list }
    ensures shown { (result.desk.shown.value.prefix ≡ next.prefix)
        × (result.desk.shown.value.published_snapshot ≡ next.published_snapshot) }
    ensures none { drop result.behind result.log.items ≡ [] }
{
    let mut writer = enqueue(rt, writer, next);
    for _ in rt.forever() {
        match writer.publish_as::<Publishes, R>(rt) {
            (shown, Ok(())) => return shown,
            (same, Err(_)) => writer = same,
        }
    }
    unreachable!()
}
