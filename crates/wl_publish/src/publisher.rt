//! The writer of the publications.

ghost use Rattle.std.specs.Prelude.{◌≡◌, ℕ, ◌+◌, ◌<◌, ◌≤◌, ◌++◌, ◌∷◌, [], length, IfOk, IsOk, MatchResult};
ghost use Rattle.std.specs.List.{AllByRecursion};
ghost use Rattle.wl_publish.specs.Lists.{IsLast, IsVouched};
ghost use Rattle.wl_publish.specs.Places.{known_at};
ghost use Rattle.wl_publish.specs.History.{knowing};
ghost use Rattle.wl_publish.specs.Listings.{listing, passing, EndsWith};

use crate::book::{Head, Prefix, open_book};
use crate::pass::{Note, Pass};
use crate::published_snapshot::PublishedSnapshot;
use crate::rule::{Current, ListWriter, OwnReader};
use crate::steps;
use core::mem::replace_with;
use std::alloc::Global;
use std::marker::Model;
use std::sync::Wait;
use wl_entry::Voucher;
use wl_octets::{Memory, Row};

/// The writer of the publications. A contract sees the store's name and all publications so far. It is to be ended by
/// `end`, which takes the store apart; where it is dropped, the memory of the store is lost.
pub struct Publisher<V: Voucher> {
    writer: ListWriter<V>,
    head: Head,
    prefix: Prefix,
}

impl<V: Voucher> Model for Publisher<V> {
    ghost use Rattle.std.specs.Prelude.{◌≡◌, [], drop};
    ghost use Rattle.wl_publish.specs.Lists.{IsLast};
    ghost use Rattle.wl_publish.specs.Books.{Legal, head_of};
    ghost use Rattle.wl_publish.specs.Listings.{Listing};

    ghost Value = { Listing };

    ghost view = { λ p. p.prefix };

    ghost invariant = { λ p. (p.head ≡ head_of p.prefix.store)
        × (p.writer.desk.shown.value.prefix ≡ p.prefix)
        × IsLast p.prefix.list p.writer.desk.shown.value.published_snapshot
        × (drop p.writer.behind p.writer.log.items ≡ []) × Legal V.signed p.prefix.list };
}

impl<V: Voucher> Publisher<V> {
    /// A note of the whole list, which stays as it is. It takes no memory and waits for nobody, so it always succeeds; it has
    /// the form of the calls that may not.
    pub fn note<R: Wait>(&mut self, _rt: &R) -> Result<Note<V>, Memory>
        ensures note { IfOk result (λ note. note ≡ self.old) }
        ensures always { IsOk result }
        ensures same { self.new ≡ self.old }
    {
        Ok(Note::new(
            self.writer.published().published_snapshot.snapshot().number,
            self.prefix.again(),
        ))
    }

    /// Publishes the next publication, whose number is one above the last. It may wait for readers that are reading an
    /// older one. At `Err` it comes back, and the list is as before.
    pub fn publish<R: Wait>(
        &mut self,
        rt: &R,
        next: PublishedSnapshot,
    ) -> Result<Note<V>, (PublishedSnapshot, Memory)>
        requires number { (last : ℕ) × EndsWith self.old.list last × (next.number ≡ last + 1) }
        requires vouched { IsVouched V.signed next }
        ensures { MatchResult result
            (λ n. (self.new ≡ listing self.old.store (self.old.list ++ next ∷ [])) × (n ≡ self.new))
            (λ e. (e.0 ≡ next) × (self.new ≡ self.old)) }
    {
        let number = next.snapshot().number;
        if !steps::add::<V>(&self.head, &mut self.prefix, &next) {
            return Err((next, Memory));
        }
        let current = Current {
            published_snapshot: next,
            prefix: self.prefix.again(),
        };
        replace_with(&mut self.writer, current, |writer, current| {
            (steps::show(rt, writer, current), ())
        });
        Ok(Note::new(number, self.prefix.again()))
    }

    /// Takes the store apart. It waits for those that are reading.
    pub fn end<R: Wait>(self, rt: &R) {
        let Publisher {
            writer,
            head: _,
            prefix: _,
        } = self;
        drop(writer.take(rt));
    }
}

impl<V: Voucher> Drop for Publisher<V> {
    fn drop(self) {
        let Publisher {
            writer,
            head: _,
            prefix: _,
        } = self;
        steps::leak(writer);
    }
}

/// A pass for each place: each has seen and was told the writer's list.
fn passes<V: Voucher>(
    alloc: Global,
    writer: &mut ListWriter<V>,
    prefix: &Prefix,
    places: u32,
) -> Result<Row<Pass<V>>, Memory>
    requires known { known_at writer.old.desk.place ≡ knowing prefix.now.store prefix.now.list [] }
    requires last { IsLast prefix.now.list writer.old.desk.shown.value.published_snapshot }
    ensures places { IfOk result (λ passes. length passes ≡ places) }
    ensures passes { IfOk result (λ passes. AllByRecursion
        (λ p. p ≡ passing prefix.now.store prefix.now.list [] prefix.now.list) passes) }
    ensures shown { (writer.new.desk.shown ≡ writer.old.desk.shown) × (writer.new.log ≡ writer.old.log)
        × (writer.new.behind ≡ writer.old.behind) }
{
    let mut passes = Row::empty(alloc);
    for _place in 0..places {
        let published_snapshot = writer.published().published_snapshot.copy(alloc)?;
        let own = Current {
            published_snapshot,
            prefix: prefix.again(),
        };
        let reader = steps::reader_of(writer)?;
        passes.push(Pass::new(OwnReader { reader, own, alloc }, prefix.again()))?;
    }
    Ok(passes)
}

/// A writer that has published `first`, and a pass for each of 1 to 64 places. Nobody reads yet, so it waits for nobody.
pub fn start<V: Voucher, R: Wait>(
    rt: &R,
    alloc: Global,
    first: PublishedSnapshot,
    places: u32,
) -> Result<(Publisher<V>, Row<Pass<V>>), Memory>
    requires places { (0 < places) × (places ≤ 64) }
    requires vouched { IsVouched V.signed first }
    ensures list { IfOk result (λ r. r.0.list ≡ first ∷ []) }
    ensures places { IfOk result (λ r. length r.1 ≡ places) }
    ensures passes { IfOk result (λ r. AllByRecursion
        (λ p. p ≡ passing r.0.store (first ∷ []) [] (first ∷ [])) r.1) }
{
    let (head, mut prefix) = open_book();
    if !steps::add::<V>(&head, &mut prefix, &first) {
        return Err(Memory);
    }
    let current = Current {
        published_snapshot: first,
        prefix: prefix.again(),
    };
    let mut writer = steps::make::<V, R>(rt, alloc, current, places as usize)?;
    match passes(alloc, &mut writer, &prefix, places) {
        Ok(passes) => {
            let publisher = Publisher {
                writer,
                head,
                prefix,
            };
            Ok((publisher, passes))
        }
        Err(Memory) => {
            steps::leak(writer);
            Err(Memory)
        }
    }
}
