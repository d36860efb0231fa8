//! The rule that readers and the writer keep over what is shown.

ghost use Rattle.std.specs.Prelude.{◌≡◌, IfOk};
ghost use Rattle.wl_publish.specs.Lists.{IsLast};

use crate::book::Prefix;
use crate::published_snapshot::PublishedSnapshot;
use atomic_table::{Join, Split};
use crossbeam_utils::rule::{Outcome, Protocol};
use left_right::Absorb;
use left_right::reader::Reader;
use left_right::writer::Writer;
use std::alloc::{AllocError, Global};
use std::collections::LinkedList;
use std::marker::PhantomData;
use wl_entry::Voucher;
use wl_octets::Memory;
use wl_snapshot::Snapshot;

/// What readers take: the last publication, and the list that it ends.
#[derive(Drop)]
pub struct Current {
    pub published_snapshot: PublishedSnapshot,
    pub prefix: Prefix,
}

impl Current {
    /// Takes over what is shown, with owners counted apart, where that is another publication, and gives one more owner of
    /// it. Out of memory either is as it was or as it is shown.
    pub fn follow(&mut self, alloc: Global, shown: &Current) -> Result<PublishedSnapshot, Memory>
        requires store { shown.now.prefix.store ≡ self.old.prefix.store }
        requires last { IsLast self.old.prefix.list self.old.published_snapshot
            × IsLast shown.now.prefix.list shown.now.published_snapshot }
        ensures published_snapshot { IfOk result (λ e. e ≡ shown.now.published_snapshot) }
        ensures store { self.new.prefix.store ≡ self.old.prefix.store }
        ensures last { IsLast self.new.prefix.list self.new.published_snapshot }
    {
        if self.prefix.is_as_long(&shown.prefix) {
            return self.published_snapshot.share();
        }
        self.published_snapshot = shown.published_snapshot.copy(alloc)?;
        self.prefix = shown.prefix.again();
        self.published_snapshot.share()
    }
}

impl Absorb<Current> for Current {
    type State = (Snapshot, Prefix);

    ghost state = { λ c. (c.published_snapshot, c.prefix) };

    ghost applied = { λ state next. (next.published_snapshot, next.prefix) };

    fn absorb_first(&mut self, operation: &Current, _other: &Current) -> Result<(), AllocError> {
        let Ok(published_snapshot) = operation.published_snapshot.share() else {
            return Err(AllocError);
        };
        self.published_snapshot = published_snapshot;
        self.prefix = operation.prefix.again();
        Ok(())
    }

    fn absorb_second(&mut self, operation: Current, _other: &Current) -> Result<(), Current> {
        let Current {
            published_snapshot,
            prefix,
        } = operation;
        self.published_snapshot = published_snapshot;
        self.prefix = prefix;
        Ok(())
    }
}

/// What a place knows: the book's name, once it is known, what was seen of it, and the numbers that were read. No value of
/// it is made.
pub struct Knowledge {
    pub known: bool,
    pub number: u64,
    pub log_name: u64,
    pub cells_name: u64,
    pub seen: LinkedList<Snapshot>,
    pub mine: LinkedList<u64>,
}

/// The rule: there is one list, and what is shown is its last publication.
pub struct History<V: Voucher> {
    of: PhantomData<V>,
}

impl<V: Voucher> Protocol<Current, Knowledge> for History<V> {
    ghost use Rattle.wl_publish.specs.History.{Kept, newcomer};

    ghost holds = { λ x views. Kept V.signed x.prefix.store x.prefix.list x.published_snapshot views };

    ghost first = { newcomer };
}

/// A place comes to know the list as it is.
pub struct Begins;

impl Outcome<Current, Knowledge> for Begins {
    ghost use Rattle.std.specs.Prelude.{◌≡◌, []};
    ghost use Rattle.wl_publish.specs.History.{knowing};

    ghost then = { λ v x y w. w ≡ knowing y.prefix.store y.prefix.list [] };
}

/// What the place knows stays.
pub struct Publishes;

impl Outcome<Current, Knowledge> for Publishes {
    ghost use Rattle.std.specs.Prelude.{◌≡◌};

    ghost then = { λ v x y w. w ≡ v };
}

/// A place reads what is shown.
pub struct Reads<V> {
    of: PhantomData<V>,
}

impl<V: Voucher> Outcome<Current, Knowledge> for Reads<V> {
    ghost use Rattle.wl_publish.specs.History.{HasRead};

    ghost then = { λ v x y w. HasRead V.signed x.prefix.store x.prefix.list v x.published_snapshot w };
}

/// A copy of what the writer knows is cut off.
pub struct Tells;

impl Split<Knowledge> for Tells {
    ghost left = { λ v. v };

    ghost right = { λ v. v };
}

/// A new reader takes in what it is given.
pub struct Starts;

impl Join<Knowledge> for Starts {
    ghost use Rattle.wl_publish.specs.History.{newcomer};

    ghost both = { λ v w. w };

    ghost spent = { newcomer };
}

/// A reader with what it read last, whose owners are counted apart from those of other readers.
#[derive(Drop)]
pub struct OwnReader<V: Voucher> {
    pub reader: ListReader<V>,
    pub own: Current,
    pub alloc: Global,
}

pub type ListReader<V> = Reader<Current, Knowledge, History<V>>;

pub type ListWriter<V> = Writer<Current, Current, Knowledge, History<V>>;
