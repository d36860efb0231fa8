//! Readers, and what they are given.

ghost use Rattle.std.specs.Prelude.{◌≡◌, ◌⊎◌, [], true, MatchResult};
ghost use mathlib.Core.List.{IsPrefix};
ghost use Rattle.wl_publish.specs.Places.{known_at};
ghost use Rattle.wl_snapshot.specs.Snapshots.{Publication};
ghost use Rattle.wl_publish.specs.Listings.{listing, passing, EndsWith};
ghost use Rattle.wl_publish.specs.Lists.{IsLast};
ghost use Rattle.wl_publish.specs.Books.{Legal};
ghost use Rattle.wl_publish.specs.History.{book_of, knowing, Took};
ghost use Rattle.wl_publish.specs.Reading.{Reads, ReadsAfter};

use crate::book::Prefix;
use crate::published_snapshot::PublishedSnapshot;
use crate::rule::OwnReader;
use crate::steps;
use core::mem::replace_with;
use std::marker::{Model, PhantomData};
use wl_entry::Voucher;
use wl_octets::Memory;

/// The publications up to one. A contract sees the store's name and these.
#[derive(Drop)]
pub struct Note<V: Voucher> {
    number: u64,
    prefix: Prefix,
    of: PhantomData<V>,
}

impl<V: Voucher> Model for Note<V> {
    ghost use Rattle.wl_publish.specs.Books.{Legal};
    ghost use Rattle.wl_publish.specs.Listings.{Listing, EndsWith};

    ghost Value = { Listing };

    ghost view = { λ n. n.prefix };

    ghost invariant = { λ n. EndsWith n.prefix.list n.number × Legal V.signed n.prefix.list };
}

impl<V: Voucher> Note<V> {
    /// A note of the publications up to the one with this number.
    pub(crate) fn new(number: u64, prefix: Prefix) -> Note<V>
        requires number { EndsWith prefix.list number }
        requires legal { Legal V.signed prefix.list }
        ensures { result ≡ prefix }
    {
        Note {
            number,
            prefix,
            of: PhantomData,
        }
    }

    /// The number of its last publication.
    pub fn number(&self) -> u64
        ensures { EndsWith self.now.list result }
    {
        self.number
    }
}

/// A reader. A contract sees what it has seen, the numbers that it read, and the longest list that it was told.
#[derive(Drop)]
pub struct Pass<V: Voucher> {
    held: OwnReader<V>,
    told: Prefix,
}

impl<V: Voucher> Model for Pass<V> {
    ghost use Rattle.std.specs.Prelude.{◌≡◌, true};
    ghost use Rattle.wl_publish.specs.Lists.{IsLast, IsMine};
    ghost use Rattle.wl_publish.specs.History.{book_of};
    ghost use Rattle.wl_publish.specs.Places.{known_at};
    ghost use Rattle.wl_publish.specs.Listings.{Passing, passing};

    ghost Value = { Passing };

    ghost view = { λ p. passing p.told.store (known_at p.held.reader.place).seen (known_at p.held.reader.place).mine p.told.list };

    ghost invariant = { λ p. ((known_at p.held.reader.place).known ≡ true)
        × (book_of (known_at p.held.reader.place) ≡ p.told.store)
        × IsMine (known_at p.held.reader.place).seen (known_at p.held.reader.place).mine
        × (p.held.own.prefix.store ≡ p.told.store) × IsLast p.held.own.prefix.list p.held.own.published_snapshot };
}

impl<V: Voucher> Pass<V> {
    /// A pass that has seen and was told the list of this prefix, and has read nothing.
    pub(crate) fn new(held: OwnReader<V>, told: Prefix) -> Pass<V>
        requires known { known_at held.reader.place ≡ knowing told.store told.list [] }
        requires own { (held.own.prefix.store ≡ told.store) × IsLast held.own.prefix.list held.own.published_snapshot }
        ensures { result ≡ passing told.store told.list [] told.list }
    {
        Pass { held, told }
    }

    /// The last publication, with the index of its entries; the numbers that were read grow by its number. It waits for
    /// nobody. At `Memory` the pass is as before, or as after a read whose answer could not be shared.
    pub fn read(&mut self) -> Result<PublishedSnapshot, Memory>
        ensures { MatchResult result (λ s. ReadsAfter V.signed self.old s self.new)
            (λ _. (self.new ≡ self.old) ⊎ ((s : Publication) × Reads V.signed self.old s self.new)) }
    {
        replace_with(
            &mut self.held,
            &self.told,
            |held: OwnReader<V>, told: &Prefix| -> (OwnReader<V>, Result<PublishedSnapshot, Memory>)
                requires known { ((known_at held.reader.place).known ≡ true)
                    × (book_of (known_at held.reader.place) ≡ told.now.store) }
                requires own { (held.own.prefix.store ≡ told.now.store)
                    × IsLast held.own.prefix.list held.own.published_snapshot }
                ensures store { ((known_at result.0.reader.place).known ≡ true)
                    × (book_of (known_at result.0.reader.place) ≡ told.now.store) }
                ensures own { (result.0.own.prefix.store ≡ told.now.store)
                    × IsLast result.0.own.prefix.list result.0.own.published_snapshot }
                ensures read { MatchResult result.1
                    (λ s. Took V.signed (known_at held.reader.place) s (known_at result.0.reader.place)
                    × IsPrefix told.now.list (known_at result.0.reader.place).seen)
                    (λ _. (known_at result.0.reader.place ≡ known_at held.reader.place) ⊎ ((s : Publication)
                    × Took V.signed (known_at held.reader.place) s (known_at result.0.reader.place))) }
            { steps::read_after(held, told) },
        )
    }

    /// Later reads are not older than the note's last publication. The note has to be of the publisher that was made with
    /// this pass. It takes no memory.
    pub fn learn(&mut self, note: Note<V>)
        requires { note.store ≡ self.old.store }
        ensures same { (self.new.store ≡ self.old.store) × (self.new.seen ≡ self.old.seen)
            × (self.new.mine ≡ self.old.mine) }
        ensures told { IsPrefix self.old.told self.new.told × IsPrefix note.list self.new.told }
        ensures one { (self.new.told ≡ self.old.told) ⊎ (self.new.told ≡ note.list) }
    {
        let Note {
            number: _,
            prefix,
            of: _,
        } = note;
        if self.told.begins(&prefix) {
            self.told = prefix;
        }
    }
}
