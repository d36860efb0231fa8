//! The one list of publications, as a book whose log only grows.

ghost use Rattle.std.specs.Prelude.{◌≡◌, ◌++◌, ◌∷◌, [], MatchBool, ⊤};
ghost use mathlib.Core.List.{IsPrefix};
ghost use Rattle.wl_publish.specs.Books.{head_of};
ghost use Rattle.wl_publish.specs.Listings.{listing};

use crate::published_snapshot::PublishedSnapshot;
use logbook::{Gain, Offer, Plain, Play, Rule, Seen, Start, Word};
use std::marker::Model;
use wl_snapshot::Snapshot;

/// The rule of the book: its first word is how many publications there are.
pub struct OneList;

impl Rule<Snapshot, u64> for OneList {
    ghost use Rattle.std.specs.Prelude.{[]};
    ghost use base.Fml.{ftrue};
    ghost use Rattle.wl_publish.specs.Books.{IsWritten};

    ghost holds = { IsWritten };

    ghost first = { [] };

    ghost hinted = { λ n log. Unit {0} };

    ghost shows = { λ log. [] };

    ghost keeps = { λ names log. ftrue };

    ghost moves = { λ ask before after answer. Unit {0} };
}

/// An update trades nothing.
pub struct Nothing;

impl Gain<Snapshot, u64> for Nothing {
    ghost use base.Fml.{ftrue};

    ghost after = { λ names about answer. ftrue };
}

/// The step that adds a publication.
pub struct Add;

impl Play<Snapshot, u64> for Add {
    ghost use Rattle.wl_publish.specs.Books.{Adds};

    ghost then = { Adds };
}

impl Plain<PublishedSnapshot, Snapshot, u64> for Add {
    ghost use Rattle.std.specs.Prelude.{None};

    ghost ask = { λ published_snapshot. published_snapshot };

    ghost state = { λ published_snapshot. None };
}

/// The word that counts the publications.
pub type Head = Word<Snapshot, u64, OneList>;

/// The publications up to one, which are known for good. A contract sees the book's name and these.
#[derive(Drop)]
pub struct Prefix {
    count: u64,
    seen: Seen<Snapshot, u64, OneList>,
}

impl Model for Prefix {
    ghost use Rattle.std.specs.Prelude.{◌≡◌, length};
    ghost use Rattle.wl_publish.specs.Listings.{Listing, listing};

    ghost Value = { Listing };

    ghost view = { λ p. listing p.seen.book p.seen.log };

    ghost invariant = { λ p. p.count ≡ length p.seen.log };
}

/// A new book without publications: its word, and the empty prefix.
pub fn open_book() -> (Head, Prefix)
    ensures head { result.0 ≡ head_of result.1.store }
    ensures empty { result.1.list ≡ [] }
{
    let (seen, mut first, _second) = Seen::open(Start::alone(), 0, 0);
    (Word::tracked(0, &mut first), Prefix { count: 0, seen })
}

impl Prefix {
    /// A copy.
    pub fn again(&self) -> Prefix
        ensures { result ≡ self.now }
    {
        Prefix {
            count: self.count,
            seen: self.seen.again(),
        }
    }

    /// Whether this list is the shorter one, or as long as the other, which then begins with it.
    pub fn begins(&self, other: &Prefix) -> bool
        requires { other.now.store ≡ self.now.store }
        ensures { MatchBool result (IsPrefix self.now.list other.now.list)
            (IsPrefix other.now.list self.now.list) }
    {
        let mut both = self.seen.again();
        both.learn(&other.seen);
        self.count <= other.count
    }

    /// Whether this list is as long as the other, which is the same list then.
    pub fn is_as_long(&self, other: &Prefix) -> bool
        requires { other.now.store ≡ self.now.store }
        ensures { MatchBool result (self.now.list ≡ other.now.list) ⊤ }
    {
        let mut both = self.seen.again();
        both.learn(&other.seen);
        self.count == other.count
    }

    /// Adds a publication to the book, and says whether it did. It does not where the book is longer, or full.
    pub fn add(&mut self, head: &Head, next: &PublishedSnapshot) -> bool
        requires head { head.now ≡ head_of self.old.store }
        ensures { MatchBool result (self.new ≡ listing self.old.store (self.old.list ++ next.now ∷ []))
            (self.new ≡ self.old) }
    {
        let count = self.count;
        let Some(more) = count.checked_add(1) else {
            return false;
        };
        let mut seen = self.seen.again();
        let mut offer: Offer<Snapshot, u64, OneList, Nothing> = seen.plain::<
            Nothing,
            PublishedSnapshot,
            Add,
        >(next);
        let mut pen = seen.no_pen();
        let found = head.compare_exchange::<Add, Nothing>(
            count, more, &mut seen, &mut offer, &mut pen,
        );
        if found != count {
            return false;
        }
        self.seen = seen;
        self.count = more;
        true
    }
}
