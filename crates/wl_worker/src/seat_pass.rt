//! A pass, with the views that the connections of its seat share.

ghost use Rattle.std.specs.Prelude.{◌≡◌, ◌⊎◌, None, MatchResult};
ghost use Rattle.wl_publish.specs.Lists.{IsLast, Numbered};
ghost use Rattle.wl_publish.specs.Reading.{Reads, ReadsAfter};
ghost use Rattle.wl_session.specs.Sessions.{Turns, unnamed_in};
ghost use Rattle.wl_session.specs.Settled.{MayTurn};
ghost use Rattle.wl_snapshot.specs.Snapshots.{Publication};

use output_parts::Output;
use std::alloc::Global;
use std::marker::Model;
use wl_entry::Voucher;
use wl_octets::Memory;
use wl_publish::{Pass, PublishedSnapshot};
use wl_session::{Session, SessionFault, SharedViews};

/// The pass of a seat, with the views and messages of one publication that its connections share. A contract sees the pass.
#[derive(Drop)]
pub struct SeatPass<V: Voucher> {
    pass: Pass<V>,
    views: SharedViews,
}

impl<V: Voucher> Model for SeatPass<V> {
    ghost use Rattle.wl_publish.specs.Listings.{Passing};
    ghost use Rattle.wl_worker.specs.Served.{IsAmong};

    ghost Value = { Passing };

    ghost view = { λ s. s.pass };

    ghost invariant = { λ s. IsAmong s.pass.seen s.views };
}

impl<V: Voucher> SeatPass<V> {
    /// A pass of whose publications nothing is shared yet. It takes no memory.
    pub fn new(alloc: Global, pass: Pass<V>) -> SeatPass<V>
        ensures { result ≡ pass }
    {
        SeatPass {
            pass,
            views: SharedViews::new(alloc),
        }
    }

    /// The pass. What its connections shared is let go.
    pub fn into_pass(self) -> Pass<V>
        ensures { result ≡ self }
    {
        self.pass
    }

    /// The last publication, as [`Pass::read`] gives it.
    pub(crate) fn read(&mut self) -> Result<PublishedSnapshot, Memory>
        ensures { MatchResult result (λ s. ReadsAfter V.signed self.old s self.new)
            (λ _. (self.new ≡ self.old) ⊎ ((s : Publication) × Reads V.signed self.old s self.new)) }
    {
        self.pass.read()
    }

    /// A turn on the publication that was read, by the index of its entries, with the views that connections share.
    pub(crate) fn take_turn(
        &mut self,
        session: &mut Session,
        published_snapshot: &PublishedSnapshot,
        out: &mut Output,
    ) -> Result<(), SessionFault>
        requires last { IsLast self.old.seen published_snapshot.now }
        requires numbered { Numbered self.old.seen }
        requires follows { MayTurn published_snapshot.now session.old }
        requires named { unnamed_in session.old ≡ None }
        ensures turns { Turns published_snapshot.now session.old result out.old out.new session.new }
        ensures stays { self.new ≡ self.old }
    {
        session.turn_with(
            &mut self.views,
            published_snapshot.snapshot(),
            published_snapshot.index(),
            out,
        )
    }

    /// Lets go of what connections share.
    pub(crate) fn clear(&mut self)
        ensures { self.new ≡ self.old }
    {
        self.views.clear();
    }
}
