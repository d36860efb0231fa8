//! What callers see in one publication, and its messages, which connections share.

ghost use Rattle.std.specs.Prelude.{◌≡◌, true, Some, None, IfOk, IfSome, Option};
ghost use Rattle.wl_snapshot.specs.Snapshots.{Publication};
ghost use Rattle.wl_snapshot.specs.Views.{view_in};
ghost use Rattle.wl_session.specs.Sharing.{SeesIn, IsMessageIn, MayShare, AreViewsIn, AreMessagesIn};

use crate::session::is_number;
use std::alloc::Global;
use std::marker::Model;
use std::snapshot;
use wl_match::Index;
use wl_octets::{Memory, Octets, Row, Shared};
use wl_selector::Selectors;
use wl_snapshot::{Method3, Snapshot, View, view, view_of};

/// How many views, and how many messages, are kept at most (own rule).
const MOST_KEPT: usize = 64;

/// How many bytes the kept messages have together at most (own rule).
const MOST_BYTES: usize = 16_777_216;

/// What callers of these selectors see.
#[derive(Drop)]
pub struct KeptView {
    pub selectors: Selectors,
    pub view: Shared<View>,
}

/// The message of a method for callers of these selectors, after its gRPC prefix.
#[derive(Drop)]
pub struct KeptMessage {
    pub selectors: Selectors,
    pub method: Method3,
    pub message: Shared<Octets>,
}

/// The views of callers in one publication, and the messages that were made of them. Connections share them, so that
/// callers of equal selectors cost one view, and one message of each method. At most 64 of each are kept, and at most
/// 16,777,216 bytes of messages: where one more passes that, those before it are let go. A contract sees the
/// publication, if there is one yet.
#[derive(Drop)]
pub struct SharedViews {
    alloc: Global,
    /// The number of the publication.
    number: Option<u64>,
    /// The publication itself, for contracts alone: it takes no memory.
    shown: Option<snapshot::Snapshot<Snapshot>>,
    views: Row<KeptView>,
    messages: Row<KeptMessage>,
    /// How many bytes the messages have together.
    bytes: usize,
}

impl Model for SharedViews {
    ghost use Rattle.std.specs.Prelude.{Option, option_map};
    ghost use Rattle.wl_snapshot.specs.Snapshots.{Publication};
    ghost use Rattle.wl_session.specs.Sharing.{AreKept};

    ghost Value = { Option Publication };

    ghost view = { λ s. option_map (λ g. g.value) s.shown };

    ghost invariant = { λ s. AreKept (option_map (λ g. g.value) s.shown) s.number s.views s.messages };
}

#[tactic(auto, using(list_laws::proofs::Equality::texts_are))]
fn same_selectors(one: &Selectors, other: &Selectors) -> bool
    ensures { result ≡ true → one.now ≡ other.now }
{
    one == other
}

/// A caller's view of a publication, by the index of its entries where there is one.
#[tactic(auto, using(crate::proofs::Views::by_places))]
fn make_view(
    alloc: Global,
    snapshot: &Snapshot,
    index: Option<&Index>,
    selectors: &Selectors,
) -> Result<View, Memory>
    requires { IfSome index (λ i. i.now ≡ snapshot.now.entries) }
    ensures { IfOk result (λ v. v ≡ view_in snapshot.now selectors.now) }
{
    match index {
        None => view(alloc, snapshot, selectors),
        Some(index) => {
            let places = index.entitled(alloc, selectors)?;
            view_of(alloc, snapshot, places.as_slice())
        }
    }
}

/// The view for callers of these selectors, where one is kept.
fn find_view(kept: &[KeptView], selectors: &Selectors) -> Result<Option<Shared<View>>, Memory>
    ensures { IfOk result (λ found. IfSome found (λ v. (shown : Option Publication)
        → AreViewsIn shown kept.now → SeesIn shown selectors.now v)) }
{
    for one in kept {
        if same_selectors(&one.selectors, selectors) {
            return Ok(Some(one.view.share()?));
        }
    }
    Ok(None)
}

/// The message of a method for callers of these selectors, where one is kept.
fn find_message(
    kept: &[KeptMessage],
    method: Method3,
    selectors: &Selectors,
) -> Result<Option<Shared<Octets>>, Memory>
    ensures { IfOk result (λ found. IfSome found (λ m. (shown : Option Publication)
        → AreMessagesIn shown kept.now → IsMessageIn shown selectors.now method m)) }
{
    for one in kept {
        if one.method == method && same_selectors(&one.selectors, selectors) {
            return Ok(Some(one.message.share()?));
        }
    }
    Ok(None)
}

impl SharedViews {
    /// None yet, of no publication. It takes no memory.
    pub fn new(alloc: Global) -> SharedViews
        ensures { result ≡ None }
    {
        SharedViews {
            alloc,
            number: None,
            shown: None,
            views: Row::empty(alloc),
            messages: Row::empty(alloc),
            bytes: 0,
        }
    }

    /// Lets go of what is kept. What is wanted after that is made anew.
    pub fn clear(&mut self)
        ensures { self.new ≡ self.old }
    {
        self.views = Row::empty(self.alloc);
        self.messages = Row::empty(self.alloc);
        self.bytes = 0;
    }

    /// From now on they are those of this publication. What is kept of another one is let go.
    #[tactic(auto, using(crate::proofs::KeptViews::shown_here, crate::proofs::KeptViews::none_kept))]
    pub fn show(&mut self, snapshot: &Snapshot)
        requires { MayShare snapshot.now self.old }
        ensures { self.new ≡ Some snapshot.now }
    {
        if is_number(self.number, snapshot.number) {
            return;
        }
        *self = SharedViews {
            alloc: self.alloc,
            number: Some(snapshot.number),
            shown: Some(snapshot::Snapshot::of(snapshot)),
            views: Row::empty(self.alloc),
            messages: Row::empty(self.alloc),
            bytes: 0,
        };
    }

    #[tactic(auto, using(crate::proofs::KeptViews::one_more_view))]
    fn keep_view(&mut self, kept: KeptView) -> Result<(), Memory>
        requires { SeesIn self.old kept.selectors kept.view }
        ensures { self.new ≡ self.old }
    {
        if self.views.len() >= MOST_KEPT {
            self.views = Row::empty(self.alloc);
        }
        self.views.push(kept)?;
        Ok(())
    }

    /// What a caller of these selectors sees in the publication, by the index of its entries where there is one.
    pub fn view_for(
        &mut self,
        snapshot: &Snapshot,
        index: Option<&Index>,
        selectors: &Selectors,
    ) -> Result<Shared<View>, Memory>
        requires index { IfSome index (λ i. i.now ≡ snapshot.now.entries) }
        requires shown { self.old ≡ Some snapshot.now }
        ensures view { IfOk result (λ v. v ≡ view_in snapshot.now selectors.now) }
        ensures stays { self.new ≡ self.old }
    {
        if let Some(view) = find_view(self.views.as_slice(), selectors)? {
            return Ok(view);
        }
        let view = make_view(self.alloc, snapshot, index, selectors)?;
        let view = match Shared::new(self.alloc, view) {
            Ok(view) => view,
            Err((_, memory)) => return Err(memory),
        };
        let kept = KeptView {
            selectors: selectors.copy(self.alloc)?,
            view: view.share()?,
        };
        self.keep_view(kept)?;
        Ok(view)
    }

    /// The message of a method for a caller of these selectors, where one is kept.
    pub fn message_for(
        &self,
        method: Method3,
        selectors: &Selectors,
    ) -> Result<Option<Shared<Octets>>, Memory>
        ensures { IfOk result (λ found. IfSome found (IsMessageIn self.now selectors.now method)) }
    {
        find_message(self.messages.as_slice(), method, selectors)
    }

    /// Lets go of all messages where one of so many bytes is one too many.
    fn make_room(&mut self, length: usize)
        ensures { self.new ≡ self.old }
    {
        let bytes = self.bytes.saturating_add(length);
        if self.messages.len() < MOST_KEPT && bytes <= MOST_BYTES {
            self.bytes = bytes;
        } else {
            self.messages = Row::empty(self.alloc);
            self.bytes = length;
        }
    }

    /// Keeps a message that was made for a caller of these selectors.
    #[tactic(auto, using(crate::proofs::KeptViews::one_more_message))]
    pub fn keep_message(
        &mut self,
        method: Method3,
        selectors: &Selectors,
        message: Octets,
    ) -> Result<Shared<Octets>, Memory>
        requires { IsMessageIn self.old selectors.now method message }
        ensures made { IfOk result (λ m. m ≡ message) }
        ensures stays { self.new ≡ self.old }
    {
        self.make_room(message.len());
        let message = match Shared::new(self.alloc, message) {
            Ok(message) => message,
            Err((_, memory)) => return Err(memory),
        };
        self.messages.push(KeptMessage {
            selectors: selectors.copy(self.alloc)?,
            method,
            message: message.share()?,
        })?;
        Ok(message)
    }
}
