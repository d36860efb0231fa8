//! What a caller sees of a publication.

ghost use Rattle.std.specs.Prelude.{◌≡◌, ◌==◌, length};
ghost use Rattle.std.specs.List.{list_all};
ghost use Rattle.wl_snapshot.specs.Views.{has_svid};

use spiffe_id::TrustDomain;
use std::marker::Model;
use wl_entry::{Bundle, Entry, Svid};
use wl_octets::{Row, Shared};

/// An entry to which the caller is entitled, with its kept SVID.
#[derive(PartialEq, Drop)]
pub struct Held {
    pub entry: Shared<Entry>,
    /// None where none is kept.
    pub svid: Option<Shared<Svid>>,
}

/// What a caller sees of a publication: the entries to which it is entitled by ascending id, and by ascending
/// domain the bundles of the own domain and of those with which these entries federate.
#[derive(Drop)]
pub struct View {
    /// The own trust domain.
    pub domain: TrustDomain,
    pub held: Row<Held>,
    pub bundles: Row<Shared<Bundle>>,
}

impl Model for View {
    ghost use Rattle.wl_snapshot.specs.Views.{ViewModel, IsViewModel};

    ghost Value = { ViewModel };

    ghost view = { λ v. record { domain = v.domain; held = v.held; bundles = v.bundles } };

    ghost invariant = { λ v. IsViewModel (record { domain = v.domain; held = v.held; bundles = v.bundles }) };
}

impl View {
    ghost use Rattle.wl_snapshot.specs.Views.{is_whole};

    /// Whether it has no entry.
    pub fn is_empty(&self) -> bool
        ensures { result ≡ (length self.now.held == 0) }
    {
        self.held.len() == 0
    }

    /// Whether no entry lacks its SVID.
    #[tactic(auto, unfolding(crate::specs::Views::is_whole))]
    pub fn is_whole(&self) -> bool
        ensures { result ≡ is_whole self.now }
    {
        all_signed(self.held.as_slice())
    }
}

/// Whether each has its SVID.
fn all_signed(held: &[Held]) -> bool
    ensures { result ≡ list_all has_svid held.now }
{
    held.iter().all(|one| one.svid.is_some())
}
