//! The tokens that a call asks for.

ghost use Rattle.std.specs.Prelude.{◌≡◌, List, map, filter, option_copied, IfOk};
ghost use Rattle.wl_snapshot.specs.Answers.{asks_of, is_meant, wanted_of};

use crate::views::{Held, View};
use spiffe_id::SpiffeId;
use std::alloc::Global;
use wl_entry::Ask;
use wl_octets::{Memory, Octets, Row};

/// A token that a FetchJWTSVID call asks for, with the hint of its entry.
#[derive(Drop)]
pub struct Wanted {
    pub ask: Ask,
    pub hint: Octets,
}

/// Whether an entry is meant where this id is named, or none.
fn is_named(held: &Held, id: Option<&SpiffeId>) -> bool
    ensures { result ≡ is_meant (option_copied id.entry) held.now }
{
    match id {
        Some(id) => held.entry.part().spiffe_id == *id,
        None => true,
    }
}

/// The tokens that a FetchJWTSVID call asks for, by ascending entry id: one for each entry of the view, or for each
/// of the id that it names. Empty where it is entitled to none.
#[tactic(auto, unfolding(crate::specs::Answers::asks_of))]
pub fn jwt_asks(alloc: Global, view: &View, id: Option<&SpiffeId>) -> Result<Row<Wanted>, Memory>
    ensures { IfOk result (λ r. r ≡ asks_of (option_copied id.entry) view.now) }
{
    collect_asks(alloc, view.held.as_slice(), id)
}

fn collect_asks(alloc: Global, held: &[Held], id: Option<&SpiffeId>) -> Result<Row<Wanted>, Memory>
    ensures { IfOk result (λ r. r ≡ map wanted_of (filter (is_meant (option_copied id.entry)) held.now)) }
{
    let mut done = Row::empty(alloc);
    for one in held {
        if is_named(one, id) {
            done.push(Wanted {
                ask: one.entry.part().ask(alloc)?,
                hint: one.entry.part().hint.copy(alloc)?,
            })?;
        }
    }
    Ok(done)
}
