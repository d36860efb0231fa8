//! What a link and a sink of this program tell: lists that exist only in proofs.

ghost use Rattle.std.specs.Prelude.{◌≡◌, ◌++◌, ◌∷◌, [], take};
ghost use Rattle.wl_edge.specs.Links.{heard_of};

use wl_edge::{Heard, Received};
use wl_told::{Adds, Told};

/// An answer of a receive, with what was lent to it.
#[derive(Drop)]
struct Lent<'a> {
    into: &'a [u8],
    answer: Received,
}

/// Adds the answer with the bytes that came.
struct Gave;

impl<'a> Adds<Lent<'a>, Heard> for Gave {
    ghost use Rattle.std.specs.Prelude.{◌∷◌, []};
    ghost use Rattle.wl_edge.specs.Links.{heard_of};

    ghost added = { λ l. heard_of l.answer l.into.now ∷ [] };
}

/// Bytes of which so many were taken, from the front.
#[derive(Drop)]
struct Front<'a> {
    bytes: &'a [u8],
    count: usize,
}

/// Adds what was taken.
struct Took;

impl<'a> Adds<Front<'a>, u8> for Took {
    ghost use Rattle.std.specs.Prelude.{take};

    ghost added = { λ f. take f.count f.bytes.now };
}

/// The list with this answer after it.
pub fn heard(told: &Told<Heard>, into: &[u8], answer: Received) -> Told<Heard>
    ensures { result.list ≡ told.now.list ++ heard_of answer into.now ∷ [] }
{
    told.and::<Lent<'_>, Gave>(&Lent { into, answer })
}

/// The list with so many of these bytes after it.
pub fn taken(told: &Told<u8>, bytes: &[u8], count: usize) -> Told<u8>
    ensures { result.list ≡ told.now.list ++ take count bytes.now }
{
    told.and::<Front<'_>, Took>(&Front { bytes, count })
}
