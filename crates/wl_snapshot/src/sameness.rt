//! Equality of views.

ghost use Rattle.std.specs.Prelude.{◌≡◌, ◌↔◌, true};
ghost use Rattle.wl_snapshot.specs.Same.{same_view_model};

use crate::views::View;

#[tactic(auto, unfolding(crate::specs::Same::same_view_model))]
fn same_view_inner(a: &View, b: &View) -> bool
    ensures { result ≡ same_view_model a.now b.now }
{
    a.domain == b.domain && a.held == b.held && a.bundles == b.bundles
}

/// Whether two views are the same. It takes no memory, and the first difference ends it.
pub fn same_view(a: &View, b: &View) -> bool
    ensures test { result ≡ same_view_model a.now b.now }
    ensures equal { (result ≡ true) ↔ (a.now ≡ b.now) }
{
    same_view_inner(a, b)
}
