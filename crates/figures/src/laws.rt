//! What holds of the definitions alone.

ghost use Rattle.std.specs.Prelude.{ℕ, List, ◌≡◌, true, false};
ghost use Rattle.figures.specs.Labels.{escaped, is_within_quotes};

/// A label's value ends neither its line nor its quotes, whatever a path has.
#[tactic(auto, using(crate::proofs::LabelValues::value_within))]
pub fn label_values_are_one_line()
    ensures { (bytes : List ℕ) → is_within_quotes false (escaped bytes) ≡ true }
{}
