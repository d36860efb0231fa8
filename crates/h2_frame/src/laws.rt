//! What holds of the definitions alone.

ghost use Rattle.std.specs.Prelude.{◌≡◌, ℕ, List, ◌++◌};
ghost use Rattle.h2_frame.specs.Reading.{End, reading_from, read_on};

/// However a stream is cut, its frames and its end are the same.
#[tactic(auto, using(crate::proofs::Cuts::reads_on))]
pub fn cut_anywhere()
    ensures { (ending : End) (bytes more : List ℕ)
        → reading_from ending (bytes ++ more) ≡ read_on (reading_from ending bytes) more }
{}
