//! What holds of the definitions alone.

ghost use Rattle.std.specs.Prelude.{ℕ, List, ◌≡◌};
ghost use Rattle.base64.specs.Engines.{standard};
ghost use Rattle.base64.specs.GeneralPurpose.{encode_of};
ghost use Rattle.pem_text.specs.Pem.{lines_from, joined};

/// The lines of a PEM text, joined, are the base64 of its bytes, of which base64's own decoder gives these bytes and no
/// others.
#[tactic(auto, using(crate::proofs::Back::body_joins))]
pub fn lines_join()
    ensures { (der : List ℕ) → joined (lines_from 0 (encode_of standard der)) ≡ encode_of standard der }
{}
