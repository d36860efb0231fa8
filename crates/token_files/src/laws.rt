//! What holds of the names alone.

ghost use Rattle.std.specs.Prelude.{◌≡◌, ◌≢◌, ◌<◌, ℕ, List, All};
ghost use Rattle.percent_encoding.specs.Percent.{percent_decode};
ghost use Rattle.token_files.specs.Names.{encoded};

/// An audience is read back from the name of its file, so two audiences have no name in common; and it has no `/` there.
#[tactic(auto, using(crate::proofs::Encodings::read_back, crate::proofs::Encodings::no_path))]
pub fn encoded_audience_is_read_back()
    ensures read_back { (audience : List ℕ) → All (λ b. b < 256) audience → percent_decode (encoded audience) ≡ audience }
    ensures no_path { (audience : List ℕ) → All (λ b. b ≢ 47) (encoded audience) }
{}
