//! What holds of the definitions alone.

ghost use Rattle.std.specs.Prelude.{◌≡◌, ◌∷◌, ◌++◌, [], ℕ, List};
ghost use Rattle.fault_lines.specs.Lines.{fault_line, IsWord, IsLine, AreBounded};
ghost use Rattle.fault_lines.specs.Explanations.{sentence, explanation, explained_text, or_line};

/// What is written as a fault line is explained by the numbers that were written.
#[tactic(auto, using(crate::proofs::RoundTrip::line_read))]
pub fn lines_are_read()
    ensures { (subject numbers : List ℕ) → IsWord subject → AreBounded numbers →
        explanation (fault_line subject numbers) ≡ or_line (fault_line subject numbers) (sentence subject numbers) }
{}

/// The same of a text that is one such line with its newline.
#[tactic(auto, using(crate::proofs::RoundTrip::text_read))]
pub fn texts_are_read()
    ensures { (subject numbers : List ℕ) → IsWord subject → IsLine subject → AreBounded numbers →
        explained_text (fault_line subject numbers ++ 10 ∷ []) ≡ or_line (fault_line subject numbers) (sentence subject numbers) ++ 10 ∷ [] }
{}
