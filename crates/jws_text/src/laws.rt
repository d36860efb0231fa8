//! What holds of the definitions alone.

ghost use Rattle.std.specs.Prelude.{◌≡◌, ℕ, List, nat_lt, false};
ghost use Rattle.std.specs.List.{list_any};
ghost use Rattle.jws_text.specs.Tokens.{one_line};

/// However a token reads, what it says stands on one line: no byte of it is a control character of ASCII.
#[tactic(auto, using(crate::proofs::Lines::no_control))]
pub fn what_is_said_has_no_newline()
    ensures { (text : List ℕ) → list_any (λ b. nat_lt b 32) (one_line text) ≡ false }
{}
