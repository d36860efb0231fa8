//! What holds of the definitions alone.

ghost use Rattle.std.specs.Prelude.{◌≡◌, ◌==◌, ℕ, List, true, false};
ghost use Rattle.std.specs.List.{list_all, list_any};
ghost use Rattle.wl_control.specs.Escapes.{is_printable, escaped, are_bytes};

/// However a text of the server reads, it makes no second line: each of its bytes is printable once it is escaped, and so
/// none is a newline.
#[tactic(auto, using(crate::proofs::Printable::text_printable, crate::proofs::Printable::text_one_line))]
pub fn escaped_text_has_no_newline()
    ensures printable { (text : List ℕ) → are_bytes text ≡ true → list_all is_printable (escaped text) ≡ true }
    ensures one_line { (text : List ℕ) → are_bytes text ≡ true → list_any (λ b. b == 10) (escaped text) ≡ false }
{}
