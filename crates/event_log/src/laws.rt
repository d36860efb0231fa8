//! What holds of the definitions alone.

ghost use Rattle.std.specs.Prelude.{ℕ, List, ◌≡◌, ◌<◌, ◌^◌, ◌++◌, ◌∷◌, [], true};
ghost use Rattle.event_log.specs.Texts.{escaped, are_printed};
ghost use Rattle.event_log.specs.Lines.{said, line, fits};
ghost use Rattle.event_log.specs.declared.event.Event.{Event};

/// Text from outside adds no byte that isn't printed ASCII, and so no line.
#[tactic(auto, using(crate::proofs::PrintableText::text_printed))]
pub fn texts_are_printed()
    ensures { (bytes : List ℕ) → are_printed (escaped bytes) ≡ true }
{}

/// A line is printed ASCII, and then its one newline.
pub fn lines_are_one()
    ensures { (time : List ℕ) (event : Event) (held : ℕ) → fits event ≡ true → held < 2 ^ 64 →
        (line time event held ≡ said time event held ++ 10 ∷ []) × (are_printed (said time event held) ≡ true) }
{}
