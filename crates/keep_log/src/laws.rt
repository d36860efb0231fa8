//! What holds of the definitions alone.

ghost use Rattle.std.specs.Prelude.{ℕ, List, ◌≡◌, ◌++◌, ◌∷◌, [], true};
ghost use Rattle.event_log.specs.Texts.{are_printed};
ghost use Rattle.keep_log.specs.Lines.{said, line, fits};
ghost use Rattle.keep_log.specs.declared.event.KeepEvent.{KeepEvent};

/// A line is printed ASCII, and then its one newline: no id, path or text of a server makes a second one.
pub fn lines_are_one()
    ensures { (time : List ℕ) (event : KeepEvent) → fits event ≡ true →
        (line time event ≡ said time event ++ 10 ∷ []) × (are_printed (said time event) ≡ true) }
{}
