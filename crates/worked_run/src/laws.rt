//! What the definitions say of one run.

ghost use Rattle.worked_run.specs.FirstRun.{FirstRunIsAnswered, OneTextAnswers, OtherCallerGetsNone, NoTextAnswers, OtherCallerIsDenied, NoTurnNoAnswer, RunsFit};

/// A caller that is entitled to the one entry is written its response, byte for byte, on the stream of its call. No
/// other text is an answer of that turn.
pub fn first_run_is_computed()
    ensures fits { RunsFit }
    ensures replies { FirstRunIsAnswered }
    ensures text { OneTextAnswers }
    ensures turn { NoTurnNoAnswer }
{}

/// A caller that isn't entitled to it is written nothing of a response and is refused with status 7. No text is an answer
/// for it.
pub fn other_callers_get_none()
    ensures replies { OtherCallerGetsNone }
    ensures denied { OtherCallerIsDenied }
    ensures text { NoTextAnswers }
{}
