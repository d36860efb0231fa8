//! What holds of each stream of a session, and of each session of the core.

ghost use Rattle.wl_responses.specs.Steps.{StepsWriteFrames};
ghost use Rattle.wl_responses.specs.Responses.{StreamsHaveAnswers, StreamsHaveTurns, StreamsHaveSelectors, NumbersNeverFall};
ghost use Rattle.wl_responses.specs.Moves.{SessionsTakeSteps, BytesAreResponses, ResponsesAreAnswers, ResponsesDiffer, MessagesAreCut, TurnsHaveSelectors, TurnsWereTaken, PublicationsNeverFall};
ghost use Rattle.wl_responses.specs.Runs.{SessionsHaveMoves, BytesOfResponses, AnswersOfTurns, TurnsOfCalls, SelectorsOfCalls, TurnsOfPublications, NumbersOfResponses, ResponsesOfRunsDiffer, MessagesOfRuns};
ghost use Rattle.wl_responses.specs.Statuses.{NoStatusBefore, VerdictsGiveStatuses, TurnsGiveStatuses, DeniedWhereNothingIsSeen, UnknownWhereAsked, NamesGiveStatuses, TokensGiveStatuses};
ghost use Rattle.wl_responses.specs.Completeness.{EachIsAnswered, AllIsWritten, EachIsHeldBack, AsksAreAwaited, AsksStay, OutcomesAreTaken, StepsOfRunsGiveStatuses, TurnsOfRunsGiveStatuses, TokensOfRunsGiveStatuses};

use wl_session::{answers_are_of_views, turns_answer_all};

/// Of each stream over all steps of a talk, whichever way its calls are attested: each response is the answer
/// on the view of the publication of the latest turn that answered the stream before it began.
pub fn streams_have_answers()
    ensures answers { StreamsHaveAnswers }
    ensures turns { StreamsHaveTurns }
    ensures selectors { StreamsHaveSelectors }
    ensures numbers { NumbersNeverFall }
{}

/// A session has the talk after the steps of its moves, and wrote the bytes of these steps. These are this
/// side's SETTINGS before all else, and of each step the queued control frames, then its HEADERS and DATA.
pub fn sessions_take_steps()
    ensures steps { SessionsTakeSteps }
    ensures frames { StepsWriteFrames }
{}

/// Of each stream of a session: with what is left of the last response, the bytes of DATA that were written
/// are the responses that began, in their order. Each is the answer, for the selectors with which the call
/// was attested, on the view of the publication of the latest turn that answered the stream before it began.
pub fn responses_are_answers()
    ensures bytes { BytesAreResponses }
    ensures answers { ResponsesAreAnswers }
    ensures turns { TurnsWereTaken }
    ensures selectors { TurnsHaveSelectors }
    ensures numbers { PublicationsNeverFall }
    ensures differ { ResponsesDiffer }
    ensures messages { MessagesAreCut }
{}

/// The session on a connection of the core is the one after its moves, and was written their bytes.
pub fn sessions_have_moves()
    ensures { SessionsHaveMoves }
{}

/// The same of each stream of each session of the core: each response is of one publication of the run, and
/// along a stream their numbers do not fall.
pub fn responses_are_of_publications()
    ensures bytes { BytesOfResponses }
    ensures answers { AnswersOfTurns }
    ensures turns { TurnsOfCalls }
    ensures selectors { SelectorsOfCalls }
    ensures publications { TurnsOfPublications }
    ensures numbers { NumbersOfResponses }
    ensures differ { ResponsesOfRunsDiffer }
    ensures messages { MessagesOfRuns }
{}

/// How a call ends, over all steps of a talk: by its verdict, by its view at a turn, by the attestor's answer,
/// and by the outcome and the size at a token. The last block of its status is due on its stream, where
/// that is live. Each other call goes on.
pub fn statuses_are_of_views()
    ensures before { NoStatusBefore }
    ensures verdicts { VerdictsGiveStatuses }
    ensures turns { TurnsGiveStatuses }
    ensures denied { DeniedWhereNothingIsSeen }
    ensures unknown { UnknownWhereAsked }
    ensures names { NamesGiveStatuses }
    ensures tokens { TokensGiveStatuses }
{
    answers_are_of_views();
}

/// After each Turn of a session of the core that has not failed, each ready streaming call, Watch included,
/// has its message of the publication that stands: it began last on its stream, or waits there; and all that
/// may be written was. Each ready FetchJWTSVID waits for exactly its asks, one after the other.
pub fn runs_answer_all()
    ensures answered { EachIsAnswered }
    ensures written { AllIsWritten }
    ensures held_back { EachIsHeldBack }
    ensures asks { AsksAreAwaited }
    ensures stay { AsksStay }
    ensures outcomes { OutcomesAreTaken }
{
    turns_answer_all();
}

/// Each step of each session of the core gives its statuses: a frame, a name, a turn and an outcome. So after
/// each Turn each ready call has its status, and after each Token the call whose ask waited.
pub fn runs_give_statuses()
    ensures steps { StepsOfRunsGiveStatuses }
    ensures turns { TurnsOfRunsGiveStatuses }
    ensures tokens { TokensOfRunsGiveStatuses }
{}
