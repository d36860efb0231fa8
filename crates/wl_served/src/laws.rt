//! What holds of each stream of a served connection.

ghost use Rattle.wl_served.specs.Served.{RoundsTakeSteps, ServedAreAnswers, ServedTurnsWereTaken, ServedTurnsWereRead, ServedSelectors, ServedNumbers};
ghost use Rattle.wl_served.specs.Agreeing.{ServedAreIsolated};
ghost use Rattle.wl_served.specs.Owning.{RunsThatAgree};
ghost use Rattle.wl_served.specs.Complete.{ServedGiveStatuses, ServedAreAnswered, ServedAreWritten, ServedAreHeldBack, ServedAwaitAsks, ServedAsksStay, ServedTakeOutcomes};

use wl_responses::{sessions_have_moves, streams_have_answers};
use wl_session::{turns_agree, turns_answer_all};

/// Of each stream of a served connection, over all its rounds.
pub fn served_responses_are_answers()
    ensures steps { RoundsTakeSteps }
    ensures answers { ServedAreAnswers }
    ensures turns { ServedTurnsWereTaken }
    ensures read { ServedTurnsWereRead }
    ensures selectors { ServedSelectors }
    ensures numbers { ServedNumbers }
{
    streams_have_answers();
}

/// Two served connections that agree on what is theirs write the same bytes.
pub fn served_connections_are_isolated()
    ensures { ServedAreIsolated }
{
    turns_agree();
}

/// Two sessions of the core, of whatever two runs, that agree on what is theirs were written the same bytes.
pub fn runs_that_agree_write_the_same()
    ensures { RunsThatAgree }
{
    sessions_have_moves();
    turns_agree();
}

/// Each call of a served connection has its status, by its verdict, the attestor's answer, its view and its tokens. After each turn
/// each ready call, Watch included, has its message of the publication that was read, or waits for its tokens, and all that may be
/// written is due to the link.
pub fn served_connections_are_complete()
    ensures statuses { ServedGiveStatuses }
    ensures answered { ServedAreAnswered }
    ensures written { ServedAreWritten }
    ensures held_back { ServedAreHeldBack }
    ensures asks { ServedAwaitAsks }
    ensures stay { ServedAsksStay }
    ensures outcomes { ServedTakeOutcomes }
{
    turns_answer_all();
}
