//! Tables of talks of four turns.

use super::callers::Caller;
use super::frames::*;
use super::publications::State;

/// What the signer says to an ask for a token.
#[derive(Clone, Copy)]
pub enum Outcome {
    /// The token `t`.
    Token,
    Failed,
}

/// Bytes, a turn and an outcome, and what is written by all.
#[derive(Clone, Copy)]
pub struct Round {
    /// The caller of the call that the bytes make ready.
    pub caller: Caller,
    pub fed: &'static [&'static [u8]],
    pub state: State,
    /// What an ask that waits after the turn gets.
    pub outcome: Outcome,
    pub wrote: &'static [&'static [u8]],
}

/// A talk of four rounds, each on a later publication.
#[derive(Clone, Copy)]
pub struct Sequence {
    pub name: &'static str,
    pub first: Round,
    pub second: Round,
    pub third: Round,
    pub fourth: Round,
}

const FIRST: Round = Round {
    caller: Caller::First,
    fed: &[OPENING, HEAD, EMPTY],
    state: State::Document,
    outcome: Outcome::Failed,
    wrote: &[GREETING, CREDIT_5, RESPONSE_HEAD, DATA_M],
};

/// A turn on which nothing is due.
const IDLE: Round = Round {
    caller: Caller::Nobody,
    fed: &[],
    state: State::Document,
    outcome: Outcome::Failed,
    wrote: &[],
};

const ANEW: Round = Round {
    state: State::Renewed,
    ..IDLE
};

/// A call for a token, which is given.
const TOKEN: Round = Round {
    caller: Caller::First,
    fed: &[OPENING, JWT_HEAD, AUDIENCE_X],
    state: State::Document,
    outcome: Outcome::Token,
    wrote: &[GREETING, CREDIT_8, RESPONSE_HEAD, DATA_TOKEN, OK_TRAILERS],
};

/// The next one.
const TOKEN_AGAIN: Round = Round {
    caller: Caller::First,
    fed: &[JWT_HEAD_3, AUDIENCE_X_3],
    state: State::Document,
    outcome: Outcome::Token,
    wrote: &[CREDIT_8, RESPONSE_HEAD_3, DATA_TOKEN_3, OK_TRAILERS_3],
};

/// Entries that come and go, and health that is watched.
pub const PUBLICATIONS: [Sequence; 3] = [
    Sequence {
        name: "entry_removed",
        first: FIRST,
        second: Round {
            state: State::Removed,
            wrote: &[DENIED_TRAILERS],
            ..IDLE
        },
        third: IDLE,
        fourth: ANEW,
    },
    Sequence {
        name: "an entry that is back, and a new SVID",
        first: FIRST,
        second: IDLE,
        third: Round {
            state: State::Renewed,
            wrote: &[DATA_CHANGED],
            ..IDLE
        },
        fourth: ANEW,
    },
    Sequence {
        name: "health_watch",
        first: Round {
            caller: Caller::Second,
            fed: &[OPENING, WATCH_HEAD, WATCH_OF_API],
            wrote: &[GREETING, CREDIT_24, RESPONSE_HEAD, DATA_NOT_SERVING],
            ..IDLE
        },
        second: ANEW,
        third: Round {
            state: State::Entitled,
            wrote: &[DATA_SERVING],
            ..IDLE
        },
        fourth: Round {
            state: State::Entitled,
            ..IDLE
        },
    },
];

/// Windows that hold bytes back.
pub const WINDOWS: [Sequence; 2] = [
    Sequence {
        name: "small_window",
        first: Round {
            caller: Caller::First,
            fed: &[PREFACE, WINDOW_OF_10, HEAD, EMPTY],
            wrote: &[GREETING, CREDIT_5, RESPONSE_HEAD, DATA_10],
            ..IDLE
        },
        second: ANEW,
        third: Round {
            fed: &[WIDER_BY_22],
            state: State::Renewed,
            wrote: &[DATA_22],
            ..IDLE
        },
        fourth: Round {
            fed: &[WIDER_BY_32],
            state: State::Renewed,
            wrote: &[DATA_CHANGED],
            ..IDLE
        },
    },
    Sequence {
        name: "negative_window",
        first: FIRST,
        second: Round {
            fed: &[WINDOW_OF_10],
            state: State::Renewed,
            wrote: &[ACK],
            ..IDLE
        },
        third: Round {
            fed: &[WIDER_BY_22],
            state: State::Renewed,
            ..IDLE
        },
        fourth: Round {
            fed: &[WIDER_BY_1],
            state: State::Renewed,
            wrote: &[DATA_1],
            ..IDLE
        },
    },
];

/// Second calls.
pub const CALLS: [Sequence; 3] = [
    Sequence {
        name: "named_transcript",
        first: FIRST,
        second: Round {
            caller: Caller::Second,
            fed: &[HEAD_3, EMPTY_3],
            wrote: &[CREDIT_5, DENIED_ONLY_3],
            ..IDLE
        },
        third: IDLE,
        fourth: Round {
            state: State::Renewed,
            wrote: &[DATA_CHANGED],
            ..IDLE
        },
    },
    Sequence {
        name: "two calls of one caller, which share each message",
        first: FIRST,
        second: Round {
            caller: Caller::First,
            fed: &[HEAD_3, EMPTY_3],
            wrote: &[CREDIT_5, RESPONSE_HEAD_3, DATA_M_3],
            ..IDLE
        },
        third: IDLE,
        fourth: Round {
            state: State::Renewed,
            wrote: &[DATA_CHANGED, DATA_CHANGED_3],
            ..IDLE
        },
    },
    Sequence {
        name: "unnamed_transcript",
        first: FIRST,
        second: Round {
            fed: &[HEAD_3, EMPTY_3],
            wrote: &[CREDIT_5, UNATTESTED_ONLY_3],
            ..IDLE
        },
        third: IDLE,
        fourth: Round {
            state: State::Renewed,
            wrote: &[DATA_CHANGED],
            ..IDLE
        },
    },
];

/// Calls for tokens.
pub const TOKENS: [Sequence; 2] = [
    Sequence {
        name: "jwt_calls: the signer fails, and then gives a token",
        first: Round {
            outcome: Outcome::Failed,
            wrote: &[GREETING, CREDIT_8, UNSIGNED_ONLY],
            ..TOKEN
        },
        second: TOKEN_AGAIN,
        third: IDLE,
        fourth: ANEW,
    },
    Sequence {
        name: "jwt_kept_token: the token for the next call too",
        first: TOKEN,
        second: TOKEN_AGAIN,
        third: IDLE,
        fourth: ANEW,
    },
];
