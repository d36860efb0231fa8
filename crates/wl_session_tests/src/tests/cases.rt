//! Tables of talks of one turn: what a client sends, and what it is written.

use super::callers::Caller;
use super::frames::*;

/// A talk of one turn, on the publication of the worked document.
#[derive(Clone, Copy)]
pub struct Case {
    pub name: &'static str,
    pub caller: Caller,
    pub fed: &'static [&'static [u8]],
    /// What is written before the turn.
    pub wrote: &'static [&'static [u8]],
    /// What the turn writes.
    pub answered: &'static [&'static [u8]],
}

/// Heads that are refused.
pub const HEADS: [Case; 6] = [
    Case {
        name: "missing_security_header",
        caller: Caller::First,
        fed: &[OPENING, INSECURE_HEAD],
        wrote: &[GREETING, INSECURE_ONLY],
        answered: &[],
    },
    Case {
        name: "security header twice",
        caller: Caller::First,
        fed: &[OPENING, TWICE_SECURE_HEAD],
        wrote: &[GREETING, INSECURE_ONLY],
        answered: &[],
    },
    Case {
        name: "method GET",
        caller: Caller::First,
        fed: &[OPENING, GET_HEAD],
        wrote: &[GREETING, METHOD_ONLY],
        answered: &[],
    },
    Case {
        name: "content-type text/plain",
        caller: Caller::First,
        fed: &[OPENING, TEXT_HEAD],
        wrote: &[GREETING, CONTENT_ONLY],
        answered: &[],
    },
    Case {
        name: "grpc-encoding gzip",
        caller: Caller::First,
        fed: &[OPENING, GZIP_HEAD],
        wrote: &[GREETING, COMPRESSED_ONLY],
        answered: &[],
    },
    Case {
        name: "ValidateJWTSVID",
        caller: Caller::First,
        fed: &[OPENING, VALIDATE_HEAD],
        wrote: &[GREETING, PATH_ONLY],
        answered: &[],
    },
];

/// Requests that are refused before their turn.
pub const REQUESTS: [Case; 8] = [
    Case {
        name: "flag 1",
        caller: Caller::First,
        fed: &[OPENING, HEAD, FLAGGED],
        wrote: &[GREETING, CREDIT_5, FLAG_ONLY],
        answered: &[],
    },
    Case {
        name: "a message of 32,769 bytes",
        caller: Caller::First,
        fed: &[OPENING, HEAD, LONG_PREFIX],
        wrote: &[GREETING, CREDIT_5, LONG_ONLY],
        answered: &[],
    },
    Case {
        name: "a request without a message",
        caller: Caller::First,
        fed: &[OPENING, LONE_HEAD],
        wrote: &[GREETING, COUNT_ONLY],
        answered: &[],
    },
    Case {
        name: "two messages",
        caller: Caller::First,
        fed: &[OPENING, HEAD, TWO_EMPTY],
        wrote: &[GREETING, CREDIT_10, COUNT_ONLY],
        answered: &[],
    },
    Case {
        name: "a message that ends within a field",
        caller: Caller::First,
        fed: &[OPENING, HEAD, TORN],
        wrote: &[GREETING, CREDIT_6, UNDECODABLE_ONLY],
        answered: &[],
    },
    Case {
        name: "FetchJWTSVID without an audience",
        caller: Caller::First,
        fed: &[OPENING, JWT_HEAD, EMPTY],
        wrote: &[GREETING, CREDIT_5, NO_AUDIENCE_ONLY],
        answered: &[],
    },
    Case {
        name: "FetchJWTSVID of an id that is none",
        caller: Caller::First,
        fed: &[OPENING, JWT_HEAD, AUDIENCE_X_ID_Y],
        wrote: &[GREETING, CREDIT_11, BAD_ID_ONLY],
        answered: &[],
    },
    Case {
        name: "a caller that cannot be attested",
        caller: Caller::Nobody,
        fed: &[OPENING, HEAD, EMPTY],
        wrote: &[GREETING, CREDIT_5, UNATTESTED_ONLY],
        answered: &[],
    },
];

/// The worked call and its response.
pub const FIRST_RESPONSE: Case = Case {
    name: "first_response",
    caller: Caller::First,
    fed: &[OPENING, HEAD, EMPTY],
    wrote: &[GREETING, CREDIT_5],
    answered: &[RESPONSE_HEAD, DATA_M],
};

/// A call for a token, which waits for it.
pub const ASKED: Case = Case {
    name: "a token is asked for",
    caller: Caller::First,
    fed: &[OPENING, JWT_HEAD, AUDIENCE_X],
    wrote: &[GREETING, CREDIT_8],
    answered: &[],
};

/// Calls that their turn answers, and what is none.
pub const ANSWERS: [Case; 10] = [
    Case {
        name: "denied_call",
        caller: Caller::Second,
        fed: &[OPENING, HEAD, EMPTY],
        wrote: &[GREETING, CREDIT_5],
        answered: &[DENIED_ONLY],
    },
    FIRST_RESPONSE,
    Case {
        name: "small_window",
        caller: Caller::First,
        fed: &[PREFACE, WINDOW_OF_10, HEAD, EMPTY],
        wrote: &[GREETING, CREDIT_5],
        answered: &[RESPONSE_HEAD, DATA_10],
    },
    Case {
        name: "FetchJWTSVID of an id that the caller has not",
        caller: Caller::First,
        fed: &[OPENING, JWT_HEAD, AUDIENCE_X_ID_Z],
        wrote: &[GREETING, CREDIT_24],
        answered: &[DENIED_ONLY],
    },
    Case {
        name: "FetchJWTSVID of a caller without entries",
        caller: Caller::Second,
        fed: &[OPENING, JWT_HEAD, AUDIENCE_X],
        wrote: &[GREETING, CREDIT_8],
        answered: &[DENIED_ONLY],
    },
    Case {
        name: "FetchX509Bundles",
        caller: Caller::First,
        fed: &[OPENING, BUNDLES_HEAD, EMPTY],
        wrote: &[GREETING, CREDIT_5],
        answered: &[RESPONSE_HEAD, DATA_BUNDLES],
    },
    Case {
        name: "FetchX509Bundles of a caller without entries",
        caller: Caller::Second,
        fed: &[OPENING, BUNDLES_HEAD, EMPTY],
        wrote: &[GREETING, CREDIT_5],
        answered: &[DENIED_ONLY],
    },
    Case {
        name: "FetchJWTBundles where there are none",
        caller: Caller::First,
        fed: &[OPENING, JWT_BUNDLES_HEAD, EMPTY],
        wrote: &[GREETING, CREDIT_5],
        answered: &[RESPONSE_HEAD, DATA_NOTHING],
    },
    Case {
        name: "PING",
        caller: Caller::First,
        fed: &[OPENING, PING],
        wrote: &[GREETING, PONG],
        answered: &[],
    },
    Case {
        name: "a call that is cancelled before the turn",
        caller: Caller::First,
        fed: &[OPENING, HEAD, EMPTY, CANCEL],
        wrote: &[GREETING, CREDIT_5],
        answered: &[],
    },
];

/// Health calls.
pub const HEALTH: [Case; 5] = [
    Case {
        name: "health_check",
        caller: Caller::First,
        fed: &[OPENING, CHECK_HEAD, EMPTY],
        wrote: &[GREETING, CREDIT_5],
        answered: &[RESPONSE_HEAD, DATA_SERVING, OK_TRAILERS],
    },
    Case {
        name: "health_check of another service",
        caller: Caller::First,
        fed: &[OPENING, CHECK_HEAD, CHECK_OF_X],
        wrote: &[GREETING, CREDIT_8],
        answered: &[UNKNOWN_ONLY],
    },
    Case {
        name: "a Check of the API by a caller without entries",
        caller: Caller::Second,
        fed: &[OPENING, CHECK_HEAD, WATCH_OF_API],
        wrote: &[GREETING, CREDIT_24],
        answered: &[RESPONSE_HEAD, DATA_NOT_SERVING, OK_TRAILERS],
    },
    Case {
        name: "a Watch of every service",
        caller: Caller::Second,
        fed: &[OPENING, WATCH_HEAD, EMPTY],
        wrote: &[GREETING, CREDIT_5],
        answered: &[RESPONSE_HEAD, DATA_SERVING],
    },
    Case {
        name: "a Watch of another service",
        caller: Caller::First,
        fed: &[OPENING, WATCH_HEAD, CHECK_OF_X],
        wrote: &[GREETING, CREDIT_8],
        answered: &[RESPONSE_HEAD, DATA_UNKNOWN],
    },
];
