//! The worked transcripts: what events give over a store, line by line.

use super::documents::{
    AFTER_LEAF, AHEAD, DOC, FIRST, FOREIGN, HINTED, NO_SELECTOR, OTHER_E2, OTHER_ID, RENEWED,
    SECOND, SHORTER, THREE, WITH_LEAF, WITHOUT_E2,
};
use super::events::Event;

/// What events give over a store that begins with a document.
#[derive(Clone, Copy)]
pub struct Transcript {
    pub name: &'static str,
    pub is_strict: bool,
    pub document: &'static [u8],
    pub events: &'static [Event],
    pub lines: &'static str,
}

pub const DOCUMENTS: [Transcript; 3] = [
    Transcript {
        name: "manager_sync",
        is_strict: false,
        document: DOC,
        events: &[Event::Sync(DOC), Event::Sync(OTHER_ID), Event::Answer],
        lines: "published 0, published 1, wait",
    },
    Transcript {
        name: "manager_state",
        is_strict: false,
        document: DOC,
        events: &[
            Event::SyncState(DOC),
            Event::SyncState(FOREIGN),
            Event::SyncState(OTHER_ID),
            Event::Sync(OTHER_ID),
            Event::Answer,
        ],
        lines: "published 0, \
                fault ForeignDomain(Place { part: 0, index: 0, field: 2, item: 0 }), \
                published 1, wait",
    },
    Transcript {
        name: "faults_change_nothing",
        is_strict: false,
        document: DOC,
        events: &[
            Event::Claim(100),
            Event::Signed(1, FIRST, 100),
            Event::Sync(NO_SELECTOR),
            Event::Sync(FOREIGN),
            Event::Answer,
            Event::Sync(OTHER_ID),
        ],
        lines: "published 0, ticket 1 e1, kept, published 1, \
                fault NoSelectors(Place { part: 2, index: 0, field: 3, item: 0 }), \
                fault ForeignDomain(Place { part: 0, index: 0, field: 2, item: 0 }), \
                message, published 2",
    },
];

pub const TICKETS: [Transcript; 8] = [
    Transcript {
        name: "manager_signing",
        is_strict: false,
        document: DOC,
        events: &[
            Event::Answer,
            Event::Claim(100),
            Event::Signed(1, FIRST, 100),
            Event::Answer,
        ],
        lines: "published 0, wait, ticket 1 e1, kept, published 1, message",
    },
    Transcript {
        name: "changed_ask",
        is_strict: false,
        document: DOC,
        events: &[
            Event::Claim(100),
            Event::Sync(OTHER_ID),
            Event::Signed(1, FIRST, 100),
            Event::Claim(100),
            Event::Signed(1, FIRST, 100),
        ],
        lines: "published 0, ticket 1 e1, published 1, unknown-ask, ticket 2 e1, spent",
    },
    Transcript {
        name: "stale_ticket",
        is_strict: false,
        document: DOC,
        events: &[
            Event::Claim(100),
            Event::Failed(1),
            Event::Claim(100),
            Event::Signed(1, FIRST, 100),
            Event::Signed(2, FIRST, 100),
        ],
        lines: "published 0, ticket 1 e1, failed, ticket 2 e1, spent, kept, published 1",
    },
    Transcript {
        name: "rotation_transcript",
        is_strict: false,
        document: DOC,
        events: &[
            Event::Claim(100),
            Event::Signed(1, FIRST, 100),
            Event::Claim(149),
            Event::Claim(150),
            Event::Signed(2, SECOND, 150),
            Event::Claim(150),
            Event::Failed(3),
            Event::Failed(3),
            Event::Claim(200),
        ],
        lines: "published 0, ticket 1 e1, kept, published 1, ticket 2 e1, older 200, \
                ticket 3 e1, failed, spent, published 2, ticket 4 e1",
    },
    Transcript {
        name: "due_and_sweep",
        is_strict: false,
        document: DOC,
        events: &[
            Event::Claim(100),
            Event::Signed(1, FIRST, 100),
            Event::Claim(149),
            Event::Claim(150),
            Event::Claim(199),
            Event::Answer,
            Event::Claim(200),
            Event::Answer,
        ],
        lines: "published 0, ticket 1 e1, kept, published 1, ticket 2 e1, message, \
                published 2, wait",
    },
    Transcript {
        name: "hint_transcript",
        is_strict: false,
        document: DOC,
        events: &[
            Event::Claim(100),
            Event::Signed(1, FIRST, 100),
            Event::Sync(HINTED),
            Event::Claim(100),
            Event::Answer,
        ],
        lines: "published 0, ticket 1 e1, kept, published 1, published 2, hinted message",
    },
    Transcript {
        name: "three_entries",
        is_strict: false,
        document: THREE,
        events: &[
            Event::Claim(100),
            Event::Signed(2, FIRST, 100),
            Event::Sync(WITHOUT_E2),
            Event::Sync(OTHER_E2),
            Event::Signed(2, FIRST, 100),
            Event::Signed(3, FIRST, 100),
            Event::Claim(100),
        ],
        lines: "published 0, ticket 1 e1, ticket 2 e2, ticket 3 e3, kept, published 1, \
                published 2, published 3, spent, kept, published 4, ticket 4 e2",
    },
    Transcript {
        name: "ticket_of_another_ask",
        is_strict: false,
        document: THREE,
        events: &[
            Event::Claim(100),
            Event::SignedAs(1, 2, FIRST, 100),
            Event::Signed(1, FIRST, 100),
            Event::Claim(100),
        ],
        lines: "published 0, ticket 1 e1, ticket 2 e2, ticket 3 e3, spent, kept, published 1",
    },
];

pub const RENEWALS: [Transcript; 3] = [
    Transcript {
        name: "renewed_root",
        is_strict: false,
        document: DOC,
        events: &[
            Event::Claim(100),
            Event::Signed(1, FIRST, 100),
            Event::Sync(RENEWED),
            Event::Claim(120),
            Event::Answer,
            Event::Signed(2, SHORTER, 120),
            Event::Answer,
            Event::Claim(154),
            Event::Claim(155),
        ],
        lines: "published 0, ticket 1 e1, kept, published 1, ticket 2 e1, message, kept, \
                published 2, message, ticket 3 e1",
    },
    Transcript {
        name: "renewed_root, the signer answers the same",
        is_strict: false,
        document: DOC,
        events: &[
            Event::Claim(100),
            Event::Signed(1, FIRST, 100),
            Event::Sync(RENEWED),
            Event::Claim(120),
            Event::Signed(2, FIRST, 120),
            Event::Claim(120),
            Event::Sync(DOC),
            Event::Signed(3, FIRST, 120),
        ],
        lines: "published 0, ticket 1 e1, kept, published 1, ticket 2 e1, kept, ticket 3 e1, \
                older 200",
    },
    Transcript {
        name: "clock_went_back",
        is_strict: false,
        document: DOC,
        events: &[
            Event::Claim(7300),
            Event::Signed(1, AHEAD, 7300),
            Event::Claim(100),
            Event::Answer,
            Event::Signed(2, FIRST, 100),
            Event::Answer,
            Event::Claim(149),
            Event::Claim(150),
        ],
        lines: "published 0, ticket 1 e1, kept, published 1, ticket 2 e1, message, kept, \
                published 2, message, ticket 3 e1",
    },
];

pub const STRICT: [Transcript; 4] = [
    Transcript {
        name: "strict_transcript",
        is_strict: true,
        document: DOC,
        events: &[Event::Claim(100), Event::Signed(1, WITH_LEAF, 100)],
        lines: "published 0, ticket 1 e1, kept, published 1",
    },
    Transcript {
        name: "strict_transcript, other times",
        is_strict: true,
        document: DOC,
        events: &[Event::Claim(100), Event::Signed(1, AFTER_LEAF, 100)],
        lines: "published 0, ticket 1 e1, unfit 8 100 200",
    },
    Transcript {
        name: "strict_transcript, no certificate",
        is_strict: true,
        document: DOC,
        events: &[Event::Claim(100), Event::Signed(1, FIRST, 100)],
        lines: "published 0, ticket 1 e1, unfit 6 Tag(0)",
    },
    Transcript {
        name: "strict_transcript, other id",
        is_strict: true,
        document: OTHER_ID,
        events: &[Event::Claim(100), Event::Signed(1, WITH_LEAF, 100)],
        lines: "published 0, ticket 1 e1, unfit 7 spiffe://a.b/v spiffe://a.b/w",
    },
];
