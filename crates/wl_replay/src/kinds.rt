//! The first words of a script's lines.

ghost use Rattle.std.specs.Prelude.{◌≡◌};
ghost use Rattle.wl_replay.specs.Events.{store_kind, session_kind, or_kind, kind_of};

/// What a line of a script says.
#[derive(Clone, Copy)]
pub(crate) enum EventKind {
    Sync,
    /// The world begins with a document, and its store is strict.
    Strict,
    Claim,
    Signed,
    Failed,
    Join,
    Name,
    NameFail,
    Feed,
    Turn,
    Token,
    TokenFail,
    Close,
}

/// What a first word names of the store.
#[tactic(auto, unfolding(crate::specs::Events::store_kind))]
fn store_kind(word: &[u8]) -> Option<EventKind>
    ensures { result ≡ store_kind word.now }
{
    if word == b"sync".as_slice() {
        return Some(EventKind::Sync);
    }
    if word == b"strict".as_slice() {
        return Some(EventKind::Strict);
    }
    if word == b"claim".as_slice() {
        return Some(EventKind::Claim);
    }
    if word == b"signed".as_slice() {
        return Some(EventKind::Signed);
    }
    if word == b"failed".as_slice() {
        return Some(EventKind::Failed);
    }
    None
}

/// What it names of a session.
#[tactic(auto, unfolding(crate::specs::Events::session_kind))]
fn session_kind(word: &[u8]) -> Option<EventKind>
    ensures { result ≡ session_kind word.now }
{
    if word == b"join".as_slice() {
        return Some(EventKind::Join);
    }
    if word == b"name".as_slice() {
        return Some(EventKind::Name);
    }
    if word == b"namefail".as_slice() {
        return Some(EventKind::NameFail);
    }
    if word == b"feed".as_slice() {
        return Some(EventKind::Feed);
    }
    if word == b"turn".as_slice() {
        return Some(EventKind::Turn);
    }
    if word == b"token".as_slice() {
        return Some(EventKind::Token);
    }
    if word == b"tokenfail".as_slice() {
        return Some(EventKind::TokenFail);
    }
    if word == b"close".as_slice() {
        return Some(EventKind::Close);
    }
    None
}

/// What a first word names.
#[tactic(auto, unfolding(crate::specs::Events::kind_of))]
pub(crate) fn kind_of(word: &[u8]) -> Option<EventKind>
    ensures { result ≡ kind_of word.now }
{
    match store_kind(word) {
        Some(kind) => Some(kind),
        None => session_kind(word),
    }
}
