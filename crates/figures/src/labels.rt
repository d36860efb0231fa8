//! The values of labels. Each but the path of a socket is one of a few words.

ghost use Rattle.std.specs.Prelude.{◌≡◌};
ghost use Rattle.figures.specs.Labels.{document_result, identity_state, signing_kind, signing_result, bound_name, link_name, late_name, refused_name, fault_name, direction_name};

/// How a pull of the document ended.
#[derive(Clone, Copy, Debug, Drop, PartialEq, Eq)]
pub enum DocumentResult {
    Taken,
    Refused,
    Failed,
}

/// What a signer was asked for.
#[derive(Clone, Copy, Debug, Drop, PartialEq, Eq)]
pub enum SigningKind {
    X509,
    Jwt,
}

/// How an ask of a signer ended.
#[derive(Clone, Copy, Debug, Drop, PartialEq, Eq)]
pub enum SigningResult {
    Signed,
    Failed,
}

/// How an entry does for an identity.
#[derive(Clone, Copy, Debug, Drop, PartialEq, Eq)]
pub enum IdentityState {
    /// A signer gave one, which hasn't ended and is not to be renewed yet.
    Kept,
    /// It has one, which is to be renewed, and no signer is asked for it.
    Due,
    /// A signer is asked for it now.
    InFlight,
    /// It has none, and no signer is asked for it.
    Missing,
}

/// Why a connection failed.
#[derive(Clone, Copy, Debug, Drop, PartialEq, Eq)]
pub enum LinkCause {
    /// A receive failed: its peer went away over bytes that it had not read, as one does that wanted one message.
    ReceiveFailed,
    /// A sending failed: its peer went away, or did not read in time while the agent ended.
    SendFailed,
}

/// Why a connection was given up for its time.
#[derive(Clone, Copy, Debug, Drop, PartialEq, Eq)]
pub enum LateCause {
    /// Bytes waited for it, and it took none of them for long.
    Stalled,
    /// It made no call for long.
    Silent,
}

/// Why a caller was refused when it connected.
#[derive(Clone, Copy, Debug, Drop, PartialEq, Eq)]
pub enum RefusedCause {
    /// Nobody can say who it is.
    Unattested,
    /// As many connections of its user are open as may be.
    UidFull,
}

/// What happened to a connection.
#[derive(Clone, Copy, Debug, Drop, PartialEq, Eq)]
pub enum FaultCause {
    /// Its bytes could not be received or sent.
    Failed(LinkCause),
    /// The peer broke a rule of HTTP/2.
    Protocol,
    /// It was given up for its time.
    Late(LateCause),
    /// It was refused when it came.
    Refused(RefusedCause),
}

/// Where bytes of connections go.
#[derive(Clone, Copy, Debug, Drop, PartialEq, Eq)]
pub enum Direction {
    /// From callers.
    Received,
    /// To callers.
    Sent,
}

/// An upper bound of the seconds that an ask of a signer took.
#[derive(Clone, Copy, Debug, Drop, PartialEq, Eq)]
pub enum Bound {
    TenMilliseconds,
    HundredMilliseconds,
    OneSecond,
    FiveSeconds,
    TenSeconds,
    NoBound,
}

impl LinkCause {
    /// Its name in the page, and in a line of the log.
    #[tactic(auto, unfolding(crate::specs::Labels::link_name))]
    pub fn name(self) -> &'static [u8]
        ensures { result.now ≡ link_name self }
    {
        match self {
            LinkCause::ReceiveFailed => b"receive_failed",
            LinkCause::SendFailed => b"send_failed",
        }
    }
}

impl LateCause {
    /// Its name in the page, and in a line of the log.
    #[tactic(auto, unfolding(crate::specs::Labels::late_name))]
    pub fn name(self) -> &'static [u8]
        ensures { result.now ≡ late_name self }
    {
        match self {
            LateCause::Stalled => b"stalled",
            LateCause::Silent => b"silent",
        }
    }
}

impl RefusedCause {
    /// Its name in the page.
    #[tactic(auto, unfolding(crate::specs::Labels::refused_name))]
    pub fn name(self) -> &'static [u8]
        ensures { result.now ≡ refused_name self }
    {
        match self {
            RefusedCause::Unattested => b"unattested",
            RefusedCause::UidFull => b"uid_full",
        }
    }
}

impl FaultCause {
    /// Its name in the page.
    #[tactic(auto, unfolding(crate::specs::Labels::fault_name))]
    pub fn name(self) -> &'static [u8]
        ensures { result.now ≡ fault_name self }
    {
        match self {
            FaultCause::Failed(cause) => cause.name(),
            FaultCause::Protocol => b"protocol",
            FaultCause::Late(cause) => cause.name(),
            FaultCause::Refused(cause) => cause.name(),
        }
    }
}

impl Direction {
    /// Its name in the page.
    #[tactic(auto, unfolding(crate::specs::Labels::direction_name))]
    pub fn name(self) -> &'static [u8]
        ensures { result.now ≡ direction_name self }
    {
        match self {
            Direction::Received => b"received",
            Direction::Sent => b"sent",
        }
    }
}

impl DocumentResult {
    /// Its name in the page.
    #[tactic(auto, unfolding(crate::specs::Labels::document_result))]
    pub fn name(self) -> &'static [u8]
        ensures { result.now ≡ document_result self }
    {
        match self {
            DocumentResult::Taken => b"taken",
            DocumentResult::Refused => b"refused",
            DocumentResult::Failed => b"failed",
        }
    }
}

impl SigningKind {
    /// Its name in the page.
    #[tactic(auto, unfolding(crate::specs::Labels::signing_kind))]
    pub fn name(self) -> &'static [u8]
        ensures { result.now ≡ signing_kind self }
    {
        match self {
            SigningKind::X509 => b"x509",
            SigningKind::Jwt => b"jwt",
        }
    }
}

impl SigningResult {
    /// Its name in the page.
    #[tactic(auto, unfolding(crate::specs::Labels::signing_result))]
    pub fn name(self) -> &'static [u8]
        ensures { result.now ≡ signing_result self }
    {
        match self {
            SigningResult::Signed => b"signed",
            SigningResult::Failed => b"failed",
        }
    }
}

impl IdentityState {
    /// Its name in the page.
    #[tactic(auto, unfolding(crate::specs::Labels::identity_state))]
    pub fn name(self) -> &'static [u8]
        ensures { result.now ≡ identity_state self }
    {
        match self {
            IdentityState::Kept => b"kept",
            IdentityState::Due => b"due",
            IdentityState::InFlight => b"in_flight",
            IdentityState::Missing => b"missing",
        }
    }
}

impl Bound {
    /// Its seconds in the page.
    #[tactic(auto, unfolding(crate::specs::Labels::bound_name))]
    pub fn name(self) -> &'static [u8]
        ensures { result.now ≡ bound_name self }
    {
        match self {
            Bound::TenMilliseconds => b"0.01",
            Bound::HundredMilliseconds => b"0.1",
            Bound::OneSecond => b"1",
            Bound::FiveSeconds => b"5",
            Bound::TenSeconds => b"10",
            Bound::NoBound => b"+Inf",
        }
    }
}
