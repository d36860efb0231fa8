//! Why something failed. The causes of connections are those of [`figures`].

use std::io::ErrorKind;
use wl_entry::{JwtUnfit, Unfit};

/// Why nobody listens at a path.
#[derive(Clone, Copy, Debug, Drop, PartialEq, Eq)]
pub enum BindCause {
    /// Somebody else listens there.
    Taken,
    /// What stands there is no socket.
    NotASocket,
    /// A socket stands there to which this user may not connect.
    StaleOfOtherUser,
    /// The operating system refused, for this reason.
    Refused(Reason),
}

/// The operating system's reason, by its kind.
#[derive(Clone, Copy, Debug, Drop, PartialEq, Eq)]
pub enum Reason {
    NotFound,
    PermissionDenied,
    ConnectionRefused,
    AddressInUse,
    WouldBlock,
    TimedOut,
    InvalidInput,
    /// Each other kind.
    Other,
}

/// From where no document came.
#[derive(Clone, Copy, Debug, Drop, PartialEq, Eq)]
pub enum PullCause {
    /// The authority's socket could not be opened, or was cut off.
    Socket,
    /// The file could not be read.
    File,
}

/// Why nothing was signed.
#[derive(Clone, Copy, Debug, Drop, PartialEq, Eq)]
pub enum SignCause {
    /// The signer's socket could not be opened.
    NotReached,
    /// The signer had not answered when the exchange had to end.
    TimedOut,
    /// The signer closed the stream, or what it sent is no answer to the ask.
    NotAnAnswer,
    /// The document has no identity for the entry, and signs no token.
    NotInDocument,
    /// The answer is an identity or a token, which is of no use for this reason.
    Unfit(UnfitCause),
}

/// Why an identity, or a token, is of no use for the ask for which it was signed.
#[derive(Clone, Copy, Debug, Drop, PartialEq, Eq)]
pub enum UnfitCause {
    /// It ends at or before its begin.
    Times,
    /// It has ended.
    Expired,
    /// It has no chain.
    EmptyChain,
    /// It has no key.
    EmptyKey,
    /// Chain and key are too long, or the token is.
    TooLong,
    /// The chain has no leaf that can be read.
    NoLeaf,
    /// The leaf names another SPIFFE ID.
    OtherId,
    /// The leaf has other times than the signer says.
    OtherTimes,
    /// The token has no byte.
    EmptyToken,
    /// A byte of the token may not stand in one.
    TokenByte,
}

/// An error code of HTTP/2 (RFC 9113, section 7).
#[derive(Clone, Copy, Debug, Drop, PartialEq, Eq)]
pub enum ErrorCode {
    NoError,
    ProtocolError,
    InternalError,
    FlowControlError,
    SettingsTimeout,
    StreamClosed,
    FrameSizeError,
    RefusedStream,
    Cancel,
    CompressionError,
    ConnectError,
    EnhanceYourCalm,
    InadequateSecurity,
    Http11Required,
    /// A code that the standard doesn't name.
    Unnamed,
}

impl ErrorCode {
    /// The code of this number.
    pub fn of_number(number: u32) -> ErrorCode {
        match number {
            0 => ErrorCode::NoError,
            1 => ErrorCode::ProtocolError,
            2 => ErrorCode::InternalError,
            3 => ErrorCode::FlowControlError,
            4 => ErrorCode::SettingsTimeout,
            5 => ErrorCode::StreamClosed,
            6 => ErrorCode::FrameSizeError,
            7 => ErrorCode::RefusedStream,
            8 => ErrorCode::Cancel,
            9 => ErrorCode::CompressionError,
            10 => ErrorCode::ConnectError,
            11 => ErrorCode::EnhanceYourCalm,
            12 => ErrorCode::InadequateSecurity,
            13 => ErrorCode::Http11Required,
            _ => ErrorCode::Unnamed,
        }
    }
}

impl UnfitCause {
    /// The cause of this reason against a token.
    pub fn of_token(reason: JwtUnfit) -> UnfitCause {
        match reason {
            JwtUnfit::Times => UnfitCause::Times,
            JwtUnfit::Expired => UnfitCause::Expired,
            JwtUnfit::Empty => UnfitCause::EmptyToken,
            JwtUnfit::TokenByte(_) => UnfitCause::TokenByte,
            JwtUnfit::TooLong(_) => UnfitCause::TooLong,
        }
    }

    /// The cause of this reason against an identity.
    pub fn of_reason(reason: &Unfit) -> UnfitCause {
        match reason {
            Unfit::Times => UnfitCause::Times,
            Unfit::Expired => UnfitCause::Expired,
            Unfit::EmptyChain => UnfitCause::EmptyChain,
            Unfit::EmptyKey => UnfitCause::EmptyKey,
            Unfit::TooLong(_) => UnfitCause::TooLong,
            Unfit::Cert(_) => UnfitCause::NoLeaf,
            Unfit::OtherId { .. } => UnfitCause::OtherId,
            Unfit::OtherTimes { .. } => UnfitCause::OtherTimes,
        }
    }
}

impl Reason {
    /// The reason of this kind.
    pub fn of_kind(kind: ErrorKind) -> Reason {
        match kind {
            ErrorKind::NotFound => Reason::NotFound,
            ErrorKind::PermissionDenied => Reason::PermissionDenied,
            ErrorKind::ConnectionRefused => Reason::ConnectionRefused,
            ErrorKind::AddrInUse => Reason::AddressInUse,
            ErrorKind::WouldBlock => Reason::WouldBlock,
            ErrorKind::TimedOut => Reason::TimedOut,
            ErrorKind::InvalidInput => Reason::InvalidInput,
            _ => Reason::Other,
        }
    }
}
