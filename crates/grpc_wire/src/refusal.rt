//! Why a call is refused.

ghost use Rattle.std.specs.Prelude.{◌≡◌};
ghost use Rattle.grpc_wire.specs.Refusals.{status_of, text_of, is_http_refusal};

use crate::status;

/// Why a call ends without what it asked for. Which status and text a cause has is this project's choice.
#[derive(Clone, Copy, Debug, PartialEq, Eq)]
pub enum Refusal {
    /// `:method` isn't POST: HTTP 405.
    BadMethod,
    /// `content-type` is missing, twice there, or not of gRPC: HTTP 415.
    BadContent,
    /// No method has this `:path`.
    UnknownPath,
    /// The request is compressed.
    Compressed,
    /// The security header of the Workload API is missing, twice there, or not `true`.
    Insecure,
    /// A message's first byte isn't 0.
    Flag,
    /// The request's message is above 32,768 bytes.
    LongRequest,
    /// The request has no message, or more than one.
    Count,
    /// The request's message isn't a Protocol Buffers message of its kind.
    Undecodable,
    /// A FetchJWTSVID without an audience.
    NoAudience,
    /// A FetchJWTSVID of something that isn't a valid SPIFFE ID.
    BadId,
    /// The caller is entitled to nothing that was asked for.
    NoIdentity,
    /// The answer is above 4,194,304 bytes.
    LongResponse,
    /// A JWT-SVID wasn't signed.
    Unsigned,
    /// The caller wasn't attested.
    Unattested,
    /// A Check of a service that isn't here.
    UnknownService,
}

impl Refusal {
    /// The gRPC status, or for the two refusals of HTTP the HTTP status.
    pub fn status(&self) -> u32
        ensures { result ≡ status_of self.now }
    {
        match self {
            Refusal::BadMethod => status::HTTP_METHOD_NOT_ALLOWED,
            Refusal::BadContent => status::HTTP_UNSUPPORTED_MEDIA_TYPE,
            Refusal::UnknownPath | Refusal::Compressed => status::UNIMPLEMENTED,
            Refusal::Insecure | Refusal::NoAudience | Refusal::BadId => status::INVALID_ARGUMENT,
            Refusal::Flag | Refusal::Count | Refusal::Undecodable => status::INTERNAL,
            Refusal::LongRequest | Refusal::LongResponse => status::RESOURCE_EXHAUSTED,
            Refusal::NoIdentity => status::PERMISSION_DENIED,
            Refusal::Unsigned | Refusal::Unattested => status::UNAVAILABLE,
            Refusal::UnknownService => status::NOT_FOUND,
        }
    }

    /// What `grpc-message` says, before its escapes; nothing for the two refusals of HTTP.
    pub fn text(&self) -> &'static str
        ensures { result.now ≡ text_of self.now }
    {
        match self {
            Refusal::BadMethod | Refusal::BadContent => "",
            Refusal::UnknownPath => "unknown method",
            Refusal::Compressed => "compression is not supported",
            Refusal::Insecure => "security header missing from request",
            Refusal::Flag => "invalid message flag",
            Refusal::LongRequest => "request message too long",
            Refusal::Count => "request must hold one message",
            Refusal::Undecodable => "request message cannot be decoded",
            Refusal::NoAudience => "audience must be specified",
            Refusal::BadId => "spiffe id is not valid",
            Refusal::NoIdentity => "no identity issued",
            Refusal::LongResponse => "response message too long",
            Refusal::Unsigned => "jwt-svid cannot be signed",
            Refusal::Unattested => "caller cannot be attested",
            Refusal::UnknownService => "unknown service",
        }
    }

    /// Whether HTTP itself says it: `:status` alone, and no trailers of gRPC.
    pub fn is_http(&self) -> bool
        ensures { result ≡ is_http_refusal self.now }
    {
        matches!(self, Refusal::BadMethod | Refusal::BadContent)
    }
}
