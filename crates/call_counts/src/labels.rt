//! Methods and statuses, and their names.

ghost use Rattle.std.specs.Prelude.{◌≡◌};
ghost use Rattle.call_counts.specs.Names.{method_name, status_name};

/// What a call is for.
#[derive(Clone, Copy, Debug, Drop, PartialEq, Eq)]
pub enum CallMethod {
    FetchX509Svid,
    FetchX509Bundles,
    FetchJwtSvid,
    FetchJwtBundles,
    Check,
    Watch,
    /// It was refused before its request was read whole.
    Unread,
}

/// How a call ended.
#[derive(Clone, Copy, Debug, Drop, PartialEq, Eq)]
pub enum CallStatus {
    Ok,
    /// Its caller reset it, or its connection ended first.
    Cancelled,
    InvalidArgument,
    NotFound,
    PermissionDenied,
    ResourceExhausted,
    Unimplemented,
    Internal,
    Unavailable,
    /// It was no call of gRPC, and was answered with a status of HTTP.
    Http,
}

impl CallMethod {
    /// Each method.
    pub fn all() -> [CallMethod; 7] {
        [
            CallMethod::FetchX509Svid,
            CallMethod::FetchX509Bundles,
            CallMethod::FetchJwtSvid,
            CallMethod::FetchJwtBundles,
            CallMethod::Check,
            CallMethod::Watch,
            CallMethod::Unread,
        ]
    }

    /// Its name in the service's definition; `unread` where it wasn't read.
    #[tactic(auto, unfolding(crate::specs::Names::method_name))]
    pub fn name(self) -> &'static [u8]
        ensures { result.now ≡ method_name self }
    {
        match self {
            CallMethod::FetchX509Svid => b"FetchX509SVID",
            CallMethod::FetchX509Bundles => b"FetchX509Bundles",
            CallMethod::FetchJwtSvid => b"FetchJWTSVID",
            CallMethod::FetchJwtBundles => b"FetchJWTBundles",
            CallMethod::Check => b"Check",
            CallMethod::Watch => b"Watch",
            CallMethod::Unread => b"unread",
        }
    }
}

impl CallStatus {
    /// Each status.
    pub fn all() -> [CallStatus; 10] {
        [
            CallStatus::Ok,
            CallStatus::Cancelled,
            CallStatus::InvalidArgument,
            CallStatus::NotFound,
            CallStatus::PermissionDenied,
            CallStatus::ResourceExhausted,
            CallStatus::Unimplemented,
            CallStatus::Internal,
            CallStatus::Unavailable,
            CallStatus::Http,
        ]
    }

    /// Its name, as gRPC has it; `HTTP` where it was no call of gRPC.
    #[tactic(auto, unfolding(crate::specs::Names::status_name))]
    pub fn name(self) -> &'static [u8]
        ensures { result.now ≡ status_name self }
    {
        match self {
            CallStatus::Ok => b"OK",
            CallStatus::Cancelled => b"CANCELLED",
            CallStatus::InvalidArgument => b"INVALID_ARGUMENT",
            CallStatus::NotFound => b"NOT_FOUND",
            CallStatus::PermissionDenied => b"PERMISSION_DENIED",
            CallStatus::ResourceExhausted => b"RESOURCE_EXHAUSTED",
            CallStatus::Unimplemented => b"UNIMPLEMENTED",
            CallStatus::Internal => b"INTERNAL",
            CallStatus::Unavailable => b"UNAVAILABLE",
            CallStatus::Http => b"HTTP",
        }
    }
}
