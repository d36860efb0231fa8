//! A connection table whose calls are counted.

use call_counts::{CallMethod, CallStatus, CallTally};
use grpc_wire::{Method, Refusal, status};
use h2_conn::Conn;
use std::marker::Model;

/// A connection table, and what becomes of its calls. A contract sees the table alone.
#[derive(Drop)]
pub struct CountedConn {
    pub inner: Conn,
    pub calls: CallTally,
}

impl Model for CountedConn {
    ghost use Rattle.h2_conn.specs.declared.phase.Phase.{Phase};

    ghost Value = { Phase };

    ghost view = { λ c. c.inner };
}

/// The method of a call, as it is counted.
pub fn call_method(method: Method) -> CallMethod {
    match method {
        Method::X509Svid => CallMethod::FetchX509Svid,
        Method::X509Bundles => CallMethod::FetchX509Bundles,
        Method::JwtBundles => CallMethod::FetchJwtBundles,
        Method::JwtSvid => CallMethod::FetchJwtSvid,
        Method::HealthCheck => CallMethod::Check,
        Method::HealthWatch => CallMethod::Watch,
    }
}

/// The status of a refusal, as it is counted.
pub fn refused_status(refusal: Refusal) -> CallStatus {
    match refusal.status() {
        status::INVALID_ARGUMENT => CallStatus::InvalidArgument,
        status::NOT_FOUND => CallStatus::NotFound,
        status::PERMISSION_DENIED => CallStatus::PermissionDenied,
        status::RESOURCE_EXHAUSTED => CallStatus::ResourceExhausted,
        status::UNIMPLEMENTED => CallStatus::Unimplemented,
        status::INTERNAL => CallStatus::Internal,
        status::UNAVAILABLE => CallStatus::Unavailable,
        // the others are statuses of HTTP
        _ => CallStatus::Http,
    }
}
