//! Counters of the calls of a socket.

use crate::atomics::{add, read, zero};
use crate::call_figures::{CallFigures, MethodFigures};
use call_counts::{CallCounts, CallMethod, CallStatus, MethodCounts};
use std::sync::atomic::AtomicU64;

/// The counters of a method.
#[derive(Drop)]
struct MethodCounters {
    begun: AtomicU64,
    messages: AtomicU64,
    ok: AtomicU64,
    cancelled: AtomicU64,
    invalid_argument: AtomicU64,
    not_found: AtomicU64,
    permission_denied: AtomicU64,
    resource_exhausted: AtomicU64,
    unimplemented: AtomicU64,
    internal: AtomicU64,
    unavailable: AtomicU64,
    http: AtomicU64,
}

/// The counters of the calls of a socket, by method.
#[derive(Drop)]
pub(crate) struct CallCounters {
    x509_svid: MethodCounters,
    x509_bundles: MethodCounters,
    jwt_svid: MethodCounters,
    jwt_bundles: MethodCounters,
    check: MethodCounters,
    watch: MethodCounters,
    unread: MethodCounters,
}

/// Adds to a counter, which others write too, and leaves it alone where there is nothing to add.
fn add_some(counter: &AtomicU64, number: u32) {
    if number > 0 {
        add(counter, u64::from(number));
    }
}

impl MethodCounters {
    /// Counters at 0.
    fn start() -> MethodCounters {
        MethodCounters {
            begun: zero(),
            messages: zero(),
            ok: zero(),
            cancelled: zero(),
            invalid_argument: zero(),
            not_found: zero(),
            permission_denied: zero(),
            resource_exhausted: zero(),
            unimplemented: zero(),
            internal: zero(),
            unavailable: zero(),
            http: zero(),
        }
    }

    /// The counter of calls that ended with this status.
    fn ended(&self, status: CallStatus) -> &AtomicU64 {
        match status {
            CallStatus::Ok => &self.ok,
            CallStatus::Cancelled => &self.cancelled,
            CallStatus::InvalidArgument => &self.invalid_argument,
            CallStatus::NotFound => &self.not_found,
            CallStatus::PermissionDenied => &self.permission_denied,
            CallStatus::ResourceExhausted => &self.resource_exhausted,
            CallStatus::Unimplemented => &self.unimplemented,
            CallStatus::Internal => &self.internal,
            CallStatus::Unavailable => &self.unavailable,
            CallStatus::Http => &self.http,
        }
    }

    /// Adds what was counted: calls that began first, so that no more have ended than began.
    fn count(&self, counts: &MethodCounts) {
        add_some(&self.begun, counts.begun);
        add_some(&self.messages, counts.messages);
        for status in CallStatus::all() {
            add_some(self.ended(status), counts.ended(status));
        }
    }

    /// What stands in the counters.
    fn figures(&self) -> MethodFigures {
        MethodFigures {
            messages: read(&self.messages),
            ok: read(&self.ok),
            cancelled: read(&self.cancelled),
            invalid_argument: read(&self.invalid_argument),
            not_found: read(&self.not_found),
            permission_denied: read(&self.permission_denied),
            resource_exhausted: read(&self.resource_exhausted),
            unimplemented: read(&self.unimplemented),
            internal: read(&self.internal),
            unavailable: read(&self.unavailable),
            http: read(&self.http),
        }
    }
}

impl CallCounters {
    /// Counters at 0.
    pub(crate) fn start() -> CallCounters {
        CallCounters {
            x509_svid: MethodCounters::start(),
            x509_bundles: MethodCounters::start(),
            jwt_svid: MethodCounters::start(),
            jwt_bundles: MethodCounters::start(),
            check: MethodCounters::start(),
            watch: MethodCounters::start(),
            unread: MethodCounters::start(),
        }
    }

    /// The counters of a method.
    fn of(&self, method: CallMethod) -> &MethodCounters {
        match method {
            CallMethod::FetchX509Svid => &self.x509_svid,
            CallMethod::FetchX509Bundles => &self.x509_bundles,
            CallMethod::FetchJwtSvid => &self.jwt_svid,
            CallMethod::FetchJwtBundles => &self.jwt_bundles,
            CallMethod::Check => &self.check,
            CallMethod::Watch => &self.watch,
            CallMethod::Unread => &self.unread,
        }
    }

    /// Adds what was counted of a connection.
    pub(crate) fn count(&self, counts: &CallCounts) {
        for method in CallMethod::all() {
            let counts = counts.of(method);
            if counts.is_empty() {
                continue;
            }
            self.of(method).count(counts);
        }
    }

    /// What stands in the counters.
    pub(crate) fn figures(&self) -> CallFigures {
        CallFigures {
            x509_svid: self.x509_svid.figures(),
            x509_bundles: self.x509_bundles.figures(),
            jwt_svid: self.jwt_svid.figures(),
            jwt_bundles: self.jwt_bundles.figures(),
            check: self.check.figures(),
            watch: self.watch.figures(),
            unread: self.unread.figures(),
        }
    }

    /// How many calls began.
    pub(crate) fn begun(&self) -> u64 {
        let mut begun = 0u64;
        for method in CallMethod::all() {
            begun = begun.saturating_add(read(&self.of(method).begun));
        }
        begun
    }
}
