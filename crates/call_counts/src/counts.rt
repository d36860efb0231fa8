//! Counts by method.

use crate::labels::{CallMethod, CallStatus};

/// Counts of one method. At 2^32-1 each stays.
#[derive(Clone, Copy, Debug, Drop, PartialEq, Eq)]
pub struct MethodCounts {
    /// Calls that began.
    pub begun: u32,
    /// Messages that answer them.
    pub messages: u32,
    is_empty: bool,
    ok: u32,
    cancelled: u32,
    invalid_argument: u32,
    not_found: u32,
    permission_denied: u32,
    resource_exhausted: u32,
    unimplemented: u32,
    internal: u32,
    unavailable: u32,
    http: u32,
}

/// Counts of calls.
#[derive(Clone, Copy, Debug, Drop, PartialEq, Eq)]
pub struct CallCounts {
    is_empty: bool,
    x509_svid: MethodCounts,
    x509_bundles: MethodCounts,
    jwt_svid: MethodCounts,
    jwt_bundles: MethodCounts,
    check: MethodCounts,
    watch: MethodCounts,
    unread: MethodCounts,
}

impl MethodCounts {
    /// No calls.
    const fn zero() -> MethodCounts {
        MethodCounts {
            begun: 0,
            messages: 0,
            is_empty: true,
            ok: 0,
            cancelled: 0,
            invalid_argument: 0,
            not_found: 0,
            permission_denied: 0,
            resource_exhausted: 0,
            unimplemented: 0,
            internal: 0,
            unavailable: 0,
            http: 0,
        }
    }

    /// Whether all counts are 0.
    pub fn is_empty(&self) -> bool {
        self.is_empty
    }

    /// How many calls ended with this status.
    pub fn ended(&self, status: CallStatus) -> u32 {
        match status {
            CallStatus::Ok => self.ok,
            CallStatus::Cancelled => self.cancelled,
            CallStatus::InvalidArgument => self.invalid_argument,
            CallStatus::NotFound => self.not_found,
            CallStatus::PermissionDenied => self.permission_denied,
            CallStatus::ResourceExhausted => self.resource_exhausted,
            CallStatus::Unimplemented => self.unimplemented,
            CallStatus::Internal => self.internal,
            CallStatus::Unavailable => self.unavailable,
            CallStatus::Http => self.http,
        }
    }

    /// Counts a call that ended with this status.
    fn count_end(&mut self, status: CallStatus) {
        let counter = match status {
            CallStatus::Ok => &mut self.ok,
            CallStatus::Cancelled => &mut self.cancelled,
            CallStatus::InvalidArgument => &mut self.invalid_argument,
            CallStatus::NotFound => &mut self.not_found,
            CallStatus::PermissionDenied => &mut self.permission_denied,
            CallStatus::ResourceExhausted => &mut self.resource_exhausted,
            CallStatus::Unimplemented => &mut self.unimplemented,
            CallStatus::Internal => &mut self.internal,
            CallStatus::Unavailable => &mut self.unavailable,
            CallStatus::Http => &mut self.http,
        };
        *counter = counter.saturating_add(1);
    }
}

impl CallCounts {
    /// No calls.
    pub const fn zero() -> CallCounts {
        CallCounts {
            is_empty: true,
            x509_svid: MethodCounts::zero(),
            x509_bundles: MethodCounts::zero(),
            jwt_svid: MethodCounts::zero(),
            jwt_bundles: MethodCounts::zero(),
            check: MethodCounts::zero(),
            watch: MethodCounts::zero(),
            unread: MethodCounts::zero(),
        }
    }

    /// Whether all counts are 0.
    pub fn is_empty(&self) -> bool {
        self.is_empty
    }

    /// The counts of a method.
    pub fn of(&self, method: CallMethod) -> &MethodCounts {
        match method {
            CallMethod::FetchX509Svid => &self.x509_svid,
            CallMethod::FetchX509Bundles => &self.x509_bundles,
            CallMethod::FetchJwtSvid => &self.jwt_svid,
            CallMethod::FetchJwtBundles => &self.jwt_bundles,
            CallMethod::Check => &self.check,
            CallMethod::Watch => &self.watch,
            CallMethod::Unread => &self.unread,
        }
    }

    /// The counts of a method, to be changed.
    fn of_mut(&mut self, method: CallMethod) -> &mut MethodCounts {
        self.is_empty = false;
        let counts = match method {
            CallMethod::FetchX509Svid => &mut self.x509_svid,
            CallMethod::FetchX509Bundles => &mut self.x509_bundles,
            CallMethod::FetchJwtSvid => &mut self.jwt_svid,
            CallMethod::FetchJwtBundles => &mut self.jwt_bundles,
            CallMethod::Check => &mut self.check,
            CallMethod::Watch => &mut self.watch,
            CallMethod::Unread => &mut self.unread,
        };
        counts.is_empty = false;
        counts
    }

    /// Counts a call of this method that began.
    pub fn count_begin(&mut self, method: CallMethod) {
        let counts = self.of_mut(method);
        counts.begun = counts.begun.saturating_add(1);
    }

    /// Counts a message that answers a call of this method.
    pub fn count_message(&mut self, method: CallMethod) {
        let counts = self.of_mut(method);
        counts.messages = counts.messages.saturating_add(1);
    }

    /// Counts a call of this method that ended with this status.
    pub fn count_end(&mut self, method: CallMethod, status: CallStatus) {
        self.of_mut(method).count_end(status);
    }
}
