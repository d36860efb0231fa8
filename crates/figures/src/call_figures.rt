//! What became of the calls of a socket.

ghost use Rattle.std.specs.Prelude.{◌≡◌};
ghost use Rattle.figures.specs.Calls.{ended, figures_of};

use call_counts::{CallMethod, CallStatus};

/// The calls of a method: how many messages answered them, and how many ended with each status.
#[derive(Clone, Copy, Debug, Drop, PartialEq, Eq)]
pub struct MethodFigures {
    pub messages: u64,
    pub ok: u64,
    pub cancelled: u64,
    pub invalid_argument: u64,
    pub not_found: u64,
    pub permission_denied: u64,
    pub resource_exhausted: u64,
    pub unimplemented: u64,
    pub internal: u64,
    pub unavailable: u64,
    pub http: u64,
}

/// The calls of a socket, by method.
#[derive(Clone, Copy, Debug, Drop, PartialEq, Eq)]
pub struct CallFigures {
    pub x509_svid: MethodFigures,
    pub x509_bundles: MethodFigures,
    pub jwt_svid: MethodFigures,
    pub jwt_bundles: MethodFigures,
    pub check: MethodFigures,
    pub watch: MethodFigures,
    /// Calls that were refused before their request was read whole.
    pub unread: MethodFigures,
}

impl MethodFigures {
    /// How many calls ended with this status.
    #[tactic(auto, unfolding(crate::specs::Calls::ended))]
    pub fn ended(&self, status: CallStatus) -> u64
        ensures { result ≡ ended self.now status }
    {
        match status {
            CallStatus::Ok => self.ok,
            CallStatus::Cancelled => self.cancelled,
            CallStatus::InvalidArgument => self.invalid_argument,
            CallStatus::NotFound => self.not_found,
            CallStatus::PermissionDenied => self.permission_denied,
            CallStatus::ResourceExhausted => self.resource_exhausted,
            CallStatus::Unimplemented => self.unimplemented,
            CallStatus::Internal => self.internal,
            CallStatus::Unavailable => self.unavailable,
            CallStatus::Http => self.http,
        }
    }

    /// Adds those of another socket.
    fn add(&mut self, other: &MethodFigures) {
        self.messages = self.messages.saturating_add(other.messages);
        self.ok = self.ok.saturating_add(other.ok);
        self.cancelled = self.cancelled.saturating_add(other.cancelled);
        self.invalid_argument = self.invalid_argument.saturating_add(other.invalid_argument);
        self.not_found = self.not_found.saturating_add(other.not_found);
        self.permission_denied = self
            .permission_denied
            .saturating_add(other.permission_denied);
        self.resource_exhausted = self
            .resource_exhausted
            .saturating_add(other.resource_exhausted);
        self.unimplemented = self.unimplemented.saturating_add(other.unimplemented);
        self.internal = self.internal.saturating_add(other.internal);
        self.unavailable = self.unavailable.saturating_add(other.unavailable);
        self.http = self.http.saturating_add(other.http);
    }

    /// How many calls ended.
    fn all_ended(&self) -> u64 {
        let mut count = 0u64;
        for status in CallStatus::all() {
            count = count.saturating_add(self.ended(status));
        }
        count
    }
}

impl CallFigures {
    /// The figures of a method.
    #[tactic(auto, unfolding(crate::specs::Calls::figures_of))]
    pub fn of(&self, method: CallMethod) -> &MethodFigures
        ensures { result.now ≡ figures_of self.now method }
    {
        match method {
            CallMethod::FetchX509Svid => &self.x509_svid,
            CallMethod::FetchX509Bundles => &self.x509_bundles,
            CallMethod::FetchJwtSvid => &self.jwt_svid,
            CallMethod::FetchJwtBundles => &self.jwt_bundles,
            CallMethod::Check => &self.check,
            CallMethod::Watch => &self.watch,
            CallMethod::Unread => &self.unread,
        }
    }

    /// Adds those of another socket.
    pub(crate) fn add(&mut self, other: &CallFigures) {
        self.x509_svid.add(&other.x509_svid);
        self.x509_bundles.add(&other.x509_bundles);
        self.jwt_svid.add(&other.jwt_svid);
        self.jwt_bundles.add(&other.jwt_bundles);
        self.check.add(&other.check);
        self.watch.add(&other.watch);
        self.unread.add(&other.unread);
    }

    /// How many calls ended.
    pub(crate) fn all_ended(&self) -> u64 {
        let mut count = 0u64;
        for method in CallMethod::all() {
            count = count.saturating_add(self.of(method).all_ended());
        }
        count
    }
}
