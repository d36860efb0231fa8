//! The names of events and causes in a line.

ghost use Rattle.std.specs.Prelude.{◌≡◌};
ghost use Rattle.event_log.specs.Events.{level_of, event_name, bind_name, reason_name, pull_name, sign_name, unfit_name, error_name, member_name};

use crate::causes::{BindCause, ErrorCode, PullCause, Reason, SignCause, UnfitCause};
use crate::event::Event;
use crate::level::Level;
use crate::restart_member::RestartMember;

impl BindCause {
    #[tactic(auto, unfolding(crate::specs::Events::bind_name))]
    pub(crate) fn name(self) -> &'static [u8]
        ensures { result.now ≡ bind_name self }
    {
        match self {
            BindCause::Taken => b"taken",
            BindCause::NotASocket => b"not_a_socket",
            BindCause::StaleOfOtherUser => b"stale_of_other_user",
            BindCause::Refused(_) => b"refused",
        }
    }
}

impl Reason {
    #[tactic(auto, unfolding(crate::specs::Events::reason_name))]
    pub(crate) fn name(self) -> &'static [u8]
        ensures { result.now ≡ reason_name self }
    {
        match self {
            Reason::NotFound => b"not_found",
            Reason::PermissionDenied => b"permission_denied",
            Reason::ConnectionRefused => b"connection_refused",
            Reason::AddressInUse => b"address_in_use",
            Reason::WouldBlock => b"would_block",
            Reason::TimedOut => b"timed_out",
            Reason::InvalidInput => b"invalid_input",
            Reason::Other => b"other",
        }
    }
}

impl PullCause {
    #[tactic(auto, unfolding(crate::specs::Events::pull_name))]
    pub(crate) fn name(self) -> &'static [u8]
        ensures { result.now ≡ pull_name self }
    {
        match self {
            PullCause::Socket => b"socket",
            PullCause::File => b"file",
        }
    }
}

impl SignCause {
    #[tactic(auto, unfolding(crate::specs::Events::sign_name))]
    pub(crate) fn name(self) -> &'static [u8]
        ensures { result.now ≡ sign_name self }
    {
        match self {
            SignCause::NotReached => b"connect",
            SignCause::TimedOut => b"timeout",
            SignCause::NotAnAnswer => b"not_an_answer",
            SignCause::NotInDocument => b"not_in_document",
            SignCause::Unfit(_) => b"unfit",
        }
    }
}

impl UnfitCause {
    #[tactic(auto, unfolding(crate::specs::Events::unfit_name))]
    pub(crate) fn name(self) -> &'static [u8]
        ensures { result.now ≡ unfit_name self }
    {
        match self {
            UnfitCause::Times => b"times",
            UnfitCause::Expired => b"expired",
            UnfitCause::EmptyChain => b"empty_chain",
            UnfitCause::EmptyKey => b"empty_key",
            UnfitCause::TooLong => b"too_long",
            UnfitCause::NoLeaf => b"no_leaf",
            UnfitCause::OtherId => b"other_id",
            UnfitCause::OtherTimes => b"other_times",
            UnfitCause::EmptyToken => b"empty_token",
            UnfitCause::TokenByte => b"token_byte",
        }
    }
}

impl ErrorCode {
    #[tactic(auto, unfolding(crate::specs::Events::error_name))]
    pub(crate) fn name(self) -> &'static [u8]
        ensures { result.now ≡ error_name self }
    {
        match self {
            ErrorCode::NoError => b"NO_ERROR",
            ErrorCode::ProtocolError => b"PROTOCOL_ERROR",
            ErrorCode::InternalError => b"INTERNAL_ERROR",
            ErrorCode::FlowControlError => b"FLOW_CONTROL_ERROR",
            ErrorCode::SettingsTimeout => b"SETTINGS_TIMEOUT",
            ErrorCode::StreamClosed => b"STREAM_CLOSED",
            ErrorCode::FrameSizeError => b"FRAME_SIZE_ERROR",
            ErrorCode::RefusedStream => b"REFUSED_STREAM",
            ErrorCode::Cancel => b"CANCEL",
            ErrorCode::CompressionError => b"COMPRESSION_ERROR",
            ErrorCode::ConnectError => b"CONNECT_ERROR",
            ErrorCode::EnhanceYourCalm => b"ENHANCE_YOUR_CALM",
            ErrorCode::InadequateSecurity => b"INADEQUATE_SECURITY",
            ErrorCode::Http11Required => b"HTTP_1_1_REQUIRED",
            ErrorCode::Unnamed => b"unnamed",
        }
    }
}

impl RestartMember {
    #[tactic(auto, unfolding(crate::specs::Events::member_name))]
    pub(crate) fn name(self) -> &'static [u8]
        ensures { result.now ≡ member_name self }
    {
        match self {
            RestartMember::Signer => b"signer",
            RestartMember::Signers => b"signers",
            RestartMember::Metrics => b"metrics",
            RestartMember::Threads => b"threads",
            RestartMember::StallSeconds => b"stall_seconds",
            RestartMember::OpeningSeconds => b"opening_seconds",
            RestartMember::MemoryMib => b"memory_mib",
        }
    }
}

impl<'a> Event<'a> {
    /// How grave it is.
    #[tactic(auto, unfolding(crate::specs::Events::level_of))]
    pub fn level(&self) -> Level
        ensures { result ≡ level_of self.now }
    {
        match self {
            Event::BindFailed(_, _)
            | Event::ConfigurationUnread
            | Event::ConfigurationRefused(_)
            | Event::FirstDocumentRefused(_)
            | Event::NoFirstDocument
            | Event::NoThread
            | Event::ListenFailed(_)
            | Event::HostFailed
            | Event::OutputFailed
            | Event::OutOfMemory => Level::Error,
            Event::LaterConfigurationRefused(_)
            | Event::RestartWanted(_)
            | Event::DocumentRefused(_)
            | Event::AuthorityFailed(_, _)
            | Event::SigningFailed(_, _)
            | Event::TokenFailed(_, _)
            | Event::IdentityEnded(_)
            | Event::IdentityNotYetValid(_, _)
            | Event::CallerWaits(_, _)
            | Event::ConnectionBroken(_, _)
            | Event::LinkLate(_, _)
            | Event::AttestationFailed(_)
            | Event::ConnectionsOfUidFull(_, _)
            | Event::SocketOpenToAll(_, _)
            | Event::SocketBoundAnew(_) => Level::Warn,
            Event::ConfigurationTaken(_)
            | Event::SocketAdded(_, _)
            | Event::SocketRemoved(_, _)
            | Event::DocumentTaken(_, _)
            | Event::AuthorityBack
            | Event::Signed(_, _)
            | Event::SignerBack
            | Event::Serving(_)
            | Event::Stopping(_) => Level::Info,
            Event::Connected(_)
            | Event::ConnectionFailed(_, _)
            | Event::Closed(_)
            | Event::Call(_) => Level::Debug,
        }
    }

    /// Its name in a line.
    #[tactic(auto, unfolding(crate::specs::Events::event_name))]
    pub(crate) fn name(&self) -> &'static [u8]
        ensures { result.now ≡ event_name self.now }
    {
        match self {
            Event::BindFailed(_, _) => b"bind_failed",
            Event::ConfigurationUnread => b"configuration_unread",
            Event::ConfigurationRefused(_) => b"configuration_refused",
            Event::LaterConfigurationRefused(_) => b"configuration_refused",
            Event::ConfigurationTaken(_) => b"configuration_taken",
            Event::RestartWanted(_) => b"restart_wanted",
            Event::SocketAdded(_, _) => b"socket_added",
            Event::SocketRemoved(_, _) => b"socket_removed",
            Event::SocketOpenToAll(_, _) => b"socket_open_to_all",
            Event::FirstDocumentRefused(_) => b"first_document_refused",
            Event::NoFirstDocument => b"no_first_document",
            Event::NoThread => b"no_thread",
            Event::ListenFailed(_) => b"listen_failed",
            Event::HostFailed => b"host_failed",
            Event::OutputFailed => b"output_failed",
            Event::OutOfMemory => b"out_of_memory",
            Event::DocumentRefused(_) => b"document_refused",
            Event::DocumentTaken(_, _) => b"document_taken",
            Event::AuthorityFailed(_, _) => b"authority_failed",
            Event::AuthorityBack => b"authority_back",
            Event::SigningFailed(_, _) => b"signing_failed",
            Event::TokenFailed(_, _) => b"token_failed",
            Event::IdentityEnded(_) => b"identity_ended",
            Event::IdentityNotYetValid(_, _) => b"identity_not_yet_valid",
            Event::CallerWaits(_, _) => b"caller_waits",
            Event::ConnectionBroken(_, _) => b"connection_broken",
            Event::LinkLate(_, _) => b"link_late",
            Event::ConnectionFailed(_, _) => b"connection_failed",
            Event::AttestationFailed(_) => b"attestation_failed",
            Event::ConnectionsOfUidFull(_, _) => b"connections_of_uid_full",
            Event::SocketBoundAnew(_) => b"socket_bound_anew",
            Event::Signed(_, _) => b"signed",
            Event::SignerBack => b"signer_back",
            Event::Serving(_) => b"serving",
            Event::Stopping(_) => b"stopping",
            Event::Connected(_) => b"connected",
            Event::Closed(_) => b"closed",
            Event::Call(_) => b"call",
        }
    }
}
