//! The families of figures.

ghost use Rattle.std.specs.Prelude.{◌≡◌};
ghost use Rattle.figures.specs.Families.{name_of, help_of, kind_of, kind_name};

/// A family of figures: one name, one meaning, one kind.
#[derive(Clone, Copy, Debug, Drop, PartialEq, Eq)]
pub enum Family {
    Documents,
    DocumentAge,
    Publication,
    Entries,
    Bundles,
    Identities,
    NextEnd,
    Signings,
    SigningSeconds,
    Connections,
    ConnectionsTotal,
    Streams,
    Calls,
    Messages,
    ConnectionFaults,
    Bytes,
    LinesDropped,
    StartTime,
}

/// What kind of figures a family has.
#[derive(Clone, Copy, Debug, Drop, PartialEq, Eq)]
pub enum Kind {
    /// It never falls while the process runs.
    Counter,
    /// It rises and falls.
    Gauge,
    /// Counts by upper bounds, a sum and a count.
    Histogram,
}

impl Family {
    /// Its name.
    #[tactic(auto, unfolding(crate::specs::Families::name_of))]
    pub fn name(self) -> &'static [u8]
        ensures { result.now ≡ name_of self }
    {
        match self {
            Family::Documents => b"agentd_documents_total",
            Family::DocumentAge => b"agentd_document_age_seconds",
            Family::Publication => b"agentd_publication",
            Family::Entries => b"agentd_entries",
            Family::Bundles => b"agentd_bundles",
            Family::Identities => b"agentd_identities",
            Family::NextEnd => b"agentd_next_end_seconds",
            Family::Signings => b"agentd_signings_total",
            Family::SigningSeconds => b"agentd_signing_seconds",
            Family::Connections => b"agentd_connections",
            Family::ConnectionsTotal => b"agentd_connections_total",
            Family::Streams => b"agentd_streams",
            Family::Calls => b"agentd_calls_total",
            Family::Messages => b"agentd_messages_total",
            Family::ConnectionFaults => b"agentd_connection_faults_total",
            Family::Bytes => b"agentd_bytes_total",
            Family::LinesDropped => b"agentd_log_lines_dropped_total",
            Family::StartTime => b"process_start_time_seconds",
        }
    }

    /// What it counts, in one sentence.
    #[tactic(auto, unfolding(crate::specs::Families::help_of))]
    pub fn help(self) -> &'static [u8]
        ensures { result.now ≡ help_of self }
    {
        match self {
            Family::Documents => b"Pulls of the document, by result.",
            Family::DocumentAge => b"Seconds since a document that was taken came last.",
            Family::Publication => b"Number of the last publication.",
            Family::Entries => b"Entries of the document in use.",
            Family::Bundles => b"Bundles of the document in use.",
            Family::Identities =>
                b"Entries of the document in use, by the state of their identity.",
            Family::NextEnd => b"Seconds until the next identity ends.",
            Family::Signings => b"Asks of the signer, by kind and result.",
            Family::SigningSeconds => b"Seconds that asks of the signer took.",
            Family::Connections => b"Open connections, by socket.",
            Family::ConnectionsTotal => b"Accepted connections, by socket.",
            Family::Streams => b"Calls that have not ended, by socket.",
            Family::Calls => b"Calls that ended, by socket, method and status.",
            Family::Messages => b"Messages that answered calls, by socket and method.",
            Family::ConnectionFaults => b"Connections that failed, by cause.",
            Family::Bytes => b"Bytes of connections, by direction.",
            Family::LinesDropped => b"Lines of the log that could not be written at once.",
            Family::StartTime => b"Start time of the process since the Unix epoch in seconds.",
        }
    }

    /// Its kind.
    #[tactic(auto, unfolding(crate::specs::Families::kind_of))]
    pub fn kind(self) -> Kind
        ensures { result ≡ kind_of self }
    {
        match self {
            Family::Documents
            | Family::Signings
            | Family::ConnectionsTotal
            | Family::Calls
            | Family::Messages
            | Family::ConnectionFaults
            | Family::Bytes
            | Family::LinesDropped => Kind::Counter,
            Family::DocumentAge
            | Family::Publication
            | Family::Entries
            | Family::Bundles
            | Family::Identities
            | Family::NextEnd
            | Family::Connections
            | Family::Streams
            | Family::StartTime => Kind::Gauge,
            Family::SigningSeconds => Kind::Histogram,
        }
    }
}

impl Kind {
    /// Its name in the text format.
    #[tactic(auto, unfolding(crate::specs::Families::kind_name))]
    pub fn name(self) -> &'static [u8]
        ensures { result.now ≡ kind_name self }
    {
        match self {
            Kind::Counter => b"counter",
            Kind::Gauge => b"gauge",
            Kind::Histogram => b"histogram",
        }
    }
}
