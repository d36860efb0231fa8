//! Figures of the agent, and their page in the text format of Prometheus.
//!
//! [`Counters`] are atomics that threads add to; [`Figures`] are what stood in them at one moment, and [`metrics_text`] writes
//! these. No figure can hold the bytes of a key, a token or a message, and no label has a value that a caller chooses.
#![tactic(auto)]

mod atomics;
mod call_counters;
mod call_figures;
mod call_text;
mod counters;
mod escapes;
mod family;
mod figures;
mod health;
mod labels;
mod laws;
mod lines;
mod sample;
mod shows;
mod socket_path;
mod socket_table;
mod socket_totals;
mod text;

pub use call_figures::{CallFigures, MethodFigures};
pub use counters::Counters;
pub use family::{Family, Kind};
pub use figures::{
    Documents, Figures, Identities, LinkFaults, Seconds, Signings, SocketFigures, Traffic,
};
pub use health::{EntryId, Health, Lacking, live_text, ready_text};
pub use labels::{
    Bound, Direction, DocumentResult, FaultCause, IdentityState, LateCause, LinkCause,
    RefusedCause, SigningKind, SigningResult,
};
pub use laws::label_values_are_one_line;
pub use shows::Shows;
pub use socket_path::SocketPath;
pub use socket_table::{NumberedSocket, SocketTable, Sockets};
pub use text::metrics_text;
