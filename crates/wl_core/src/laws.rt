//! What holds of the transcripts of all lists of events.

ghost use Rattle.wl_core.specs.Traces.{BytesOfTrace, EqualTracesEqualBytes};

/// What was written to the session on a connection is the talk over its trace.
pub fn bytes_of_trace()
    ensures { BytesOfTrace }
{}

/// Sessions with equal traces, of whatever two runs, were written the same bytes.
pub fn isolation_by_agreement()
    ensures { EqualTracesEqualBytes }
{}
