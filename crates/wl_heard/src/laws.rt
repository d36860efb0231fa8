//! What a reader of HTTP/2 finds in the bytes of a talk, and what a client hears in those of a session.

ghost use Rattle.wl_heard.specs.Calls.{CallsAreHeard, ClientsAreAnswered};
ghost use Rattle.wl_heard.specs.Clients.{ClientsHearSessions};
ghost use Rattle.wl_heard.specs.Statuses.{HeadersAreRead, SessionHeadersAreRead, StatusesAreHeard, HttpRefusalsAreHeard};
ghost use Rattle.wl_heard.specs.Written.{TalksAreRead, ControlIsRead, DataIsRead, SessionsAreRead, SessionDataIsRead};

/// A reader of HTTP/2 that awaits no preface finds in the bytes of a talk exactly the frames that were written, in their
/// order: this side's SETTINGS before all else, and of each step the control frames and then its HEADERS and DATA.
pub fn talks_are_read()
    ensures frames { TalksAreRead }
    ensures control { ControlIsRead }
{}

/// What it finds of DATA on a stream is what was written there of responses.
pub fn data_is_read()
    ensures { DataIsRead }
{}

/// The same of the bytes of each session.
pub fn sessions_are_read()
    ensures frames { SessionsAreRead }
    ensures content { SessionDataIsRead }
{}

/// A client finds in a session's bytes the frames that were written, and nothing else, and has no fault of frames or of
/// messages. The messages that it hears are the first of those that were written on its stream, in their order; where it
/// goes on, all that were written in full.
pub fn clients_hear_sessions()
    ensures { ClientsHearSessions }
{}

/// Where the peer makes one call, on stream 1, a client hears all messages that were written there in full, in their order.
/// No frame is out of its order to it, each header block is decoded, and the stream ends with a status: its fault can only
/// be the server's own refusal by HTTP, RST_STREAM or GOAWAY. So it is where a session was fed the bytes of a client.
pub fn calls_are_heard()
    ensures calls { CallsAreHeard }
    ensures clients { ClientsAreAnswered }
{}

/// A reader of HTTP/2 with a decoder of RFC 7541 decodes each header block in the bytes of a talk. On a stream, each header
/// list with END_STREAM is that of an ending that the call there was given, by its verdict, the attestor, its view or its
/// tokens: Trailers, Trailers-Only, or the refusal by HTTP. Each other one is Response-Headers.
pub fn headers_are_read()
    ensures talks { HeadersAreRead }
    ensures sessions { SessionHeadersAreRead }
{}

/// The grpc-status and grpc-message that a client hears are those of an ending that its call was given, and nothing is heard
/// after them. Where the session ended the client's stream, a client that goes on has heard them. Where the peer makes one
/// call, a status of HTTP in place of 200 is that of the refusal that the call was given.
pub fn statuses_are_heard()
    ensures status { StatusesAreHeard }
    ensures http { HttpRefusalsAreHeard }
{}
