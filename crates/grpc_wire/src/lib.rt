//! gRPC over HTTP/2, as the Workload API uses it: the verdict on a call's head, messages cut out of the bytes of a
//! body, and the header lists of the answers.
//!
//! A head is judged whole. A body may come in any pieces: [`Messages`] cuts it at the lengths that are before the
//! messages, keeps no byte of a message that is whole, and takes no room for a length before its bytes come.
#![tactic(auto)]

mod answers;
mod fault;
mod head;
mod laws;
mod messages;
mod method;
mod prefix;
mod reading;
mod refusal;
pub mod status;

pub use answers::{refusal_fields, response_head, trailers};
pub use fault::MessageFault;
pub use head::{HeadVerdict, judge_head};
pub use laws::{bodies_are_framed, cut_anywhere, prefixes_stay};
pub use messages::{Messages, message_prefix, put_message};
pub use method::Method;
pub use prefix::{PREFIX_LEN, judge_prefix};
pub use refusal::Refusal;
