//! A signer behind a Unix socket: each ask is one line of JSON, and one line answers it.
//!
//! [`put_x509`] and [`put_jwt`] write the lines, [`read_signed`] and [`read_token`] read what answers them. A
//! [`SignLink`] sends and reads over a stream that it opens when it needs one and drops after each fault.
#![tactic(auto)]

mod asks;
mod exchanges;
mod fault;
mod limits;
mod link;
mod replies;
mod requests;
mod texts;
mod vouching;

pub use asks::{Answer, ask_jwt, ask_x509};
pub use exchanges::{Reply, exchange, read_line};
pub use fault::LineFault;
pub use limits::{EXCHANGE_SECONDS, REPLY_LIMIT};
pub use link::{AskFault, SignLink};
pub use replies::{read_signed, read_token};
pub use requests::{put_jwt, put_x509};
pub use texts::{are_texts, is_text_ask};
pub use vouching::ReplyVoucher;
