//! By what the answers of a signer are vouched for.

use wl_entry::Voucher;

/// Vouches for what a line gave that was read as the reply to the ask: `specs/Vouched.antt` says which lines those are.
#[derive(Clone, Copy, Debug, PartialEq, Eq)]
pub struct ReplyVoucher;

impl Voucher for ReplyVoucher {
    ghost use Rattle.wl_signlink.specs.Vouched.{RepliedSigned, RepliedToken};

    ghost signed = { λ ask signed. RepliedSigned ask signed };

    ghost token = { λ ask audience token. RepliedToken ask audience token };
}
