//! What can be wrong with a reply.

ghost use Rattle.std.specs.Prelude.{◌≡◌};
ghost use Rattle.wl_signlink.specs.declared.fault.LineFault.TheVariants.{Memory};

/// Why a line gave no value.
#[derive(Clone, Copy, Debug, PartialEq, Eq)]
pub enum LineFault {
    /// It isn't such a reply.
    Wrong,
    /// Memory ran out.
    Memory,
}

impl From<wl_octets::Memory> for LineFault {
    ghost from_gives = { λ _ e. e ≡ Memory };

    fn from(_: wl_octets::Memory) -> LineFault {
        LineFault::Memory
    }
}
