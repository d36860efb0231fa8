//! What holds of the definitions alone.

ghost use Rattle.std.specs.Prelude.{◌≡◌, ◌⊎◌, ◌<◌, ◌^◌, ◌++◌, ℕ, List, length, Ok, Err, None};
ghost use Rattle.list_laws.specs.Lists.{AreBytes};
ghost use Rattle.grpc_wire.specs.declared.prefix.TheConstants.{PREFIX_LEN};
ghost use Rattle.grpc_wire.specs.declared.fault.MessageFault.TheVariants as faults;
ghost use Rattle.grpc_wire.specs.Messages.{End, Reading, prefix_of, messages_of, reading_from, read_on};
ghost use Rattle.grpc_wire.specs.Bodies.{IsBody};

/// What a prefix says stays with more bytes after it, unless fewer than five bytes have come, and it never says that
/// memory ran out.
#[tactic(auto, using(crate::proofs::Prefixes::prefix_more, crate::proofs::Prefixes::prefix_short, crate::proofs::Prefixes::prefix_memory))]
pub fn prefixes_stay()
    ensures stays { (limit : ℕ) (bytes more : List ℕ) →
        (prefix_of limit bytes ≡ Ok None) ⊎ (prefix_of limit (bytes ++ more) ≡ prefix_of limit bytes) }
    ensures short { (limit : ℕ) (bytes : List ℕ) → prefix_of limit bytes ≡ Ok None
        → length bytes < PREFIX_LEN }
    ensures memory { (limit : ℕ) (bytes : List ℕ) → prefix_of limit bytes ≡ Err faults.Memory → ⊥ }
{}

/// However a body is cut into pieces, its messages and its end are the same.
#[tactic(auto, using(crate::proofs::Cuts::reads_on))]
pub fn cut_anywhere()
    ensures { (limit : ℕ) (ending : End) (bytes more : List ℕ) →
        reading_from limit ending (bytes ++ more) ≡ read_on limit (reading_from limit ending bytes) more }
{}

/// What is cut out of a body was framed in it, and what was framed in it is cut out.
#[tactic(auto, using(crate::proofs::Bodies::body_found))]
pub fn bodies_are_framed()
    ensures found { (limit : ℕ) (bytes : List ℕ) → AreBytes bytes
        → IsBody limit bytes (messages_of limit bytes) }
    ensures only { (limit : ℕ) (bytes : List ℕ) (r : Reading) →
        limit < 2 ^ 32 → IsBody limit bytes r → messages_of limit bytes ≡ r }
{}
