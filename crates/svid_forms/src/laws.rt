//! What holds of the definitions alone.

ghost use Rattle.std.specs.Prelude.{◌≡◌, ℕ, List, Some, Ok};
ghost use Rattle.std.specs.List.{flat_map};
ghost use Rattle.base64.specs.Engines.{standard};
ghost use Rattle.base64.specs.GeneralPurpose.{encode_of, decode_of, IsBytes};
ghost use Rattle.pem_text.specs.Pem.{lines_from, joined};
ghost use Rattle.svid_forms.specs.Elements.{elements_of};

/// The values that bytes are, one after another, are the bytes: nothing is lost and nothing is added.
pub fn elements_are_the_bytes()
    ensures { (bytes : List ℕ) (values : List (List ℕ)) → elements_of bytes ≡ Some values → flat_map (λ value. value) values ≡ bytes }
{}

/// What stands between the edges of a block, without its newlines, is decoded by base64 to the bytes of which the block is: PEM is
/// read back to the same DER.
#[tactic(auto, using(crate::proofs::ReadBack::block_is_read_back))]
pub fn blocks_are_read_back()
    ensures { (der : List ℕ) → IsBytes der → decode_of standard (joined (lines_from 0 (encode_of standard der))) ≡ Ok der }
{}
