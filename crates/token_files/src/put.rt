//! One more file.

ghost use Rattle.std.specs.Prelude.{◌≡◌, ◌++◌, ◌∷◌, [], OnOk};

use file_sets::File;
use wl_octets::{Memory, Octets, Row};

/// Puts one more file.
pub(crate) fn put(
    files: &mut Row<File>,
    name: Octets,
    is_secret: bool,
    bytes: Octets,
) -> Result<(), Memory>
    ensures { OnOk result (files.new ≡ files.old ++ record { name = name; is_secret = is_secret; bytes = bytes } ∷ []) }
{
    files.push(File {
        name,
        is_secret,
        bytes,
    })?;
    Ok(())
}
