//! Where sets of files stand.

ghost use Rattle.std.specs.Prelude.{◌≡◌, ◌≢◌, ◌+◌, ◌++◌, ◌∷◌, [], ◌⊎◌, ℕ, List, Bool, true, false, Option, Some, OnOk, OnErr, IsTrue};
ghost use Rattle.file_sets.specs.declared.set.File.{File};
ghost use Rattle.file_sets.specs.Sets.{OthersStay, Stays, Turns};

use crate::set::File;

/// A call of the outside failed.
#[derive(Clone, Copy, Debug, Drop, PartialEq, Eq)]
pub struct ShelfFault;

/// A folder of numbered folders, and a link that names one of them.
pub trait Shelf {
    /// Whether it tells what it holds. The clauses speak of one that does.
    ghost tells: { Self → Bool };

    /// The folder that the link names.
    ghost link: { Self → Option ℕ };

    /// What a folder holds, where there is one of this number.
    ghost holds: { Self → ℕ → Option (List File) };

    /// Whether what a folder holds outlives a crash.
    ghost synced: { Self → ℕ → Bool };

    /// How often the link was exchanged.
    ghost turns: { Self → ℕ };

    /// Makes an empty folder.
    fn make(&mut self, number: u64) -> Result<(), ShelfFault>
        requires { IsTrue (tells self.old) → link self.old ≢ Some number }
        ensures tells { tells self.new ≡ tells self.old }
        ensures made { IsTrue (tells self.old) → OnOk result (holds self.new number ≡ Some []) }
        ensures others { IsTrue (tells self.old) → OthersStay number (holds self.old) (holds self.new) }
        ensures stays { IsTrue (tells self.old) → Stays (link self.old) (turns self.old) (link self.new) (turns self.new) };

    /// Writes one more file into a folder, which then has to be synced.
    fn put(&mut self, number: u64, file: &File) -> Result<(), ShelfFault>
        requires { IsTrue (tells self.old) → link self.old ≢ Some number }
        ensures tells { tells self.new ≡ tells self.old }
        ensures put { IsTrue (tells self.old) → OnOk result ((files : List File) → holds self.old number ≡ Some files
            → holds self.new number ≡ Some (files ++ file.now ∷ [])) }
        ensures unsynced { IsTrue (tells self.old) → OnOk result (synced self.new number ≡ false) }
        ensures others { IsTrue (tells self.old) → OthersStay number (holds self.old) (holds self.new) }
        ensures stays { IsTrue (tells self.old) → Stays (link self.old) (turns self.old) (link self.new) (turns self.new) };

    /// Has a folder outlive a crash.
    fn sync(&mut self, number: u64) -> Result<(), ShelfFault>
        ensures tells { tells self.new ≡ tells self.old }
        ensures synced { IsTrue (tells self.old) → OnOk result (synced self.new number ≡ true) }
        ensures holds { IsTrue (tells self.old) → holds self.new ≡ holds self.old }
        ensures stays { IsTrue (tells self.old) → Stays (link self.old) (turns self.old) (link self.new) (turns self.new) };

    /// Has the link name another folder, at once. Where it fails the link names the old one or the new one.
    fn point(&mut self, number: u64) -> Result<(), ShelfFault>
        requires { IsTrue (tells self.old) → synced self.old number ≡ true }
        ensures tells { tells self.new ≡ tells self.old }
        ensures ok { IsTrue (tells self.old) → OnOk result (Turns number (turns self.old) (link self.new) (turns self.new)) }
        ensures err { IsTrue (tells self.old) → OnErr result (Stays (link self.old) (turns self.old) (link self.new) (turns self.new)
            ⊎ Turns number (turns self.old) (link self.new) (turns self.new)) }
        ensures holds { IsTrue (tells self.old) → holds self.new ≡ holds self.old };
}
