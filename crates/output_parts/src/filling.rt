//! Copying parts one after the other.

ghost use Rattle.std.specs.Prelude.{◌≡◌, ◌≤◌, ◌+◌, ◌-◌, ℕ, List, length, take, drop, min, ◌++◌};

/// Copies a prefix of the bytes, as long as there is room for it, and says how long it is.
fn copy_front(bytes: &[u8], into: &mut [u8]) -> usize
    ensures count { result ≡ min (length bytes.now) (length into.old) }
    ensures len { length into.new ≡ length into.old }
    ensures prefix { take result into.new ≡ take result bytes.now }
{
    let count = bytes.len().min(into.len());
    into[..count].copy_from_slice(bytes.split_at(count).0);
    count
}

/// How far a copy is.
#[derive(Clone, Copy, Drop)]
pub struct Filling {
    /// How many bytes of what comes next are passed over.
    pub skipped: usize,
    /// How many bytes were copied.
    pub count: usize,
}

impl Filling {
    /// The parts were copied one after the other, and now comes this one.
    pub fn copy(self, bytes: &[u8], into: &mut [u8]) -> Filling
        requires { self.count ≤ length into.old }
        ensures skipped { result.skipped ≡ self.skipped - length bytes.now }
        ensures count { result.count ≡ self.count + min (length bytes.now - self.skipped) (length into.old - self.count) }
        ensures len { length into.new ≡ length into.old }
        ensures prefix { take result.count into.new ≡ take self.count into.old
            ++ take (result.count - self.count) (drop self.skipped bytes.now) }
    {
        let passed = self.skipped.min(bytes.len());
        let (_, rest) = bytes.split_at(passed);
        let (_, free) = into.split_at_mut(self.count);
        let more = copy_front(rest, free);
        Filling {
            skipped: self.skipped - passed,
            count: self.count + more,
        }
    }
}
