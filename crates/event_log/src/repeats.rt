//! What stands still is said once a minute.

ghost use Rattle.std.specs.Prelude.{◌≡◌};
ghost use Rattle.event_log.specs.Repeats.{is_due, told, after, empty};

/// How many seconds lie between two lines of one key.
pub const MINUTE: u64 = 60;

/// When a line of this key was written last, in seconds, and how many were held back since.
#[derive(Clone, Copy, Debug, Drop)]
pub struct Slot {
    last: Option<u64>,
    held: u64,
}

fn is_due(last: Option<u64>, now: u64) -> bool
    ensures { result ≡ is_due last now }
{
    match last {
        None => true,
        Some(last) => now >= last && now - last >= MINUTE,
    }
}

impl Slot {
    /// No line of this key was written yet.
    #[tactic(auto, unfolding(crate::specs::Repeats::empty))]
    pub fn empty() -> Slot
        ensures { result ≡ empty }
    {
        Slot {
            last: None,
            held: 0,
        }
    }

    /// Whether a line would be written now.
    pub fn is_due(&self, now: u64) -> bool
        ensures { result ≡ is_due self.now.last now }
    {
        is_due(self.last, now)
    }

    /// Whether a line is to be written now, and then how many were held back before it.
    #[tactic(auto, unfolding(crate::specs::Repeats::told, crate::specs::Repeats::after))]
    pub fn admit(&mut self, now: u64) -> Option<u64>
        ensures told { result ≡ told self.old now }
        ensures after { self.new ≡ after self.old now }
    {
        if !is_due(self.last, now) {
            self.held = self.held.saturating_add(1);
            return None;
        }
        let held = self.held;
        self.last = Some(now);
        self.held = 0;
        Some(held)
    }
}
