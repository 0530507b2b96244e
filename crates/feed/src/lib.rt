// Deliveries for a session, one after another: what is left of one after a step, when the next is due, and when the channel is closed. For programs
// that read a device's bytes from elsewhere.
#![tactic(auto)]

ghost use Rattle.std.specs.Prelude.{◌≡◌, ◌+◌, ◌-◌, ◌^◌, false, min, eqb};
ghost use Rattle.feed.specs.Feed.{due_at, closes_at};

use session::Session;

// A delivery, from..to of a buffer, and whether the bytes are over. No ghost field says that from is at most to: `left_after`, `is_due` and `closes`,
// public functions that programs call, ask that of no caller.
#[derive(Clone, Copy)]
pub struct Feed {
    pub from: usize,
    pub to: usize,
    pub over: bool,
}

impl Feed {
    // Before the first delivery.
    pub fn begin() -> Feed
        ensures { (result.from ≡ 0) × (result.to ≡ 0) × (result.over ≡ false) }
    {
        Feed {
            from: 0,
            to: 0,
            over: false,
        }
    }

    // A delivery of so many bytes, from a place of the buffer on; with none the bytes are over. No place is behind 2^64 - 1.
    pub fn delivered(from: usize, n: usize) -> Feed
        ensures { (result.from ≡ from) × (result.to ≡ min (from + n) (2 ^ 64 - 1)) × (result.over ≡ eqb n 0) }
    {
        Feed {
            from,
            to: from.saturating_add(n),
            over: n == 0,
        }
    }

    // What is left after a step.
    pub fn left_after(self, taken: usize) -> Feed
        ensures { (result.from ≡ min (self.from + taken) self.to) × (result.to ≡ self.to) × (result.over ≡ self.over) }
    {
        Feed {
            from: self.from.saturating_add(taken).min(self.to),
            ..self
        }
    }

    // The next delivery is due: this one is used up, and there may be more.
    pub fn is_due(self) -> bool
        ensures { result ≡ due_at self }
    {
        self.to <= self.from && !self.over
    }

    // The channel is closed in place of a step: the bytes are over and the step would wait.
    pub fn closes(self, s: Session) -> bool
        ensures { result ≡ closes_at self s }
    {
        self.over && waiting::needs_bytes(s)
    }
}
