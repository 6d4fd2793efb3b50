//! How urgent a job is, and how far another task's jobs count.
ghost use Rattle.std.specs.Prelude.{◌≡◌};
ghost use Rattle.policy.specs.Keys.{key_le};

/// How urgent a job is: a smaller key is more urgent. Keys are compared by `high`, then by `low`.
#[derive(Clone, Copy, Debug, PartialEq, Eq)]
pub struct Key {
    pub high: i64,
    pub low: i64,
}

impl Key {
    /// Whether a job with this key is at least as urgent as one with the other.
    pub fn is_at_most(self, other: Key) -> bool
        ensures { result ≡ key_le self other }
    {
        self.high < other.high || self.high == other.high && self.low <= other.low
    }
}

/// Which jobs of another task can delay a job, by their arrival after the window's begin, with the
/// jitter of their task added.
#[derive(Clone, Copy, Debug, PartialEq, Eq)]
pub enum Cap {
    /// None of them.
    Nothing,
    /// Those for which this is earlier than so many ticks after the window's begin.
    At(i64),
    /// All of them.
    All,
}
