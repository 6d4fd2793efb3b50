//! When searches look at the load.

/// After how many turns a search looks at the load, and how many turns a look has to spare, since
/// it costs about as much.
const TURNS: u64 = 64;

/// Counts the turns up to the next look at the load. Looks that spare too few turns become rare, so
/// that they never cost much more than the turns between them.
#[derive(Clone, Copy, Debug)]
pub struct Pace {
    left: u64,
    pause: u64,
}

impl Pace {
    /// Before the first turn.
    pub fn new() -> Pace {
        Pace {
            left: TURNS,
            pause: TURNS,
        }
    }

    /// Counts a turn, and says whether it is one to look at the load.
    pub fn is_due(&mut self) -> bool {
        self.left = self.left.saturating_sub(1);
        self.left == 0
    }

    /// Sets the next look after one that led a search from a window in ticks up to this bound,
    /// where the turn alone leads to the next window.
    pub fn note(&mut self, window: u64, next: u64, bound: u64) {
        let spared = bound.saturating_sub(window) / next.saturating_sub(window).max(1);
        self.pause = if spared >= TURNS {
            TURNS
        } else {
            self.pause.saturating_mul(2)
        };
        self.left = self.pause;
    }
}
