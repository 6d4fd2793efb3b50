//! How a run is simulated.

/// How a run is simulated.
#[derive(Clone, Copy, Debug, PartialEq, Eq)]
pub enum Mode {
    /// As many jobs arrive as the curves admit, each as long as its task allows, and as few ticks
    /// are supplied as promised.
    Dense,
    /// The words of SplitMix64 from this seed decide.
    Seed(u64),
}
