//! What a supply is.
ghost use Rattle.std.specs.Prelude.{◌≡◌, ◌≤◌, ◌+◌, ℕ, Bool, true};
ghost use Rattle.lists.specs.Searches.{IsLeastTo};

/// A promise of supply: in every window of `d` ticks at least `sbf(d)` of them are supplied.
///
/// `sbf` is the supply bound function of the field.
pub trait Supply {
    /// Whether every tick is promised.
    const WHOLE: bool;

    ghost WHOLE: { Bool };

    ghost sbf: { Self → ℕ → ℕ };

    /// What holds of every value of the type.
    ghost is_supply: { Self → Type 0 };

    /// Gives a caller the premise of the laws.
    fn known(&self)
        ensures { is_supply self.now };

    fn sbf(&self, d: u64) -> u64
        ensures { result ≡ sbf self.now d };

    /// The least length up to `limit` whose every window has `v` supplied ticks.
    fn least(&self, v: u128, limit: u64) -> Option<u64>
        ensures { IsLeastTo (λ d. v ≤ sbf self.now d) limit result };

    ghost starts: { (x : Self) → is_supply x → sbf x 0 ≡ 0 };

    ghost grows: { (x : Self) (d : ℕ) → is_supply x → (sbf x d ≤ sbf x (d + 1)) ×
        (sbf x (d + 1) ≤ sbf x d + 1) };

    ghost whole: { (x : Self) (d : ℕ) → WHOLE ≡ true → sbf x d ≡ d };
}
