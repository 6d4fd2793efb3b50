//! What an exercise counts.
ghost use Rattle.std.specs.Prelude.{◌≡◌, ◌<◌, ◌^◌, length};
ghost use Rattle.std.specs.List.{sum_by};
ghost use Rattle.exercise.specs.Greatest.{greatest_by};

use audit::Seen;
use certificate::Entry;

/// How many points the entries have.
pub fn count_points(entries: &[Entry]) -> u64
    requires { sum_by (λ e. length e.points) entries.now < 2 ^ 64 }
    ensures { result ≡ sum_by (λ e. length e.points) entries.now }
{
    entries.iter().map(|e| e.points.len() as u64).sum()
}

/// The greatest of their bounds, in ticks.
pub fn greatest_bound(entries: &[Entry]) -> u64
    ensures { result ≡ greatest_by (λ e. e.bound) entries.now }
{
    let mut greatest = 0;
    for entry in entries {
        greatest = entry.bound.max(greatest);
    }
    greatest
}

/// How many jobs are done.
pub fn count_done(seen: &[Seen]) -> u64
    requires { sum_by (λ s. s.done) seen.now < 2 ^ 64 }
    ensures { result ≡ sum_by (λ s. s.done) seen.now }
{
    seen.iter().map(|s| s.done).sum()
}

/// The greatest of their response times, in ticks.
pub fn worst_of(seen: &[Seen]) -> u64
    ensures { result ≡ greatest_by (λ s. s.worst) seen.now }
{
    let mut worst = 0;
    for task in seen {
        worst = task.worst.max(worst);
    }
    worst
}
