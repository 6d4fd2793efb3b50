//! The supplied ticks of windows, by the times of a promise.
ghost use Rattle.std.specs.Prelude.{◌≡◌, ◌≤◌, true};
ghost use Rattle.lists.specs.Searches.{IsLeastTo};
ghost use Rattle.task_sheet.specs.Rules.{rise_above};
ghost use Rattle.task_sheet.specs.Sheets.{IsPromise};
ghost use Rattle.task_sheet.specs.declared.tasks.SupplySpec.TheVariants.{Promised as PromisedBy};
ghost use Rattle.supply.specs.Promises.{count_of, promised};

/// How many of the times, which rise, are at most `r`.
fn count_up_to(times: &[u64], r: u64) -> u64
    requires { rise_above 0 times.now ≡ true }
    ensures { result ≡ count_of times.now r }
{
    times.partition_point(|time| *time <= r) as u64
}

/// The ticks that are supplied in every window of `d` ticks.
pub fn promised_in(horizon: u64, times: &[u64], d: u64) -> u64
    requires { IsPromise (PromisedBy horizon times.now) }
    ensures { result ≡ promised horizon times.now d }
{
    let whole = d / horizon;
    let rest = d % horizon;
    whole * times.len() as u64 + count_up_to(times, rest)
}

/// The least window up to `limit` with `v` supplied ticks.
pub fn least_promised(horizon: u64, times: &[u64], v: u128, limit: u64) -> Option<u64>
    requires { IsPromise (PromisedBy horizon times.now) }
    ensures { IsLeastTo (λ d. v ≤ promised horizon times.now d) limit result }
{
    if v == 0 {
        return Some(0);
    }
    let count = times.len() as u128;
    let whole = (v - 1) / count;
    if whole >= limit as u128 {
        return None;
    }
    let time = times[((v - 1) % count) as usize];
    let d = whole * horizon as u128 + time as u128;
    if d <= limit as u128 {
        Some(d as u64)
    } else {
        None
    }
}
