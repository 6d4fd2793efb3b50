//! Whether as many ticks are supplied as promised.
ghost use Rattle.std.specs.Prelude.{◌≡◌, ◌+◌, ◌<◌, ◌≤◌, ◌↔◌, ℕ, length, true, false, IsTrue, IfOk};
ghost use Rattle.lists.specs.Limits.{most_ticks};
ghost use Rattle.lists.specs.Searches.{IsFirstBelow};
ghost use Rattle.schedule_laws.specs.Tests.{is_short as is_short_by};
ghost use Rattle.supply.specs.Promises.{sbf_of};
ghost use Rattle.windows.specs.Supplied.{ArePromised, MayBeOff, AreCounts};
ghost use Rattle.windows.specs.Times.{AreNeededTimes};

use crate::times::{PromisedTime, needed_times};
use run_model::Run;
use schedule_laws::is_on;
use std::alloc::{AllocError, Global};
use task_sheet::{Sheet, SupplySpec};

/// Whether tick `t` may be off, where `counts` has the number of supplied ticks before each of the
/// ticks `0, .., t`.
///
/// It looks at the windows, up to one horizon, whose length is one of the promised times.
pub fn off_allowed(sheet: &Sheet, counts: &[u64], t: u64) -> bool
    requires { ArePromised (sbf_of sheet.now.supply) counts.now t }
    ensures { IsTrue result ↔ MayBeOff (sbf_of sheet.now.supply) counts.now t }
{
    let SupplySpec::Promised { horizon: _, times } = sheet.supply() else {
        return false;
    };
    for (i, time) in times.as_slice().iter().enumerate() {
        if *time > t + 1 {
            break;
        }
        let supplied = counts[t as usize] - counts[(t + 1 - *time) as usize];
        if supplied <= i as u64 {
            return false;
        }
    }
    true
}

/// The same, by the needed ones of the promised times.
pub fn off_allowed_by(sheet: &Sheet, needed: &[PromisedTime], counts: &[u64], t: u64) -> bool
    requires counts { ArePromised (sbf_of sheet.now.supply) counts.now t }
    requires needed { AreNeededTimes sheet.now.supply needed.now }
    ensures { IsTrue result ↔ MayBeOff (sbf_of sheet.now.supply) counts.now t }
{
    let SupplySpec::Promised {
        horizon: _,
        times: _,
    } = sheet.supply()
    else {
        return false;
    };
    let last = counts[t as usize];
    for i in 0..needed.len() {
        let time = needed[i];
        if time.time > t + 1 {
            return true;
        }
        if last - counts[(t + 1 - time.time) as usize] <= time.before as u64 {
            return false;
        }
    }
    true
}

/// Whether some window that ends with tick `t` has fewer supplied ticks than promised, where none
/// that ends earlier has.
///
/// With a tick that is supplied none has.
fn is_short(sheet: &Sheet, needed: &[PromisedTime], run: &Run, counts: &[u64], t: u64) -> bool
    requires tick { t < length run.now.ticks }
    requires needed { AreNeededTimes sheet.now.supply needed.now }
    requires counts { AreCounts run.now counts.now t }
    requires free { (u : ℕ) → u < t →
        is_short_by (sbf_of sheet.now.supply) run.now (u + 1) ≡ false }
    ensures { result ≡ is_short_by (sbf_of sheet.now.supply) run.now (t + 1) }
{
    // for the proof: the sheet is valid
    let _valid = sheet.len();
    !is_on(run.ticks.as_slice()[t as usize]) && !off_allowed_by(sheet, needed, counts, t)
}

/// The first tick with which some window ends that has fewer supplied ticks than promised.
pub fn first_short(alloc: Global, sheet: &Sheet, run: &Run) -> Result<Option<u64>, AllocError>
    requires { length run.now.ticks ≤ most_ticks }
    ensures { IfOk result (IsFirstBelow
        (λ t. is_short_by (sbf_of sheet.now.supply) run.now (t + 1) ≡ true) (length run.now.ticks)) }
{
    let needed = needed_times(alloc, sheet)?;
    let mut supplied = 0;
    let mut counts = Vec::with_capacity(alloc, run.ticks.len() + 1)?;
    counts.push(supplied)?;
    for t in 0..run.ticks.len() as u64 {
        if is_short(sheet, &needed, run, &counts, t) {
            return Ok(Some(t));
        }
        if is_on(run.ticks.as_slice()[t as usize]) {
            supplied += 1;
        }
        counts.push(supplied)?;
    }
    Ok(None)
}
