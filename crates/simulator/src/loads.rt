//! What a new job needs.
ghost use Rattle.std.specs.Prelude.{◌≡◌, ◌≤◌, ◌<◌, ◌^◌, true, length, sum, IfOk, OnOk, IfErr};
ghost use Rattle.std.specs.List.{list_all};
ghost use Rattle.lists.specs.Limits.{greatest_number};
ghost use Rattle.task_sheet.specs.declared.tasks.Cut.TheVariants.{Fixed, Floating};
ghost use Rattle.task_sheet.specs.Rules.{is_in_range, are_in_range};
ghost use Rattle.task_sheet.specs.Sheets.{CutFits};
ghost use Rattle.simulated_run.specs.Words.{after};
ghost use Rattle.simulated_run.specs.Jobs.{drawn_segments, floating_segments, cost_by, segments_by, words_by};
ghost use Rattle.simulator.specs.Loads.{IsLoad, IsLoadRefusal};

use crate::refusal::SimRefusal;
use crate::words::{cost_of, draw_cost};
use rand_xoshiro::SplitMix64;
use simulated_run::Mode;
use std::alloc::{AllocError, Global};
use task_sheet::Cut;

/// What a new job needs: its cost in ticks, and its segments.
#[derive(Drop)]
pub struct Load {
    pub cost: u64,
    pub segs: Vec<u64>,
}

/// For each segment of the task, one that is at most as long.
fn draw_segments(
    alloc: Global,
    segments: &[u64],
    words: &mut SplitMix64,
) -> Result<Vec<u64>, AllocError>
    requires { list_all is_in_range segments.now ≡ true }
    ensures segments { IfOk result (λ segs. segs.items ≡ drawn_segments segments.now words.old) }
    ensures state { OnOk result (words.new ≡ after (length segments.now) words.old) }
{
    let mut segs = Vec::new(alloc);
    for segment in segments {
        segs.push(draw_cost(*segment, words))?;
    }
    Ok(segs)
}

fn sum_of(segments: &[u64]) -> u64
    requires { sum segments.now < 2 ^ 64 }
    ensures { result ≡ sum segments.now }
{
    segments.iter().sum()
}

/// The load of a job whose task has fixed segments, with the sum `most`.
fn fixed_load(
    alloc: Global,
    mode: Mode,
    segments: &[u64],
    most: u64,
    spare: usize,
    words: &mut SplitMix64,
) -> Result<Load, SimRefusal>
    requires cut { CutFits most (Fixed segments.now) }
    requires high { most ≤ greatest_number }
    ensures load { IfOk result (IsLoad mode (Fixed segments.now) most words.old spare) }
    ensures state { OnOk result (words.new ≡ after (words_by mode (Fixed segments.now)) words.old) }
    ensures refusal { IfErr result (IsLoadRefusal spare (segments_by mode (Fixed segments.now)
        (cost_by mode (Fixed segments.now) most words.old) words.old)) }
{
    if segments.len() > spare {
        return Err(SimRefusal::Segments);
    }
    match mode {
        Mode::Dense => Ok(Load {
            cost: most,
            segs: segments.to_vec(alloc)?,
        }),
        Mode::Seed(_) => {
            let segs = draw_segments(alloc, segments, words)?;
            Ok(Load {
                cost: sum_of(&segs),
                segs,
            })
        }
    }
}

/// The bound as often as it fits into the cost, and then the rest.
#[tactic(auto, unfolding(simulated_run::specs::Jobs::floating_segments))]
fn split(alloc: Global, bound: u64, cost: u64) -> Result<Vec<u64>, AllocError>
    requires { 1 ≤ bound }
    ensures { IfOk result (λ segs. segs.items ≡ floating_segments bound cost) }
{
    let mut segs = vec![in alloc; bound; (cost / bound) as usize]?;
    let rest = cost % bound;
    if rest > 0 {
        segs.push(rest)?;
    }
    Ok(segs)
}

/// How many segments that gives.
#[tactic(auto, unfolding(simulated_run::specs::Jobs::floating_segments))]
fn count_split(bound: u64, cost: u64) -> usize
    requires { 1 ≤ bound }
    ensures { result ≡ length (floating_segments bound cost) }
{
    let whole = (cost / bound) as usize;
    if cost % bound == 0 { whole } else { whole + 1 }
}

/// The load of a job whose task has floating segments up to a bound.
fn floating_load(
    alloc: Global,
    mode: Mode,
    bound: u64,
    most: u64,
    spare: usize,
    words: &mut SplitMix64,
) -> Result<Load, SimRefusal>
    requires cut { CutFits most (Floating bound) }
    requires low { 1 ≤ most }
    requires high { most ≤ greatest_number }
    ensures load { IfOk result (IsLoad mode (Floating bound) most words.old spare) }
    ensures state { OnOk result (words.new ≡ after (words_by mode (Floating bound)) words.old) }
    ensures refusal { IfErr result (IsLoadRefusal spare (segments_by mode (Floating bound)
        (cost_by mode (Floating bound) most words.old) words.old)) }
{
    let cost = cost_of(mode, most, words);
    if count_split(bound, cost) > spare {
        return Err(SimRefusal::Segments);
    }
    let segs = split(alloc, bound, cost)?;
    Ok(Load { cost, segs })
}

/// The load of a new job of a task with this cut and cost, if it has at most `spare` segments.
pub fn draw_load(
    alloc: Global,
    mode: Mode,
    cut: &Cut,
    most: u64,
    spare: usize,
    words: &mut SplitMix64,
) -> Result<Load, SimRefusal>
    requires cut { CutFits most cut.now }
    requires low { 1 ≤ most }
    requires high { most ≤ greatest_number }
    ensures load { IfOk result (IsLoad mode cut.now most words.old spare) }
    ensures state { OnOk result (words.new ≡ after (words_by mode cut.now) words.old) }
    ensures refusal { IfErr result (IsLoadRefusal spare (segments_by mode cut.now
        (cost_by mode cut.now most words.old) words.old)) }
{
    match cut {
        Cut::Full | Cut::Never => Ok(Load {
            cost: cost_of(mode, most, words),
            segs: Vec::new(alloc),
        }),
        Cut::Fixed(segments) => { fixed_load(alloc, mode, segments.as_slice(), most, spare, words) }
        Cut::Floating(bound) => floating_load(alloc, mode, *bound, most, spare, words),
    }
}
