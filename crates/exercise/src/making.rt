//! The sheet that a seed makes.
ghost use Rattle.std.specs.Prelude.{◌≡◌, ◌+◌, ◌*◌, ◌%◌, ◌≤◌, ◌<◌, IfOk};
ghost use Rattle.lists.specs.Limits.{greatest_number};
ghost use Rattle.simulated_run.specs.Words.{word, next};
ghost use Rattle.exercise.specs.GeneratedSheet.{cut_by, halves as halves_of, task_by, generated_sheet};

use curve::Prefix;
use lists::{Items, Text};
use rand_core::SeedableRng;
use rand_core::utils::NextWord;
use rand_xoshiro::SplitMix64;
use std::alloc::{AllocError, Global};
use task_sheet::{Cut, PolicyKind, Sheet, SupplySpec, Task};

/// The sheet of `n` tasks that this seed makes, under earliest deadline first, with whole supply.
///
/// Two words of SplitMix64 make a task: the first its period, which is its deadline too, and the
/// second its cost. The periods are so long that at most half of the processor is asked for.
pub fn make_sheet(alloc: Global, seed: u64, n: u32) -> Result<Sheet, AllocError>
    requires some { 1 ≤ n }
    requires few { n ≤ 64 }
    ensures { IfOk result (λ sheet. sheet ≡ generated_sheet seed n) }
{
    let mut words = SplitMix64::seed_from_u64(seed);
    let mut tasks = Vec::new(alloc);
    for i in 0..n {
        let scale = draw(&mut words, 50);
        let cost = draw(&mut words, scale);
        tasks.push(make_task(alloc, i, 2 * n as u64 * scale, cost)?)?;
    }
    Ok(Sheet::new(PolicyKind::Edf, SupplySpec::Unit, tasks))
}

/// A number from 1 to `most`, by the next word.
#[tactic(auto, unfolding(simulated_run::specs::Words::word, simulated_run::specs::Words::next))]
fn draw(words: &mut SplitMix64, most: u64) -> u64
    requires { 0 < most }
    ensures number { result ≡ 1 + word words.old % most }
    ensures state { words.new ≡ next words.old }
    ensures low { 1 ≤ result }
    ensures high { result ≤ most }
{
    1 + words.next_word() % most
}

/// Task `i`, with this period as its deadline.
fn make_task(alloc: Global, i: u32, period: u64, cost: u64) -> Result<Task, AllocError>
    requires low { 1 ≤ period }
    requires high { period ≤ greatest_number }
    requires cost { cost ≤ greatest_number }
    ensures { IfOk result (λ task. task ≡ task_by i period cost) }
{
    Ok(Task {
        name: Text::new(format!(in alloc; "t{i}")?),
        cost,
        deadline: period,
        priority: 0,
        jitter: 0,
        point: 0,
        curve: Prefix::periodic(alloc, period)?,
        cut: make_cut(alloc, i, cost)?,
    })
}

/// The four kinds of cuts take turns.
fn make_cut(alloc: Global, i: u32, cost: u64) -> Result<Cut, AllocError>
    requires { cost ≤ greatest_number }
    ensures { IfOk result (λ cut. cut ≡ cut_by (i % 4) cost) }
{
    match i % 4 {
        0 => Ok(Cut::Full),
        1 => Ok(Cut::Never),
        2 => Ok(Cut::Fixed(Items::new(halves(alloc, cost)?))),
        _ => Ok(Cut::Floating((cost + 1) / 2)),
    }
}

/// A cost in two segments, or in one where it is 1.
fn halves(alloc: Global, cost: u64) -> Result<Vec<u64>, AllocError>
    ensures { IfOk result (λ segments. segments.items ≡ halves_of cost) }
{
    if cost == 1 {
        Ok(vec![in alloc; 1]?)
    } else {
        Ok(vec![in alloc; cost / 2, cost - cost / 2]?)
    }
}
