//! What the words of the generator decide.
ghost use Rattle.std.specs.Prelude.{◌≡◌, ◌≤◌, ◌<◌, ◌^◌};
ghost use Rattle.lists.specs.Limits.{greatest_number, most_ticks};
ghost use Rattle.task_sheet.specs.declared.tasks.Cut.TheVariants.{Full};
ghost use Rattle.simulated_run.specs.Words.{word, next, after};
ghost use Rattle.simulated_run.specs.Jobs.{cost_by, words_by, drawn_cost, released_by, after_release};
ghost use Rattle.simulated_run.specs.SimulatedRun.{arriving, after_arriving, is_off, after_off};

use rand_core::utils::NextWord;
use rand_xoshiro::SplitMix64;
use simulated_run::Mode;

/// The next word.
#[tactic(auto, unfolding(simulated_run::specs::Words::word, simulated_run::specs::Words::next))]
fn draw(words: &mut SplitMix64) -> u64
    ensures word { result ≡ word words.old }
    ensures next { words.new ≡ next words.old }
{
    words.next_word()
}

/// One of the costs `1, .., most`, by one word.
pub fn draw_cost(most: u64, words: &mut SplitMix64) -> u64
    requires low { 1 ≤ most }
    requires high { most ≤ greatest_number }
    ensures cost { result ≡ drawn_cost most words.old }
    ensures state { words.new ≡ next words.old }
    ensures few { result ≤ most }
{
    1 + draw(words) % most
}

/// The cost of a job whose task has no fixed segments, where its task allows `most`.
pub fn cost_of(mode: Mode, most: u64, words: &mut SplitMix64) -> u64
    requires low { 1 ≤ most }
    requires high { most ≤ greatest_number }
    ensures cost { result ≡ cost_by mode Full most words.old }
    ensures state { words.new ≡ after (words_by mode Full) words.old }
{
    match mode {
        Mode::Dense => most,
        Mode::Seed(_) => draw_cost(most, words),
    }
}

/// How many jobs of a task arrive at a tick, where so many may.
pub fn draw_count(mode: Mode, allowance: u64, words: &mut SplitMix64) -> u64
    requires { allowance < 2 ^ 63 }
    ensures count { result ≡ arriving mode allowance words.old }
    ensures state { words.new ≡ after_arriving mode allowance words.old }
{
    match mode {
        Mode::Dense => allowance,
        Mode::Seed(_) => {
            if allowance == 0 {
                0
            } else {
                draw(words) % (allowance + 1)
            }
        }
    }
}

/// When a job that arrives at `t` is released, whose task has this jitter and released its job before
/// at `last`.
pub fn draw_release(mode: Mode, jitter: u64, t: u64, last: u64, words: &mut SplitMix64) -> u64
    requires time { t ≤ most_ticks }
    requires high { jitter ≤ greatest_number }
    ensures release { result ≡ released_by mode jitter t last words.old }
    ensures state { words.new ≡ after_release mode jitter words.old }
{
    match mode {
        Mode::Dense => t.max(jitter),
        Mode::Seed(_) => {
            if jitter == 0 {
                t
            } else {
                (t + draw(words) % (jitter + 1)).max(last)
            }
        }
    }
}

/// Whether a tick is off, where `may` says whether it may be.
pub fn draw_off(mode: Mode, may: bool, words: &mut SplitMix64) -> bool
    ensures off { result ≡ is_off mode may words.old }
    ensures state { words.new ≡ after_off mode may words.old }
{
    match mode {
        Mode::Dense => may,
        Mode::Seed(_) => may && draw(words) % 2 == 1,
    }
}
