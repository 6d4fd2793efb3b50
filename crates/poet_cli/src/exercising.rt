//! How `exercise` ends.
ghost use Rattle.std.specs.Prelude.{◌≡◌, ◌≤◌, IfOk};
ghost use Rattle.poet_cli.specs.ExerciseAnswers.{exercise_line};
ghost use Rattle.poet_cli.specs.Works.{ExerciseDoes};

use exercise::{Exercise, exercise};
use lists::Items;
use poet_text::{Ending, Printed, Refusal, push_jobs, push_two};
use std::alloc::{AllocError, Global};

/// The line of an exercise.
#[tactic(auto, unfolding(crate::specs::ExerciseAnswers::exercise_line, poet_text::specs::RunPrinting::jobs_text))]
fn line_of(alloc: Global, seed: u64, tasks: u32, one: &Exercise) -> Result<Items<u8>, AllocError>
    ensures { IfOk result (λ text. text ≡ exercise_line seed tasks one.now) }
{
    let mut text = Vec::new(alloc);
    push_two(
        &mut text,
        "exercise seed ",
        seed,
        " tasks ",
        u64::from(tasks),
    )?;
    push_two(
        &mut text,
        " points ",
        one.points,
        " greatest ",
        one.greatest,
    )?;
    push_jobs(&mut text, one.jobs, one.done, one.worst)?;
    Ok(Items::new(text))
}

/// How `exercise` ends.
pub fn exercise_ending(alloc: Global, seed: u64, tasks: u32) -> Ending
    requires some { 1 ≤ tasks }
    requires few { tasks ≤ 64 }
    ensures { ExerciseDoes seed tasks result }
{
    let one = match exercise(alloc, seed, tasks) {
        Ok(one) => one,
        Err(_) => return Err(Refusal::Memory),
    };
    match line_of(alloc, seed, tasks, &one) {
        Ok(text) => Ok(Printed::Done(text)),
        Err(_) => Err(Refusal::Memory),
    }
}
