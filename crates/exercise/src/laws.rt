//! A sheet that a seed makes is valid, and its exercise is never refused.
ghost use Rattle.exercise.specs.Laws.{GeneratedIsValid, ExerciseSucceeds};

/// A sheet of 1 to 64 tasks that a seed makes is valid.
pub fn generated_is_valid()
    ensures { GeneratedIsValid }
{}

/// The sheet of an exercise of 1 to 64 tasks has a best certificate, and its dense run passes no limit.
pub fn exercise_succeeds()
    ensures { ExerciseSucceeds }
{}
