//! What a seed makes: words, a sheet, and whole exercises.
use exercise::{Exercise, exercise, make_sheet};
use rand_core::SeedableRng;
use rand_core::utils::NextWord;
use rand_xoshiro::SplitMix64;
use std::test::Fail;
use task_sheet::Cut;

#[test]
fn words_of_seed_seven(rt: HostRuntime) {
    let mut words = SplitMix64::seed_from_u64(7);
    for expected in [
        7_191_089_600_892_374_487u64,
        309_689_372_594_955_804,
        16_616_101_746_815_609_346,
        10_753_165_928_301_472_203,
        8_346_079_845_500_723_674,
    ] {
        assert_eq!(rt; words.next_word(), expected);
    }
}

/// The first words give the scales 38 and 47.
#[test]
fn first_tasks_of_seed_seven(rt: HostRuntime) -> Result<(), Fail> {
    let sheet = make_sheet(rt.alloc(), 7, 64)?;
    assert_eq!(rt; sheet.len(), 64);
    let first = sheet.task(0);
    let second = sheet.task(1);
    assert_eq!(rt; first.name.as_str(), "t0");
    assert_eq!(rt;
        [first.cost, first.deadline, first.curve.horizon()],
        [15, 4864, 4864]
    );
    assert_eq!(rt; first.cut, Cut::Full);
    assert_eq!(rt; [second.cost, second.deadline], [5, 6016]);
    assert_eq!(rt; second.cut, Cut::Never);
    Ok(())
}

const EIGHT_TASKS_OF_SEED_ONE: Exercise = Exercise {
    points: 23,
    greatest: 97,
    jobs: 225,
    done: 224,
    worst: 97,
};

const ALL_TASKS_OF_SEED_SEVEN: Exercise = Exercise {
    points: 448,
    greatest: 861,
    jobs: 499,
    done: 493,
    worst: 861,
};

#[test]
fn whole_exercises(rt: HostRuntime) -> Result<(), Fail> {
    assert_eq!(rt; exercise(rt.alloc(), 1, 8)?, EIGHT_TASKS_OF_SEED_ONE);
    assert_eq!(rt; exercise(rt.alloc(), 7, 64)?, ALL_TASKS_OF_SEED_SEVEN);
    Ok(())
}
