//! The theorem at sheets whose jobs may be released after their arrival.
ghost use Rattle.policy.specs.Policies.{fp_meaning, fifo_meaning};
ghost use Rattle.preemption.specs.Kinds.{per_task_meaning};
ghost use Rattle.schedule_laws.specs.Bounded.{IsBounded};
ghost use Rattle.bound_tests.specs.JitterSheets.{late_sheet, blocking_sheet};

use abstract_rta::points_bound;
use conditions::failed_means;
use policy::{Fifo, Fp};
use preemption::PerTask;
use supply::Unit;

/// A job of cost 2 and period 5 is done 5 ticks after its arrival with a jitter of 3 ticks, and 7 ticks
/// after it with one of 4.
fn one_late_task()
    ensures by_3 { IsBounded fp_meaning per_task_meaning (λ d. d) (late_sheet 3) 0 5 }
    ensures by_4 { IsBounded fp_meaning per_task_meaning (λ d. d) (late_sheet 4) 0 7 }
{
    points_bound::<Fp, PerTask, Unit>();
    failed_means::<Fp, PerTask, Unit>();
}

/// A late job waits for one that arrived after it.
fn late_jobs_in_order()
    ensures late { IsBounded fifo_meaning per_task_meaning (λ d. d) blocking_sheet 0 8 }
    ensures other { IsBounded fifo_meaning per_task_meaning (λ d. d) blocking_sheet 1 4 }
{
    points_bound::<Fifo, PerTask, Unit>();
    failed_means::<Fifo, PerTask, Unit>();
}

#[test]
fn bounds_with_jitters() {
    one_late_task();
    late_jobs_in_order();
}
