//! Segments of tasks and jobs.
ghost use Rattle.std.specs.Prelude.{◌≡◌, ◌==◌, sum};
ghost use Rattle.lists.specs.Ranges.{is_between};
ghost use Rattle.preemption.specs.Cuts.{is_prefix_sum as is_prefix_sum_of, greatest as greatest_of, each_within as each_within_of, are_lengths_within as are_lengths_within_of, has_none as has_none_of};
ghost use Rattle.task_sheet.specs.Rules.{last_number};
ghost use Rattle.preemption.specs.Kinds.{segments_of as segments_by, bound_of as bound_by};

use task_sheet::{Cut, Job, Task};

/// Whether the job needs at least one tick of service, and at most what its task allows.
pub fn costs_within(task: &Task, job: &Job) -> bool
    ensures { result ≡ is_between 1 task.now.cost job.now.cost }
{
    1 <= job.cost && job.cost <= task.cost
}

/// The fixed segments of a task, or none.
pub fn segments_of(task: &Task) -> &[u64]
    ensures { result.now ≡ segments_by task.now.cut }
{
    match &task.cut {
        Cut::Fixed(segments) => segments.as_slice(),
        _ => &[],
    }
}

/// The bound on a task's floating segments, or 0.
pub fn bound_of(task: &Task) -> u64
    ensures { result ≡ bound_by task.now.cut }
{
    match task.cut {
        Cut::Floating(bound) => bound,
        _ => 0,
    }
}

/// Whether there is no segment.
pub fn has_none(segments: &[u64]) -> bool
    ensures { result ≡ has_none_of segments.now }
{
    matches!(segments, [])
}

/// Whether `s` is the sum of some first segments.
pub fn is_prefix_sum(segments: &[u64], s: u64) -> bool
    ensures { result ≡ is_prefix_sum_of segments.now s }
{
    let mut left = s;
    for segment in segments {
        if left == 0 {
            return true;
        }
        if *segment > left {
            return false;
        }
        left -= *segment;
    }
    left == 0
}

/// Whether the sum of the segments is `total`.
pub fn is_sum(segments: &[u64], total: u64) -> bool
    ensures { result ≡ (sum segments.now == total) }
{
    let mut left = total;
    for segment in segments {
        if *segment > left {
            return false;
        }
        left -= *segment;
    }
    left == 0
}

/// The greatest segment, or 0.
pub fn greatest(segments: &[u64]) -> u64
    ensures { result ≡ greatest_of segments.now }
{
    let mut most = 0;
    for segment in segments {
        most = most.max(*segment);
    }
    most
}

/// The last segment, or 0.
pub fn last(segments: &[u64]) -> u64
    ensures { result ≡ last_number 0 segments.now }
{
    let mut latest = 0;
    for segment in segments {
        latest = *segment;
    }
    latest
}

/// Whether there are as many segments as bounds, and each is at most the bound at its place.
pub fn each_within(segments: &[u64], bounds: &[u64]) -> bool
    ensures { result ≡ each_within_of segments.now bounds.now }
{
    if segments.len() != bounds.len() {
        return false;
    }
    for (i, segment) in segments.iter().enumerate() {
        if *segment > bounds[i] {
            return false;
        }
    }
    true
}

/// Whether each segment is positive and at most the bound.
pub fn are_lengths_within(bound: u64, segments: &[u64]) -> bool
    ensures { result ≡ are_lengths_within_of bound segments.now }
{
    for segment in segments {
        if !(1 <= *segment && *segment <= bound) {
            return false;
        }
    }
    true
}
