//! Writing a run.

ghost use Rattle.std.specs.Prelude.{◌≡◌, ◌++◌, flat_map, OnOk, IfOk};
ghost use Rattle.run_text.specs.declared.version.Version.TheVariants.{Second};
ghost use Rattle.run_text.specs.Text.{segment_text, job_line, is_same, stretch, tick_words, stretch_line, with_front, stretches_of, counts_line, text_of, IsWithinLimits};

use poet_io::{push_field, push_number};
use run_model::{Run, Tick};
use std::alloc::{AllocError, Global};
use task_sheet::Job;

fn push_segment(out: &mut Vec<u8>, segment: u64) -> Result<(), AllocError>
    ensures { OnOk result (out.new.items ≡ out.old.items ++ segment_text segment) }
{
    out.push(b' ')?;
    push_number(out, segment)
}

fn push_segments(out: &mut Vec<u8>, segments: &[u64]) -> Result<(), AllocError>
    ensures { OnOk result (out.new.items ≡ out.old.items ++ flat_map segment_text segments.now) }
{
    for segment in segments {
        push_segment(out, *segment)?;
    }
    Ok(())
}

fn push_job(out: &mut Vec<u8>, job: &Job) -> Result<(), AllocError>
    ensures { OnOk result (out.new.items ≡ out.old.items ++ job_line Second job.now) }
{
    out.extend_from_slice(b"j ")?;
    push_field(out, u64::from(job.task), b' ')?;
    push_field(out, job.arrival, b' ')?;
    push_field(out, job.release, b' ')?;
    push_number(out, job.cost)?;
    push_segments(out, job.segs.as_slice())?;
    out.push(b'\n')?;
    Ok(())
}

fn push_jobs(out: &mut Vec<u8>, jobs: &[Job]) -> Result<(), AllocError>
    ensures { OnOk result (out.new.items ≡ out.old.items ++ flat_map (job_line Second) jobs.now) }
{
    for job in jobs {
        push_job(out, job)?;
    }
    Ok(())
}

/// Whether two ticks are the same.
pub(crate) fn are_same(left: Tick, right: Tick) -> bool
    ensures { result ≡ is_same left right }
{
    match (left, right) {
        (Tick::Off, Tick::Off) | (Tick::Idle, Tick::Idle) => true,
        (Tick::Runs(job), Tick::Runs(other)) => job == other,
        _ => false,
    }
}

fn push_tick(out: &mut Vec<u8>, tick: Tick) -> Result<(), AllocError>
    ensures { OnOk result (out.new.items ≡ out.old.items ++ tick_words tick) }
{
    match tick {
        Tick::Off => out.extend_from_slice(b"off "),
        Tick::Idle => out.extend_from_slice(b"idle "),
        Tick::Runs(job) => {
            out.extend_from_slice(b"run ")?;
            push_field(out, u64::from(job), b' ')
        }
    }
}

/// Appends the line of so many equal ticks in a row.
fn push_stretch(out: &mut Vec<u8>, tick: Tick, count: u64) -> Result<(), AllocError>
    ensures { OnOk result (out.new.items ≡ out.old.items ++ stretch_line (stretch tick count)) }
{
    push_tick(out, tick)?;
    push_field(out, count, b'\n')
}

/// Appends the lines of a tick and those that follow it.
fn push_stretches(out: &mut Vec<u8>, first: Tick, rest: &[Tick]) -> Result<(), AllocError>
    ensures { OnOk result (out.new.items ≡ out.old.items ++
        flat_map stretch_line (with_front first 1 (stretches_of rest.now))) }
{
    let mut tick = first;
    let mut count = 1u64;
    for next in rest {
        if are_same(tick, *next) {
            count += 1;
        } else {
            push_stretch(out, tick, count)?;
            tick = *next;
            count = 1;
        }
    }
    push_stretch(out, tick, count)
}

fn push_ticks(out: &mut Vec<u8>, ticks: &[Tick]) -> Result<(), AllocError>
    ensures { OnOk result (out.new.items ≡ out.old.items ++
        flat_map stretch_line (stretches_of ticks.now)) }
{
    if ticks.is_empty() {
        return Ok(());
    }
    push_stretches(out, ticks[0], &ticks[1..])
}

#[tactic(auto, unfolding(crate::specs::Text::counts_line))]
fn push_counts(out: &mut Vec<u8>, run: &Run) -> Result<(), AllocError>
    ensures { OnOk result (out.new.items ≡ out.old.items ++ counts_line run.now) }
{
    out.extend_from_slice(b"jobs ")?;
    push_field(out, run.jobs.len() as u64, b' ')?;
    out.extend_from_slice(b"ticks ")?;
    push_field(out, run.ticks.len() as u64, b'\n')
}

/// Appends the text of any run, within the limits or not.
pub(crate) fn push_run(out: &mut Vec<u8>, run: &Run) -> Result<(), AllocError>
    ensures { OnOk result (out.new.items ≡ out.old.items ++ text_of run.now) }
{
    out.extend_from_slice(b"poet-run 2\n")?;
    push_counts(out, run)?;
    push_jobs(out, run.jobs.as_slice())?;
    push_ticks(out, run.ticks.as_slice())?;
    out.extend_from_slice(b"end\n")?;
    Ok(())
}

/// The text of a run, in the second version.
///
/// The run must be within the limits: at most 20,000 jobs, 100,000 ticks and 1,000,000 segments
/// over all jobs, no release above 2 * 10^9, no other number of a job above 10^9, and ticks that run
/// only jobs that are there.
pub fn write_run(alloc: Global, run: &Run) -> Result<Vec<u8>, AllocError>
    requires { IsWithinLimits run.now }
    ensures { IfOk result (λ text. text.items ≡ text_of run.now) }
{
    let mut out = Vec::new(alloc);
    push_run(&mut out, run)?;
    Ok(out)
}
