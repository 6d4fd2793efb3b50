//! A run, as far as the lines of its text were read.

ghost use Rattle.std.specs.Prelude.{◌≡◌, ◌≤◌, ◌++◌, ◌↔◌, length, replicate, IfOk, OnOk, IsTrue};
ghost use Rattle.std.specs.Bool.{OnTrue};
ghost use Rattle.lists.specs.Limits.{most_jobs};
ghost use Rattle.run_text.specs.Words.{is_text};
ghost use Rattle.run_text.specs.Parts.{part, nothing_read, before_jobs, is_repeated, after_stretch, after_at, after_line, jobs_to_come, ticks_to_come, IsSmall};
ghost use Rattle.run_text.specs.Drafts.{part_of, part_if};
ghost use Rattle.run_text.specs.declared.stage.Stage.TheVariants as stage;

use crate::lines::{read_counts, read_job, read_stretch, read_version};
use crate::stage::Stage;
use crate::version::Version;
use crate::writing::are_same;
use lists::Items;
use lists::limits::MOST_SEGMENTS;
use run_model::{Run, Tick};
use std::alloc::{AllocError, Global};
use task_sheet::Job;

/// The stage where so many job lines are to come, and then so many ticks.
fn before_jobs(version: Version, jobs: u64, room: u64, ticks: u64) -> Stage
    ensures stage { result ≡ before_jobs version jobs room ticks }
    ensures jobs { jobs_to_come result ≡ jobs }
    ensures ticks { ticks_to_come result ≡ ticks }
{
    if jobs == 0 {
        Stage::Ticks {
            before: None,
            left: ticks,
        }
    } else {
        Stage::Jobs {
            version,
            after: jobs - 1,
            room,
            ticks,
        }
    }
}

/// Whether the tick is that of the line before.
fn is_repeated(before: Option<Tick>, tick: Tick) -> bool
    ensures { result ≡ is_repeated before tick }
{
    match before {
        None => false,
        Some(last) => are_same(last, tick),
    }
}

/// Appends so many equal ticks.
fn push_equal(ticks: &mut Vec<Tick>, tick: Tick, count: u64) -> Result<(), AllocError>
    ensures { OnOk result (ticks.new.items ≡ ticks.old.items ++ replicate count tick) }
{
    for _pushed in 0..count {
        ticks.push(tick)?;
    }
    Ok(())
}

/// A run, as far as the lines of its text were read.
#[derive(Drop)]
pub(crate) struct Draft {
    stage: Stage,
    jobs: Vec<Job>,
    ticks: Vec<Tick>,
}

impl Draft {
    pub(crate) fn new(alloc: Global) -> Draft
        ensures { part_of result ≡ nothing_read }
    {
        Draft {
            stage: Stage::Head,
            jobs: Vec::new(alloc),
            ticks: Vec::new(alloc),
        }
    }

    /// Takes a line that says nothing, if it is this text.
    fn take_text(&mut self, line: &[u8], text: &[u8], next: Stage) -> bool
        ensures fits { OnTrue result (part_of self.new ≡
            part next self.old.jobs.items self.old.ticks.items) }
        ensures is { result ≡ is_text line.now text.now }
    {
        if line != text {
            return false;
        }
        self.stage = next;
        true
    }

    fn take_version(&mut self, line: &[u8]) -> bool
        ensures next { after_at stage.Head self.old.jobs.items self.old.ticks.items line.now ≡
            part_if result self.new }
        ensures small { OnTrue result (length self.old.jobs.items ≡ 0 →
            IsSmall (part_of self.new)) }
    {
        let Some(version) = read_version(line) else {
            return false;
        };
        self.stage = Stage::Counts { version };
        true
    }

    /// Takes the numbers of jobs and ticks, and makes room for them.
    fn take_counts(&mut self, line: &[u8], version: Version) -> Result<bool, AllocError>
        ensures next { let stage = stage.Counts version in IfOk result (λ fits.
            after_at stage self.old.jobs.items self.old.ticks.items line.now ≡
            part_if fits self.new) }
        ensures small { IfOk result (λ fits. OnTrue fits (length self.old.jobs.items ≡ 0 →
            IsSmall (part_of self.new))) }
    {
        let Some((jobs, ticks)) = read_counts(line) else {
            return Ok(false);
        };
        self.jobs.reserve_exact(jobs as usize)?;
        self.ticks.reserve_exact(ticks as usize)?;
        self.stage = before_jobs(version, jobs, MOST_SEGMENTS as u64, ticks);
        Ok(true)
    }

    fn take_job(
        &mut self,
        alloc: Global,
        line: &[u8],
        version: Version,
        after: u64,
        room: u64,
        ticks: u64,
    ) -> Result<bool, AllocError>
        ensures { let stage = stage.Jobs version after room ticks in IfOk result (λ fits.
            after_at stage self.old.jobs.items self.old.ticks.items line.now ≡
            part_if fits self.new) }
    {
        let Some(job) = read_job(alloc, line, version, room)? else {
            return Ok(false);
        };
        self.stage = before_jobs(version, after, room - job.segs.len() as u64, ticks);
        self.jobs.push(job)?;
        Ok(true)
    }

    fn take_stretch(
        &mut self,
        line: &[u8],
        before: Option<Tick>,
        left: u64,
    ) -> Result<bool, AllocError>
        requires { length self.old.jobs.items ≤ most_jobs }
        ensures { IfOk result (λ fits.
            after_stretch before left self.old.jobs.items self.old.ticks.items line.now ≡
            part_if fits self.new) }
    {
        let Some((tick, count)) = read_stretch(line, self.jobs.len() as u64, left) else {
            return Ok(false);
        };
        if is_repeated(before, tick) {
            return Ok(false);
        }
        push_equal(&mut self.ticks, tick, count)?;
        self.stage = Stage::Ticks {
            before: Some(tick),
            left: left - count,
        };
        Ok(true)
    }

    /// Takes the next line, and says whether it may come.
    pub(crate) fn take(&mut self, alloc: Global, line: &[u8]) -> Result<bool, AllocError>
        requires { IsSmall (part_of self.old) }
        ensures next { IfOk result (λ fits. after_line (part_of self.old) line.now ≡
            part_if fits self.new) }
        ensures small { IfOk result (λ fits. OnTrue fits (IsSmall (part_of self.new))) }
    {
        match self.stage {
            Stage::Head => Ok(self.take_version(line)),
            Stage::Counts { version } => self.take_counts(line, version),
            Stage::Jobs {
                version,
                after,
                room,
                ticks,
            } => self.take_job(alloc, line, version, after, room, ticks),
            Stage::Ticks { before, left } => {
                if left == 0 {
                    Ok(self.take_text(line, b"end", Stage::Over))
                } else {
                    self.take_stretch(line, before, left)
                }
            }
            Stage::Over => Ok(false),
        }
    }

    pub(crate) fn is_over(&self) -> bool
        ensures { IsTrue result ↔ (self.now.stage ≡ stage.Over) }
    {
        matches!(&self.stage, Stage::Over)
    }

    pub(crate) fn into_run(self) -> Run
        ensures { result ≡ record { jobs = self.jobs.items; ticks = self.ticks.items } }
    {
        Run {
            jobs: Items::new(self.jobs),
            ticks: Items::new(self.ticks),
        }
    }
}
