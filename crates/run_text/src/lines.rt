//! What a line of a run's text says, read by itself.

ghost use Rattle.std.specs.Prelude.{◌≡◌, ◌<◌, ◌≤◌, [], ◌∷◌, length, IfOk, IfSome, IfNone};
ghost use Rattle.std.specs.Option.{option_map};
ghost use Rattle.lists.specs.Limits.{most_jobs, most_ticks, greatest_number};
ghost use Rattle.poet_io.specs.Decimals.{number_in};
ghost use Rattle.run_text.specs.Text.{stretch};
ghost use Rattle.run_text.specs.Unread.{unread};
ghost use Rattle.run_text.specs.Lines.{version_of, counts_of, job_number, release_number, segments_from, make_job, job_with, from_release, job_of, named_job, plain_stretch, job_stretch, stretch_of};

use crate::version::Version;
use crate::words::Words;
use lists::Items;
use lists::limits::{GREATEST_NUMBER, MOST_JOBS, MOST_TICKS};
use poet_io::read_number_in;
use run_model::Tick;
use std::alloc::{AllocError, Global};
use task_sheet::Job;

/// The greatest release: that of a job which arrives last, and whose task has the greatest jitter.
const GREATEST_RELEASE: u64 = 2 * GREATEST_NUMBER;

/// The version that the first line names.
pub(crate) fn read_version(line: &[u8]) -> Option<Version>
    ensures { result ≡ version_of line.now }
{
    if line == b"poet-run 1".as_slice() {
        Some(Version::First)
    } else if line == b"poet-run 2".as_slice() {
        Some(Version::Second)
    } else {
        None
    }
}

/// The numbers of jobs and ticks.
pub(crate) fn read_counts(line: &[u8]) -> Option<(u64, u64)>
    ensures counts { result ≡ counts_of line.now }
    ensures few_jobs { IfSome result (λ n. n.0 ≤ most_jobs) }
    ensures few_ticks { IfSome result (λ n. n.1 ≤ most_ticks) }
{
    let mut words = Words::new(line);
    let first = words.next()?;
    let jobs = words.next()?;
    let second = words.next()?;
    let ticks = words.next()?;
    if words.next().is_some() || first != b"jobs".as_slice() || second != b"ticks".as_slice() {
        return None;
    }
    let jobs = read_number_in(jobs, 0, MOST_JOBS as u64)?;
    let ticks = read_number_in(ticks, 0, MOST_TICKS)?;
    Some((jobs, ticks))
}

/// How often a tick comes, where `left` ticks are left.
fn read_count(word: &[u8], left: u64) -> Option<u64>
    ensures count { result ≡ number_in 1 left word.now }
    ensures few { IfSome result (λ n. n ≤ left) }
{
    read_number_in(word, 1, left)
}

/// The tick of the words `off N` or `idle N`, and how often it comes.
fn read_plain_stretch(first: &[u8], count: &[u8], left: u64) -> Option<(Tick, u64)>
    ensures few { IfSome result (λ s. s.1 ≤ left) }
    ensures stretch { option_map (λ s. stretch s.0 s.1) result ≡
        plain_stretch left first.now count.now }
{
    let tick = if first == b"off".as_slice() {
        Tick::Off
    } else if first == b"idle".as_slice() {
        Tick::Idle
    } else {
        return None;
    };
    let count = read_count(count, left)?;
    Some((tick, count))
}

/// The job that a word names, where so many jobs are numbered from 0.
fn read_named_job(word: &[u8], jobs: u64) -> Option<u64>
    ensures named { result ≡ named_job jobs word.now }
    ensures below { IfSome result (λ job. job < jobs) }
{
    if jobs == 0 {
        return None;
    }
    read_number_in(word, 0, jobs - 1)
}

/// The tick of the words `run K N`, and how often it comes.
fn read_job_stretch(
    first: &[u8],
    job: &[u8],
    count: &[u8],
    jobs: u64,
    left: u64,
) -> Option<(Tick, u64)>
    requires { jobs ≤ most_jobs }
    ensures few { IfSome result (λ s. s.1 ≤ left) }
    ensures stretch { option_map (λ s. stretch s.0 s.1) result ≡
        job_stretch jobs left first.now job.now count.now }
{
    if first != b"run".as_slice() {
        return None;
    }
    let job = read_named_job(job, jobs)?;
    let count = read_count(count, left)?;
    Some((Tick::Runs(job as u32), count))
}

/// The tick of a line, and how often it comes.
///
/// There are so many jobs, and `left` ticks are left.
pub(crate) fn read_stretch(line: &[u8], jobs: u64, left: u64) -> Option<(Tick, u64)>
    requires { jobs ≤ most_jobs }
    ensures few { IfSome result (λ s. s.1 ≤ left) }
    ensures stretch { option_map (λ s. stretch s.0 s.1) result ≡ stretch_of jobs left line.now }
{
    let mut words = Words::new(line);
    let first = words.next()?;
    let second = words.next()?;
    let Some(third) = words.next() else {
        return read_plain_stretch(first, second, left);
    };
    if words.next().is_some() {
        return None;
    }
    read_job_stretch(first, second, third, jobs, left)
}

/// A number in the line of a job, but for the release.
fn read_job_number(word: &[u8]) -> Option<u64>
    ensures number { result ≡ job_number word.now }
    ensures small { IfSome result (λ n. n ≤ greatest_number) }
{
    read_number_in(word, 0, GREATEST_NUMBER)
}

/// A job's release.
fn read_release(word: &[u8]) -> Option<u64>
    ensures { result ≡ release_number word.now }
{
    read_number_in(word, 0, GREATEST_RELEASE)
}

/// The segments that the words are, of which there are at most `room`.
fn read_segments(alloc: Global, words: Words<'_>, room: u64) -> Result<Option<Vec<u64>>, AllocError>
    ensures few { IfOk result (λ segments. IfSome segments (λ v. length v.items ≤ room)) }
    ensures segments { IfOk result (λ segments. option_map (λ v. v.items) segments ≡
        segments_from room [] (unread words.entry)) }
{
    let mut segments = Vec::new(alloc);
    for word in words {
        if segments.len() as u64 == room {
            return Ok(None);
        }
        let Some(segment) = read_job_number(word) else {
            return Ok(None);
        };
        segments.push(segment)?;
    }
    Ok(Some(segments))
}

/// The word of the release, behind that of the arrival, which stands for it in the first version.
fn release_word<'a>(version: Version, arrival: &'a [u8], words: &mut Words<'a>) -> Option<&'a [u8]>
    ensures some { IfSome result (λ release.
        from_release version arrival.now (unread words.old) ≡ release.now ∷ unread words.new) }
    ensures none { IfNone result (from_release version arrival.now (unread words.old) ≡ []) }
{
    match version {
        Version::First => Some(arrival),
        Version::Second => words.next(),
    }
}

/// The numbers of a job.
#[derive(Clone, Copy)]
struct Numbers {
    task: u32,
    arrival: u64,
    release: u64,
    cost: u64,
}

/// The numbers of a job that these words say.
fn read_numbers(task: &[u8], arrival: &[u8], release: &[u8], cost: &[u8]) -> Option<Numbers>
    ensures { option_map (λ n. make_job n.task n.arrival n.release n.cost []) result ≡
        job_with (job_number task.now) (job_number arrival.now) (release_number release.now)
        (job_number cost.now) (Some []) }
{
    let task = read_job_number(task)? as u32;
    let arrival = read_job_number(arrival)?;
    let release = read_release(release)?;
    let cost = read_job_number(cost)?;
    Some(Numbers {
        task,
        arrival,
        release,
        cost,
    })
}

/// The job of a line in this version, with at most `room` segments.
pub(crate) fn read_job(
    alloc: Global,
    line: &[u8],
    version: Version,
    room: u64,
) -> Result<Option<Job>, AllocError>
    ensures job { IfOk result (λ job. job ≡ job_of version room line.now) }
    ensures few { IfOk result (λ job. IfSome job (λ j. length j.segs ≤ room)) }
{
    let mut words = Words::new(line);
    let Some(first) = words.next() else {
        return Ok(None);
    };
    let Some(task) = words.next() else {
        return Ok(None);
    };
    let Some(arrival) = words.next() else {
        return Ok(None);
    };
    let Some(release) = release_word(version, arrival, &mut words) else {
        return Ok(None);
    };
    let Some(cost) = words.next() else {
        return Ok(None);
    };
    if first != b"j".as_slice() {
        return Ok(None);
    }
    let Some(numbers) = read_numbers(task, arrival, release, cost) else {
        return Ok(None);
    };
    let Some(segs) = read_segments(alloc, words, room)? else {
        return Ok(None);
    };
    Ok(Some(Job {
        task: numbers.task,
        arrival: numbers.arrival,
        release: numbers.release,
        cost: numbers.cost,
        segs: Items::new(segs),
    }))
}
