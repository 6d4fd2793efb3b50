//! The text of a verdict on a run.
ghost use Rattle.std.specs.Prelude.{◌≡◌, ◌++◌, length, OnOk, IfOk};
ghost use Rattle.poet_text.specs.RunPrinting.{jobs_text, seen_line, seen_text, compliant_text, rule_word as rule_word_of, broken_text, audit_print, IsPrintableVerdict};

use crate::printed::Printed;
use crate::printing::{push_counted, push_named, push_two};
use audit::{AuditVerdict, Rule, Seen};
use lists::Items;
use std::alloc::{AllocError, Global};
use task_sheet::{Sheet, Task};

/// Appends how many jobs there are and are done, and the worst response time, up to the line's end.
#[tactic(auto, unfolding(crate::specs::RunPrinting::jobs_text))]
pub fn push_jobs(out: &mut Vec<u8>, jobs: u64, done: u64, worst: u64) -> Result<(), AllocError>
    ensures { OnOk result (out.new.items ≡ out.old.items ++ jobs_text jobs done worst) }
{
    push_two(out, " jobs ", jobs, " done ", done)?;
    push_counted(out, " worst ", worst)?;
    out.extend_from_slice("\n".as_bytes())
}

/// Appends the line of a task.
#[tactic(auto, unfolding(crate::specs::RunPrinting::seen_line, crate::specs::RunPrinting::jobs_text))]
fn push_seen(out: &mut Vec<u8>, task: &Task, seen: &Seen) -> Result<(), AllocError>
    ensures { OnOk result (out.new.items ≡ out.old.items ++ seen_line task.now seen.now) }
{
    out.extend_from_slice("task ".as_bytes())?;
    out.extend_from_slice(task.name.as_str().as_bytes())?;
    push_jobs(out, seen.jobs, seen.done, seen.worst)
}

/// Appends a line for each task.
fn push_all_seen(out: &mut Vec<u8>, sheet: &Sheet, seen: &[Seen]) -> Result<(), AllocError>
    requires { length seen.now ≡ length sheet.now.tasks }
    ensures { OnOk result (out.new.items ≡ out.old.items ++ seen_text sheet.now.tasks seen.now) }
{
    for i in 0..sheet.len() {
        push_seen(out, sheet.task(i), &seen[i as usize])?;
    }
    Ok(())
}

/// That a run complies, and what is seen of each task.
#[tactic(auto, unfolding(crate::specs::RunPrinting::compliant_text))]
fn compliant(alloc: Global, sheet: &Sheet, seen: &[Seen]) -> Result<Items<u8>, AllocError>
    requires { length seen.now ≡ length sheet.now.tasks }
    ensures { IfOk result (λ text. text ≡ compliant_text sheet.now seen.now) }
{
    let mut text = Vec::from_slice(alloc, "compliant\n".as_bytes())?;
    push_all_seen(&mut text, sheet, seen)?;
    Ok(Items::new(text))
}

fn rule_word(rule: Rule) -> &'static str
    ensures { result.now ≡ rule_word_of rule }
{
    match rule {
        Rule::Fit => "fit",
        Rule::Release => "release",
        Rule::Valid => "valid",
        Rule::Curve => "curve",
        Rule::Supply => "supply",
        Rule::Idle => "idle",
        Rule::Segment => "segment",
        Rule::Priority => "priority",
    }
}

/// The number of a job, for its text.
fn wide(job: Option<u32>) -> Option<u64>
    ensures { result ≡ job }
{
    match job {
        Some(k) => Some(u64::from(k)),
        None => None,
    }
}

/// The rule that a run breaks, and where.
#[tactic(auto, unfolding(crate::specs::RunPrinting::broken_text))]
fn broken(
    alloc: Global,
    rule: Rule,
    job: Option<u32>,
    tick: Option<u64>,
) -> Result<Items<u8>, AllocError>
    ensures { IfOk result (λ text. text ≡ broken_text rule job tick) }
{
    let mut text = Vec::from_slice(alloc, "broken ".as_bytes())?;
    text.extend_from_slice(rule_word(rule).as_bytes())?;
    push_named(&mut text, " job ", wide(job))?;
    push_named(&mut text, " tick ", tick)?;
    text.extend_from_slice("\n".as_bytes())?;
    Ok(Items::new(text))
}

/// What is printed of a verdict.
pub fn print_of(alloc: Global, sheet: &Sheet, verdict: &AuditVerdict) -> Result<Printed, AllocError>
    requires { IsPrintableVerdict sheet.now verdict.now }
    ensures { IfOk result (λ print. print ≡ audit_print sheet.now verdict.now) }
{
    match verdict {
        AuditVerdict::Compliant(seen) => Ok(Printed::Done(compliant(
            alloc,
            sheet,
            seen.as_slice(),
        )?)),
        AuditVerdict::Broken { rule, job, tick } => Ok(Printed::JudgedNo(broken(
            alloc, *rule, *job, *tick,
        )?)),
    }
}
