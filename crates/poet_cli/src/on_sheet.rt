//! What the crates below compute, by a sheet's own policy, preemption and supply. Nothing else
//! looks at which policy a sheet names.
ghost use Rattle.std.specs.Prelude.{◌≡◌, ◌≤◌, false, length, None, IfOk, IfErr};
ghost use Rattle.lists.specs.Limits.{greatest_number, most_ticks};
ghost use Rattle.policy.specs.PolicyMeaning.{PolicyMeaning};
ghost use Rattle.policy_more.specs.Meanings.{meaning_of};
ghost use Rattle.preemption.specs.Kinds.{per_task_meaning};
ghost use Rattle.supply.specs.Promises.{sbf_of};
ghost use Rattle.certificate.specs.Text.{IsWithinGrammar};
ghost use Rattle.conditions.specs.Filled.{with_terms as with_terms_of, FailsAlike};
ghost use Rattle.cert_check.specs.Verdicts.{bounds_of, AreSound};
ghost use Rattle.run_text.specs.Text.{IsWithinLimits};
ghost use Rattle.schedule_laws.specs.Compliance.{IsCompliant};
ghost use Rattle.simulated_run.specs.declared.mode.Mode.TheVariants.{Dense};
ghost use Rattle.simulated_run.specs.Laws.{IsDense};
ghost use Rattle.simulator.specs.Simulations.{IsSimulation};
ghost use Rattle.audit.specs.Verdicts.{TellsCompliance};
ghost use Rattle.solver.specs.Outcome.{IsBestAnswer};
ghost use Rattle.poet_text.specs.Tellings.{outlets};
ghost use Rattle.poet_cli.specs.Analyses.{IsBestBy, IsNoneBy};
ghost use Rattle.poet_cli.specs.Answers.{failed_for};
ghost use Rattle.poet_cli.specs.Readings.{shelf_at};
ghost use Rattle.poet_cli.specs.CertVerdicts.{JudgedUnless};
ghost use Rattle.poet_cli.specs.Clauses.{outside};
ghost use Rattle.poet_cli.specs.RunAnswers.{world_for, audit_for};
ghost use Rattle.poet_cli.specs.UpgradeAnswers.{upgraded};

use crate::checking::judge_by;
use audit::{AuditVerdict, audit};
use cert_check::{accepted_is_sound, judge_cert};
use certificate::Cert;
use conditions::{Failed, fill_terms, terms_change_nothing, with_room};
use poet_io::{Shelf, Sink};
use policy::Policy;
use policy_more::by_policy;
use preemption::PerTask;
use run_model::Run;
use simulated_run::Mode;
use simulator::{SimRefusal, simulate};
use solver::{AnalyseRefusal, analyse};
use std::alloc::{AllocError, Global};
use supply::Supply;
use task_sheet::Sheet;

/// Judges the certificate of a file with a checker that is made for the sheet, tells what came of
/// it, and answers the status.
pub fn judged_on<H: Shelf, O: Sink, E: Sink>(
    alloc: Global,
    sheet: &Sheet,
    name: &str,
    deadlines: bool,
    shelf: &mut H,
    out: &mut O,
    err: &mut E,
) -> u8
    ensures { JudgedUnless (meaning_of sheet.now.policy) per_task_meaning sheet.now deadlines
        name.now
        (outside (shelf_at H.files H.faults H.is_open H.log shelf.old)
        (outlets O.written O.faults E.written E.faults out.old err.old))
        (outside (shelf_at H.files H.faults H.is_open H.log shelf.new)
        (outlets O.written O.faults E.written E.faults out.new err.new)) result }
{
    by_policy!(sheet.policy() => judge_by::<_, H, O, E>(
        alloc, sheet, name, deadlines, shelf, out, err
    ))
}

/// The first condition that a certificate fails to meet, but for that on deadlines.
pub fn first_failed(alloc: Global, sheet: &Sheet, cert: &Cert) -> Result<Option<Failed>, AllocError>
    requires { IsWithinGrammar cert.now }
    ensures defined { IfOk result (λ failed. failed ≡ failed_for sheet.now false cert.now) }
    ensures bounded { IfOk result (λ failed. failed ≡ None →
        AreSound (meaning_of sheet.now.policy) per_task_meaning
        (sbf_of sheet.now.supply) sheet.now false (bounds_of cert.now)) }
{
    by_policy!(sheet.policy() => judge_cert::<_, PerTask, Sheet>(alloc, sheet, sheet, cert, false))
}

/// The certificate with the terms of each point, by a policy.
#[tactic(auto, using(conditions::proofs::FilledFacts::room_count, conditions::proofs::FilledFacts::room_version, conditions::proofs::FilledFacts::room_filled))]
fn terms_by<P: Policy>(alloc: Global, sheet: &Sheet, cert: Cert) -> Result<Cert, AllocError>
    requires tasks { length cert.entries ≡ length sheet.now.tasks }
    requires fits { IsWithinGrammar cert }
    ensures exact { IfOk result
        (λ c. c ≡ with_terms_of P.meaning per_task_meaning sheet.now cert) }
    ensures fits { IfOk result IsWithinGrammar }
    ensures alike { FailsAlike P.meaning per_task_meaning (sbf_of sheet.now.supply) sheet.now cert }
{
    terms_change_nothing::<P, PerTask, Sheet>();
    let mut cert = with_room(alloc, cert)?;
    fill_terms::<P, PerTask>(sheet, &mut cert);
    Ok(cert)
}

/// The certificate in the second version, with the terms of each point.
pub fn with_terms(alloc: Global, sheet: &Sheet, cert: Cert) -> Result<Cert, AllocError>
    requires tasks { length cert.entries ≡ length sheet.now.tasks }
    requires fits { IsWithinGrammar cert }
    ensures exact { IfOk result (λ c. c ≡ upgraded sheet.now cert) }
    ensures fits { IfOk result IsWithinGrammar }
    ensures alike { FailsAlike (meaning_of sheet.now.policy) per_task_meaning
        (sbf_of sheet.now.supply) sheet.now cert }
{
    by_policy!(sheet.policy() => terms_by::<_>(alloc, sheet, cert))
}

/// The best certificate by a policy.
fn best_by<P: Policy>(alloc: Global, sheet: &Sheet, horizon: u64) -> Result<Cert, AnalyseRefusal>
    requires { horizon ≤ greatest_number }
    ensures exact { IsBestAnswer P.meaning per_task_meaning (sbf_of sheet.now.supply) sheet.now
        horizon result }
    ensures best { IfOk result (IsBestBy P.meaning sheet.now horizon) }
    ensures none { IfErr result (IsNoneBy P.meaning sheet.now horizon) }
{
    // for the proof: the sheet is valid
    let _valid = sheet.len();
    sheet.known();
    accepted_is_sound::<P, PerTask, Sheet>();
    analyse::<P, PerTask, Sheet>(alloc, sheet, sheet, horizon)
}

/// The best certificate.
pub fn best(alloc: Global, sheet: &Sheet, horizon: u64) -> Result<Cert, AnalyseRefusal>
    requires { horizon ≤ greatest_number }
    ensures exact { IsBestAnswer (meaning_of sheet.now.policy) per_task_meaning
        (sbf_of sheet.now.supply) sheet.now horizon result }
    ensures best { IfOk result (IsBestBy (meaning_of sheet.now.policy) sheet.now horizon) }
    ensures none { IfErr result (IsNoneBy (meaning_of sheet.now.policy) sheet.now horizon) }
{
    by_policy!(sheet.policy() => best_by::<_>(alloc, sheet, horizon))
}

/// The simulated run.
pub fn simulation(alloc: Global, sheet: &Sheet, mode: Mode, ticks: u64) -> Result<Run, SimRefusal>
    requires { ticks ≤ most_ticks }
    ensures exact { IsSimulation (world_for sheet.now mode) ticks result }
    ensures complies { IfOk result (IsCompliant (meaning_of sheet.now.policy) per_task_meaning
        (sbf_of sheet.now.supply) sheet.now) }
    ensures full { mode ≡ Dense → IfOk result (IsDense sheet.now ticks) }
    ensures within { IfOk result IsWithinLimits }
{
    by_policy!(sheet.policy() => simulate::<_, PerTask, Sheet>(alloc, sheet, sheet, mode, ticks))
}

/// The verdict on a run.
pub fn verdict_on(alloc: Global, sheet: &Sheet, run: &Run) -> Result<AuditVerdict, AllocError>
    requires { IsWithinLimits run.now }
    ensures exact { IfOk result (λ v. v ≡ audit_for sheet.now run.now) }
    ensures tells { IfOk result (TellsCompliance (meaning_of sheet.now.policy) per_task_meaning
        (sbf_of sheet.now.supply) sheet.now run.now) }
{
    by_policy!(sheet.policy() => audit::<_, PerTask, Sheet>(alloc, sheet, sheet, run))
}
