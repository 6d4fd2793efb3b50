//! How many jobs of a task may arrive.
ghost use Rattle.std.specs.Prelude.{◌≡◌, IfOk, option_map, codes};
ghost use Rattle.toml.specs.Data.{array, get};
ghost use Rattle.toml.specs.View.{view, items_view};
ghost use Rattle.curve.specs.Validity.{IsCurve, prefix_check_of};
ghost use Rattle.sheet_text.specs.Readings.{ReadsAs};
ghost use Rattle.sheet_text.specs.Documents.{all_of, all_in};
ghost use Rattle.sheet_text.specs.CurveRows.{step_from as step_from_of, step_of as step_of_value, curve_refusal as refusal_of, curve_or_refusal, steps_rule, curve_rule, period_rule, arrivals_rule};

use crate::document::{check_keys, check_table, needed_value};
use crate::numbers::{number, positive, whole};
use curve::{CurveRefusal, Prefix, Step};
use lists::limits::GREATEST_NUMBER;
use std::alloc::{AllocError, Global};
use task_sheet::{Field, Place, SheetRefusal};
use toml::Value;

fn step_from(time: Option<u64>, value: Option<u64>) -> Option<Step>
    ensures { result ≡ step_from_of time value }
{
    match (time, value) {
        (Some(time), Some(value)) => Some(Step { time, value }),
        _ => None,
    }
}

#[tactic(auto, using(crate::proofs::StepFacts::no_step))]
fn step_in(items: &[Value]) -> Option<Step>
    ensures { result ≡ step_of_value (array (items_view items.now)) }
{
    match items {
        [time, value] => step_from(number(time), number(value)),
        _ => None,
    }
}

/// A step is an array of exactly two integers.
fn step_of(value: &Value) -> Option<Step>
    ensures { result ≡ step_of_value (view value.now) }
{
    match value {
        Value::Array(items) => step_in(items.as_slice()),
        _ => None,
    }
}

fn all_steps(alloc: Global, items: &[Value]) -> Result<Option<Vec<Step>>, AllocError>
    ensures { IfOk result (λ o. option_map (λ v. v.items) o ≡
        all_of step_of_value (items_view items.now)) }
{
    let mut steps = Vec::new(alloc);
    'items: for item in items {
        match step_of(item) {
            Some(step) => steps.push(step)?,
            None => return Ok(None),
        }
    }
    Ok(Some(steps))
}

fn steps_in(alloc: Global, value: &Value) -> Result<Option<Vec<Step>>, AllocError>
    ensures { IfOk result (λ o. option_map (λ v. v.items) o ≡
        all_in step_of_value (view value.now)) }
{
    match value {
        Value::Array(items) => all_steps(alloc, items.as_slice()),
        _ => Ok(None),
    }
}

/// The sheet's refusal of a curve.
fn curve_refusal(place: Place, refusal: CurveRefusal) -> SheetRefusal
    ensures { result ≡ refusal_of place refusal }
{
    match refusal {
        CurveRefusal::Horizon => SheetRefusal::Range {
            place,
            field: Field::CurveHorizon,
        },
        CurveRefusal::Limit => SheetRefusal::Range {
            place,
            field: Field::CurveSteps,
        },
        CurveRefusal::First | CurveRefusal::Order | CurveRefusal::Past => SheetRefusal::Order {
            place,
            field: Field::CurveSteps,
        },
    }
}

fn curve_from(place: Place, horizon: u64, steps: Vec<Step>) -> Result<Prefix, SheetRefusal>
    ensures gives { result ≡ curve_or_refusal place (prefix_check_of horizon steps.items) }
    ensures valid { IfOk result IsCurve }
{
    match Prefix::check(horizon, steps) {
        Ok(prefix) => Ok(prefix),
        Err(refusal) => Err(curve_refusal(place, refusal)),
    }
}

fn with_steps(
    alloc: Global,
    place: Place,
    horizon: u64,
    steps: &Value,
) -> Result<Prefix, SheetRefusal>
    ensures gives { ReadsAs (λ c. c) result (steps_rule place horizon (view steps.now)) }
    ensures valid { IfOk result IsCurve }
{
    let Some(steps) = steps_in(alloc, steps)? else {
        return Err(SheetRefusal::Kind {
            place,
            field: Field::CurveSteps,
        });
    };
    curve_from(place, horizon, steps)
}

#[tactic(auto, unfolding(crate::specs::CurveRows::curve_rule))]
fn curve_of(alloc: Global, place: Place, value: &Value) -> Result<Prefix, SheetRefusal>
    ensures gives { ReadsAs (λ c. c) result (curve_rule place (view value.now)) }
    ensures valid { IfOk result IsCurve }
{
    check_table(value, place, Field::Curve)?;
    check_keys(value, &["horizon", "steps"], place)?;
    let horizon = positive(value, "horizon", place, Field::CurveHorizon)?;
    with_steps(
        alloc,
        place,
        horizon,
        needed_value(value, "steps", place, Field::CurveSteps)?,
    )
}

/// One job in each period.
fn periodic(alloc: Global, place: Place, value: &Value) -> Result<Prefix, SheetRefusal>
    ensures gives { ReadsAs (λ c. c) result (period_rule place (view value.now)) }
    ensures valid { IfOk result IsCurve }
{
    let period = whole(value, place, Field::Period, 1, GREATEST_NUMBER)?;
    Ok(Prefix::periodic(alloc, period)?)
}

/// The curve of task `n`, which has a period or a curve, and not both.
pub fn arrivals(alloc: Global, n: u32, task: &Value) -> Result<Prefix, SheetRefusal>
    ensures gives { ReadsAs (λ c. c) result (arrivals_rule n
        (get (codes "period") (view task.now)) (get (codes "curve") (view task.now))) }
    ensures valid { IfOk result IsCurve }
{
    let place = Place::Task(n);
    match (task.get("period"), task.get("curve")) {
        (Some(_), Some(_)) => Err(SheetRefusal::Both { task: n }),
        (None, None) => Err(SheetRefusal::Missing {
            place,
            field: Field::Curve,
        }),
        (Some(period), None) => periodic(alloc, place, period),
        (None, Some(curve)) => curve_of(alloc, place, curve),
    }
}
