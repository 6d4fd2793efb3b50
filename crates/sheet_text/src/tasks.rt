//! The tasks of a document.
ghost use Rattle.std.specs.Prelude.{◌≡◌, ◌≤◌, ◌<◌, ◌∷◌, ◌++◌, [], ℕ, true, false, map, length, string_bytes, bytes_eq, codes, Ok, IfOk, slice_index_or};
ghost use Rattle.std.specs.List.{list_any};
ghost use Rattle.lists.specs.Limits.{greatest_number, most_tasks};
ghost use Rattle.toml.specs.Data.{string, integer, get};
ghost use Rattle.toml.specs.View.{view, items_view};
ghost use Rattle.curve.specs.Validity.{IsCurve};
ghost use Rattle.lists.specs.Ranges.{is_between};
ghost use Rattle.task_sheet.specs.Rules.{is_name as is_name_of, is_in_range, is_priority_point as is_priority_point_of, most_jitter, task_rule, tasks_rule};
ghost use Rattle.task_sheet.specs.Sheets.{no_task};
ghost use Rattle.sheet_text.specs.Readings.{ReadsAs};
ghost use Rattle.sheet_text.specs.Documents.{whole_rule};
ghost use Rattle.sheet_text.specs.TaskRows.{name_rule, unsaid_priority as unsaid_of, priority_rule, jitter_rule, said_point as said_point_of, point_rule, numbers_rule, task_of as task_of_value, tasks_after};

use crate::arrivals::arrivals;
use crate::cuts::preemption;
use crate::document::{check_keys, needed_value};
use crate::numbers::{positive, whole};
use indexmap::IndexSet;
use lists::Text;
use lists::limits::GREATEST_NUMBER;
use std::alloc::Global;
use task_sheet::{
    Field, MOST_JITTER, Place, PolicyKind, SheetRefusal, Task, is_name, is_priority_point,
};
use toml::Value;

const TASK_KEYS: [&str; 9] = [
    "name",
    "cost",
    "deadline",
    "priority",
    "jitter",
    "point",
    "period",
    "curve",
    "preemption",
];

/// The numbers of a task.
#[derive(Clone, Copy)]
pub struct TaskNumbers {
    pub cost: u64,
    pub deadline: u64,
    pub priority: u64,
    pub jitter: u64,
    pub point: i64,
}

/// A name for task `n` that is not among these, and is put there.
#[tactic(auto, unfolding(crate::specs::TaskRows::name_rule))]
fn new_name<'a>(
    alloc: Global,
    name: &'a str,
    n: u32,
    names: &mut IndexSet<String>,
) -> Result<&'a str, SheetRefusal>
    ensures gives { ReadsAs (λ s. s.now) result
        (name_rule n (map string_bytes names.old.keys) (string name.now)) }
    ensures kept { IfOk result (λ s. map string_bytes names.new.keys ≡
        map string_bytes names.old.keys ++ s.now ∷ []) }
    ensures plain { IfOk result (λ s. is_name_of s.now ≡ true) }
    ensures fresh { IfOk result (λ s.
        list_any (bytes_eq s.now) (map string_bytes names.old.keys) ≡ false) }
{
    if !is_name(name) {
        return Err(SheetRefusal::Range {
            place: Place::Task(n),
            field: Field::Name,
        });
    }
    if names.insert(String::from_str(alloc, name)?)? {
        Ok(name)
    } else {
        Err(SheetRefusal::Twice { task: n })
    }
}

#[tactic(auto, unfolding(crate::specs::TaskRows::name_rule))]
fn name_of<'a>(
    alloc: Global,
    value: &'a Value,
    n: u32,
    names: &mut IndexSet<String>,
) -> Result<&'a str, SheetRefusal>
    ensures gives { ReadsAs (λ s. s.now) result
        (name_rule n (map string_bytes names.old.keys) (view value.now)) }
    ensures kept { IfOk result (λ s. map string_bytes names.new.keys ≡
        map string_bytes names.old.keys ++ s.now ∷ []) }
    ensures plain { IfOk result (λ s. is_name_of s.now ≡ true) }
    ensures fresh { IfOk result (λ s.
        list_any (bytes_eq s.now) (map string_bytes names.old.keys) ≡ false) }
{
    match value {
        Value::String(name) => new_name(alloc, name.as_str(), n, names),
        _ => Err(SheetRefusal::Kind {
            place: Place::Task(n),
            field: Field::Name,
        }),
    }
}

/// The priority of a task that says none.
fn unsaid_priority(policy: PolicyKind, place: Place) -> Result<u64, SheetRefusal>
    ensures gives { result ≡ unsaid_of policy place }
    ensures within { IfOk result (λ n. n ≤ greatest_number) }
{
    match policy {
        PolicyKind::Fp | PolicyKind::Elf => Err(SheetRefusal::Missing {
            place,
            field: Field::Priority,
        }),
        PolicyKind::Edf | PolicyKind::Fifo | PolicyKind::Gel => Ok(0),
    }
}

fn said_priority(place: Place, value: &Value) -> Result<u64, SheetRefusal>
    ensures gives { result ≡ whole_rule place Field.Priority 0 greatest_number (view value.now) }
    ensures within { IfOk result (λ n. n ≤ greatest_number) }
{
    whole(value, place, Field::Priority, 0, GREATEST_NUMBER)
}

fn priority_of(policy: PolicyKind, place: Place, task: &Value) -> Result<u64, SheetRefusal>
    ensures gives { result ≡ priority_rule policy place (get (codes "priority") (view task.now)) }
    ensures within { IfOk result (λ n. n ≤ greatest_number) }
{
    match task.get("priority") {
        Some(priority) => said_priority(place, priority),
        None => unsaid_priority(policy, place),
    }
}

#[tactic(auto, unfolding(task_sheet::specs::Rules::most_jitter))]
fn said_jitter(place: Place, value: &Value) -> Result<u64, SheetRefusal>
    ensures gives { result ≡ whole_rule place Field.Jitter 0 most_jitter (view value.now) }
    ensures within { IfOk result (λ n. n ≤ most_jitter) }
{
    whole(value, place, Field::Jitter, 0, MOST_JITTER)
}

/// The jitter of a task, which is 0 where it says none.
fn jitter_of(place: Place, task: &Value) -> Result<u64, SheetRefusal>
    ensures gives { result ≡ jitter_rule place (get (codes "jitter") (view task.now)) }
    ensures within { IfOk result (λ n. n ≤ most_jitter) }
{
    match task.get("jitter") {
        Some(jitter) => said_jitter(place, jitter),
        None => Ok(0),
    }
}

fn point_in_range(place: Place, point: i64) -> Result<i64, SheetRefusal>
    ensures gives { result ≡ said_point_of place (integer point) }
    ensures within { IfOk result (λ q. is_priority_point_of q ≡ true) }
{
    if is_priority_point(point) {
        Ok(point)
    } else {
        Err(SheetRefusal::Range {
            place,
            field: Field::Point,
        })
    }
}

fn said_point(place: Place, value: &Value) -> Result<i64, SheetRefusal>
    ensures gives { result ≡ said_point_of place (view value.now) }
    ensures within { IfOk result (λ q. is_priority_point_of q ≡ true) }
{
    match value {
        Value::Integer(point) => point_in_range(place, *point),
        _ => Err(SheetRefusal::Kind {
            place,
            field: Field::Point,
        }),
    }
}

/// The priority point of a task, which is 0 where it says none.
#[tactic(auto, using(task_sheet::specs::Limits::no_point))]
fn point_of(place: Place, task: &Value) -> Result<i64, SheetRefusal>
    ensures gives { result ≡ point_rule place (get (codes "point") (view task.now)) }
    ensures within { IfOk result (λ q. is_priority_point_of q ≡ true) }
{
    match task.get("point") {
        Some(point) => said_point(place, point),
        None => Ok(0),
    }
}

#[tactic(auto, unfolding(crate::specs::TaskRows::numbers_rule))]
fn numbers_of(policy: PolicyKind, place: Place, task: &Value) -> Result<TaskNumbers, SheetRefusal>
    ensures gives { result ≡ numbers_rule policy place (view task.now) }
    ensures cost { IfOk result (λ n. is_in_range n.cost ≡ true) }
    ensures deadline { IfOk result (λ n. is_in_range n.deadline ≡ true) }
    ensures priority { IfOk result (λ n. n.priority ≤ greatest_number) }
    ensures jitter { IfOk result (λ n. n.jitter ≤ most_jitter) }
    ensures point { IfOk result (λ n. is_priority_point_of n.point ≡ true) }
{
    let cost = positive(task, "cost", place, Field::Cost)?;
    let deadline = positive(task, "deadline", place, Field::Deadline)?;
    let priority = priority_of(policy, place, task)?;
    let jitter = jitter_of(place, task)?;
    let point = point_of(place, task)?;
    Ok(TaskNumbers {
        cost,
        deadline,
        priority,
        jitter,
        point,
    })
}

/// Task `n`, after tasks of these names.
#[tactic(auto, unfolding(crate::specs::TaskRows::task_of))]
fn task_of(
    alloc: Global,
    policy: PolicyKind,
    n: u32,
    names: &mut IndexSet<String>,
    value: &Value,
) -> Result<Task, SheetRefusal>
    ensures gives { ReadsAs (λ t. t) result
        (task_of_value policy n (map string_bytes names.old.keys) (view value.now)) }
    ensures kept { IfOk result (λ t. map string_bytes names.new.keys ≡
        map string_bytes names.old.keys ++ t.name ∷ []) }
    ensures rule { IfOk result (λ t. task_rule n (map string_bytes names.old.keys) t ≡ Ok tt) }
    ensures curve { IfOk result (λ t. IsCurve t.curve) }
{
    let place = Place::Task(n);
    check_keys(value, &TASK_KEYS, place)?;
    let name = name_of(
        alloc,
        needed_value(value, "name", place, Field::Name)?,
        n,
        names,
    )?;
    let numbers = numbers_of(policy, place, value)?;
    let curve = arrivals(alloc, n, value)?;
    let cut = preemption(alloc, n, numbers.cost, value)?;
    Ok(Task {
        name: Text::new(String::from_str(alloc, name)?),
        cost: numbers.cost,
        deadline: numbers.deadline,
        priority: numbers.priority,
        jitter: numbers.jitter,
        point: numbers.point,
        curve,
        cut,
    })
}

/// The tasks of at most 256 items.
#[tactic(auto, unfolding(crate::specs::TaskRows::tasks_after))]
pub fn tasks_of(
    alloc: Global,
    policy: PolicyKind,
    items: &[Value],
) -> Result<Vec<Task>, SheetRefusal>
    requires { length items.now ≤ most_tasks }
    ensures gives { ReadsAs (λ v. v.items) result (tasks_after policy [] (items_view items.now)) }
    ensures rules { IfOk result (λ v. tasks_rule 0 [] v.items ≡ Ok tt) }
    ensures curves { IfOk result (λ v. (i : ℕ) → i < length v.items →
        IsCurve (slice_index_or v.items i no_task).curve) }
    ensures many { IfOk result (λ v. length v.items ≡ length items.now) }
{
    let mut tasks = Vec::new(alloc);
    let mut names = IndexSet::new(alloc);
    'items: for item in items {
        let n = tasks.len() as u32;
        let task = task_of(alloc, policy, n, &mut names, item)?;
        tasks.push(task)?;
    }
    Ok(tasks)
}
