//! A valid sheet.
ghost use Rattle.std.specs.Prelude.{◌≡◌, ◌<◌, ◌≤◌, ◌↔◌, length, IfOk, IsOk};
ghost use Rattle.lists.specs.Limits.{greatest_number, most_tasks};
ghost use Rattle.task_sheet.specs.Priorities.{with_fp, with_priority};
ghost use Rattle.task_sheet.specs.Rules.{sheet_check_of};
ghost use Rattle.task_sheet.specs.Sheets.{parts_of, task_at, IsValidSheet};

use crate::checking::{check_supply, check_tasks};
use crate::copying::{copy_supply, copy_tasks};
use crate::refusal::{Field, Place, SheetRefusal};
use crate::tasks::{PolicyKind, SupplySpec, Task};
use lists::Items;
use lists::limits::MOST_TASKS;
use std::alloc::{AllocError, Global};
use std::marker::Model;

/// A valid sheet: a policy, a supply, and 1 to 256 tasks.
#[derive(Debug, Drop)]
pub struct Sheet {
    policy: PolicyKind,
    supply: SupplySpec,
    tasks: Items<Task>,
}

impl Model for Sheet {
    ghost use Rattle.task_sheet.specs.SheetParts.{SheetParts};

    ghost Value = { SheetParts };

    ghost use Rattle.task_sheet.specs.Sheets.{IsValidSheet};

    ghost view = { λ s. record { policy = s.policy; supply = s.supply; tasks = s.tasks } };

    ghost invariant = { λ s. IsValidSheet (record {
      policy = s.policy;
      supply = s.supply;
      tasks = s.tasks;
    }) };
}

impl Sheet {
    /// The sheet of these parts, or the first rule that they break.
    #[tactic(auto, unfolding(crate::specs::Rules::sheet_check_of))]
    pub fn check(
        policy: PolicyKind,
        supply: SupplySpec,
        tasks: Vec<Task>,
    ) -> Result<Sheet, SheetRefusal>
        ensures checked { result ≡ sheet_check_of policy supply tasks.items }
        ensures valid { IsOk result ↔ IsValidSheet (parts_of policy supply tasks.items) }
    {
        check_supply(&supply)?;
        let count = tasks.as_slice().len();
        if count == 0 || count > MOST_TASKS {
            return Err(SheetRefusal::Range {
                place: Place::Top,
                field: Field::Task,
            });
        }
        check_tasks(&tasks)?;
        Ok(Sheet::new(policy, supply, tasks))
    }

    /// The sheet of parts that are known to be valid.
    pub fn new(policy: PolicyKind, supply: SupplySpec, tasks: Vec<Task>) -> Sheet
        requires { IsValidSheet (parts_of policy supply tasks.items) }
        ensures { result ≡ parts_of policy supply tasks.items }
    {
        Sheet {
            policy,
            supply,
            tasks: Items::new(tasks),
        }
    }

    pub fn policy(&self) -> PolicyKind
        ensures { result ≡ self.now.policy }
    {
        self.policy
    }

    pub fn supply(&self) -> &SupplySpec
        ensures supply { result.now ≡ self.now.supply }
        ensures valid { IsValidSheet self.now }
    {
        &self.supply
    }

    /// How many tasks there are.
    pub fn len(&self) -> u32
        ensures len { result ≡ length self.now.tasks }
        ensures valid { IsValidSheet self.now }
    {
        self.tasks.len() as u32
    }

    /// The task with this number, counted from 0.
    #[tactic(auto, using(crate::specs::Limits::jitter_high))]
    pub fn task(&self, i: u32) -> &Task
        requires { i < length self.now.tasks }
        ensures task { result.now ≡ task_at self.now i }
        ensures jitter { result.now.jitter ≤ greatest_number }
        ensures valid { IsValidSheet self.now }
    {
        &self.tasks.as_slice()[i as usize]
    }

    /// An equal sheet.
    pub fn copy(&self, alloc: Global) -> Result<Sheet, AllocError>
        ensures { IfOk result (λ sheet. sheet ≡ self.now) }
    {
        let supply = copy_supply(alloc, &self.supply)?;
        let tasks = copy_tasks(alloc, self.tasks.as_slice())?;
        Ok(Sheet::new(self.policy, supply, tasks))
    }

    /// Makes the policy that of fixed priorities.
    pub fn set_fp(&mut self)
        ensures { self.new ≡ with_fp self.old }
    {
        self.policy = PolicyKind::Fp;
    }

    /// Gives the task with this number another priority.
    pub fn set_priority(&mut self, i: u32, p: u64)
        requires task { i < length self.old.tasks }
        requires priority { p ≤ greatest_number }
        ensures { self.new ≡ with_priority self.old i p }
    {
        self.tasks.as_mut_slice()[i as usize].priority = p;
    }
}
