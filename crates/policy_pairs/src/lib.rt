//! Policies by priority points that are, for some sheets, other policies.
//!
//! Each law is a function whose clause is the statement: who needs it calls it.
#![tactic(auto)]

ghost use Rattle.policy_pairs.specs.Pairs.{GelIsEdf, GelIsFifo, ElfIsGel, ElfIsFp};

use preemption::Preemption;
use supply::Supply;

/// Where each task's point is its deadline, a sheet by points is judged as one by deadlines.
pub fn gel_is_edf<M: Preemption, S: Supply>()
    ensures { (supply : S) → GelIsEdf M.cuts (S.sbf supply) }
{}

/// Where all points are equal, a sheet by points is judged as one by arrivals.
pub fn gel_is_fifo<M: Preemption, S: Supply>()
    ensures { (supply : S) → GelIsFifo M.cuts (S.sbf supply) }
{}

/// Where all priorities are equal, a sheet by priorities and points is judged as one by points.
pub fn elf_is_gel<M: Preemption, S: Supply>()
    ensures { (supply : S) → ElfIsGel M.cuts (S.sbf supply) }
{}

/// Where no two tasks have the same priority, a sheet by priorities and points is judged as one by
/// priorities.
pub fn elf_is_fp<M: Preemption, S: Supply>()
    ensures { (supply : S) → ElfIsFp M.cuts (S.sbf supply) }
{}
