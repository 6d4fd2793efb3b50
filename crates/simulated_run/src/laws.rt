//! A simulated run complies, and a dense one is full.
ghost use Rattle.simulated_run.specs.Laws.{SimulationComplies, DenseIsFull};

use policy::Policy;
use preemption::{Preemption, Tabled};
use supply::Supply;

/// A simulated run of any length, in any mode, complies with its sheet, for a kind of preemption of
/// the table: its jobs are made by the task's own cut.
pub fn simulation_complies<P: Policy, M: Tabled, S: Supply>()
    ensures { (supply : S) → S.is_supply supply → SimulationComplies P.meaning M.cuts (S.sbf
        supply) }
{}

/// In mode dense as many jobs arrive at each tick as the curves still admit.
pub fn dense_is_full<P: Policy, M: Preemption, S: Supply>()
    ensures { (supply : S) → S.is_supply supply → DenseIsFull P.meaning M.cuts (S.sbf supply) }
{}
