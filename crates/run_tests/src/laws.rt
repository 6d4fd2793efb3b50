//! The laws, called at kinds of policies, preemption and supply.
use audit::verdict_decides;
use policy::Fp;
use preemption::PerTask;
use simulated_run::{dense_is_full, simulation_complies};
use supply::Unit;

#[test]
fn laws_at_kinds() {
    simulation_complies::<Fp, PerTask, Unit>();
    dense_is_full::<Fp, PerTask, Unit>();
    verdict_decides::<Fp, PerTask, Unit>();
}
