//! The laws, called at kinds of policies, preemption and supply.
use abstract_rta::{bound, from_points, points_bound};
use busy_window::{enough_inside, one_outsider, runs_inside};
use cert_check::accepted_is_sound;
use conditions::failed_means;
use demand::{demand_grows, need_fits};
use policy::{Edf, Fp};
use policy_more::{Elf, Gel};
use policy_pairs::{elf_is_fp, elf_is_gel, gel_is_edf, gel_is_fifo};
use preemption::{FullCut, PerTask};
use schedule_laws::{crowds_decide, tests_decide};
use search_space::{across_gap, between_points};
use solver::analysis_has_one_answer;
use supply::Unit;

#[test]
fn laws_at_kinds() {
    need_fits::<Fp, PerTask>();
    demand_grows::<Edf, PerTask>();
    between_points::<Edf>();
    across_gap::<Fp>();
    crowds_decide();
    tests_decide::<Fp, PerTask, Unit>();
    runs_inside::<Fp, FullCut, Unit>();
    one_outsider::<Fp, FullCut, Unit>();
    enough_inside::<Fp, FullCut, Unit>();
    bound::<Edf, PerTask, Unit>();
    from_points::<Edf, PerTask, Unit>();
    points_bound::<Edf, PerTask, Unit>();
    failed_means::<Fp, PerTask, Unit>();
    accepted_is_sound::<Fp, PerTask, Unit>();
    analysis_has_one_answer::<Fp, PerTask, Unit>();
    points_bound::<Gel, PerTask, Unit>();
    accepted_is_sound::<Elf, PerTask, Unit>();
    gel_is_edf::<PerTask, Unit>();
    gel_is_fifo::<FullCut, Unit>();
    elf_is_gel::<PerTask, Unit>();
    elf_is_fp::<FullCut, Unit>();
}
