//! Sheets with priority points, by the definitions.
ghost use Rattle.std.specs.Prelude.{◌≡◌, [], ◌∷◌, Ok};
ghost use Rattle.policy.specs.Policies.{edf_meaning};
ghost use Rattle.policy_more.specs.PointPolicies.{gel_meaning, elf_meaning};
ghost use Rattle.bound_tests.specs.PointSheets.{gel_sheet, gel_cert, elf_sheet, elf_cert, need_at, best_at};

/// Points that are the deadlines give what the deadlines give.
#[tactic(auto, using(crate::proofs::PointBounds::gel_needs, crate::proofs::PointBounds::gel_best, crate::proofs::PointBounds::edf_best))]
fn points_as_deadlines()
    ensures needs { (need_at gel_meaning gel_sheet 0 0 2 ∷ need_at gel_meaning gel_sheet 0 2 4 ∷ need_at gel_meaning gel_sheet 1 0 4 ∷ need_at gel_meaning gel_sheet 1 2 4 ∷ []) ≡ (2 ∷ 4 ∷ 4 ∷ 4 ∷ []) }
    ensures points { best_at gel_meaning gel_sheet ≡ Ok gel_cert }
    ensures deadlines { best_at edf_meaning gel_sheet ≡ Ok gel_cert }
{}

/// A task of a greater priority, and two of one priority with their points.
#[tactic(auto, using(crate::proofs::PointBounds::elf_needs, crate::proofs::PointBounds::elf_best))]
fn points_within_a_priority()
    ensures needs { (need_at elf_meaning elf_sheet 0 0 1 ∷ need_at elf_meaning elf_sheet 1 0 3 ∷ need_at elf_meaning elf_sheet 1 2 6 ∷ need_at elf_meaning elf_sheet 2 0 6 ∷ []) ≡ (1 ∷ 3 ∷ 6 ∷ 6 ∷ []) }
    ensures best { best_at elf_meaning elf_sheet ≡ Ok elf_cert }
{}

#[test]
fn best_with_points() {
    points_as_deadlines();
    points_within_a_priority();
}
