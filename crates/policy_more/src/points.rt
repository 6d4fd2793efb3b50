//! Priority points.
ghost use Rattle.std.specs.Prelude.{◌≡◌, ◌<◌, ◌≤ℤ◌, pos, neg_ℤ, length};
ghost use Rattle.lists.specs.Limits.{greatest_number};
ghost use Rattle.task_sheet.specs.Sheets.{task_at};

use task_sheet::Sheet;

/// The priority point of task `i`, at most 10^9 from 0.
#[tactic(auto, using(task_sheet::specs::Limits::point_low, task_sheet::specs::Limits::point_high))]
pub fn point_of(sheet: &Sheet, i: u32) -> i64
    requires { i < length sheet.now.tasks }
    ensures point { result ≡ (task_at sheet.now i).point }
    ensures low { neg_ℤ (pos greatest_number) ≤ℤ result }
    ensures high { result ≤ℤ pos greatest_number }
{
    sheet.task(i).point
}
