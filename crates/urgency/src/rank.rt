//! Where a job stands among others.
ghost use Rattle.std.specs.Prelude.{◌≡◌, ◌≤◌, ◌<◌, length};
ghost use Rattle.lists.specs.Limits.{greatest_number};
ghost use Rattle.urgency.specs.Ranks.{rank_at};

use policy::Policy;
use task_sheet::{Job, Sheet};

/// Where a job stands among others: by its key, then by its task, its arrival and its number.
#[derive(Clone, Copy, Debug, PartialEq, Eq, PartialOrd, Ord)]
pub struct Rank {
    pub high: i64,
    pub low: i64,
    pub task: u32,
    pub arrival: u64,
    pub number: u32,
}

/// The rank of a job with this number.
pub fn rank_of<P: Policy>(sheet: &Sheet, job: &Job, number: u32) -> Rank
    requires task { job.now.task < length sheet.now.tasks }
    requires arrival { job.now.arrival ≤ greatest_number }
    ensures { result ≡ rank_at P.meaning sheet.now job.now number }
{
    let key = P::key(sheet, job);
    Rank {
        high: key.high,
        low: key.low,
        task: job.task,
        arrival: job.arrival,
        number,
    }
}
