//! Which condition failed, and where.
ghost use Rattle.std.specs.Prelude.{◌≡◌};
ghost use Rattle.conditions.specs.Conditions.{of_cert, of_task, of_point};

/// A condition of a certificate.
#[derive(Clone, Copy, Debug, PartialEq, Eq)]
pub enum Cond {
    /// There are as many entries as tasks.
    K1,
    /// The bound is at least the jitter.
    K2,
    /// The window is not 0, and its supply covers the demand of the task's class.
    K3,
    /// Offsets rise from 0, and lie below the window.
    K4,
    /// No offset is missing up to the next, or to the window's end.
    K5,
    /// The end is at most the offset plus the bound less the jitter.
    K6,
    /// The supply up to the end covers the demand.
    K7,
    /// The supply up to the offset plus the bound less the jitter covers the demand and the rest of
    /// the job.
    K8,
    /// The bound is at most the deadline.
    K9,
    /// The terms are those of the offset and the end.
    K10,
}

/// A condition that failed.
#[derive(Clone, Copy, Debug, PartialEq, Eq)]
pub struct Failed {
    pub cond: Cond,
    /// The task's number, counted from 0; none for `K1`.
    pub task: Option<u32>,
    /// An offset in ticks, for `K4` to `K8` and `K10`: of `K5` the one that the gap follows.
    pub point: Option<u64>,
}

impl Failed {
    pub fn of_cert(cond: Cond) -> Failed
        ensures { result ≡ of_cert cond }
    {
        Failed {
            cond,
            task: None,
            point: None,
        }
    }

    pub fn of_task(task: u32, cond: Cond) -> Failed
        ensures { result ≡ of_task task cond }
    {
        Failed {
            cond,
            task: Some(task),
            point: None,
        }
    }

    pub fn of_point(task: u32, point: u64, cond: Cond) -> Failed
        ensures { result ≡ of_point task point cond }
    {
        Failed {
            cond,
            task: Some(task),
            point: Some(point),
        }
    }
}
