//! Small tasks, which the tests of several crates are over.
#![tactic(auto)]

use curve::Prefix;
use lists::{Items, Text};
use std::alloc::{AllocError, Global};
use task_sheet::{Cut, Task};

/// Where jobs of a task may be preempted.
#[derive(Clone, Copy)]
pub enum Pieces<'a> {
    Full,
    Never,
    Fixed(&'a [u64]),
    Floating(u64),
}

/// A task of which one thing is changed at a time.
#[derive(Clone, Copy)]
pub struct Draft<'a> {
    pub name: &'a str,
    pub cost: u64,
    pub deadline: u64,
    pub priority: u64,
    pub jitter: u64,
    pub point: i64,
    pub pieces: Pieces<'a>,
}

pub const PLAIN: Draft<'static> = Draft {
    name: "a",
    cost: 5,
    deadline: 5,
    priority: 1,
    jitter: 0,
    point: 0,
    pieces: Pieces::Full,
};

fn make_cut(alloc: Global, pieces: Pieces<'_>) -> Result<Cut, AllocError> {
    Ok(match pieces {
        Pieces::Full => Cut::Full,
        Pieces::Never => Cut::Never,
        Pieces::Fixed(segments) => Cut::Fixed(Items::new(segments.to_vec(alloc)?)),
        Pieces::Floating(longest) => Cut::Floating(longest),
    })
}

/// The task of a draft, of which a job may arrive every 5 ticks.
pub fn make_task(alloc: Global, draft: &Draft<'_>) -> Result<Task, AllocError> {
    Ok(Task {
        name: Text::new(String::from_str(alloc, draft.name)?),
        cost: draft.cost,
        deadline: draft.deadline,
        priority: draft.priority,
        jitter: draft.jitter,
        point: draft.point,
        curve: Prefix::periodic(alloc, 5)?,
        cut: make_cut(alloc, draft.pieces)?,
    })
}

pub fn make_tasks(alloc: Global, drafts: &[Draft<'_>]) -> Result<Vec<Task>, AllocError> {
    let mut tasks = Vec::new(alloc);
    for draft in drafts {
        tasks.push(make_task(alloc, draft)?)?;
    }
    Ok(tasks)
}
