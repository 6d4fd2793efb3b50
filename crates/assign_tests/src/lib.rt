//! Tests of assign: worked sheets, many tasks, and sheets that it refuses.
#![tactic(auto)]

#[cfg(test)]
mod many_tasks;
#[cfg(test)]
mod worked;
