//! How a command ends.
use crate::refusal::Refusal;
use lists::Items;

/// The text that a command prints, made in memory.
#[derive(Drop)]
pub enum Printed {
    /// It did what was asked, with status 0.
    Done(Items<u8>),
    /// It judged no, with status 1.
    JudgedNo(Items<u8>),
}

/// How a command ends: a status with its text, or a refusal.
pub type Ending = Result<Printed, Refusal>;
