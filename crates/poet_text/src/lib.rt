//! The words of `poet`, what it prints and the lines of its refusals, and how an ending is told to two
//! sinks: all that needs no shelf and no policy.
#![tactic(auto)]

mod curve_printing;
mod grammar;
mod printed;
mod printing;
mod promise_printing;
mod refusal;
mod run_printing;
mod telling;
mod verdict_writing;

pub use curve_printing::curve_line;
pub use grammar::{Command, Form, command_of};
pub use printed::{Ending, Printed};
pub use printing::{name_at, no_bound, no_order, push_task_line, push_two, refused};
pub use promise_printing::promise_text;
pub use refusal::{Refusal, Source};
pub use run_printing::{print_of, push_jobs};
pub use telling::{finish, tell};
pub use verdict_writing::{write_accepted, write_refused};
