//! `poet`: judges bounds on the response times of real-time tasks.
#![tactic(auto)]

use poet_cli::poet_run;
use poet_io::{FileShelf, StdSink};
use std::process::ExitCode;
use std::{env, io};

/// The program's words without its own name.
fn words(rt: &HostRuntime) -> io::Result<Vec<String>> {
    Ok(env::args(rt)?.skip(1).collect(rt.alloc())?)
}

fn main(rt: HostRuntime) -> ExitCode {
    match words(&rt) {
        Ok(words) => ExitCode::from(poet_run(
            rt.alloc(),
            &words,
            &mut FileShelf::new(&rt),
            &mut StdSink::new(rt.stdout()),
            &mut StdSink::new(rt.stderr()),
        )),
        Err(error) => ExitCode::from(if error.kind() == io::ErrorKind::OutOfMemory {
            8
        } else {
            9
        }),
    }
}
