//! Words outside the grammar.
use poet_io::MemSink;
use std::alloc::{AllocError, Global};
use std::process::Abort;
use std::test::Fail;
use top_cases::files::{ONE_TASK, USAGE};
use top_cases::{says, shelf_of, sink_of, words_of};

const UNREAD: [&str; 31] = [
    "promise",
    "promise s unit",
    "check",
    "check s",
    "check x",
    "judge s c",
    "check s c dates",
    "check s c deadlines c",
    "analyse s 0",
    "analyse s 007",
    "analyse s 1000000001",
    "analyse s +7",
    "analyse s ",
    "simulate s dense 100001",
    "simulate s dense 0",
    "simulate s seed 18446744073709551616 1",
    "simulate s sparse 1",
    "report s c xml",
    "exercise 7 65",
    "exercise 7 0",
    "exercise -1 1",
    "upgrade s",
    "upgrade s c deadlines",
    "assign s",
    "assign s 0",
    "assign s 1000000001",
    "infer s",
    "infer s 0",
    "infer s 06",
    "infer s 1000000001",
    "infer s c 6",
];

fn assert_unread(rt: &impl Abort, alloc: Global, words: &Vec<String>) -> Result<(), AllocError> {
    let shelf = shelf_of(alloc, ONE_TASK.as_bytes(), &[], Vec::new(alloc))?;
    let (out, err) = (sink_of(alloc, 999)?, sink_of(alloc, 999)?);
    assert!(rt; says(alloc, words, shelf, out, err, (2, &[], USAGE.as_bytes())));
    Ok(())
}

#[test]
fn words_outside_the_grammar(rt: HostRuntime) -> Result<(), Fail> {
    let alloc = rt.alloc();
    assert_unread(&rt, alloc, &Vec::new(alloc))?;
    for line in UNREAD {
        assert_unread(&rt, alloc, &words_of(alloc, line)?)?;
    }
    Ok(())
}

#[test]
fn a_silent_err_changes_no_status(rt: HostRuntime) -> Result<(), Fail> {
    let alloc = rt.alloc();
    let shelf = shelf_of(alloc, &[], &[], Vec::new(alloc))?;
    let out = sink_of(alloc, 9)?;
    let err = MemSink::new(alloc, Vec::new(alloc), 9, 0)?;
    assert!(rt; says(alloc, &Vec::new(alloc), shelf, out, err, (2, &[], &[])));
    Ok(())
}
