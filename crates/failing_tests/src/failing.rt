//! Files and sinks that fail at each of their calls in turn, and files that come slowly.
use poet_io::{MemShelf, MemSink};
use std::alloc::{AllocError, Global};
use std::process::Abort;
use std::test::Fail;
use top_cases::files::*;
use top_cases::{files_of, says, shelf_of, sink_of, words_of};

/// Words over the files `s` and `c`, what the program says to them, and what it calls these files.
struct Row {
    words: &'static str,
    /// The files `s` and `c`.
    files: (&'static str, &'static str),
    /// The files that it reads, in their order.
    names: &'static [&'static str],
    status: u8,
    out: &'static str,
}

/// A file is opened, read, and read once more where it ends.
const CALLS: usize = 3;

const ROWS: [Row; 15] = [
    Row {
        words: "check s c",
        files: (ONE_TASK, ONE_TASK_CERT),
        names: &["sheet", "certificate"],
        status: 0,
        out: "accepted\ntask a bound 2 deadline 5 met\n",
    },
    Row {
        words: "check s c deadlines",
        files: (SHORT_DEADLINE, ONE_TASK_CERT),
        names: &["sheet", "certificate"],
        status: 1,
        out: "refused K9 task a\n",
    },
    Row {
        words: "analyse s 1000000",
        files: (EIGHT_TASKS, ""),
        names: &["sheet"],
        status: 0,
        out: EIGHT_TASKS_CERT,
    },
    Row {
        words: "analyse s 1000",
        files: (OVERLOAD, ""),
        names: &["sheet"],
        status: 1,
        out: "no bound task low window\n",
    },
    Row {
        words: "simulate s dense 12",
        files: (NEVER_PREEMPTED, ""),
        names: &["sheet"],
        status: 0,
        out: DENSE_RUN,
    },
    Row {
        words: "audit s c",
        files: (NEVER_PREEMPTED, DENSE_RUN),
        names: &["sheet", "run"],
        status: 0,
        out: "compliant\ntask a jobs 3 done 3 worst 1\ntask b jobs 2 done 2 worst 3\n",
    },
    Row {
        words: "report s c text",
        files: (TWO_TASKS, TWO_TASKS_CERT),
        names: &["sheet", "certificate"],
        status: 0,
        out: TWO_TASKS_TABLE,
    },
    Row {
        words: "report s c json",
        files: (TWO_TASKS, TWO_TASKS_CERT),
        names: &["sheet", "certificate"],
        status: 0,
        out: TWO_TASKS_JSON,
    },
    Row {
        words: "exercise 1 8",
        files: ("", ""),
        names: &[],
        status: 0,
        out: "exercise seed 1 tasks 8 points 23 greatest 97 jobs 225 done 224 worst 97\n",
    },
    Row {
        words: "upgrade s c",
        files: (NEVER_PREEMPTED, NEVER_PREEMPTED_CERT),
        names: &["sheet", "certificate"],
        status: 0,
        out: NEVER_PREEMPTED_TERMS,
    },
    Row {
        words: "upgrade s c",
        files: (ONE_TASK, TWO_TASKS_CERT),
        names: &["sheet", "certificate"],
        status: 1,
        out: "refused K1\n",
    },
    Row {
        words: "assign s 100",
        files: (SLOW_AND_FAST, ""),
        names: &["sheet"],
        status: 0,
        out: "assigned\ntask slow priority 1 bound 4\ntask fast priority 2 bound 1\n",
    },
    Row {
        words: "assign s 100",
        files: (TWINS, ""),
        names: &["sheet"],
        status: 1,
        out: "no order at level 1\n",
    },
    Row {
        words: "promise s",
        files: (PROMISED, ""),
        names: &["sheet"],
        status: 0,
        out: "horizon 4 times 3 4\n",
    },
    Row {
        words: "infer s 6",
        files: ("poet-trace 1\narrivals 4\na 0\na 0\na 4\na 5\nend\n", ""),
        names: &["trace"],
        status: 0,
        out: "curve = { horizon = 6, steps = [[1, 2], [5, 3], [6, 4]] }\n",
    },
];

fn one(alloc: Global, at: u64) -> Result<Vec<u64>, AllocError> {
    let mut all = Vec::new(alloc);
    all.push(at)?;
    Ok(all)
}

/// The row, where the call of the shelf with this number fails.
fn assert_call(rt: &impl Abort, alloc: Global, row: &Row, call: usize) -> Result<(), AllocError> {
    let words = words_of(alloc, row.words)?;
    let (first, second) = (row.files.0.as_bytes(), row.files.1.as_bytes());
    let shelf = shelf_of(alloc, first, second, one(alloc, call as u64)?)?;
    let (out, err) = (sink_of(alloc, 4096)?, sink_of(alloc, 99)?);
    let line = match row.names.get(call / CALLS) {
        Some(name) => format!(in alloc; "read failed: {name}\n")?,
        None => String::new(alloc),
    };
    let said = if line.is_empty() {
        (row.status, row.out.as_bytes(), b"".as_slice())
    } else {
        (3, b"".as_slice(), line.as_bytes())
    };
    assert!(rt; says(alloc, &words, shelf, out, err, said));
    Ok(())
}

#[test]
fn each_call_of_the_shelf_fails(rt: HostRuntime) -> Result<(), Fail> {
    for row in &ROWS {
        for call in 0..row.names.len() * CALLS + 1 {
            assert_call(&rt, rt.alloc(), row, call)?;
        }
    }
    Ok(())
}

/// The row, where `out` takes one byte at a time and fails at this one.
fn assert_write(rt: &impl Abort, alloc: Global, row: &Row, write: usize) -> Result<(), AllocError> {
    let words = words_of(alloc, row.words)?;
    let (first, second) = (row.files.0.as_bytes(), row.files.1.as_bytes());
    let shelf = shelf_of(alloc, first, second, Vec::new(alloc))?;
    let out = MemSink::new(alloc, one(alloc, write as u64)?, 1, 4096)?;
    let err = MemSink::new(alloc, Vec::new(alloc), 7, 99)?;
    let said = match row.out.as_bytes().get(..write) {
        Some(front) if write < row.out.len() => (4, front, b"write failed\n".as_slice()),
        _ => (row.status, row.out.as_bytes(), b"".as_slice()),
    };
    assert!(rt; says(alloc, &words, shelf, out, err, said));
    Ok(())
}

#[test]
fn each_write_fails(rt: HostRuntime) -> Result<(), Fail> {
    for row in &ROWS {
        for write in 0..row.out.len() + 1 {
            assert_write(&rt, rt.alloc(), row, write)?;
        }
    }
    Ok(())
}

/// The row, where each read moves so many bytes at most.
fn assert_slow(rt: &impl Abort, alloc: Global, row: &Row, most: usize) -> Result<(), AllocError> {
    let words = words_of(alloc, row.words)?;
    let files = files_of(alloc, row.files.0.as_bytes(), row.files.1.as_bytes())?;
    let shelf = MemShelf::slow(files, Vec::new(alloc), most.max(1));
    let (out, err) = (sink_of(alloc, 4096)?, sink_of(alloc, 99)?);
    let said = (row.status, row.out.as_bytes(), b"".as_slice());
    assert!(rt; says(alloc, &words, shelf, out, err, said));
    Ok(())
}

#[test]
fn files_that_come_slowly(rt: HostRuntime) -> Result<(), Fail> {
    for row in &ROWS {
        for most in [1, 7] {
            assert_slow(&rt, rt.alloc(), row, most)?;
        }
    }
    Ok(())
}
