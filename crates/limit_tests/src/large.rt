//! Sheets at their limits, and a sheet that is printed and read again.
use sheet_print::print_sheet;
use sheet_text::read_sheet;
use std::alloc::{AllocError, Global};
use std::fmt::Write;
use std::process::Abort;
use std::test::Fail;
use top_cases::files::{CROWD, EIGHT_TASKS, ONE_TASK_CERT};
use top_cases::{says, shelf_of, sink_of, words_of};

/// A sheet of so many equal tasks, under fp.
fn equal_tasks(alloc: Global, count: u32) -> Result<String, AllocError> {
    let mut text = String::from_str(alloc, "policy = \"fp\"\n")?;
    for i in 0..count {
        write!(
            text,
            "\n[[task]]\nname = \"t{i}\"\ncost = 1\ndeadline = 512\n"
        )?;
        text.push_str("priority = 1\nperiod = 512\n")?;
    }
    Ok(text)
}

/// A sheet of a hundred equal tasks that together fill the longest window there may be.
fn hundred_long_tasks(alloc: Global) -> Result<String, AllocError> {
    let mut text = String::from_str(alloc, "policy = \"fp\"\n")?;
    for i in 0..100u32 {
        write!(text, "\n[[task]]\nname = \"t{i}\"\ncost = 10000000\n")?;
        text.push_str("deadline = 1000000000\npriority = 1\nperiod = 1000000000\n")?;
    }
    Ok(text)
}

/// The longest window for each of them, which is its bound and the end of its only point too.
fn hundred_long_entries(alloc: Global) -> Result<String, AllocError> {
    let mut text = String::from_str(alloc, "poet-cert 1\ntasks 100\n")?;
    for i in 0..100u32 {
        write!(text, "task {i} 1000000000 1000000000 1\n")?;
        text.push_str("p 0 1000000000\n")?;
    }
    text.push_str("end\n")?;
    Ok(text)
}

/// The same window, bound and end for each task.
fn equal_entries(alloc: Global, count: u32) -> Result<String, AllocError> {
    let mut text = String::new(alloc);
    write!(text, "poet-cert 1\ntasks {count}\n")?;
    for i in 0..count {
        write!(text, "task {i} {count} {count} 1\np 0 {count}\n")?;
    }
    text.push_str("end\n")?;
    Ok(text)
}

fn equal_lines(alloc: Global, count: u32) -> Result<String, AllocError> {
    let mut text = String::from_str(alloc, "accepted\n")?;
    for i in 0..count {
        write!(text, "task t{i} bound {count} deadline 512 met\n")?;
    }
    Ok(text)
}

/// A task with so many segments of one tick.
fn segmented_task(alloc: Global, count: u32) -> Result<String, AllocError> {
    let mut text = String::from_str(alloc, "policy = \"fp\"\n\n[[task]]\nname = \"a\"\n")?;
    write!(text, "cost = {count}\ndeadline = 5000\npriority = 1\n")?;
    text.push_str("period = 10000\npreemption = { fixed = [1")?;
    for _ in 1..count {
        text.push_str(", 1")?;
    }
    text.push_str("] }\n")?;
    Ok(text)
}

/// A task with as much load as a sheet can say.
const HEAVY: &str =
    "policy = \"fp\"\n\n[[task]]\nname = \"a\"\ncost = 1000000000\ndeadline = 1000000000\npriority = 1\ncurve = { horizon = 1, steps = [[1, 1]] }\n";

/// A certificate of one task with so many equal points.
fn long_certificate(alloc: Global, points: u32) -> Result<String, AllocError> {
    let mut text = String::new(alloc);
    write!(text, "poet-cert 1\ntasks 1\ntask 0 1 1 {points}\n")?;
    for _ in 0..points {
        text.push_str("p 1000000000 1000000000\n")?;
    }
    text.push_str("end\n")?;
    Ok(text)
}

/// A sheet with a table of a thousand slots: one tick in each hundred.
fn table_of_a_thousand(alloc: Global) -> Result<String, AllocError> {
    let mut text = String::from_str(alloc, "policy = \"fp\"\n\n[supply]\ncycle = 100000\n")?;
    text.push_str("slots = [[0, 1]")?;
    for k in 1..1000u32 {
        let start = 100 * k;
        write!(text, ", [{start}, 1]")?;
    }
    text.push_str("]\n\n[[task]]\nname = \"a\"\ncost = 1\ndeadline = 512\n")?;
    text.push_str("priority = 1\nperiod = 512\n")?;
    Ok(text)
}

/// The promise of that table.
fn thousand_times(alloc: Global) -> Result<String, AllocError> {
    let mut text = String::from_str(alloc, "horizon 100000 times")?;
    for k in 1..1001u32 {
        let time = 100 * k;
        write!(text, " {time}")?;
    }
    text.push_str("\n")?;
    Ok(text)
}

/// Compares what the program says to the words over two files.
fn assert_words(
    rt: &impl Abort,
    alloc: Global,
    words: &str,
    files: (&str, &str),
    said: (u8, &str, &str),
) -> Result<(), AllocError> {
    let words = words_of(alloc, words)?;
    let shelf = shelf_of(
        alloc,
        files.0.as_bytes(),
        files.1.as_bytes(),
        Vec::new(alloc),
    )?;
    let (out, err) = (sink_of(alloc, 262_144)?, sink_of(alloc, 4096)?);
    let said = (said.0, said.1.as_bytes(), said.2.as_bytes());
    assert!(rt; says(alloc, &words, shelf, out, err, said));
    Ok(())
}

#[test]
fn as_many_tasks_as_there_may_be(rt: HostRuntime) -> Result<(), Fail> {
    let alloc = rt.alloc();
    let (sheet, certificate) = (equal_tasks(alloc, 256)?, equal_entries(alloc, 256)?);
    let lines = equal_lines(alloc, 256)?;
    let files = (sheet.as_str(), certificate.as_str());
    assert_words(&rt, alloc, "check s c", files, (0, lines.as_str(), ""))?;
    let said = (0, certificate.as_str(), "");
    assert_words(&rt, alloc, "analyse s 1000", files, said)?;
    Ok(())
}

/// A search that tried each window one after the other would not end within a test's time.
#[test]
fn a_hundred_long_tasks(rt: HostRuntime) -> Result<(), Fail> {
    let alloc = rt.alloc();
    let (sheet, certificate) = (hundred_long_tasks(alloc)?, hundred_long_entries(alloc)?);
    let said = (0, certificate.as_str(), "");
    let files = (sheet.as_str(), "");
    assert_words(&rt, alloc, "analyse s 1000000000", files, said)?;
    Ok(())
}

#[test]
fn one_task_too_many(rt: HostRuntime) -> Result<(), Fail> {
    let alloc = rt.alloc();
    let sheet = equal_tasks(alloc, 257)?;
    let line = "sheet: task out of range in top\n";
    assert_words(&rt, alloc, "check s c", (sheet.as_str(), ""), (5, "", line))?;
    Ok(())
}

#[test]
fn as_many_segments_as_there_may_be(rt: HostRuntime) -> Result<(), Fail> {
    let alloc = rt.alloc();
    let most = segmented_task(alloc, 1000)?;
    let certificate = "poet-cert 1\ntasks 1\ntask 0 1000 1000 1\np 0 1000\nend\n";
    let lines = "accepted\ntask a bound 1000 deadline 5000 met\n";
    let files = (most.as_str(), certificate);
    assert_words(&rt, alloc, "check s c", files, (0, lines, ""))?;
    let more = segmented_task(alloc, 1001)?;
    let line = "sheet: preemption out of range in task 0\n";
    let files = (more.as_str(), certificate);
    assert_words(&rt, alloc, "check s c", files, (5, "", line))?;
    Ok(())
}

/// The first worked example of one task with these lines, and what is said to it.
const LINES: [(&str, u8, &str); 5] = [
    (
        "name = \"abcdefghijklmnopqrstuvwxyz0123456\"\ncost = 2\npriority = 1\n",
        5,
        "sheet: name out of range in task 0\n",
    ),
    (
        "name = \"a\"\ncost = 2\npriority = 1000000001\n",
        5,
        "sheet: priority out of range in task 0\n",
    ),
    ("name = \"a\"\ncost = 2\npriority = 1000000000\n", 0, ""),
    (
        "name = \"a\"\ncost = 2\npriority = 1\npreemption = { floating = 2 }\n",
        0,
        "",
    ),
    (
        "name = \"a\"\ncost = 2\npriority = 1\npreemption = { floating = 3 }\n",
        5,
        "sheet: preemption does not fit cost in task 0\n",
    ),
];

#[test]
fn numbers_at_their_limits(rt: HostRuntime) -> Result<(), Fail> {
    let alloc = rt.alloc();
    for (lines, status, err) in &LINES {
        let mut sheet = String::from_str(alloc, "policy = \"fp\"\n[[task]]\n")?;
        sheet.push_str(lines)?;
        sheet.push_str("deadline = 5\nperiod = 5\n")?;
        let out = if *status == 0 { ONE_TASK_CERT } else { "" };
        let files = (sheet.as_str(), "");
        assert_words(&rt, alloc, "analyse s 100", files, (*status, out, err))?;
    }
    Ok(())
}

/// The run of two ticks at each of which 10,000 jobs arrive.
fn crowded_run(alloc: Global) -> Result<String, AllocError> {
    let mut text = String::from_str(alloc, "poet-run 2\njobs 20000 ticks 2\n")?;
    for k in 0..20_000 {
        let arrival = k / 10_000;
        write!(text, "j 0 {arrival} {arrival} 1\n")?;
    }
    text.push_str("run 0 1\nrun 1 1\nend\n")?;
    Ok(text)
}

#[test]
fn as_many_jobs_as_there_may_be(rt: HostRuntime) -> Result<(), Fail> {
    let alloc = rt.alloc();
    let run = crowded_run(alloc)?;
    let said = (0, run.as_str(), "");
    assert_words(&rt, alloc, "simulate s dense 2", (CROWD, ""), said)?;
    Ok(())
}

#[test]
fn printed_sheets_read_again(rt: HostRuntime) -> Result<(), Fail> {
    let alloc = rt.alloc();
    let sheet = read_sheet(alloc, EIGHT_TASKS.as_bytes())?;
    assert_eq!(rt; sheet.len(), 8);
    let printed = print_sheet(alloc, &sheet)?;
    let again = read_sheet(alloc, &printed)?;
    assert_eq!(rt; print_sheet(alloc, &again)?.as_slice(), printed.as_slice());
    Ok(())
}

/// With its terms the line of each point has 68 bytes.
#[test]
fn upgraded_certificates_have_a_limit(rt: HostRuntime) -> Result<(), Fail> {
    let alloc = rt.alloc();
    let certificate = long_certificate(alloc, 1_000_000)?;
    let line = "limit: upgraded certificate is longer than 67108864 bytes\n";
    let files = (HEAVY, certificate.as_str());
    assert_words(&rt, alloc, "upgrade s c", files, (7, "", line))?;
    Ok(())
}

#[test]
fn as_many_slots_as_there_may_be(rt: HostRuntime) -> Result<(), Fail> {
    let alloc = rt.alloc();
    let (sheet, promise) = (table_of_a_thousand(alloc)?, thousand_times(alloc)?);
    assert_words(
        &rt,
        alloc,
        "promise s",
        (sheet.as_str(), ""),
        (0, promise.as_str(), ""),
    )?;
    Ok(())
}
