//! Files at their limits and past them, and certificates and runs that are not of the format.
use std::alloc::{AllocError, Global};
use std::process::Abort;
use std::test::Fail;
use top_cases::files::{ONE_TASK, ONE_TASK_CERT};
use top_cases::{says, shelf_of, sink_of, words_of};

/// `check` of a sheet and a certificate.
fn assert_check(
    rt: &impl Abort,
    alloc: Global,
    sheet: &[u8],
    certificate: &[u8],
    said: (u8, &str, &str),
) -> Result<(), AllocError> {
    let words = words_of(alloc, "check s c")?;
    let shelf = shelf_of(alloc, sheet, certificate, Vec::new(alloc))?;
    let (out, err) = (sink_of(alloc, 99)?, sink_of(alloc, 99)?);
    let said = (said.0, said.1.as_bytes(), said.2.as_bytes());
    assert!(rt; says(alloc, &words, shelf, out, err, said));
    Ok(())
}

/// The first worked example's sheet, with a comment so that it has this many bytes.
fn long_sheet(alloc: Global, len: usize) -> Result<Vec<u8>, AllocError> {
    let mut bytes = Vec::from_slice(alloc, ONE_TASK.as_bytes())?;
    bytes.push(b'#')?;
    for _ in bytes.len()..len {
        bytes.push(b'#')?;
    }
    Ok(bytes)
}

#[test]
fn a_sheet_at_its_limit_and_past_it(rt: HostRuntime) -> Result<(), Fail> {
    let alloc = rt.alloc();
    let certificate = ONE_TASK_CERT.as_bytes();
    let sheet = long_sheet(alloc, 1_048_576)?;
    let text = "accepted\ntask a bound 2 deadline 5 met\n";
    assert_check(&rt, alloc, &sheet, certificate, (0, text, ""))?;
    let longer = long_sheet(alloc, 1_048_577)?;
    let line = "limit: sheet is longer than 1048576 bytes\n";
    assert_check(&rt, alloc, &longer, certificate, (7, "", line))?;
    Ok(())
}

#[test]
fn a_certificate_past_its_limit(rt: HostRuntime) -> Result<(), Fail> {
    let alloc = rt.alloc();
    let certificate = vec![in alloc; b'p'; 67_108_865]?;
    let line = "limit: certificate is longer than 67108864 bytes\n";
    assert_check(&rt, alloc, ONE_TASK.as_bytes(), &certificate, (7, "", line))?;
    Ok(())
}

/// The line in which it is refused, at its limit, and its length, past it.
#[test]
fn a_trace_at_its_limit_and_past_it(rt: HostRuntime) -> Result<(), Fail> {
    let alloc = rt.alloc();
    let words = words_of(alloc, "infer s 6")?;
    let lines = [
        (1_048_576, 6, "trace: line 1 is not of the format\n"),
        (1_048_577, 7, "limit: trace is longer than 1048576 bytes\n"),
    ];
    for (len, status, line) in lines {
        let trace = vec![in alloc; b'p'; len]?;
        let shelf = shelf_of(alloc, &trace, &[], Vec::new(alloc))?;
        let (out, err) = (sink_of(alloc, 99)?, sink_of(alloc, 99)?);
        let said = (status, b"".as_slice(), line.as_bytes());
        assert!(rt; says(alloc, &words, shelf, out, err, said));
    }
    Ok(())
}

#[test]
fn a_sheet_that_is_no_text(rt: HostRuntime) -> Result<(), Fail> {
    let line = "sheet: not a TOML document\n";
    assert_check(
        &rt,
        rt.alloc(),
        &[0xff],
        ONE_TASK_CERT.as_bytes(),
        (5, "", line),
    )?;
    Ok(())
}

/// Certificates for the first worked example, and the line in which each is refused.
const CERTIFICATES: [(&str, u64); 7] = [
    ("poet-cert 1\ntasks 0\n", 2),
    ("poet-cert 1\ntasks 257\n", 2),
    ("poet-cert 1\ntasks 1\ntask 1 2 2 1\np 0 2\nend\n", 3),
    (
        "poet-cert 1\ntasks 1\ntask 0 1000000001 2 1\np 0 2\nend\n",
        3,
    ),
    ("poet-cert 1\ntasks 1\ntask 0 2 2 0\nend\n", 3),
    ("poet-cert 1\ntasks 1\ntask 0 2 2 2\np 0 2\nend\n", 5),
    ("poet-cert 1\ntasks 1\ntask 0 2 2 1\np 0 2\np 1 2\nend\n", 5),
];

/// Runs, and the line in which each is refused.
const RUNS: [(&str, u64); 7] = [
    ("poet-run 1\njobs 0 ticks 2\nidle 1\nidle 1\nend\n", 4),
    ("poet-run 1\njobs 0 ticks 2\nidle 3\nend\n", 3),
    ("poet-run 1\njobs 0 ticks 2\nidle 1\nend\n", 4),
    ("poet-run 1\njobs 0 ticks 2\noff 0\nend\n", 3),
    ("poet-run 1\njobs 0 ticks 2\nrun 0 1\nend\n", 3),
    ("poet-run 1\njobs 1 ticks 1\nidle 1\nend\n", 3),
    ("poet-run 1\njobs 20001 ticks 1\n", 2),
];

/// What is said to the words over the first worked example and another file.
fn assert_line(
    rt: &impl Abort,
    alloc: Global,
    words: &str,
    file: &str,
    said: (u8, &str),
) -> Result<(), AllocError> {
    let words = words_of(alloc, words)?;
    let shelf = shelf_of(alloc, ONE_TASK.as_bytes(), file.as_bytes(), Vec::new(alloc))?;
    let (out, err) = (sink_of(alloc, 99)?, sink_of(alloc, 99)?);
    assert!(rt;
        says(
            alloc,
            &words,
            shelf,
            out,
            err,
            (said.0, b"", said.1.as_bytes())
        )
    );
    Ok(())
}

#[test]
fn malformed_certificates(rt: HostRuntime) -> Result<(), Fail> {
    let alloc = rt.alloc();
    for (file, line) in &CERTIFICATES {
        let text = format!(in alloc; "certificate: line {line} is not of the format\n")?;
        for words in ["check s c", "report s c json"] {
            assert_line(&rt, alloc, words, file, (6, text.as_str()))?;
        }
    }
    Ok(())
}

#[test]
fn malformed_runs(rt: HostRuntime) -> Result<(), Fail> {
    let alloc = rt.alloc();
    for (file, line) in &RUNS {
        let text = format!(in alloc; "run: line {line} is not of the format\n")?;
        assert_line(&rt, alloc, "audit s c", file, (6, text.as_str()))?;
    }
    Ok(())
}
