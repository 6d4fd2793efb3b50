//! Rows of sheets with priority points.
use std::test::Fail;
use top_cases::files::TWO_DEADLINES_CERT;
use top_cases::{Case, first_unsaid};

/// Points that are the deadlines.
const GEL: &str =
    "policy = \"gel\"\n\n[[task]]\nname = \"a\"\ncost = 2\ndeadline = 4\npoint = 4\nperiod = 4\n\n[[task]]\nname = \"b\"\ncost = 2\ndeadline = 6\npoint = 6\nperiod = 6\n";

const GEL_RUN: &str =
    "poet-run 2\njobs 4 ticks 8\nj 0 0 0 2\nj 1 0 0 2\nj 0 4 4 2\nj 1 6 6 2\nrun 0 2\nrun 1 2\nrun 2 2\nrun 3 2\nend\n";

/// A task of a greater priority, and two of one priority with their points.
const ELF: &str =
    "policy = \"elf\"\n\n[[task]]\nname = \"a\"\ncost = 1\ndeadline = 4\npriority = 2\nperiod = 4\n\n[[task]]\nname = \"b\"\ncost = 2\ndeadline = 8\npriority = 1\npoint = 4\nperiod = 8\n\n[[task]]\nname = \"c\"\ncost = 2\ndeadline = 8\npriority = 1\npoint = 6\nperiod = 8\n";

const ELF_CERT: &str =
    "poet-cert 1\ntasks 3\ntask 0 1 1 1\np 0 1\ntask 1 6 4 2\np 0 3\np 2 6\ntask 2 6 6 1\np 0 6\nend\n";

const ELF_RUN: &str =
    "poet-run 2\njobs 4 ticks 8\nj 0 0 0 1\nj 1 0 0 2\nj 2 0 0 2\nj 0 4 4 1\nrun 0 1\nrun 1 2\nrun 2 1\nrun 3 1\nrun 2 1\nidle 2\nend\n";

const CERTIFICATES: [Case; 5] = [
    Case {
        words: "analyse s 100",
        sheet: GEL,
        other: "",
        status: 0,
        out: TWO_DEADLINES_CERT,
        err: "",
    },
    Case {
        words: "check s c deadlines",
        sheet: GEL,
        other: TWO_DEADLINES_CERT,
        status: 0,
        out: "accepted\ntask a bound 2 deadline 4 met\ntask b bound 4 deadline 6 met\n",
        err: "",
    },
    Case {
        words: "analyse s 100",
        sheet: ELF,
        other: "",
        status: 0,
        out: ELF_CERT,
        err: "",
    },
    Case {
        words: "check s c deadlines",
        sheet: ELF,
        other: ELF_CERT,
        status: 0,
        out: "accepted\ntask a bound 1 deadline 4 met\ntask b bound 4 deadline 8 met\ntask c bound 6 deadline 8 met\n",
        err: "",
    },
    // The offset at which a job of `c` is as urgent as one of `b` is left out.
    Case {
        words: "check s c",
        sheet: ELF,
        other: "poet-cert 1\ntasks 3\ntask 0 1 1 1\np 0 1\ntask 1 6 4 1\np 0 3\ntask 2 6 6 1\np 0 6\nend\n",
        status: 1,
        out: "refused K5 task b point 0\n",
        err: "",
    },
];

#[test]
fn certificates(rt: HostRuntime) -> Result<(), Fail> {
    assert_eq!(rt; first_unsaid(rt.alloc(), &CERTIFICATES)?, None);
    Ok(())
}

const RUNS: [Case; 5] = [
    Case {
        words: "simulate s dense 8",
        sheet: GEL,
        other: "",
        status: 0,
        out: GEL_RUN,
        err: "",
    },
    Case {
        words: "audit s c",
        sheet: GEL,
        other: GEL_RUN,
        status: 0,
        out: "compliant\ntask a jobs 2 done 2 worst 2\ntask b jobs 2 done 2 worst 4\n",
        err: "",
    },
    Case {
        words: "simulate s dense 8",
        sheet: ELF,
        other: "",
        status: 0,
        out: ELF_RUN,
        err: "",
    },
    Case {
        words: "audit s c",
        sheet: ELF,
        other: ELF_RUN,
        status: 0,
        out: "compliant\ntask a jobs 2 done 2 worst 1\ntask b jobs 1 done 1 worst 3\ntask c jobs 1 done 1 worst 6\n",
        err: "",
    },
    // The job of `c` runs before that of `b`.
    Case {
        words: "audit s c",
        sheet: ELF,
        other: "poet-run 2\njobs 4 ticks 8\nj 0 0 0 1\nj 1 0 0 2\nj 2 0 0 2\nj 0 4 4 1\nrun 0 1\nrun 2 2\nrun 1 1\nrun 3 1\nrun 1 1\nidle 2\nend\n",
        status: 1,
        out: "broken priority job 1 tick 1\n",
        err: "",
    },
];

#[test]
fn runs(rt: HostRuntime) -> Result<(), Fail> {
    assert_eq!(rt; first_unsaid(rt.alloc(), &RUNS)?, None);
    Ok(())
}

const REFUSED_SHEETS: [Case; 3] = [
    Case {
        words: "check s c",
        sheet: "policy = \"gel\"\n\n[[task]]\nname = \"a\"\ncost = 2\ndeadline = 4\npoint = 1.0\nperiod = 4\n",
        other: "",
        status: 5,
        out: "",
        err: "sheet: wrong kind of point in task 0\n",
    },
    Case {
        words: "check s c",
        sheet: "policy = \"gel\"\n\n[[task]]\nname = \"a\"\ncost = 2\ndeadline = 4\npoint = 1000000001\nperiod = 4\n",
        other: "",
        status: 5,
        out: "",
        err: "sheet: point out of range in task 0\n",
    },
    Case {
        words: "check s c",
        sheet: "policy = \"elf\"\n\n[[task]]\nname = \"a\"\ncost = 2\ndeadline = 4\npoint = 4\nperiod = 4\n",
        other: "",
        status: 5,
        out: "",
        err: "sheet: missing priority in task 0\n",
    },
];

#[test]
fn refused_sheets(rt: HostRuntime) -> Result<(), Fail> {
    assert_eq!(rt; first_unsaid(rt.alloc(), &REFUSED_SHEETS)?, None);
    Ok(())
}
