//! Rows of `assign`.
use std::test::Fail;
use top_cases::files::*;
use top_cases::{Case, first_unsaid};

const ASSIGNMENTS: [Case; 4] = [
    Case {
        words: "assign s 100",
        sheet: SLOW_AND_FAST,
        other: "",
        status: 0,
        out: "assigned\ntask slow priority 1 bound 4\ntask fast priority 2 bound 1\n",
        err: "",
    },
    Case {
        words: "assign s 100",
        sheet: TWINS,
        other: "",
        status: 1,
        out: "no order at level 1\n",
        err: "",
    },
    Case {
        words: "assign s 100",
        sheet: LATER_TWINS,
        other: "",
        status: 0,
        out: "assigned\ntask x priority 1 bound 2\ntask y priority 2 bound 1\n",
        err: "",
    },
    Case {
        words: "assign s 1000000",
        sheet: EIGHT_TASKS,
        other: "",
        status: 0,
        out: "assigned\n\
              task motor priority 8 bound 619\n\
              task sensor priority 6 bound 1839\n\
              task can_rx priority 4 bound 2919\n\
              task control priority 5 bound 2759\n\
              task filter priority 7 bound 1639\n\
              task logger priority 2 bound 19879\n\
              task display priority 1 bound 29820\n\
              task self_test priority 3 bound 17939\n",
        err: "",
    },
];

#[test]
fn assignments(rt: HostRuntime) -> Result<(), Fail> {
    assert_eq!(rt; first_unsaid(rt.alloc(), &ASSIGNMENTS)?, None);
    Ok(())
}
