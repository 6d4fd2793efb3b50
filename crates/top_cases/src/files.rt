//! Sheets and certificates of the worked examples.

pub const ONE_TASK: &str =
    "policy = \"fp\"\n\n[[task]]\nname = \"a\"\ncost = 2\ndeadline = 5\npriority = 1\nperiod = 5\n";

pub const ONE_TASK_CERT: &str = "poet-cert 1\ntasks 1\ntask 0 2 2 1\np 0 2\nend\n";

pub const SHORT_DEADLINE: &str =
    "policy = \"fp\"\n\n[[task]]\nname = \"a\"\ncost = 2\ndeadline = 1\npriority = 1\nperiod = 5\n";

pub const BURST: &str =
    "policy = \"fp\"\n\n[[task]]\nname = \"a\"\ncost = 2\ndeadline = 5\npriority = 1\ncurve = { horizon = 5, steps = [[1, 2]] }\n";

pub const FULL_LOAD: &str =
    "policy = \"fp\"\n\n[[task]]\nname = \"a\"\ncost = 1\ndeadline = 1\npriority = 1\ncurve = { horizon = 1, steps = [[1, 1]] }\n";

pub const TWO_TASKS: &str =
    "policy = \"fp\"\n\n[[task]]\nname = \"a\"\ncost = 1\ndeadline = 4\npriority = 2\nperiod = 4\n\n[[task]]\nname = \"b\"\ncost = 2\ndeadline = 6\npriority = 1\nperiod = 6\n";

pub const TWO_TASKS_CERT: &str =
    "poet-cert 1\ntasks 2\ntask 0 1 1 1\np 0 1\ntask 1 3 3 1\np 0 3\nend\n";

/// What `report` prints of the two tasks, as a table.
pub const TWO_TASKS_TABLE: &str =
    "task                   cost   deadline      bound     window  points result use\na                         1          4          1          1       1 met    #####...............\nb                         2          6          3          3       1 met    ##########..........\ntasks 2 missed 0\n";

/// The same as JSON.
pub const TWO_TASKS_JSON: &str =
    "{\"missed\":0,\"policy\":\"fp\",\"tasks\":[{\"bound\":1,\"cost\":1,\"deadline\":4,\"met\":true,\"name\":\"a\",\"points\":1,\"window\":1},{\"bound\":3,\"cost\":2,\"deadline\":6,\"met\":true,\"name\":\"b\",\"points\":1,\"window\":3}]}\n";

pub const TWO_DEADLINES: &str =
    "policy = \"edf\"\n\n[[task]]\nname = \"a\"\ncost = 2\ndeadline = 4\nperiod = 4\n\n[[task]]\nname = \"b\"\ncost = 2\ndeadline = 6\nperiod = 6\n";

pub const TWO_DEADLINES_CERT: &str =
    "poet-cert 1\ntasks 2\ntask 0 4 2 2\np 0 2\np 2 4\ntask 1 4 4 2\np 0 4\np 2 4\nend\n";

pub const NEVER_PREEMPTED: &str =
    "policy = \"fp\"\n\n[[task]]\nname = \"a\"\ncost = 1\ndeadline = 4\npriority = 2\nperiod = 4\n\n[[task]]\nname = \"b\"\ncost = 2\ndeadline = 6\npriority = 1\nperiod = 6\npreemption = \"never\"\n";

pub const NEVER_PREEMPTED_CERT: &str =
    "poet-cert 1\ntasks 2\ntask 0 2 2 1\np 0 2\ntask 1 3 3 1\np 0 2\nend\n";

/// The same with the terms of its points.
pub const NEVER_PREEMPTED_TERMS: &str =
    "poet-cert 2\ntasks 2\ntask 0 2 2 1\np 0 2 1 1 0 2\ntask 1 3 3 1\np 0 2 0 1 1 2\nend\n";

pub const IN_ARRIVAL_ORDER: &str =
    "policy = \"fifo\"\n\n[[task]]\nname = \"a\"\ncost = 2\ndeadline = 4\nperiod = 4\n\n[[task]]\nname = \"b\"\ncost = 2\ndeadline = 6\nperiod = 6\n";

pub const PROMISED: &str =
    "policy = \"fp\"\n\n[supply]\nhorizon = 4\ntimes = [3, 4]\n\n[[task]]\nname = \"a\"\ncost = 2\ndeadline = 10\npriority = 1\nperiod = 10\n";

pub const PROMISED_NEVER: &str =
    "policy = \"fp\"\n\n[supply]\nhorizon = 4\ntimes = [3, 4]\n\n[[task]]\nname = \"a\"\ncost = 2\ndeadline = 10\npriority = 1\nperiod = 10\npreemption = \"never\"\n";

/// Times in microseconds.
pub const EIGHT_TASKS: &str =
    "# times in microseconds\npolicy = \"fp\"\n\n[[task]]\nname = \"motor\"\ncost = 120\ndeadline = 1000\npriority = 8\nperiod = 1000\n\n[[task]]\nname = \"sensor\"\ncost = 200\ndeadline = 2000\npriority = 7\nperiod = 2000\npreemption = \"never\"\n\n[[task]]\nname = \"can_rx\"            # bursts of two frames\ncost = 80\ndeadline = 5000\npriority = 6\ncurve = { horizon = 5000, steps = [[1, 2], [2500, 4]] }\n\n[[task]]\nname = \"control\"\ncost = 600\ndeadline = 5000\npriority = 5\nperiod = 5000\npreemption = { fixed = [200, 300, 100] }\n\n[[task]]\nname = \"filter\"\ncost = 900\ndeadline = 10000\npriority = 4\nperiod = 10000\npreemption = { floating = 250 }\n\n[[task]]\nname = \"logger\"\ncost = 1500\ndeadline = 20000\npriority = 3\nperiod = 20000\npreemption = { floating = 400 }\n\n[[task]]\nname = \"display\"\ncost = 4000\ndeadline = 50000\npriority = 2\nperiod = 50000\npreemption = { fixed = [500, 500, 500, 500, 500, 500, 500, 500] }\n\n[[task]]\nname = \"self_test\"\ncost = 8000\ndeadline = 100000\npriority = 1\nperiod = 100000\n";

pub const EIGHT_TASKS_CERT: &str =
    "poet-cert 1\ntasks 8\ntask 0 619 619 1\np 0 619\ntask 1 819 819 1\np 0 620\ntask 2 979 979 1\np 0 979\ntask 3 1699 1699 1\np 0 1600\ntask 4 3199 3199 1\np 0 3199\ntask 5 5899 5899 1\np 0 5899\ntask 6 13140 10440 1\np 0 9941\ntask 7 29820 29820 1\np 0 29820\nend\n";

/// The same with the terms of its points.
pub const EIGHT_TASKS_TERMS: &str =
    "poet-cert 2\ntasks 8\ntask 0 619 619 1\np 0 619 499 120 0 619\ntask 1 819 819 1\np 0 620 499 1 120 620\ntask 2 979 979 1\np 0 979 499 160 320 979\ntask 3 1699 1699 1\np 0 1600 499 501 600 1600\ntask 4 3199 3199 1\np 0 3199 499 900 1800 3199\ntask 5 5899 5899 1\np 0 5899 499 1500 3900 5899\ntask 6 13140 10440 1\np 0 9941 0 3501 6440 9941\ntask 7 29820 29820 1\np 0 29820 0 8000 21820 29820\nend\n";

pub const EIGHT_TASKS_ACCEPTED: &str =
    "accepted\ntask motor bound 619 deadline 1000 met\ntask sensor bound 819 deadline 2000 met\ntask can_rx bound 979 deadline 5000 met\ntask control bound 1699 deadline 5000 met\ntask filter bound 3199 deadline 10000 met\ntask logger bound 5899 deadline 20000 met\ntask display bound 10440 deadline 50000 met\ntask self_test bound 29820 deadline 100000 met\n";

pub const SLOW_AND_FAST: &str =
    "policy = \"fp\"\n\n[[task]]\nname = \"slow\"\ncost = 3\ndeadline = 10\npriority = 1\nperiod = 10\n\n[[task]]\nname = \"fast\"\ncost = 1\ndeadline = 2\npriority = 1\nperiod = 4\n";

/// No order serves both.
pub const TWINS: &str =
    "policy = \"fp\"\n\n[[task]]\nname = \"x\"\ncost = 1\ndeadline = 1\npriority = 1\nperiod = 4\n\n[[task]]\nname = \"y\"\ncost = 1\ndeadline = 1\npriority = 1\nperiod = 4\n";

pub const LATER_TWINS: &str =
    "policy = \"fp\"\n\n[[task]]\nname = \"x\"\ncost = 1\ndeadline = 2\npriority = 1\nperiod = 4\n\n[[task]]\nname = \"y\"\ncost = 1\ndeadline = 2\npriority = 1\nperiod = 4\n";

pub const OVERLOAD: &str =
    "policy = \"fp\"\n\n[[task]]\nname = \"high\"\ncost = 3\ndeadline = 4\npriority = 2\nperiod = 4\n\n[[task]]\nname = \"low\"\ncost = 2\ndeadline = 4\npriority = 1\nperiod = 4\n";

pub const HIGH_ALONE: &str =
    "policy = \"fp\"\n\n[[task]]\nname = \"high\"\ncost = 3\ndeadline = 4\npriority = 2\nperiod = 4\n";

pub const LONGEST: &str =
    "policy = \"fp\"\n\n[[task]]\nname = \"a\"\ncost = 1000000000\ndeadline = 1000000000\npriority = 1\nperiod = 1000000000\n";

/// Each even offset below 4,000,000 is a point of `u`.
pub const MANY_POINTS: &str =
    "policy = \"fifo\"\n\n[[task]]\nname = \"u\"\ncost = 2000000\ndeadline = 1000000000\nperiod = 1000000000\n\n[[task]]\nname = \"v\"\ncost = 1\ndeadline = 2\nperiod = 2\n";

/// The first task's dense run of 8 ticks.
pub const PERIODIC_RUN: &str =
    "poet-run 2\njobs 2 ticks 8\nj 0 0 0 2\nj 0 5 5 2\nrun 0 2\nidle 3\nrun 1 2\nidle 1\nend\n";

pub const DENSE_RUN: &str =
    "poet-run 2\njobs 5 ticks 12\nj 0 0 0 1\nj 1 0 0 2\nj 0 4 4 1\nj 1 6 6 2\nj 0 8 8 1\nrun 0 1\nrun 1 2\nidle 1\nrun 2 1\nidle 1\nrun 3 2\nrun 4 1\nidle 3\nend\n";

pub const FIXED_SEGMENTS: &str =
    "policy = \"fp\"\n\n[[task]]\nname = \"a\"\ncost = 5\ndeadline = 10\npriority = 1\nperiod = 10\npreemption = { fixed = [2, 3] }\n";

pub const FLOATING_SEGMENTS: &str =
    "policy = \"fp\"\n\n[[task]]\nname = \"a\"\ncost = 5\ndeadline = 10\npriority = 1\nperiod = 10\npreemption = { floating = 2 }\n";

/// At each tick 10,000 jobs arrive.
pub const CROWD: &str =
    "policy = \"fp\"\n\n[[task]]\nname = \"a\"\ncost = 1\ndeadline = 1\npriority = 1\ncurve = { horizon = 1, steps = [[1, 10000]] }\n";

/// A job has 1,000,001 segments.
pub const SEGMENTED: &str =
    "policy = \"fp\"\n\n[[task]]\nname = \"a\"\ncost = 1000001\ndeadline = 10000000\npriority = 1\nperiod = 10000000\npreemption = { floating = 1 }\n";

pub const USAGE: &str =
    "usage: poet check SHEET CERT [deadlines] | analyse SHEET HORIZON | simulate SHEET dense N | simulate SHEET seed S N | audit SHEET RUN | report SHEET CERT text|json | exercise S N | upgrade SHEET CERT | assign SHEET HORIZON | promise SHEET | infer FILE HORIZON\n";
