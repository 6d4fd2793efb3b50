//! Certificates written by hand.
use certificate::{
    Cert, Entry, LineStep, Lines, Point, Terms, Version, read_cert, text_len, write_cert,
};
use lists::Items;
use poet_io::TextRefusal;
use std::alloc::{AllocError, Global};
use std::test::Fail;

/// A window, a bound, and the points: offsets, each with its end.
type Row = (u64, u64, &'static [(u64, u64)]);

/// A certificate of one task with one point, and one of three tasks, with numbers at the ends of
/// their ranges.
const WRITTEN: [(&[u8], &[Row]); 2] = [
    (
        b"poet-cert 1\ntasks 1\ntask 0 2 2 1\np 0 2\nend\n",
        &[(2, 2, &[(0, 2)])],
    ),
    (
        b"poet-cert 1\ntasks 3\ntask 0 619 619 1\np 0 619\n\
        task 1 819 0 2\np 0 620\np 7 1000000000\n\
        task 2 1000000000 20 3\np 1 0\np 0 9\np 10 10\nend\n",
        &[
            (619, 619, &[(0, 619)]),
            (819, 0, &[(0, 620), (7, 1_000_000_000)]),
            (1_000_000_000, 20, &[(1, 0), (0, 9), (10, 10)]),
        ],
    ),
];

/// Bytes that are no certificate's text, and the line of the first byte that is wrong or missing.
const REFUSED: [(&[u8], u64); 20] = [
    // `end` is missing.
    (b"poet-cert 1\ntasks 1\ntask 0 2 2 1\np 0 2\n", 5),
    // The newline of `end` is missing.
    (b"poet-cert 1\ntasks 1\ntask 0 2 2 1\np 0 2\nend", 5),
    // A leading zero.
    (b"poet-cert 1\ntasks 1\ntask 0 2 2 1\np 0 02\nend\n", 4),
    // A space at the end of a line.
    (b"poet-cert 1\ntasks 1\ntask 0 2 2 1\np 0 2 \nend\n", 4),
    // An empty line behind `end`.
    (b"poet-cert 1\ntasks 1\ntask 0 2 2 1\np 0 2\nend\n\n", 6),
    // CR LF.
    (
        b"poet-cert 1\r\ntasks 1\r\ntask 0 2 2 1\r\np 0 2\r\nend\r\n",
        1,
    ),
    (b"", 1),
    (b"poet-cert 1\ntasks 0\nend\n", 2),
    (b"poet-cert 1\ntasks 257\n", 2),
    (b"poet-cert 1\ntasks 1\ntask 1 2 2 1\np 0 2\nend\n", 3),
    (
        b"poet-cert 1\ntasks 1\ntask 0 1000000001 2 1\np 0 2\nend\n",
        3,
    ),
    (b"poet-cert 1\ntasks 1\ntask 0 2 2 0\nend\n", 3),
    (b"poet-cert 1\ntasks 1\ntask 0 2 2 1000001\np 0 2\nend\n", 3),
    // A point is missing.
    (b"poet-cert 1\ntasks 1\ntask 0 2 2 2\np 0 2\nend\n", 5),
    // A point too many.
    (
        b"poet-cert 1\ntasks 1\ntask 0 2 2 1\np 0 2\np 1 2\nend\n",
        5,
    ),
    // No such version.
    (b"poet-cert 3\ntasks 1\ntask 0 2 2 1\np 0 2\nend\n", 1),
    // The terms are missing.
    (b"poet-cert 2\ntasks 1\ntask 0 2 2 1\np 0 2\nend\n", 4),
    // Terms in the first version.
    (
        b"poet-cert 1\ntasks 1\ntask 0 2 2 1\np 0 2 1 1 0 2\nend\n",
        4,
    ),
    // A term too many.
    (
        b"poet-cert 2\ntasks 1\ntask 0 2 2 1\np 0 2 1 1 0 2 2\nend\n",
        4,
    ),
    // A term above 10^28.
    (
        b"poet-cert 2\ntasks 1\ntask 0 2 2 1\n\
        p 0 2 1 1 0 10000000000000000000000000001\nend\n",
        4,
    ),
];

fn make_points(alloc: Global, pairs: &[(u64, u64)]) -> Result<Items<Point>, AllocError> {
    let mut points = Vec::new(alloc);
    for (offset, end) in pairs {
        points.push(Point {
            offset: *offset,
            end: *end,
        })?;
    }
    Ok(Items::new(points))
}

fn make_cert(alloc: Global, rows: &[Row]) -> Result<Cert, AllocError> {
    let mut entries = Vec::new(alloc);
    for (window, bound, points) in rows {
        entries.push(Entry {
            window: *window,
            bound: *bound,
            points: make_points(alloc, points)?,
            terms: Items::new(Vec::new(alloc)),
        })?;
    }
    Ok(Cert {
        version: Version::One,
        entries: Items::new(entries),
    })
}

#[test]
fn texts_are_read_and_written(rt: HostRuntime) -> Result<(), Fail> {
    let alloc = rt.alloc();
    for (text, rows) in WRITTEN {
        let cert = read_cert(alloc, text)?;
        assert_eq!(rt; cert, make_cert(alloc, rows)?);
        assert_eq!(rt; write_cert(alloc, &cert)?.as_slice(), text);
    }
    Ok(())
}

#[test]
fn malformed_texts_are_refused_at_their_line(rt: HostRuntime) {
    for (bytes, line) in REFUSED {
        let answer = read_cert(rt.alloc(), bytes);
        assert_eq!(rt; answer, Err(TextRefusal::Line(line)));
    }
}

/// What the line says that these bytes end.
fn feed(lines: &mut Lines, bytes: &[u8]) -> LineStep {
    let mut step = LineStep::Bad;
    for byte in bytes {
        step = lines.feed(*byte);
    }
    step
}

/// What the line of a point says in the first version.
fn plain(offset: u64, end: u64) -> LineStep {
    LineStep::Point {
        offset,
        end,
        terms: None,
    }
}

#[test]
fn each_line_says_what_it_means(rt: HostRuntime) {
    let entry = LineStep::Entry {
        task: 0,
        window: 2,
        bound: 2,
        count: 1,
    };
    let cases = [
        (b"poet-cert 1\n".as_slice(), LineStep::More, false),
        (b"tasks 1\n", LineStep::Tasks(1), false),
        (b"task 0 2 2 1\n", entry, false),
        (b"p 0 2\n", plain(0, 2), false),
        (b"end\n", LineStep::End, true),
        (b"\n", LineStep::Bad, false),
    ];
    let mut lines = Lines::new();
    for (bytes, meaning, is_over) in cases {
        assert_eq!(rt; feed(&mut lines, bytes), meaning);
        assert_eq!(rt; lines.is_over(), is_over);
    }
    assert_eq!(rt; lines.line(), 6);
}

/// The certificate of two tasks, of which the second is never preempted, in both versions: the terms
/// of its two points are 1, 1, 0, 2 and 0, 1, 1, 2.
const BOTH: [&[u8]; 2] = [
    b"poet-cert 1\ntasks 2\ntask 0 2 2 1\np 0 2\ntask 1 3 3 1\np 0 2\nend\n",
    b"poet-cert 2\ntasks 2\ntask 0 2 2 1\np 0 2 1 1 0 2\n\
    task 1 3 3 1\np 0 2 0 1 1 2\nend\n",
];

fn with_terms(blocking: u128, own: u128, others: u128, need: u128) -> LineStep {
    LineStep::Point {
        offset: 0,
        end: 2,
        terms: Some(Terms {
            blocking,
            own,
            others,
            need,
        }),
    }
}

/// What the lines of such a certificate say, with these points.
fn both_steps(first: LineStep, second: LineStep) -> [LineStep; 6] {
    let entry = |task, time| LineStep::Entry {
        task,
        window: time,
        bound: time,
        count: 1,
    };
    [
        LineStep::Tasks(2),
        entry(0, 2),
        first,
        entry(1, 3),
        second,
        LineStep::End,
    ]
}

/// Feeds a piece of a text line by line, and keeps what its lines say.
fn feed_piece(lines: &mut Lines, piece: &[u8], said: &mut Vec<LineStep>) -> Result<(), AllocError> {
    let mut rest = piece;
    for _ in piece {
        let (len, step) = lines.feed_line(rest);
        if step != LineStep::More {
            said.push(step)?;
        }
        rest = &rest[len..];
    }
    Ok(())
}

#[test]
fn lines_are_read_across_any_cut(rt: HostRuntime) -> Result<(), Fail> {
    let alloc = rt.alloc();
    let meanings = [
        both_steps(plain(0, 2), plain(0, 2)),
        both_steps(with_terms(1, 1, 0, 2), with_terms(0, 1, 1, 2)),
    ];
    for (text, steps) in BOTH.iter().zip(&meanings) {
        for cut in 0..text.len() {
            let mut lines = Lines::new();
            let mut said = Vec::new(alloc);
            feed_piece(&mut lines, &text[..cut], &mut said)?;
            feed_piece(&mut lines, &text[cut..], &mut said)?;
            assert_eq!(rt; said.as_slice(), steps.as_slice());
            assert!(rt; lines.is_over());
        }
    }
    Ok(())
}

#[test]
fn terms_are_read_and_written(rt: HostRuntime) -> Result<(), Fail> {
    let alloc = rt.alloc();
    for text in BOTH {
        let cert = read_cert(alloc, text)?;
        assert_eq!(rt; text_len(&cert), text.len() as u64);
        assert_eq!(rt; write_cert(alloc, &cert)?.as_slice(), text);
    }
    let cert = read_cert(alloc, BOTH[1])?;
    assert_eq!(rt; cert.version, Version::Two);
    let terms = Terms {
        blocking: 0,
        own: 1,
        others: 1,
        need: 2,
    };
    let entries = cert.entries.as_slice();
    assert!(rt; entries.len() == 2);
    assert_eq!(rt; entries[1].terms.as_slice(), [terms].as_slice());
    Ok(())
}
