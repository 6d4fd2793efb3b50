//! A certificate that is judged piece by piece: the verdict is the same however it is cut.
use cert_check::{Checker, Verdict};
use conditions::{Cond, Failed};
use lists::Items;
use policy::Edf;
use preemption::PerTask;
use small_sheets::{TWO_DEADLINES, sheet_of};
use std::alloc::{AllocError, Global};
use std::process::Abort;
use std::test::Fail;
use task_sheet::Sheet;

const ACCEPTED: &[u8] = b"poet-cert 1
tasks 2
task 0 4 2 2
p 0 2
p 2 4
task 1 4 4 2
p 0 4
p 2 4
end
";

/// Offset 2 of `a` is missing.
const REFUSED: &[u8] = b"poet-cert 1
tasks 2
task 0 4 2 1
p 0 2
task 1 4 4 2
p 0 4
p 2 4
end
";

/// The same, and its last line is cut short.
const CUT_SHORT: &[u8] = b"poet-cert 1
tasks 2
task 0 4 2 1
p 0 2
task 1 4 4 2
p 0 4
p 2 4
end";

/// The accepted one with its points' terms.
const WITH_TERMS: &[u8] = b"poet-cert 2
tasks 2
task 0 4 2 2
p 0 2 0 2 0 2
p 2 4 0 2 2 4
task 1 4 4 2
p 0 4 0 2 2 4
p 2 4 0 2 2 4
end
";

/// The same, where the other task asks for one tick more at the second point.
const FALSE_TERMS: &[u8] = b"poet-cert 2
tasks 2
task 0 4 2 2
p 0 2 0 2 0 2
p 2 4 0 2 3 4
task 1 4 4 2
p 0 4 0 2 2 4
p 2 4 0 2 2 4
end
";

/// The verdict on these pieces, one after the other, with deadlines.
fn verdict_on(alloc: Global, sheet: &Sheet, pieces: &[&[u8]]) -> Result<Verdict, AllocError> {
    let mut checker = Checker::<Edf, PerTask, Sheet>::new(alloc, sheet, sheet, true)?;
    for piece in pieces {
        checker.feed(piece);
    }
    Ok(checker.finish())
}

/// The verdict on the bytes one by one, with deadlines.
fn verdict_by_bytes(alloc: Global, sheet: &Sheet, text: &[u8]) -> Result<Verdict, AllocError> {
    let mut checker = Checker::<Edf, PerTask, Sheet>::new(alloc, sheet, sheet, true)?;
    for byte in text {
        checker.feed(&[*byte]);
    }
    Ok(checker.finish())
}

/// Asserts the verdict on a text whole, byte by byte, and in two pieces at each place.
fn assert_verdict(
    rt: &impl Abort,
    alloc: Global,
    text: &[u8],
    wanted: &Verdict,
) -> Result<(), Fail> {
    let sheet = sheet_of(alloc, TWO_DEADLINES)?;
    assert_eq!(rt; verdict_on(alloc, &sheet, &[text])?, *wanted);
    assert_eq!(rt; verdict_by_bytes(alloc, &sheet, text)?, *wanted);
    for at in 0..text.len() {
        let cut = verdict_on(alloc, &sheet, &[&text[..at], &text[at..]])?;
        assert_eq!(rt; cut, *wanted, "cut at {at}");
    }
    Ok(())
}

#[test]
fn one_verdict(rt: HostRuntime) -> Result<(), Fail> {
    let alloc = rt.alloc();
    let accepted = Verdict::Accepted(Items::new(vec![in alloc; 2, 4]?));
    assert_verdict(&rt, alloc, ACCEPTED, &accepted)?;
    assert_verdict(&rt, alloc, WITH_TERMS, &accepted)?;
    let false_terms = Verdict::Refused(Failed::of_point(0, 2, Cond::K10));
    assert_verdict(&rt, alloc, FALSE_TERMS, &false_terms)?;
    let refused = Verdict::Refused(Failed::of_point(0, 0, Cond::K5));
    assert_verdict(&rt, alloc, REFUSED, &refused)?;
    assert_verdict(&rt, alloc, CUT_SHORT, &Verdict::Text { line: 8 })
}
