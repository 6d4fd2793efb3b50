//! A certificate that is judged in pieces.
ghost use Rattle.std.specs.Prelude.{◌≤◌, length};

use cert_check::{Checker, Verdict};
use policy::Edf;
use preemption::PerTask;
use small_sheets::{TWO_DEADLINES, sheet_of};
use std::alloc::{AllocError, Global};
use std::test::Fail;
use task_sheet::Sheet;

const TWO_DEADLINES_CERT: &str =
    "poet-cert 1\ntasks 2\ntask 0 4 2 2\np 0 2\np 2 4\ntask 1 4 4 2\np 0 4\np 2 4\nend\n";

/// The verdict on the bytes of a certificate, in two pieces.
fn in_two(alloc: Global, sheet: &Sheet, bytes: &[u8], at: usize) -> Result<Verdict, AllocError>
    requires { at ≤ length bytes.now }
{
    let mut checker = Checker::<Edf, PerTask, Sheet>::new(alloc, sheet, sheet, false)?;
    checker.feed(&bytes[..at]);
    checker.feed(&bytes[at..]);
    Ok(checker.finish())
}

/// The verdict on the bytes of a certificate, byte by byte.
fn byte_by_byte(alloc: Global, sheet: &Sheet, bytes: &[u8]) -> Result<Verdict, AllocError> {
    let mut checker = Checker::<Edf, PerTask, Sheet>::new(alloc, sheet, sheet, false)?;
    for byte in bytes {
        checker.feed(&[*byte]);
    }
    Ok(checker.finish())
}

fn bounds_of(verdict: &Verdict) -> Option<&[u64]> {
    match verdict {
        Verdict::Accepted(bounds) => Some(bounds.as_slice()),
        _ => None,
    }
}

#[test]
fn one_verdict_however_it_is_cut(rt: HostRuntime) -> Result<(), Fail> {
    let alloc = rt.alloc();
    let sheet = sheet_of(alloc, TWO_DEADLINES)?;
    let bytes = TWO_DEADLINES_CERT.as_bytes();
    let bounds = Some([2, 4].as_slice());
    assert_eq!(rt; bounds_of(&byte_by_byte(alloc, &sheet, bytes)?), bounds);
    for at in 0..bytes.len() {
        assert_eq!(rt;
            bounds_of(&in_two(alloc, &sheet, bytes, at)?),
            bounds,
            "{at}"
        );
    }
    Ok(())
}
