//! The line of a point, read at once.

ghost use Rattle.std.specs.Prelude.{◌≡◌, ◌≤◌, ◌<◌, ◌^◌, ◌++◌, ◌∷◌, ℕ, length, take, slice_index, decimal, IfSome, IsTrue, Some, None};
ghost use Rattle.std.specs.Str.Parse.{AllDigits, digits_value};
ghost use Rattle.certificate.specs.Text.{point_line, point_text, IsPoint, IsTerms};
ghost use Rattle.certificate.specs.declared.cert.Version.{Version};
ghost use Rattle.certificate.specs.FirstLines.{IsLineOf};

use crate::cert::{Point, Terms};
use lists::limits::GREATEST_NUMBER;

/// A number with more digits is not read at once.
const MOST_DIGITS: usize = 18;

/// The number that the digits in front of the bytes write, and how many they are: up to 18.
///
/// So many bytes and one more are there, so that no digit needs a test on where the bytes end.
#[inline(always)]
#[tactic(auto, using(poet_io::proofs::DecimalFacts::digits_next, poet_io::proofs::DecimalFacts::digit_from_test, crate::proofs::ScanFacts::one_more_fits, crate::proofs::ScanFacts::digits_small))]
fn front_digits(bytes: &[u8]) -> (u64, usize)
    requires { 18 < length bytes.now }
    ensures within { result.1 ≤ 18 }
    ensures digits { AllDigits 10 (take result.1 bytes.now) }
    ensures value { result.0 ≡ digits_value 10 (take result.1 bytes.now) }
    ensures small { result.0 < 10 ^ 18 }
{
    let mut value: u64 = 0;
    for at in 0..MOST_DIGITS {
        let byte = bytes[at];
        if !byte.is_ascii_digit() {
            return (value, at);
        }
        value = value * 10 + u64::from(byte - b'0');
    }
    (value, MOST_DIGITS)
}

/// Whether so many digits in front of the bytes do not begin with a zero, but for a single one.
#[inline(always)]
fn is_canonical(bytes: &[u8], len: usize) -> bool
    requires { len < length bytes.now }
    ensures { IsTrue result → slice_index bytes.now 0 ≡ 48 → len ≤ 1 }
{
    len <= 1 || bytes[0] != b'0'
}

/// The number in front of the bytes, and what follows the byte `ender` behind it.
///
/// There is none where this byte is not behind a canonical decimal of up to 18 digits, and near the
/// end of the bytes.
#[inline(always)]
#[tactic(auto, using(crate::proofs::ScanFacts::number_taken))]
fn take_number(bytes: &[u8], ender: u8) -> Option<(u64, &[u8])>
    ensures text { IfSome result (λ r. bytes.now ≡ decimal r.0 ++ (ender ∷ r.1.now)) }
    ensures small { IfSome result (λ r. r.0 < 10 ^ 18) }
{
    if bytes.len() <= MOST_DIGITS {
        return None;
    }
    let (value, len) = front_digits(bytes);
    if len == 0 {
        return None;
    }
    if bytes[len] != ender {
        return None;
    }
    if !is_canonical(bytes, len) {
        return None;
    }
    Some((value, &bytes[len + 1..]))
}

/// The terms behind a point's end and a space, and what follows their newline.
#[inline(never)]
fn take_terms(bytes: &[u8]) -> Option<(Terms, &[u8])>
    ensures text { IfSome result (λ r. bytes.now ≡
        decimal r.0.blocking ++ (32 ∷ (decimal r.0.own ++ (32 ∷ (decimal r.0.others ++
        (32 ∷ (decimal r.0.need ++ (10 ∷ r.1.now)))))))) }
    ensures small { IfSome result (λ r. IsTerms r.0) }
{
    let Some((blocking, rest)) = take_number(bytes, b' ') else {
        return None;
    };
    let Some((own, rest)) = take_number(rest, b' ') else {
        return None;
    };
    let Some((others, rest)) = take_number(rest, b' ') else {
        return None;
    };
    let Some((need, rest)) = take_number(rest, b'\n') else {
        return None;
    };
    let terms = Terms {
        blocking: u128::from(blocking),
        own: u128::from(own),
        others: u128::from(others),
        need: u128::from(need),
    };
    Some((terms, rest))
}

/// The point in front of the bytes, and what follows the byte `ender` behind its end.
#[inline(always)]
fn take_ends(bytes: &[u8], ender: u8) -> Option<(Point, &[u8])>
    ensures text { IfSome result (λ r. bytes.now ≡ 112 ∷ (32 ∷ (decimal r.0.offset ++
        (32 ∷ (decimal r.0.end ++ (ender ∷ r.1.now)))))) }
    ensures small { IfSome result (λ r. IsPoint r.0) }
{
    if bytes.len() < 2 {
        return None;
    }
    if bytes[0] != b'p' {
        return None;
    }
    if bytes[1] != b' ' {
        return None;
    }
    let Some((offset, rest)) = take_number(&bytes[2..], b' ') else {
        return None;
    };
    let Some((end, rest)) = take_number(rest, ender) else {
        return None;
    };
    if offset > GREATEST_NUMBER {
        return None;
    }
    if end > GREATEST_NUMBER {
        return None;
    }
    Some((Point { offset, end }, rest))
}

/// The line of a point without terms, where it is in front of the bytes, and what follows it.
///
/// There is none where no such line is, and near the end of the bytes.
#[inline(always)]
pub(crate) fn scan_plain(bytes: &[u8]) -> Option<(Point, &[u8])>
    ensures text { IfSome result (λ r. bytes.now ≡
        point_text (point_line r.0 None) ++ r.1.now) }
    ensures of { IfSome result (λ r. IsLineOf Version.One (point_line r.0 None)) }
{
    let Some((point, rest)) = take_ends(bytes, b'\n') else {
        return None;
    };
    Some((point, rest))
}

/// The line of a point with its terms, where it is in front of the bytes, and what follows it.
///
/// There is none where no such line is, for a term of more than 18 digits, and near the end of the
/// bytes.
pub(crate) fn scan_full(bytes: &[u8]) -> Option<(Point, Terms, &[u8])>
    ensures text { IfSome result (λ r. bytes.now ≡
        point_text (point_line r.0 (Some r.1)) ++ r.2.now) }
    ensures of { IfSome result (λ r. IsLineOf Version.Two (point_line r.0 (Some r.1))) }
{
    let Some((point, rest)) = take_ends(bytes, b' ') else {
        return None;
    };
    let Some((terms, rest)) = take_terms(rest) else {
        return None;
    };
    Some((point, terms, rest))
}
