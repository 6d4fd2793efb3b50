//! Canonical decimals.
use poet_io::{put_number, put_wide, read_number, read_number_in};

#[test]
fn numbers_are_written(rt: HostRuntime) {
    let cases = [
        (0, b"0".as_slice()),
        (7, b"7".as_slice()),
        (1_000_000_000, b"1000000000".as_slice()),
        (u64::MAX, b"18446744073709551615".as_slice()),
    ];
    for (n, text) in cases {
        let mut buf = [0u8; 20];
        let len = put_number(n, &mut buf);
        assert_eq!(rt; &buf[..len], text, "at {n}");
        let mut wide = [0u8; 39];
        let len = put_wide(u128::from(n), &mut wide);
        assert_eq!(rt; &wide[..len], text, "at {n}");
    }
}

#[test]
fn wide_numbers_are_written(rt: HostRuntime) {
    let cases = [
        (1 << 64, b"18446744073709551616".as_slice()),
        (
            u128::MAX,
            b"340282366920938463463374607431768211455".as_slice(),
        ),
    ];
    for (n, text) in cases {
        let mut buf = [0u8; 39];
        let len = put_wide(n, &mut buf);
        assert_eq!(rt; &buf[..len], text, "at {n}");
    }
}

/// Each of the bytes by itself, and as a number from 7 to 64.
#[test]
fn numbers_are_read(rt: HostRuntime) {
    let cases = [
        (b"0".as_slice(), Some(0), None),
        (b"6".as_slice(), Some(6), None),
        (b"7".as_slice(), Some(7), Some(7)),
        (b"64".as_slice(), Some(64), Some(64)),
        (b"65".as_slice(), Some(65), None),
        (b"1000000000".as_slice(), Some(1_000_000_000), None),
        (b"18446744073709551615".as_slice(), Some(u64::MAX), None),
        (b"18446744073709551616".as_slice(), None, None),
        (b"".as_slice(), None, None),
        (b"00".as_slice(), None, None),
        (b"007".as_slice(), None, None),
        (b"+1".as_slice(), None, None),
        (b"+7".as_slice(), None, None),
    ];
    for (bytes, number, within) in cases {
        let found = (read_number(bytes), read_number_in(bytes, 7, 64));
        assert_eq!(rt; found, (number, within));
    }
}
