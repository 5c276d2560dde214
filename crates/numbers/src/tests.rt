use crate::binary::Binary;
use crate::decimal::Decimal;
use crate::digits::Digits;
use crate::kind::NumberKind;
use crate::literal::{literal_value, read_literal};
use std::test::Fail;

// Two's complement at the ends of its range: sum, difference, product and less of each pair.
#[test]
fn binary_at_its_ends(rt: HostRuntime) {
    let cases = [
        (0, 0, 0, 0, 0, false),
        (0x7fff_ffff, 1, 0x8000_0000, 0x7fff_fffe, 0x7fff_ffff, false),
        (0x8000_0000, 1, 0x8000_0001, 0x7fff_ffff, 0x8000_0000, true),
        (0xffff_ffff, 0xffff_ffff, 0xffff_fffe, 0, 1, false),
        (0x8000_0000, 0x7fff_ffff, 0xffff_ffff, 1, 0x8000_0000, true),
        (0xffff_ffff, 0, 0xffff_ffff, 0xffff_ffff, 0, true),
    ];
    for (x, y, sum, difference, product, less) in cases {
        assert!(rt; Binary.is_number(x) && Binary.is_number(y));
        assert_eq!(rt; Binary.sum(x, y), sum);
        assert_eq!(rt; Binary.difference(x, y), difference);
        assert_eq!(rt; Binary.product(x, y), product);
        assert_eq!(rt; Binary.less(x, y), less);
    }
}

// Packed digits at the ends of their range.
#[test]
fn decimal_at_its_ends(rt: HostRuntime) {
    let cases = [
        (0x9999_9999, 1, 0, 0x9999_9998, 0x9999_9999, false),
        (0, 1, 1, 0x9999_9999, 0, true),
        (
            0x0009_9999,
            0x0010_0000,
            0x0019_9999,
            0x9999_9999,
            0x9990_0000,
            true,
        ),
        (0x9999_9999, 0x9999_9999, 0x9999_9998, 0, 1, false),
    ];
    for (x, y, sum, difference, product, less) in cases {
        assert!(rt; Decimal.is_number(x) && Decimal.is_number(y));
        assert_eq!(rt; Decimal.sum(x, y), sum);
        assert_eq!(rt; Decimal.difference(x, y), difference);
        assert_eq!(rt; Decimal.product(x, y), product);
        assert_eq!(rt; Decimal.less(x, y), less);
    }
    assert!(rt;
        !Decimal.is_number(10) && !Decimal.is_number(0xa000_0000) && !Decimal.is_number(0xffff_ffff)
    );
}

#[test]
fn words_written(rt: HostRuntime) {
    for (word, text) in [
        (0, "0"),
        (0x7fff_ffff, "2147483647"),
        (0x8000_0000, "-2147483648"),
        (0xffff_ffff, "-1"),
        (10, "10"),
    ] {
        assert_eq!(rt; Binary.written(word).as_bytes(), text.as_bytes());
    }
    for (word, text) in [(0, "0"), (0x9999_9999, "99999999"), (0x0000_0100, "100")] {
        assert_eq!(rt; Decimal.written(word).as_bytes(), text.as_bytes());
    }
}

// Eleven bytes are a written form, twelve are none.
#[test]
fn forms_from_bytes(rt: HostRuntime) -> Result<(), Fail> {
    for text in ["", "-7", "12345678901"] {
        let Some(form) = Digits::from_bytes(text.as_bytes()) else {
            return Err(Fail::new(text));
        };
        assert_eq!(rt; form.as_bytes(), text.as_bytes());
    }
    assert!(rt; Digits::from_bytes(b"123456789012").is_none());
    Ok(())
}

// The number that digits write, and the word that each kind reads.
#[test]
fn literals_read(rt: HostRuntime) {
    let cases = [
        ("0", Some(0), Some(0), Some(0)),
        ("07", Some(7), Some(7), Some(7)),
        (
            "99999999",
            Some(99_999_999),
            Some(99_999_999),
            Some(0x9999_9999),
        ),
        ("100000000", Some(100_000_000), Some(100_000_000), None),
        ("2147483647", Some(2_147_483_647), Some(0x7fff_ffff), None),
        ("2147483648", Some(2_147_483_648), None, None),
        ("9999999999", Some(9_999_999_999), None, None),
        ("00000000000", None, None, None),
        ("", None, None, None),
        ("1/", None, None, None),
        (":1", None, None, None),
    ];
    for (text, value, binary, decimal) in cases {
        assert_eq!(rt; literal_value(text.as_bytes()), value);
        assert_eq!(rt; read_literal(&Binary, text.as_bytes()), binary);
        assert_eq!(rt; read_literal(&Decimal, text.as_bytes()), decimal);
    }
}
