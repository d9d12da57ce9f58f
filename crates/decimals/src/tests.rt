use crate::{read_number, read_whole, read_wide};
use std::test::Fail;

#[test]
fn numbers_have_one_spelling(rt: HostRuntime) -> Result<(), Fail> {
    let cases = [
        ("0", Some(0)),
        ("7", Some(7)),
        ("4294967295", Some(4_294_967_295)),
        ("4294967296", None),
        ("", None),
        ("07", None),
        ("+7", None),
        ("-0", None),
        ("7 ", None),
    ];
    for (word, number) in cases {
        assert_eq!(rt; read_number(rt.alloc(), word)?, number, "{word}");
    }
    Ok(())
}

#[test]
fn numbers_with_a_sign_have_one_spelling(rt: HostRuntime) -> Result<(), Fail> {
    let cases = [
        ("-2147483648", Some(-2_147_483_648)),
        ("2147483647", Some(2_147_483_647)),
        ("2147483648", None),
        ("-0", None),
        ("-01", None),
        ("+1", None),
        ("--1", None),
        ("-", None),
    ];
    for (word, number) in cases {
        assert_eq!(rt; read_whole(rt.alloc(), word)?, number, "{word}");
    }
    Ok(())
}

#[test]
fn numbers_of_64_bits_have_one_spelling(rt: HostRuntime) -> Result<(), Fail> {
    let cases = [
        ("-9223372036854775808", Some(-9_223_372_036_854_775_808)),
        ("9223372036854775807", Some(9_223_372_036_854_775_807)),
        ("9223372036854775808", None),
        ("2147483648", Some(2_147_483_648)),
        ("-0", None),
        ("1e3", None),
    ];
    for (word, number) in cases {
        assert_eq!(rt; read_wide(rt.alloc(), word)?, number, "{word}");
    }
    Ok(())
}
