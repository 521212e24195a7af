use super::*;

#[test]
fn multiples_and_quotients(rt: HostRuntime) {
    assert_eq!(rt; lcm(6, 4, 12), Some(12));
    assert_eq!(rt; lcm(6, 4, 11), None);
    assert_eq!(rt; capped_multiple(6, 4), 12);
    assert_eq!(rt; capped_multiple(1 << 100, 3), 3 << 100);
    assert_eq!(rt; capped_multiple(1 << 126, 3), i128::MAX);
    assert_eq!(rt; capped_product(1 << 63, 1 << 63), 1 << 126);
    assert_eq!(rt; capped_product(1 << 64, 1 << 63), i128::MAX);
    assert_eq!(rt; gcd(6, 4), 2);
    assert_eq!(rt; ceil_div(-31, 2), -15);
    assert_eq!(rt; floor_div(-31, 2), -16);
    let half = Frac::of(-2, -4);
    let third = Frac::of(1, 3);
    assert!(rt; small(half) && small(third));
    assert_eq!(rt; add(half, third), Frac::of(5, 6));
    assert_eq!(rt; mul(half, third), Frac::of(1, 6));
    assert!(rt; at_most(third, half) && !at_most(half, third));
}

#[test]
fn spellings(rt: HostRuntime) {
    for (token, num, den) in [
        ("-0", 0, 1),
        (".5", 1, 2),
        ("1.", 1, 1),
        ("007", 7, 1),
        ("10/4", 5, 2),
        ("-2.50", -5, 2),
        ("-3/6", -1, 2),
    ] {
        let fraction = read_number(token.as_bytes()).expect(&rt, "a number");
        assert_eq!(rt; fraction.num(), num, "{token}");
        assert_eq!(rt; fraction.den(), den, "{token}");
    }
    for token in ["1.2.3", "1/0", "+1", "1e3", "-", ".", "1/2/3", "0x1", ""] {
        assert_eq!(rt;
            read_number(token.as_bytes()),
            Err(NumberFault::NotNumber),
            "{token}"
        );
    }
    assert_eq!(rt;
        read_number(&[b'0'; 37]),
        Err(NumberFault::Beyond { digits: 37 })
    );
}

#[test]
fn digits(rt: HostRuntime) {
    for (text, value) in [
        ("0", Some(0)),
        ("000000000000000015", Some(15)),
        ("999999999999999999", Some(999_999_999_999_999_999)),
        ("0000000000000000015", None),
        ("", None),
        ("+1", None),
        ("1.", None),
    ] {
        assert_eq!(rt; read_digits(text.as_bytes()), value, "{text}");
    }
}
