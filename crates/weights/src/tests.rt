//! What the clauses do not show: that they say what was meant. The values were worked out by hand,
//! or by a program for exact fractions.

ghost use Rattle.std.specs.Prelude.{◌≡◌};
ghost use Rattle.weights.specs.Monoids.{CanAdd};

use super::*;
use std::alloc::AllocError;

#[test]
fn numerals_within_the_bounds_have_their_value(rt: HostRuntime) {
    for (word, p, q) in [
        ("0", 0, 1),
        ("-0", 0, 1),
        ("1", 1, 1),
        ("-1", -1, 1),
        ("007", 7, 1),
        ("-007", -7, 1),
        ("000", 0, 1),
        ("1099511627776", 1099511627776, 1),
        ("-1099511627776", -1099511627776, 1),
        ("0001099511627776", 1099511627776, 1),
        ("007/014", 1, 2),
        ("-6/4", -3, 2),
        ("0/5", 0, 1),
        ("-0/5", 0, 1),
        ("1099511627776/1099511627776", 1, 1),
        ("1/1099511627776", 1, 1099511627776),
        ("1099511627776/0002", 549755813888, 1),
        (
            "-1099511627775/1099511627776",
            -1099511627775,
            1099511627776,
        ),
        ("0.500", 1, 2),
        ("1.0000000000000", 1, 1),
        ("1.099511627776", 268435456, 244140625),
        ("0.000000000001", 1, 1000000000000),
        ("-0.000000000001", -1, 1000000000000),
        ("0.0", 0, 1),
        ("-0.0", 0, 1),
        ("-0.00000000000000000000", 0, 1),
        ("109951162777.6", 549755813888, 5),
        ("1099511627776.0", 1099511627776, 1),
        ("0.123456789012000", 30864197253, 250000000000),
        ("-12.50", -25, 2),
        ("00.10", 1, 10),
    ] {
        assert_eq!(rt;
            read_numeral(word.as_bytes()),
            Ok(Numeral { p, q }),
            "{word}"
        );
    }
}

#[test]
fn numerals_over_a_bound_tell_their_sign(rt: HostRuntime) {
    for (word, negative) in [
        ("1099511627777", false),
        ("-1099511627777", true),
        ("18446744073709551616", false),
        ("18446744073709551617", false),
        ("-18446744073709551616", true),
        ("340282366920938463463374607431768211457", false),
        ("1099511627777/1099511627777", false),
        ("2199023255552/2199023255552", false),
        ("1/1099511627777", false),
        ("-1/1099511627777", true),
        ("0/1099511627777", false),
        ("-0/1099511627777", false),
        ("-0/9999999999999", false),
        ("5/18446744073709551616", false),
        ("5/18446744073709551617", false),
        ("18446744073709551617/5", false),
        ("1.099511627777", false),
        ("-1.099511627777", true),
        ("0.0000000000001", false),
        ("-0.0000000000001", true),
        ("109951162777.7", false),
        ("1099511627776.1", false),
        ("0.1234567890121", false),
    ] {
        let want = Err(NumeralFault::OverBound { negative });
        assert_eq!(rt; read_numeral(word.as_bytes()), want, "{word}");
    }
}

#[test]
fn other_words_are_no_numerals(rt: HostRuntime) {
    for word in [
        "0/0",
        "-0/0",
        "1/0",
        "1/000",
        "1099511627777/0",
        "",
        "-",
        ".",
        "/",
        ".5",
        "5.",
        "-.5",
        "-5.",
        "1e3",
        "+1",
        "1/",
        "/1",
        "1//2",
        "1/2/3",
        "1.2.3",
        "1.2/3",
        "1/2.3",
        "--1",
        "1-",
        "1/-2",
        "-/2",
        " 1",
        "1 ",
        "1_0",
        "0x1",
        ":",
        "1:",
        "1/:",
        "1.:",
    ] {
        let want = Err(NumeralFault::NotANumber);
        assert_eq!(rt; read_numeral(word.as_bytes()), want, "{word}");
    }
}

#[test]
fn words_of_millions_of_digits_are_read(rt: HostRuntime) -> Result<(), AllocError> {
    let mut word = Vec::with_capacity(rt.alloc(), 4_000_003)?;
    word.extend_from_slice(b"-")?;
    for _ in 0..2_000_000 {
        word.push(b'0')?;
    }
    word.extend_from_slice(b"7.5")?;
    for _ in 0..1_000_000 {
        word.push(b'0')?;
    }
    assert_eq!(rt; read_numeral(&word), Ok(Numeral { p: -15, q: 2 }));
    word.extend_from_slice(b"9")?;
    assert_eq!(rt;
        read_numeral(&word),
        Err(NumeralFault::OverBound { negative: true })
    );
    Ok(())
}

#[test]
fn divisors_and_multiples_are_those_of_the_book(rt: HostRuntime) {
    for (a, b, want) in [
        (0, 0, 0),
        (0, 5, 5),
        (5, 0, 5),
        (12, 18, 6),
        (17, 13, 1),
        (u64::MAX, 3, 3),
        (u64::MAX, u64::MAX, u64::MAX),
    ] {
        assert_eq!(rt; gcd(a, b), want, "{a} and {b}");
    }
    assert_eq!(rt; lcm_within(4, 6, 12), Some(12));
    assert_eq!(rt; lcm_within(4, 6, 11), None);
    assert_eq!(rt; lcm_within(1, 1, 0), None);
    assert_eq!(rt; lcm_within(3, 1 << 40, 1 << 40), None);
    assert_eq!(rt; lcm_within(1 << 63, 3, u64::MAX), None);
    assert_eq!(rt; lcm_within(u64::MAX, u64::MAX, u64::MAX), Some(u64::MAX));
}

#[test]
fn fractions_are_written_in_lowest_terms(rt: HostRuntime) {
    for (sum, denominator, want) in [
        (0, 7, "0"),
        (1, 2, "1/2"),
        (-4, 6, "-2/3"),
        (6, 3, "2"),
        (-6, 3, "-2"),
        (1 << 126, 1 << 40, "77371252455336267181195264"),
        (
            -(1 << 126) + 1,
            1 << 63,
            "-85070591730234615865843651857942052863/9223372036854775808",
        ),
        (
            i128::MIN,
            u64::MAX,
            "-170141183460469231731687303715884105728/18446744073709551615",
        ),
    ] {
        let mut out = [0; 64];
        let length = ratio_text(ratio_of(sum, denominator), &mut out);
        assert_eq!(rt; &out[..length], want.as_bytes(), "{sum} over {denominator}");
    }
}

/// The number of a weight that another was added to and taken from again.
fn there_and_back<G: Group>(group: &G, a: G::Elem, b: G::Elem) -> i128
    requires there { CanAdd (G.number group.now) a b }
    requires again { CanAdd (G.number group.now) (G.add group.now a b) b }
    ensures back { result ≡ G.number group.now a }
{
    let sum = group.add(&a, &b);
    group.number(&group.sub(&sum, &b))
}

#[test]
fn what_was_added_is_taken_away_again(rt: HostRuntime) {
    assert_eq!(rt; there_and_back(&Whole, 3, -5), 3);
    assert_eq!(rt; there_and_back(&Count, 0, 5), 0);
    assert_eq!(rt;
        there_and_back(&Scaled { denominator: 6 }, -(1 << 124), 1 << 124),
        -(1 << 124)
    );
    assert_eq!(rt;
        (
            Whole.add(&2, &-3),
            Whole.sub(&2, &-3),
            Whole.number(&Whole.zero())
        ),
        (-1, 5, 0)
    );
}
