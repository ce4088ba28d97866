use crate::{Unit, put_decimal, scaled_decimal};

const FEET: Unit = Unit {
    num: 304_800,
    den: 1,
    least: -10_000_000_000,
    most: 10_000_000_000,
};

const METRES: Unit = Unit {
    num: 1_000_000,
    den: 1,
    least: -10_000_000_000,
    most: 10_000_000_000,
};

const CUBIC_FEET_PER_SECOND: Unit = Unit {
    num: 28_316_846_592,
    den: 1_000_000,
    least: -1_000_000_000_000,
    most: 1_000_000_000_000,
};

#[test]
fn texts_have_their_values(rt: HostRuntime) {
    assert!(rt; scaled_decimal(b"1.5", &FEET) == Some(457_200));
    assert!(rt; scaled_decimal(b"-0.0000005", &METRES) == Some(-1));
    assert!(rt; scaled_decimal(b"1e3", &METRES) == Some(1_000_000_000));
    assert!(rt; scaled_decimal(b"1.", &METRES) == Some(1_000_000));
    assert!(rt; scaled_decimal(b".5", &METRES) == Some(500_000));
    assert!(rt; scaled_decimal(b"+.5e-3", &METRES) == Some(500));
    assert!(rt; scaled_decimal(b"0.000000000000000001", &METRES) == Some(0));
    assert!(rt; scaled_decimal(&[b'0'; 40], &METRES) == Some(0));
    assert!(rt; scaled_decimal(b"-10000", &METRES) == Some(-10_000_000_000));
    assert!(rt; scaled_decimal(b"1", &CUBIC_FEET_PER_SECOND) == Some(28_317));
}

#[test]
fn other_texts_have_none(rt: HostRuntime) {
    assert!(rt; scaled_decimal(b"abc", &METRES).is_none());
    assert!(rt; scaled_decimal(b".", &METRES).is_none());
    assert!(rt; scaled_decimal(b"", &METRES).is_none());
    assert!(rt; scaled_decimal(b"1e10", &METRES).is_none());
    assert!(rt; scaled_decimal(b"1e", &METRES).is_none());
    assert!(rt; scaled_decimal(b"0.0000000000000000001", &METRES).is_none());
    assert!(rt; scaled_decimal(&[b'0'; 41], &METRES).is_none());
    assert!(rt; scaled_decimal(b"10000.000001", &METRES).is_none());
}

#[test]
fn values_are_written_in_places(rt: HostRuntime) {
    let mut to = [0; 64];
    let end = put_decimal(28_317, &CUBIC_FEET_PER_SECOND, 6, &mut to);
    assert!(rt; &to[..end] == b"1.000005".as_slice());
    let end = put_decimal(-1, &METRES, 6, &mut to);
    assert!(rt; &to[..end] == b"-0.000001".as_slice());
    let end = put_decimal(457_200, &FEET, 0, &mut to);
    assert!(rt; &to[..end] == b"2".as_slice());
}
