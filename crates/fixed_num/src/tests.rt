use crate::{cut, lerp, quo, root2, root3};

#[test]
fn quotients_round_ties_away_from_zero(rt: HostRuntime) {
    assert!(rt; quo(5, 2) == 3);
    assert!(rt; quo(-5, 2) == -3);
    assert!(rt; quo(i128::MAX, 1) == i128::MAX);
    assert!(rt; quo(i128::MIN, 1) == i128::MIN);
    assert!(rt; quo(i128::MIN, i128::MAX) == -1);
    assert!(rt;
        quo(
            85_070_591_730_234_615_865_843_651_857_942_052_864,
            i128::MAX
        ) == 1
    );
}

#[test]
fn roots_are_the_greatest(rt: HostRuntime) {
    assert!(rt; root2(0) == 0);
    assert!(rt; root2(10) == 3);
    assert!(rt; root3(26) == 2);
    assert!(rt; root3(27) == 3);
    assert!(rt; root2(i128::MAX) == 13_043_817_825_332_782_212);
    assert!(rt; root3(i128::MAX) == 5_541_191_377_756);
}

#[test]
fn lines_and_ranges_keep_their_ends(rt: HostRuntime) {
    assert!(rt; lerp(i64::MIN, i64::MIN, i64::MAX, i64::MAX, i64::MIN) == i64::MIN);
    assert!(rt; lerp(i64::MIN, i64::MAX, i64::MAX, i64::MIN, i64::MAX) == i64::MIN);
    assert!(rt; lerp(0, 0, 4, 10, 1) == 3);
    assert!(rt; cut(7, -2, 5) == 5);
    assert!(rt; cut(-7, -2, 5) == -2);
}
