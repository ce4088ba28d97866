use crate::{inverse, line_at, nearest, quick_quo, quick_root2, quick_root3, reaches_root};

#[test]
fn quotients_need_no_good_inverse(rt: HostRuntime) {
    assert!(rt; nearest(7, 2, inverse(2)) == 4);
    assert!(rt; nearest(7, 2, 0) == 4);
    assert!(rt; nearest(7, 2, u64::MAX) == 4);
    assert!(rt; nearest(999_999_999_999, 5_000, inverse(5_000)) == 200_000_000);
}

#[test]
fn lines_rise_and_fall(rt: HostRuntime) {
    assert!(rt; line_at(10, 20, 1, 4, inverse(4)) == 13);
    assert!(rt; line_at(20, 10, 1, 4, inverse(4)) == 17);
    assert!(rt; line_at(20, 20, 1, 4, 0) == 20);
    assert!(rt; line_at(0, 40_000_000_000, 3, 4, 0) == 30_000_000_000);
}

#[test]
fn roots_are_reached(rt: HostRuntime) {
    assert!(rt; reaches_root(3, 15));
    assert!(rt; !reaches_root(3, 16));
    assert!(rt; !reaches_root(-1, 0));
}

#[test]
fn quick_ones_are_the_same(rt: HostRuntime) {
    assert!(rt; quick_quo(7, 2) == 4);
    assert!(rt; quick_root2(0) == 0);
    assert!(rt; quick_root2(15) == 3);
    assert!(rt; quick_root2(16) == 4);
    assert!(rt; quick_root2(4_000_000_000_000) == 2_000_000);
    assert!(rt; quick_root2(i128::MAX) == 13_043_817_825_332_782_212);
}

#[test]
fn quick_cube_roots_are_the_same(rt: HostRuntime) {
    assert!(rt; quick_root3(0) == 0);
    assert!(rt; quick_root3(26) == 2);
    assert!(rt; quick_root3(27) == 3);
    assert!(rt; quick_root3(999_999_999_999_999) == 99_999);
    assert!(rt; quick_root3(i128::MAX) == 5_541_191_377_756);
}
