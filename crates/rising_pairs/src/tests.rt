ghost use Rattle.std.specs.Prelude.{◌<ℤ◌};

use crate::{first_above, held_reading, reading};

// Where `key` stands among two pairs.
fn place(first: (i64, i64), second: (i64, i64), key: i64) -> usize
    requires { first.0 <ℤ second.0 }
{
    first_above(&[first, second], key)
}

// A series of two hours, read with zero outside.
fn inflow(moment: i64) -> i64 {
    reading(
        &[(3_600_000, 2_000_000), (7_200_000, 4_000_000)],
        moment,
        0,
        0,
    )
}

// The same series, whose ends hold.
fn stage(moment: i64) -> i64 {
    held_reading(&[(3_600_000, 2_000_000), (7_200_000, 4_000_000)], moment)
}

#[test]
fn places_of_a_key(rt: HostRuntime) {
    assert_eq!(rt; place((10, 1), (20, 2), 9), 0);
    assert_eq!(rt; place((10, 1), (20, 2), 10), 1);
    assert_eq!(rt; place((10, 1), (20, 2), 19), 1);
    assert_eq!(rt; place((10, 1), (20, 2), 20), 2);
}

#[test]
fn between_two_hours(rt: HostRuntime) {
    assert_eq!(rt; inflow(5_400_000), 3_000_000);
    assert_eq!(rt; inflow(0), 0);
    assert_eq!(rt; inflow(7_200_000), 4_000_000);
    assert_eq!(rt; inflow(10_800_000), 0);
}

#[test]
fn ends_hold(rt: HostRuntime) {
    assert_eq!(rt; stage(0), 2_000_000);
    assert_eq!(rt; stage(10_800_000), 4_000_000);
}
