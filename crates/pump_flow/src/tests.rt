// When a pump starts and stops.
use crate::pump_setting;

#[test]
fn a_pump_starts_and_stops(rt: HostRuntime) {
    assert_eq!(rt; pump_setting(1_000_000, 500_000, 1_000_000, 0), 1_000_000);
    assert_eq!(rt; pump_setting(1_000_000, 500_000, 700_000, 0), 0);
    assert_eq!(rt; pump_setting(1_000_000, 500_000, 500_000, 1_000_000), 0);
    assert_eq!(rt; pump_setting(0, 0, 0, 1_000_000), 1_000_000);
}
