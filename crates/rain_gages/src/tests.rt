use crate::gages::{hourly, rate};
use crate::rain::rain_at;
use net_types::FlowUnits;

// Two entries an hour apart, of which each holds for half an hour.
fn rain(moment: i64) -> i64 {
    rain_at(
        &[(0, 36_000_000), (3_600_000, 12_000_000)],
        1_800_000,
        moment,
    )
}

#[test]
fn an_entry_holds_for_its_interval(rt: HostRuntime) {
    assert_eq!(rt; rain(-1), 0);
    assert_eq!(rt; rain(0), 36_000_000);
    assert_eq!(rt; rain(1_799_999), 36_000_000);
    assert_eq!(rt; rain(1_800_000), 0);
    assert_eq!(rt; rain(3_600_000), 12_000_000);
}

#[test]
fn rates_of_the_units(rt: HostRuntime) {
    assert_eq!(rt; hourly(3_000_000, 300_000), 36_000_000);
    assert_eq!(rt; rate(FlowUnits::Cms, 36_000_000), 36_000_000);
    assert_eq!(rt; rate(FlowUnits::Cfs, 2_000_000), 50_800_000);
    assert_eq!(rt; rate(FlowUnits::Cms, -1), 0);
    assert_eq!(rt; rate(FlowUnits::Cms, 10_000_000_001), 10_000_000_000);
}
