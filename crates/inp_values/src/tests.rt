use crate::{Quantity, clock, date, hours, is_word, seconds, time_of_day, unit_of, whole, yes_no};
use fixed_num::scaled_decimal;
use net_types::FlowUnits;

#[test]
fn clocks_and_durations(rt: HostRuntime) {
    assert_eq!(rt; clock(b"0:00"), Some(0));
    assert_eq!(rt; clock(b"12345:59:59"), Some(44_445_599_000));
    assert_eq!(rt; clock(b"1:5"), None);
    assert_eq!(rt; clock(b"1:60"), None);
    assert_eq!(rt; clock(b"123456:00"), None);
    assert_eq!(rt; time_of_day(b"23:59:59"), Some(86_399_000));
    assert_eq!(rt; time_of_day(b"24:00"), None);
    assert_eq!(rt; hours(b"0.5"), Some(1_800_000));
    assert_eq!(rt; hours(b"1:30"), Some(5_400_000));
    assert_eq!(rt; seconds(b"0.009"), Some(10));
    assert_eq!(rt; seconds(b"-1"), None);
}

#[test]
fn dates(rt: HostRuntime) {
    assert_eq!(rt; date(b"1/1/1970"), Some(0));
    assert_eq!(rt; date(b"01-01-2024"), Some(19_723));
    assert_eq!(rt; date(b"2/29/1900"), None);
    assert_eq!(rt; date(b"2/29/2000"), Some(11_016));
    assert_eq!(rt; date(b"12/31/2100"), Some(47_846));
    assert_eq!(rt; date(b"1/1/2101"), None);
    assert_eq!(rt; date(b"1/1-2024"), None);
    assert_eq!(rt; date(b"31/12/2024"), None);
}

#[test]
fn words_and_units(rt: HostRuntime) {
    assert_eq!(rt; whole(b"007"), Some(7));
    assert_eq!(rt; whole(b"+7"), None);
    assert_eq!(rt; whole(b"1234567890"), None);
    assert_eq!(rt; yes_no(b"yEs"), Some(true));
    assert_eq!(rt; yes_no(b"No"), Some(false));
    assert_eq!(rt; yes_no(b"ON"), None);
    assert_eq!(rt; is_word(b"Full", b"FULL"), true);
    let flow = unit_of(FlowUnits::Cfs, Quantity::Flow);
    assert_eq!(rt; scaled_decimal(b"1", &flow), Some(28_317));
}
