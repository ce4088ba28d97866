use crate::{civil_of, day_of, point_at};

#[test]
fn days_of_the_calendar(rt: HostRuntime) {
    assert_eq!(rt; day_of(1970, 1, 1), Some(0));
    assert_eq!(rt; day_of(2024, 1, 1), Some(19_723));
    assert_eq!(rt; day_of(1900, 2, 29), None);
    assert_eq!(rt; day_of(2000, 2, 29), Some(11_016));
    assert_eq!(rt; day_of(1899, 12, 31), None);
    assert_eq!(rt; day_of(2201, 1, 1), None);
}

#[test]
fn back_and_weekday(rt: HostRuntime) {
    let new_year = civil_of(19_723);
    assert_eq!(rt; new_year.year, 2024);
    assert_eq!(rt; new_year.month, 1);
    assert_eq!(rt; new_year.day, 1);
    let monday = point_at(19_723 * 86_400_000, 3_600_000);
    assert_eq!(rt; monday.weekday, 2);
    assert_eq!(rt; monday.month, 1);
    assert_eq!(rt; monday.ms_of_day, 3_600_000);
}
