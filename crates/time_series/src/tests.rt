ghost use Rattle.std.specs.Prelude.{◌≡◌, ◌≤◌, IfOk};
ghost use Rattle.net_types.specs.Ranges.{PatternInRange, most_factors};

use crate::amounts::{beside_weekends, flow_of, scaled};
use crate::patterns::kind_factor;
use crate::stages::{elevation, hour6};
use calendar_steps::CalendarPoint;
use net_types::{FlowUnits, List, OutOfMemory, Pattern, PatternKind, Text};
use std::alloc::Global;
use std::test::Fail;

// An hour of a day of the week, 1 for Sunday, in March.
fn point(weekday: u32, ms_of_day: i64) -> CalendarPoint
    ensures { result ≡ record { month = 3; weekday = weekday; ms_of_day = ms_of_day } }
{
    CalendarPoint {
        month: 3,
        weekday,
        ms_of_day,
    }
}

#[test]
fn factors_of_hours(rt: HostRuntime) {
    let factors6 = [500_000, 2_000_000];
    let monday = point(2, 3_600_000);
    let sunday = point(1, 3_599_999);
    assert_eq!(rt;
        kind_factor(PatternKind::Hourly, &factors6, &monday),
        2_000_000
    );
    assert_eq!(rt;
        kind_factor(PatternKind::Weekend, &factors6, &monday),
        1_000_000
    );
    assert_eq!(rt;
        kind_factor(PatternKind::Weekend, &factors6, &sunday),
        500_000
    );
}

#[test]
fn factors_of_days_and_months(rt: HostRuntime) {
    let factors6 = [500_000, 2_000_000];
    let monday = point(2, 0);
    assert_eq!(rt;
        kind_factor(PatternKind::Daily, &factors6, &monday),
        2_000_000
    );
    assert_eq!(rt;
        kind_factor(PatternKind::Monthly, &factors6, &monday),
        1_000_000
    );
}

// A pattern whose first hour has twice the flow.
fn early_pattern(alloc: Global, kind: PatternKind) -> Result<Pattern, OutOfMemory>
    requires { 1 ≤ most_factors kind }
    ensures { IfOk result PatternInRange }
{
    let mut factors6 = List::new(alloc);
    factors6.push(2_000_000)?;
    let name = Text::from_slice(alloc, b"early")?;
    Ok(Pattern {
        name,
        kind,
        factors6,
    })
}

#[test]
fn hours_beside_weekends(rt: HostRuntime) -> Result<(), Fail> {
    let hours = early_pattern(rt.alloc(), PatternKind::Hourly)?;
    let weekends = early_pattern(rt.alloc(), PatternKind::Weekend)?;
    assert_eq!(rt; beside_weekends(true, &hours, &point(1, 0)), 1_000_000);
    assert_eq!(rt; beside_weekends(true, &weekends, &point(1, 0)), 2_000_000);
    assert_eq!(rt; beside_weekends(true, &hours, &point(2, 0)), 2_000_000);
    assert_eq!(rt; beside_weekends(true, &weekends, &point(2, 0)), 1_000_000);
    Ok(())
}

#[test]
fn units_of_flows_and_stages(rt: HostRuntime) {
    assert_eq!(rt; scaled(2_000_000, 3_000_000), 6_000_000);
    assert_eq!(rt; flow_of(FlowUnits::Cfs, 1_000_000), 28_317);
    assert_eq!(rt; elevation(FlowUnits::Cfs, 1_000_000), 304_800);
    assert_eq!(rt; elevation(FlowUnits::Cms, 10_000_000_001), 10_000_000_000);
    assert_eq!(rt; hour6(&point(2, 5_400_000)), 1_500_000);
}
