use crate::Table;
use net_types::{Section, Shape};

#[test]
fn a_channel_one_metre_wide(rt: HostRuntime) {
    let channel = Section {
        shape: Shape::RectOpen { width: 1_000_000 },
        full: 2_000_000,
        barrels: 1,
    };
    let table = Table::build(&channel);
    assert!(rt; table.area(1_005_000) == 1_005_000);
    assert!(rt; table.radius(1_005_000) == 333_887);
    assert!(rt; table.critical(1_000_000) == 470_000);
}

#[test]
fn a_closed_rectangle_goes_on_as_a_slot(rt: HostRuntime) {
    let culvert = Section {
        shape: Shape::RectClosed { width: 1_000_000 },
        full: 1_000_000,
        barrels: 1,
    };
    let table = Table::build(&culvert);
    assert!(rt; table.perimeter(1_000_000) == 4_000_000);
    assert!(rt; table.radius(1_000_000) == 250_000);
    assert!(rt; table.area(1_005_000) == 1_000_050);
    assert!(rt; table.width(1_005_000) == 10_000);
    assert!(rt; table.radius(1_005_000) == 250_000);
}

#[test]
fn a_pipe_is_nowhere_narrower_than_its_slot(rt: HostRuntime) {
    let pipe = Section {
        shape: Shape::Circular,
        full: 1_000_000,
        barrels: 1,
    };
    let table = Table::build(&pipe);
    assert!(rt; table.width(0) == 10_000);
    assert!(rt; table.width(500_000) == 1_000_000);
    assert!(rt; table.width(1_000_000) == 10_000);
    assert!(rt; table.area(500_000) == 392_742);
    assert!(rt; table.full_area() == 785_483);
}

#[test]
fn sides_that_spread(rt: HostRuntime) {
    let ditch = Section {
        shape: Shape::Trapezoidal {
            bottom: 1_000_000,
            left6: 1_000_000,
            right6: 2_000_000,
        },
        full: 1_000_000,
        barrels: 1,
    };
    let gutter = Section {
        shape: Shape::Triangular { top: 2_000_000 },
        full: 1_000_000,
        barrels: 1,
    };
    let wide = Table::build(&ditch);
    let narrow = Table::build(&gutter);
    assert!(rt; wide.area(500_000) == 875_000);
    assert!(rt; wide.width(1_000_000) == 4_000_000);
    assert!(rt; narrow.area(500_000) == 250_000);
    assert!(rt; narrow.perimeter(1_000_000) == 2_828_400);
}
