// What a soil takes of the first rain.
use crate::{CurveState, HortonState, InfilState, depth_over, infiltrate, start_state};
use net_types::Infil;

const SAND: Infil = Infil::Horton {
    max: 100_000_000,
    min: 10_000_000,
    decay6: 2_000_000,
    dry: 604_800_000,
    volume: 0,
};

#[test]
fn horton_starts_near_the_greatest_rate(rt: HostRuntime) {
    let mut state = start_state(&SAND);
    assert_eq!(rt;
        infiltrate(&SAND, &mut state, 50_000_000, 50_000_000, 300_000),
        8_333_333
    );
}

#[test]
fn horton_falls_with_what_was_taken(rt: HostRuntime) {
    let mut state = InfilState::Horton(HortonState { above: 7_500_000 });
    assert_eq!(rt;
        infiltrate(&SAND, &mut state, 50_000_000, 50_000_000, 300_000),
        7_083_333
    );
}

#[test]
fn a_curve_number_takes_a_part_of_the_first_rain(rt: HostRuntime) {
    let soil = Infil::Number {
        cn6: 80_000_000,
        dry: 604_800_000,
    };
    let mut state = start_state(&soil);
    let room = 63_500_000;
    assert_eq!(rt;
        state,
        InfilState::Number(CurveState {
            room,
            event_room: room,
            rain: 0,
            taken: 0,
            dry: 0,
        })
    );
    assert_eq!(rt;
        infiltrate(&soil, &mut state, 50_800_000, 50_800_000, 300_000),
        28_222_222
    );
}

#[test]
fn a_depth_of_five_minutes(rt: HostRuntime) {
    assert_eq!(rt; depth_over(36_000_000, 300_000), 3_000_000);
}
