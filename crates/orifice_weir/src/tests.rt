// Flows through openings.
use crate::{OrificeData, WeirData, orifice_depth, orifice_flow, weir_flow};

const SIDE: OrificeData = OrificeData {
    bottom: false,
    sill: 0,
    full: 200_000,
    cd6: 650_000,
};

const CREST: WeirData = WeirData {
    notch: false,
    crest: 0,
    full: 1_000_000,
    width: 1_000_000,
    c6: 1_840_000,
    contractions: 0,
};

const NOTCH: WeirData = WeirData {
    notch: true,
    crest: 0,
    full: 1_000_000,
    width: 2_000_000,
    c6: 1_380_000,
    contractions: 0,
};

#[test]
fn a_side_orifice_under_water(rt: HostRuntime) {
    assert_eq!(rt; orifice_depth(&SIDE, 1_000_000, 1_100_000, 0), 200_000);
    assert_eq!(rt;
        orifice_flow(&SIDE, 1_000_000, 1_100_000, 0, 100_000),
        287_981
    );
    assert_eq!(rt;
        orifice_flow(&SIDE, 1_000_000, 0, 1_100_000, 100_000),
        -287_981
    );
}

#[test]
fn a_transverse_weir(rt: HostRuntime) {
    assert_eq!(rt; weir_flow(&CREST, 1_000_000, 250_000, 0), 230_000);
    assert_eq!(rt; weir_flow(&CREST, 1_000_000, 400_000, 200_000), 395_237);
}

#[test]
fn a_notch(rt: HostRuntime) {
    assert_eq!(rt; weir_flow(&NOTCH, 1_000_000, 400_000, 0), 139_646);
}
