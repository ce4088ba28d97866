// The share of a weir.
use crate::{ShortLink, short_share};

const OPEN: ShortLink = ShortLink {
    flap: false,
    invert1: 0,
    invert2: 0,
};

#[test]
fn the_first_trial_takes_the_flow(rt: HostRuntime) {
    assert_eq!(rt;
        short_share(&OPEN, true, 250_000, 0, 200_000, 230_000).q,
        230_000
    );
}

#[test]
fn a_later_trial_takes_the_mean(rt: HostRuntime) {
    assert_eq!(rt;
        short_share(&OPEN, false, 250_000, 0, 200_000, 230_000).q,
        215_000
    );
}
