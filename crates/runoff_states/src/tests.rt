use crate::{step_account, steps_done};
use runoff::SubStep;

#[test]
fn steps_end_at_their_moments(rt: HostRuntime) {
    assert_eq!(rt; steps_done(300_000, 0), 0);
    assert_eq!(rt; steps_done(300_000, 299_999), 0);
    assert_eq!(rt; steps_done(300_000, 300_000), 1);
    assert_eq!(rt; steps_done(300_000, 3_600_000), 12);
}

#[test]
fn an_account_closes(rt: HostRuntime) {
    let step = SubStep {
        rain: 30,
        infil: 12,
        runoff: 10,
        stored: 7,
    };
    let account = step_account(&[step, step]);
    assert_eq!(rt; account.rain, 60);
    assert_eq!(rt; account.error, 2);
}
