ghost use Rattle.std.specs.Prelude.{◌^◌};
ghost use Rattle.continuity.specs.Account.{Balances};
ghost use Rattle.continuity.specs.Sums.{FieldsWithin};

use crate::link_part::changed;
use crate::node_part::{NodeStep, step_part};
use crate::run::RunAccount;
use crate::sum::plus;
use net_types::StepAccount;

// The first ten seconds of a channel between a junction and an outfall: 100 l/s come in at the junction, and
// 4,932 cm³/s reach the outfall at the end.
#[test]
fn parts_make_the_account_of_a_step(rt: HostRuntime) {
    let junction = step_part(
        false,
        &NodeStep {
            inflow: 1_000_000_000,
            gain: 975_340_000,
            flood: 0,
            change: 493_850_000,
        },
    );
    let outfall = step_part(
        true,
        &NodeStep {
            inflow: 0,
            gain: 24_660_000,
            flood: 0,
            change: 0,
        },
    );
    let channel = changed(493_900_000);
    assert_eq!(rt; junction.error, 481_490_000);
    assert_eq!(rt; channel.error, -493_900_000);
    assert_eq!(rt; plus(&plus(&junction, &outfall), &channel), first_step());
}

#[test]
fn two_steps_add_up(rt: HostRuntime) {
    let mut run = RunAccount::new();
    run.add(&first_step());
    run.add(&second_step());
    let total = run.total();
    assert_eq!(rt; total.inflow, 2_000_000_000);
    assert_eq!(rt; total.outfall, 145_095_000);
    assert_eq!(rt; total.flooding, 0);
    assert_eq!(rt; total.storage, 1_878_550_000);
    assert_eq!(rt; total.error, -23_645_000);
}

fn first_step() -> StepAccount
    ensures balance { Balances result }
    ensures range { FieldsWithin (10 ^ 28) result }
{
    StepAccount {
        inflow: 1_000_000_000,
        outfall: 24_660_000,
        flooding: 0,
        storage: 987_750_000,
        error: -12_410_000,
    }
}

fn second_step() -> StepAccount
    ensures balance { Balances result }
    ensures range { FieldsWithin (10 ^ 28) result }
{
    StepAccount {
        inflow: 1_000_000_000,
        outfall: 120_435_000,
        flooding: 0,
        storage: 890_800_000,
        error: -11_235_000,
    }
}
