// The sum of two accounts.
ghost use Rattle.std.specs.Prelude.{◌≡◌, ◌^◌};
ghost use Rattle.continuity.specs.Run.{nothing};
ghost use Rattle.continuity.specs.Sums.{FieldsWithin, plus_of};

use net_types::StepAccount;

// The account of nothing.
pub(crate) fn no_account() -> StepAccount
    ensures { result ≡ nothing }
{
    StepAccount {
        inflow: 0,
        outfall: 0,
        flooding: 0,
        storage: 0,
        error: 0,
    }
}

// The sum of two accounts, field by field.
pub(crate) fn plus(a: &StepAccount, b: &StepAccount) -> StepAccount
    requires first { FieldsWithin (10 ^ 37) a.now }
    requires second { FieldsWithin (10 ^ 37) b.now }
    ensures { result ≡ plus_of a.now b.now }
{
    StepAccount {
        inflow: a.inflow + b.inflow,
        outfall: a.outfall + b.outfall,
        flooding: a.flooding + b.flooding,
        storage: a.storage + b.storage,
        error: a.error + b.error,
    }
}
