// The account of a run.
ghost use Rattle.std.specs.Prelude.{◌≡◌, ℕ, ◌+◌, ◌^◌, ◌<◌, eqb, pos};
ghost use Rattle.net_types.specs.declared.account.StepAccount.{StepAccount as AccountOf};
ghost use Rattle.continuity.specs.Account.{Balances};
ghost use Rattle.continuity.specs.Run.{IsTotal, nothing};
ghost use Rattle.continuity.specs.Sums.{FieldsWithin};

use crate::sum::{no_account, plus};
use net_types::StepAccount;
use std::marker::Model;

/// The sum of the accounts of at most 50,000,000 steps, in mm³.
#[derive(Debug, Drop)]
pub struct RunAccount {
    total: StepAccount,
    steps: u64,
}

impl Model for RunAccount {
    ghost use Rattle.continuity.specs.Run.{IsRunning, Running};

    ghost Value = { Running };

    ghost view = { λ s. record { total = s.total; steps = s.steps } };

    ghost invariant = { λ s. IsRunning s.total s.steps };
}

impl RunAccount {
    /// The account of no step.
    pub fn new() -> RunAccount
        ensures value { result ≡ record { total = nothing; steps = 0 } }
        ensures total { (f : ℕ → AccountOf) → IsTotal f result }
    {
        RunAccount {
            total: no_account(),
            steps: 0,
        }
    }

    /// Adds the account of one step more.
    pub fn add(&mut self, step: &StepAccount)
        requires balance { Balances step.now }
        requires range { FieldsWithin (10 ^ 28) step.now }
        requires few { self.old.steps < 50_000_000 }
        ensures steps { self.new.steps ≡ self.old.steps + 1 }
        ensures total { (f : ℕ → AccountOf) → IsTotal f self.old → step.now ≡ f self.old.steps → IsTotal f self.new }
    {
        self.total = plus(&self.total, step);
        self.steps += 1;
    }

    /// Whether no account was added, or none since it was cleared.
    pub fn is_empty(&self) -> bool
        ensures { result ≡ eqb self.now.steps 0 }
    {
        self.steps == 0
    }

    /// Makes it the account of no step again.
    pub fn clear(&mut self)
        ensures value { self.new ≡ record { total = nothing; steps = 0 } }
        ensures total { (f : ℕ → AccountOf) → IsTotal f self.new }
    {
        self.total = no_account();
        self.steps = 0;
    }

    /// The sum of all accounts that were added. It balances.
    pub fn total(&self) -> StepAccount
        ensures value { result ≡ self.now.total }
        ensures balance { Balances result }
        ensures range { FieldsWithin (10 ^ 37) result }
    {
        self.total
    }
}
