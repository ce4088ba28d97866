// The account of a routing step.
ghost use Rattle.std.specs.Prelude.{◌≡◌, ◌^◌};
ghost use Rattle.link_eval.specs.Hydraulics.{law_of};
ghost use Rattle.trial_model.specs.Fits.{Fits};
ghost use Rattle.trial_model.specs.Trial.{SumsOf};
ghost use Rattle.continuity.specs.Account.{Balances, IsAccount, account_of, floods_of};
ghost use Rattle.continuity.specs.StepOf.{IsBelowTops, IsStepOf};
ghost use Rattle.continuity.specs.Sums.{FieldsWithin};

use crate::link_part::all_links;
use crate::node_part::all_nodes;
use crate::sum::plus;
use link_eval::HydraulicLaw;
use net_types::StepAccount;
use trial_model::Nets;

/// The account of a routing step of so many ms from one state to the next, in mm³.
///
/// `floods` are those of the step, as `find_floods` gives them. It takes no memory.
/// Source: this project's profile.
pub fn account_step(
    law: &HydraulicLaw,
    before: &Nets,
    after: &Nets,
    floods: &[i128],
    ms: i64,
) -> StepAccount
    requires fits_before { Fits (law_of law.now.hydraulics) before.now }
    requires fits_after { Fits (law_of law.now.hydraulics) after.now }
    requires sums_before { SumsOf (law_of law.now.hydraulics) before.now }
    requires sums_after { SumsOf (law_of law.now.hydraulics) after.now }
    requires step { IsStepOf law.now.hydraulics before.now after.now ms }
    requires floods { floods.now ≡ floods_of law.now.hydraulics after.now }
    requires tops { IsBelowTops law.now.hydraulics before.now }
    ensures account { IsAccount law.now.hydraulics before.now after.now ms result }
    ensures value { result ≡ account_of law.now.hydraulics before.now after.now ms }
    ensures balance { Balances result }
    ensures range { FieldsWithin (10 ^ 28) result }
{
    let nodes = all_nodes(law, before, after, floods, ms);
    let links = all_links(law, before, after);
    plus(&nodes, &links)
}
