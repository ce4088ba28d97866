// What the links add to the account of a step.
ghost use Rattle.std.specs.Prelude.{◌≡◌, ◌*◌, ◌^◌, ◌<◌};
ghost use Rattle.fixed_num.specs.Ranges.{IsWithin};
ghost use Rattle.link_eval.specs.Hydraulics.{law_of};
ghost use Rattle.trial_model.specs.Fits.{HeadsFit};
ghost use Rattle.continuity.specs.Account.{volume_in};
ghost use Rattle.continuity.specs.Parts.{changed, link_part};
ghost use Rattle.continuity.specs.Sums.{FieldsWithin, total_of};

use crate::sum::{no_account, plus};
use link_eval::HydraulicLaw;
use net_types::StepAccount;
use phase_law::PhaseLaw;
use trial_model::Nets;

// The account of all links.
pub(crate) fn all_links(law: &HydraulicLaw, before: &Nets, after: &Nets) -> StepAccount
    requires before { HeadsFit (law_of law.now.hydraulics) before.now.heads }
    requires after { HeadsFit (law_of law.now.hydraulics) after.now.heads }
    ensures value { result
        ≡ total_of (link_part law.now.hydraulics before.now after.now) (law_of law.now.hydraulics).links }
    ensures range { FieldsWithin (2 * 10 ^ 23 * (law_of law.now.hydraulics).links) result }
{
    let mut total = no_account();
    for link in 0..law.links() {
        let part = part_of(law, before, after, link);
        total = plus(&total, &part);
    }
    total
}

// The account of one link.
fn part_of(law: &HydraulicLaw, before: &Nets, after: &Nets, link: u32) -> StepAccount
    requires link { link < (law_of law.now.hydraulics).links }
    requires before { HeadsFit (law_of law.now.hydraulics) before.now.heads }
    requires after { HeadsFit (law_of law.now.hydraulics) after.now.heads }
    ensures value { result ≡ link_part law.now.hydraulics before.now after.now link }
    ensures range { FieldsWithin (2 * 10 ^ 23) result }
{
    changed(volume_in(law, after, link) - volume_in(law, before, link))
}

// The account of a link that holds so much more than before, in mm³.
pub(crate) fn changed(change: i128) -> StepAccount
    requires change { IsWithin (2 * 10 ^ 22) change }
    ensures value { result ≡ changed change }
    ensures range { FieldsWithin (2 * 10 ^ 23) result }
{
    StepAccount {
        inflow: 0,
        outfall: 0,
        flooding: 0,
        storage: change,
        error: -change,
    }
}

// The volume of water in a link in a state, in mm³.
fn volume_in(law: &HydraulicLaw, nets: &Nets, link: u32) -> i128
    requires link { link < (law_of law.now.hydraulics).links }
    requires heads { HeadsFit (law_of law.now.hydraulics) nets.now.heads }
    ensures value { result ≡ volume_in law.now.hydraulics nets.now link }
    ensures range { IsWithin (10 ^ 22) result }
{
    let (first, second) = law.ends(link);
    let heads = nets.heads.as_slice();
    law.link_volume(link, heads[first as usize], heads[second as usize])
}
