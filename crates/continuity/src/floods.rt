// The floods of a step.
ghost use Rattle.std.specs.Prelude.{◌≡◌, ℕ, ◌^◌, ◌<◌, length, pos};
ghost use Rattle.fixed_num.specs.Ranges.{IsBetween};
ghost use Rattle.link_eval.specs.Hydraulics.{law_of};
ghost use Rattle.trial_model.specs.Fits.{Fits};
ghost use Rattle.fixed_num.specs.Lists.{number};
ghost use Rattle.continuity.specs.Account.{flood_at, floods_of};

use link_eval::HydraulicLaw;
use phase_law::PhaseLaw;
use trial_model::Nets;

/// Finds what flooded each node in the step that led to a state, in mm³, by the numbers of the step's last trial.
///
/// `floods` has a place for each node. It takes no memory.
/// Source: this project's profile.
pub fn find_floods(law: &HydraulicLaw, after: &Nets, floods: &mut [i128])
    requires after { Fits (law_of law.now.hydraulics) after.now }
    requires floods { length floods.old ≡ (law_of law.now.hydraulics).nodes }
    ensures floods { floods.new ≡ floods_of law.now.hydraulics after.now }
    ensures range { (n : ℕ) → IsBetween (pos 0) (number floods.new n) (pos (10 ^ 28)) }
{
    for node in 0..law.nodes() {
        floods[node as usize] = flood_at(law, after, node);
    }
}

// What flooded a node.
fn flood_at(law: &HydraulicLaw, after: &Nets, node: u32) -> i128
    requires node { node < (law_of law.now.hydraulics).nodes }
    requires after { Fits (law_of law.now.hydraulics) after.now }
    ensures value { result ≡ flood_at law.now.hydraulics after.now node }
    ensures range { IsBetween (pos 0) result (pos (10 ^ 25)) }
{
    let place = node as usize;
    let fixed = &after.nodes.as_slice()[place];
    let inflow = after.inflows.as_slice()[place];
    let outflow = after.outflows.as_slice()[place];
    let area = after.areas.as_slice()[place];
    let last = after.read_heads.as_slice()[place];
    law.node(node).flood(fixed, inflow, outflow, area, last)
}
