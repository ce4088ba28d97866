// What the nodes add to the account of a step.
ghost use Rattle.std.specs.Prelude.{◌≡◌, ◌*◌, ◌^◌, ◌<◌, length, pos, ◌+ℤ◌, ◌*ℤ◌, int_div};
ghost use Rattle.fixed_num.specs.Ranges.{IsWithin, IsFlow, IsStepLength};
ghost use Rattle.link_eval.specs.Hydraulics.{law_of};
ghost use Rattle.trial_model.specs.Fits.{Fits, HeadsFit, node_fixed_at};
ghost use Rattle.continuity.specs.Account.{floods_of, change_at, gain_at};
ghost use Rattle.continuity.specs.Parts.{IsStepWithin, node_part, step_part};
ghost use Rattle.continuity.specs.StepOf.{IsBelowTops, IsStepOf};
ghost use Rattle.continuity.specs.Sums.{FieldsWithin, total_of};

use crate::sum::{no_account, plus};
use link_eval::HydraulicLaw;
use net_types::StepAccount;
use node_update::node_gain;
use phase_law::{NodeFixed, PhaseLaw};
use trial_model::Nets;

// What a step did at a node, in mm³: the lateral inflow, all that came in, what flooded, and how much more it holds.
#[derive(Clone, Copy)]
pub(crate) struct NodeStep {
    pub(crate) inflow: i128,
    pub(crate) gain: i128,
    pub(crate) flood: i128,
    pub(crate) change: i128,
}

// The account of all nodes.
pub(crate) fn all_nodes(
    law: &HydraulicLaw,
    before: &Nets,
    after: &Nets,
    floods: &[i128],
    ms: i64,
) -> StepAccount
    requires before { Fits (law_of law.now.hydraulics) before.now }
    requires after { Fits (law_of law.now.hydraulics) after.now }
    requires step { IsStepOf law.now.hydraulics before.now after.now ms }
    requires floods { floods.now ≡ floods_of law.now.hydraulics after.now }
    requires tops { IsBelowTops law.now.hydraulics before.now }
    ensures value { result
        ≡ total_of (node_part law.now.hydraulics before.now after.now ms) (law_of law.now.hydraulics).nodes }
    ensures range { FieldsWithin (2 * 10 ^ 23 * (law_of law.now.hydraulics).nodes) result }
{
    let mut total = no_account();
    for node in 0..law.nodes() {
        let part = part_of(law, before, after, floods, ms, node);
        total = plus(&total, &part);
    }
    total
}

// The account of one node.
fn part_of(
    law: &HydraulicLaw,
    before: &Nets,
    after: &Nets,
    floods: &[i128],
    ms: i64,
    node: u32,
) -> StepAccount
    requires node { node < (law_of law.now.hydraulics).nodes }
    requires before { Fits (law_of law.now.hydraulics) before.now }
    requires after { Fits (law_of law.now.hydraulics) after.now }
    requires step { IsStepOf law.now.hydraulics before.now after.now ms }
    requires floods { floods.now ≡ floods_of law.now.hydraulics after.now }
    requires tops { IsBelowTops law.now.hydraulics before.now }
    ensures value { result ≡ node_part law.now.hydraulics before.now after.now ms node }
    ensures range { FieldsWithin (2 * 10 ^ 23) result }
{
    let step = NodeStep {
        inflow: lateral_inflow(before.nodes.as_slice(), after.nodes.as_slice(), ms, node),
        gain: gain_at(law, after, node),
        flood: floods[node as usize],
        change: change_at(law, before, after, node),
    };
    step_part(law.node(node).is_outfall(), &step)
}

// What comes in by lateral inflow, in mm³: half the step by the old and the new lateral inflow.
fn lateral_inflow(before: &[NodeFixed], after: &[NodeFixed], ms: i64, node: u32) -> i128
    requires before { node < length before.now }
    requires after { node < length after.now }
    requires old { IsFlow (node_fixed_at before.now node).lateral }
    requires new { IsFlow (node_fixed_at after.now node).lateral }
    requires length { IsStepLength ms }
    ensures value { result ≡ int_div ms (pos 2)
        *ℤ ((node_fixed_at before.now node).lateral +ℤ (node_fixed_at after.now node).lateral) }
    ensures range { IsWithin (10 ^ 19) result }
{
    let laterals = before[node as usize].lateral + after[node as usize].lateral;
    (ms / 2) as i128 * laterals as i128
}

// All that comes in at a node, in mm³.
fn gain_at(law: &HydraulicLaw, after: &Nets, node: u32) -> i128
    requires node { node < (law_of law.now.hydraulics).nodes }
    requires after { Fits (law_of law.now.hydraulics) after.now }
    ensures value { result ≡ gain_at after.now node }
    ensures range { IsWithin (95 * 10 ^ 21) result }
{
    let place = node as usize;
    let fixed = &after.nodes.as_slice()[place];
    let inflow = after.inflows.as_slice()[place];
    let outflow = after.outflows.as_slice()[place];
    node_gain(fixed, inflow, outflow)
}

// How much more water a node holds than before, in mm³.
fn change_at(law: &HydraulicLaw, before: &Nets, after: &Nets, node: u32) -> i128
    requires node { node < (law_of law.now.hydraulics).nodes }
    requires before { HeadsFit (law_of law.now.hydraulics) before.now.heads }
    requires after { HeadsFit (law_of law.now.hydraulics) after.now.heads }
    ensures value { result ≡ change_at law.now.hydraulics before.now after.now node }
    ensures range { IsWithin (2 * 10 ^ 21) result }
{
    let old = before.heads.as_slice();
    let new = after.heads.as_slice();
    let at = law.node(node);
    at.volume(new[node as usize]) - at.volume(old[node as usize])
}

// The account of a node, which may be an outfall.
pub(crate) fn step_part(is_outfall: bool, step: &NodeStep) -> StepAccount
    requires step { IsStepWithin step.now }
    ensures value { result ≡ step_part is_outfall step.now }
    ensures range { FieldsWithin (2 * 10 ^ 23) result }
{
    if is_outfall {
        return StepAccount {
            inflow: step.inflow,
            outfall: step.gain,
            flooding: step.flood,
            storage: step.change,
            error: 0,
        };
    }
    StepAccount {
        inflow: step.inflow,
        outfall: 0,
        flooding: step.flood,
        storage: step.change,
        error: step.gain - step.flood - step.change,
    }
}
