// What runs off to the nodes.
ghost use Rattle.std.specs.Prelude.{◌≡◌, ℕ, ◌*◌, ◌^◌, ◌<◌, length, pos, neg_ℤ, ◌+ℤ◌};
ghost use Rattle.fixed_num.specs.Lists.{number};
ghost use Rattle.fixed_num.specs.Ranges.{IsWithin, cut_of};
ghost use Rattle.net_types.specs.Sound.{IsSound};
ghost use Rattle.runoff.specs.RunoffStep.{IsRunoffFlow};
ghost use Rattle.runoff_states.specs.RunoffStates.{state_at};
ghost use Rattle.runoff_states.specs.RunoffTimes.{node_runoff};

use fixed_num::cut;
use net_types::Project;
use runoff::SubState;

/// Adds to the lateral inflow of each node (cm³/s, within 10^12) what runs off to it of subcatchments in these states,
/// and brings the sum into 10^12 to either side.
///
/// `laterals` are as many as the nodes, `states` as the subcatchments. No memory is taken.
/// Source: User's Manual, section [SUBCATCHMENTS]; this project's profile.
pub fn add_runoff(project: &Project, states: &[SubState], laterals: &mut [i128])
    requires sound { IsSound project.now }
    requires states { length states.now ≡ length project.now.subs }
    requires flows { (k : ℕ) → k < length project.now.subs → IsRunoffFlow (state_at states.now k).flow }
    requires places { length laterals.old ≡ length project.now.nodes }
    requires small { (n : ℕ) → n < length project.now.nodes → IsWithin (10 ^ 12) (number laterals.old n) }
    ensures places { length laterals.new ≡ length laterals.old }
    ensures sums { (n : ℕ) → n < length project.now.nodes
        → number laterals.new n
        ≡ cut_of (number laterals.old n +ℤ node_runoff project.now (state_at states.now) n)
        (neg_ℤ (pos (10 ^ 12))) (pos (10 ^ 12)) }
{
    add_flows(project, states, laterals);
    cut_flows(laterals);
}

// Adds the flow of each subcatchment at its outlet.
fn add_flows(project: &Project, states: &[SubState], laterals: &mut [i128])
    requires sound { IsSound project.now }
    requires states { length states.now ≡ length project.now.subs }
    requires flows { (k : ℕ) → k < length project.now.subs → IsRunoffFlow (state_at states.now k).flow }
    requires places { length laterals.old ≡ length project.now.nodes }
    requires small { (n : ℕ) → n < length project.now.nodes → IsWithin (10 ^ 12) (number laterals.old n) }
    ensures places { length laterals.new ≡ length laterals.old }
    ensures sums { (n : ℕ) → n < length project.now.nodes
        → number laterals.new n ≡ number laterals.old n +ℤ node_runoff project.now (state_at states.now) n }
{
    let subs = project.subs.as_slice();
    for place in 0..subs.len() {
        let node = subs[place].outlet as usize;
        laterals[node] += states[place].flow as i128;
    }
}

// Brings each place into 10^12 to either side.
fn cut_flows(flows: &mut [i128])
    ensures places { length flows.new ≡ length flows.old }
    ensures each { (n : ℕ) → n < length flows.old
        → number flows.new n ≡ cut_of (number flows.old n) (neg_ℤ (pos (10 ^ 12))) (pos (10 ^ 12)) }
{
    for flow in flows.iter_mut() {
        *flow = cut(*flow, -1_000_000_000_000, 1_000_000_000_000);
    }
}
