// The sums of a state's own flows at its nodes.
ghost use Rattle.std.specs.Prelude.{◌≡◌, ℕ, ◌^◌, ◌<◌, pos, ◌+ℤ◌, length, replicate};
ghost use Rattle.fixed_num.specs.Lists.{number, list_of};
ghost use Rattle.fixed_num.specs.Ranges.{IsFlow};
ghost use Rattle.trial_model.specs.Fits.{FlowsFit};
ghost use Rattle.trial_model.specs.Flow.{forward, backward};
ghost use Rattle.trial_model.specs.Parts.{both_ends, HasRoom};
ghost use Rattle.trial_model.specs.Trial.{inflow_of, outflow_of};

use crate::nets::Nets;
use crate::sums::{add_pair, clear, split_flow};
use phase_law::PhaseLaw;

/// Adds the flow of one link to the sums of its two ends.
fn add_flow(
    near: u32,
    far: u32,
    link: u32,
    flows: &[i64],
    inflows: &mut [i64],
    outflows: &mut [i64],
)
    requires near_in { near < length inflows.old }
    requires near_out { near < length outflows.old }
    requires far_in { far < length inflows.old }
    requires far_out { far < length outflows.old }
    requires link { link < length flows.now }
    requires flow { IsFlow (number flows.now link) }
    requires inflows { HasRoom inflows.old (10 ^ 18) }
    requires outflows { HasRoom outflows.old (10 ^ 18) }
    ensures inflows { (n : ℕ) → number inflows.new n
        ≡ number inflows.old n
        +ℤ pos (both_ends (near, far) (backward (number flows.now link)) (forward (number flows.now link)) n) }
    ensures outflows { (n : ℕ) → number outflows.new n
        ≡ number outflows.old n
        +ℤ pos (both_ends (near, far) (forward (number flows.now link)) (backward (number flows.now link)) n) }
{
    let (forward, backward) = split_flow(flows[link as usize]);
    add_pair(inflows, near, far, backward, forward);
    add_pair(outflows, near, far, forward, backward);
}

/// Adds the flows of all links to the sums of their ends.
fn add_flows<P: PhaseLaw>(law: &P, flows: &[i64], inflows: &mut [i64], outflows: &mut [i64])
    requires flows { FlowsFit (P.law law.now) flows.now }
    requires inflows { inflows.old ≡ replicate (P.law law.now).nodes (pos 0) }
    requires outflows { outflows.old ≡ replicate (P.law law.now).nodes (pos 0) }
    ensures inflows { let l = P.law law.now in
        inflows.new ≡ list_of (λ n. pos (inflow_of l (number flows.now) n)) l.nodes }
    ensures outflows { let l = P.law law.now in
        outflows.new ≡ list_of (λ n. pos (outflow_of l (number flows.now) n)) l.nodes }
{
    for link in 0..law.links() {
        let (near, far) = law.ends(link);
        add_flow(near, far, link, flows, inflows, outflows);
    }
}

/// Makes the inflows and outflows of a state the sums over its own flows, in cm³/s.
///
/// Nothing else of the state changes. It takes no memory.
pub fn sum_flows<P: PhaseLaw>(law: &P, nets: &mut Nets)
    requires flows { FlowsFit (P.law law.now) nets.old.flows }
    requires inflows { length nets.old.inflows ≡ (P.law law.now).nodes }
    requires outflows { length nets.old.outflows ≡ (P.law law.now).nodes }
    ensures nets { let l = P.law law.now in let flow = number nets.old.flows in
        nets.new ≡ record nets.old {
          inflows = list_of (λ n. pos (inflow_of l flow n)) l.nodes;
          outflows = list_of (λ n. pos (outflow_of l flow n)) l.nodes;
        } }
{
    clear(&mut nets.inflows);
    clear(&mut nets.outflows);
    let flows = nets.flows.as_slice();
    let inflows = nets.inflows.as_mut_slice();
    let outflows = nets.outflows.as_mut_slice();
    add_flows(law, flows, inflows, outflows);
}
