// The lateral inflows of all nodes, in one walk over the lines of inflow.
ghost use Rattle.std.specs.Prelude.{◌≡◌, ℕ, ◌*◌, ◌^◌, ◌<◌, length};
ghost use Rattle.calendar_steps.specs.Moment.{IsPoint};
ghost use Rattle.fixed_num.specs.Lists.{list_of};
ghost use Rattle.fixed_num.specs.Ranges.{IsWithin};
ghost use Rattle.fixed_num.specs.Sums.{sum_over};
ghost use Rattle.net_types.specs.Sound.{IsSound};
ghost use Rattle.time_series.specs.Inflows.{dry_at, inflow_at};
ghost use Rattle.time_series.specs.LateralFlow.{lateral_at, IsRunMoment};
ghost use Rattle.time_series.specs.Walk.{Adds, AreCut, AreSmall, AreZero};

use crate::amounts::{dry_flow, inflow_flow};
use crate::lateral::run_point;
use calendar_steps::CalendarPoint;
use fixed_num::cut;
use net_types::Project;

/// The lateral inflows of all nodes at a moment in ms since the start of the run, in cm³/s.
///
/// `flows` has a place for each node of the project, whatever stands there, and takes what
/// [`lateral_flow`](crate::lateral_flow) gives of it. The work is one walk over the lines of inflow, and takes no
/// memory. The moment lies in the years 1900 to 2200. Source: User's Manual, sections [INFLOWS] and [DWF]; the
/// rounding is this project's profile.
pub fn lateral_flows(project: &Project, moment: i64, flows: &mut [i128])
    requires sound { IsSound project.now }
    requires calendar { IsRunMoment project.now moment }
    requires places { length flows.old ≡ length project.now.nodes }
    ensures { flows.new ≡ list_of (λ n. lateral_at project.now n moment) (length project.now.nodes) }
{
    let at = run_point(project, moment);
    clear(flows);
    add_inflows(project, moment, &at, flows);
    add_dry_flows(project, &at, flows);
    cut_flows(flows);
}

// Sets all places to 0.
fn clear(flows: &mut [i128])
    ensures { AreZero flows.new }
{
    for flow in flows.iter_mut() {
        *flow = 0;
    }
}

// Adds each inflow at its node.
fn add_inflows(project: &Project, moment: i64, at: &CalendarPoint, flows: &mut [i128])
    requires sound { IsSound project.now }
    requires at { IsPoint at.now }
    requires places { length flows.old ≡ length project.now.nodes }
    requires zero { AreZero flows.old }
    ensures sums { Adds (λ n. sum_over (inflow_at project.now moment at.now n) project.now.inflows) flows.old
        flows.new }
    ensures small { AreSmall (10 ^ 35) flows.new }
{
    for inflow in project.inflows.as_slice() {
        let flow = inflow_flow(project, inflow, moment, at);
        flows[inflow.node as usize] += flow;
    }
}

// Adds each dry weather flow at its node.
fn add_dry_flows(project: &Project, at: &CalendarPoint, flows: &mut [i128])
    requires sound { IsSound project.now }
    requires at { IsPoint at.now }
    requires places { length flows.old ≡ length project.now.nodes }
    requires small { AreSmall (10 ^ 35) flows.old }
    ensures { Adds (λ n. sum_over (dry_at project.now at.now n) project.now.dry) flows.old flows.new }
{
    for dry in project.dry.as_slice() {
        let flow = dry_flow(project, dry, at);
        flows[dry.node as usize] += flow;
    }
}

// Brings each place into 10^12 to either side.
fn cut_flows(flows: &mut [i128])
    ensures { AreCut flows.old flows.new }
{
    for flow in flows.iter_mut() {
        *flow = cut(*flow, -1_000_000_000_000, 1_000_000_000_000);
    }
}
