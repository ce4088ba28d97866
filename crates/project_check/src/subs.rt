// The faults of the subcatchments of a project.
ghost use Rattle.std.specs.Prelude.{◌≡◌, ◌++◌, ◌≤◌, length, take, flat_map, OnOk};
ghost use Rattle.project_check.specs.Objects.{has_good_infiltration, has_good_rates, has_runoff, is_good_sub};
ghost use Rattle.project_check.specs.ProjectFaults.{sub_faults};

use crate::faults::add_fault;
use net_types::{FaultKind, Infil, List, OutOfMemory, ProjectFault, Sub, SubAreas};
use std::alloc::Global;

// Adds the faults of all subcatchments.
pub(crate) fn check_subs(
    alloc: Global,
    subs: &[Sub],
    faults: &mut List<ProjectFault>,
) -> Result<(), OutOfMemory>
    requires room { length faults.old ≤ 100 }
    ensures { OnOk result (faults.new ≡ take 100 (faults.old ++ flat_map sub_faults subs.now)) }
{
    for sub in subs {
        check_sub(alloc, sub, faults)?;
    }
    Ok(())
}

// Adds the fault of a subcatchment, if it has one.
fn check_sub(alloc: Global, sub: &Sub, faults: &mut List<ProjectFault>) -> Result<(), OutOfMemory>
    requires room { length faults.old ≤ 100 }
    ensures { OnOk result (faults.new ≡ take 100 (faults.old ++ sub_faults sub.now)) }
{
    if is_good_sub(sub) {
        return Ok(());
    }
    add_fault(alloc, faults, FaultKind::BadObject, &sub.name)
}

fn is_good_sub(sub: &Sub) -> bool
    ensures { result ≡ is_good_sub sub.now }
{
    has_runoff(&sub.sub_areas, &sub.infil)
}

// Whether a subcatchment has its subareas and a good infiltration.
fn has_runoff(areas: &Option<SubAreas>, infil: &Option<Infil>) -> bool
    ensures { result ≡ has_runoff areas.now infil.now }
{
    match areas {
        Some(_) => has_good_infiltration(infil),
        None => false,
    }
}

fn has_good_infiltration(infil: &Option<Infil>) -> bool
    ensures { result ≡ has_good_infiltration infil.now }
{
    match infil {
        Some(infil) => has_good_rates(infil),
        None => false,
    }
}

// Whether a Horton infiltration's least rate is not above its greatest.
fn has_good_rates(infil: &Infil) -> bool
    ensures { result ≡ has_good_rates infil.now }
{
    match infil {
        Infil::Horton { max, min, .. } => min <= max,
        Infil::Number { .. } => true,
    }
}
