// The faults of a project.
ghost use Rattle.std.specs.Prelude.{◌≡◌, ◌++◌, ◌∷◌, [], ◌≤◌, not, length, take, IfOk, OnOk};
ghost use Rattle.net_types.specs.Sound.{IsSound};
ghost use Rattle.project_check.specs.ProjectFaults.{fault_of, fault_where, general_faults, project_faults};

use crate::ends::node_ends;
use crate::links::check_links;
use crate::network::has_outfall;
use crate::nodes::check_nodes;
use crate::subs::check_subs;
use crate::times::{ends_before_start, is_over_limit};
use net_types::{FaultKind, List, OutOfMemory, Project, ProjectFault, Text};
use std::alloc::Global;

// The most faults that are told.
const MOST_FAULTS: usize = 100;

/// The faults of a sound project, in their order and at most 100: an empty list exactly where it has none.
///
/// Without a name: 145 where there is no outfall, 191 where the run ends before it starts, 402 where it lasts more than
/// 3,660 days or takes more than 50,000,000 routing steps. Then at most one of each object: of a node 141 (an outfall
/// with more than one link or with one that begins there), 138 (it begins higher than full) or 403 (a storage less than
/// 1,000 µm deep); of a link 403 (equal ends, no section where it needs one, a shape that doesn't fit its kind, or a
/// full area of 0 or above 10^11 mm²); of a subcatchment 403 (no subareas, no infiltration, or a least rate above the
/// greatest). The only error is want of memory.
///
/// Source: User's Manual, appendix E (138, 141, 145, 191); the others and the limits are this project's profile.
pub fn check(alloc: Global, project: &Project) -> Result<List<ProjectFault>, OutOfMemory>
    requires { IsSound project.now }
    ensures { IfOk result (λ faults. faults ≡ project_faults project.now) }
{
    let mut faults = List::new(alloc);
    check_whole(alloc, project, &mut faults)?;
    let ends = node_ends(alloc, project)?;
    check_nodes(
        alloc,
        project.nodes.as_slice(),
        ends.as_slice(),
        &mut faults,
    )?;
    check_links(alloc, project.links.as_slice(), &mut faults)?;
    check_subs(alloc, project.subs.as_slice(), &mut faults)?;
    Ok(faults)
}

// Adds the faults of the project as a whole.
fn check_whole(
    alloc: Global,
    project: &Project,
    faults: &mut List<ProjectFault>,
) -> Result<(), OutOfMemory>
    requires sound { IsSound project.now }
    requires none { faults.old ≡ [] }
    ensures { OnOk result (faults.new ≡ general_faults project.now) }
{
    let options = &project.options;
    add_where(
        alloc,
        faults,
        !has_outfall(project.nodes.as_slice()),
        FaultKind::NoOutfall,
    )?;
    add_where(
        alloc,
        faults,
        ends_before_start(options),
        FaultKind::EndBeforeStart,
    )?;
    add_where(alloc, faults, is_over_limit(options), FaultKind::OverLimit)?;
    Ok(())
}

// Adds a fault without a name where it stands.
fn add_where(
    alloc: Global,
    faults: &mut List<ProjectFault>,
    stands: bool,
    kind: FaultKind,
) -> Result<(), OutOfMemory>
    ensures { OnOk result (faults.new ≡ faults.old ++ fault_where stands kind []) }
{
    if stands {
        let name = Text::from_slice(alloc, b"")?;
        let number = kind.number();
        faults.push(ProjectFault { number, name })?;
    }
    Ok(())
}

/// Adds the fault of an object, unless there are 100 already.
pub(crate) fn add_fault(
    alloc: Global,
    faults: &mut List<ProjectFault>,
    kind: FaultKind,
    name: &Text,
) -> Result<(), OutOfMemory>
    requires room { length faults.old ≤ 100 }
    ensures { OnOk result (faults.new ≡ take 100 (faults.old ++ fault_of kind name.now ∷ [])) }
{
    if faults.as_slice().len() >= MOST_FAULTS {
        return Ok(());
    }
    let name = Text::from_slice(alloc, name.as_slice())?;
    let number = kind.number();
    faults.push(ProjectFault { number, name })?;
    Ok(())
}
