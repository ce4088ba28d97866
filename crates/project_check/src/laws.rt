// Laws of the faults of a project.
ghost use Rattle.std.specs.Prelude.{◌≡◌, ℤ, List as Sequence, IsTrue, ◌↔◌, [], take};
ghost use Rattle.net_types.specs.declared.network.Node.{Node};
ghost use Rattle.net_types.specs.declared.options.Options.{Options};
ghost use Rattle.net_types.specs.declared.project.Project.{Project as WholeProject};
ghost use Rattle.project_check.specs.Faultless.{IsFaultless, IsGood};
ghost use Rattle.project_check.specs.FullHeight.{IsGreatest, greatest_of};
ghost use Rattle.project_check.specs.Network.{HasOutfall, has_outfall as has_an_outfall};
ghost use Rattle.project_check.specs.ProjectFaults.{project_faults};
ghost use Rattle.net_types.specs.Sound.{IsSound};
ghost use Rattle.project_check.specs.Times.{EndsBeforeStart, IsOverLimit, ends_before_start as is_early};
ghost use Rattle.project_check.specs.Times.{is_over_limit as is_too_long};

/// Each test of a whole project is true exactly where the fact that it is named for holds.
pub fn tests_tell_facts()
    ensures outfall { (nodes : Sequence Node) → IsTrue (has_an_outfall nodes) ↔ HasOutfall nodes }
    ensures early { (options : Options) → IsTrue (is_early options) ↔ EndsBeforeStart options }
    ensures limit { (options : Options) → IsTrue (is_too_long options) ↔ IsOverLimit options }
{}

/// A sound project has no fault exactly where all is good of its times, nodes, links and subcatchments.
pub fn faultless_is_good()
    ensures good { (project : WholeProject) → IsFaultless project → IsGood project }
    ensures faultless { (project : WholeProject) → IsSound project → IsGood project → IsFaultless project }
{}

/// The greatest of numbers is the greatest of them, and 0 where none is greater.
pub fn greatest_is_greatest()
    ensures { (numbers : Sequence ℤ) → IsGreatest numbers (greatest_of numbers) }
{}
