// Laws of definitions.
ghost use Rattle.std.specs.Prelude.{◌≡◌, ℕ, ℤ};
ghost use Rattle.infiltration.specs.Depths.{IsRunoffStep};
ghost use Rattle.net_types.specs.declared.hydrology.Sub.{Sub as SubOf};
ghost use Rattle.net_types.specs.declared.project.Project.{Project as ProjectOf};
ghost use Rattle.runoff.specs.RunoffStep.{sub_step_of};
ghost use Rattle.runoff.specs.declared.states.SubState.{SubState as StateOf};
ghost use Rattle.runoff_states.specs.RunoffAccount.{IsClosed};
ghost use Rattle.runoff_states.specs.RunoffTimes.{AreDone, runoff_at, steps_done};

/// Law: a step of a subcatchment loses and makes no water: what the soil took, what ran off and what is stored more
/// than before add up to the rain, but for the rounding of volumes, which is at most 6 mm³.
pub fn runoff_loses_no_water()
    ensures { (sub : SubOf) (state : StateOf) (rate ms : ℤ) → IsClosed (sub_step_of sub state rate ms) }
{}

/// Law: what runs off to a node holds between two steps of runoff: at two moments at which as many steps are done it is
/// the same. At a moment the number of steps that are done is one only.
pub fn runoff_is_held()
    ensures held { (project : ProjectOf) (start : ℕ → StateOf) (moment later : ℤ) (steps node : ℕ)
        → IsRunoffStep project.options.wet_ms → AreDone project.options.wet_ms moment steps
        → AreDone project.options.wet_ms later steps
        → runoff_at project start moment node ≡ runoff_at project start later node }
    ensures one { (ms moment : ℤ) (steps : ℕ) → IsRunoffStep ms → AreDone ms moment steps
        → steps ≡ steps_done ms moment }
{}
