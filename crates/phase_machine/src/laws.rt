// What lists of events make, for every law and every order of the events.
ghost use Rattle.std.specs.Prelude.{◌≡◌, ℕ, ◌≤◌, true, false, List};
ghost use Rattle.phase_law.specs.Law.{Law};
ghost use Rattle.phase_law.specs.Laws.{IsLaw};
ghost use Rattle.trial_model.specs.declared.nets.Nets.{Nets};
ghost use Rattle.trial_model.specs.Fits.{Fits};
ghost use Rattle.phase_machine.specs.declared.acts.Event.{Event as E};
ghost use Rattle.phase_machine.specs.Places.{is_odd};
ghost use Rattle.phase_machine.specs.Core.{Core, IsStart};
ghost use Rattle.phase_machine.specs.Runs.{Leads, LinksDone, NodesDone};

/// Whatever the events and their order: once a link phase is closed, the seats have finished each link once, and the
/// sums, the least time and the flows in the words are those of the trial of what was opened.
pub fn closed_links_are_those_of_a_trial()
    ensures { (law : Law) (nets : Nets) (seats : ℕ) (first : Core) (events : List E) (c : Core)
        → IsLaw law → Fits law nets → IsStart law nets seats first → Leads law first events c
        → is_odd c.phase ≡ true → c.is_open ≡ false → LinksDone law c }
{}

/// Whatever the events and their order: once a node phase is closed, the seats have finished each node once, the state
/// that is kept is the trial of what was opened, and so is the count of unsettled nodes.
pub fn closed_nodes_are_those_of_a_trial()
    ensures { (law : Law) (nets : Nets) (seats : ℕ) (first : Core) (events : List E) (c : Core)
        → IsLaw law → Fits law nets → IsStart law nets seats first → Leads law first events c
        → is_odd c.phase ≡ false → 1 ≤ c.phase → c.is_open ≡ false → NodesDone law c }
{}
