// Laws of definitions.
ghost use Rattle.std.specs.Prelude.{◌≡◌, ◌↔◌, ℕ, ◌+◌, true};
ghost use Rattle.run_engine.specs.declared.start.Start.{Start as StartOf};
ghost use Rattle.project_check.specs.Faultless.{IsFaultless};
ghost use Rattle.run_engine.specs.StepLines.{ReachesReport, has_line};

/// Law: a state after the first has a step line exactly where it is the first at or past some multiple of the report
/// step.
pub fn lines_stand_at_reports()
    ensures { (start : StartOf) (k : ℕ) → IsFaultless start.project
        → (has_line start (k + 1) ≡ true) ↔ ReachesReport start k }
{}
