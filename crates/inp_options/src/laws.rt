// Laws of options, in the words of their definitions.
ghost use Rattle.std.specs.Prelude.{◌≡◌, List};
ghost use Rattle.calendar_steps.specs.Calendar.{day_number};
ghost use Rattle.inp_lines.specs.declared.line.Line.{Line as DataLine};
ghost use Rattle.inp_lines.specs.Sources.{FaultsIn};
ghost use Rattle.inp_options.specs.Chosen.{latest_of, settings};
ghost use Rattle.inp_options.specs.OptionLines.{is_options, option_fault};
ghost use Rattle.inp_options.specs.Options.{default_day};

use net_types::FlowUnits;

/// Law: faults of options come from option lines alone, at most one from a line.
pub fn faults_on_option_lines()
    ensures { (units : FlowUnits) → FaultsIn is_options (option_fault units) }
{}

/// Law: a run starts by default on 1 January 2002.
pub fn first_day()
    ensures { default_day ≡ day_number 2002 1 1 }
{}

/// Law: the flow units that a file sets are the same under whichever units its lines are read.
pub fn flow_units_under_any()
    ensures { (units other : FlowUnits) (lines : List DataLine)
        → (latest_of (settings units lines)).units ≡ (latest_of (settings other lines)).units }
{}
