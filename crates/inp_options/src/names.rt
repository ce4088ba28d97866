// The names of options.
ghost use Rattle.std.specs.Prelude.{◌≡◌, map};
ghost use Rattle.inp_options.specs.Keywords.{choice_of};
ghost use Rattle.inp_options.specs.OptionNames.{option_named};

use inp_values::is_word;

/// What an option is about, by which its value is read.
#[derive(Clone, Copy, Debug)]
pub enum OptionKind {
    FlowUnits,
    Infiltration,
    FlowRouting,
    StartDate,
    StartTime,
    EndDate,
    EndTime,
    ReportStep,
    WetStep,
    RoutingStep,
    VariableStep,
    AllowPonding,
    InertialDamping,
    NormalFlowLimited,
    MinSurfArea,
    HeadTolerance,
    MaxTrials,
    Threads,
    LinkOffsets,
    RuleStep,
    SurchargeMethod,
    /// An option that is built for the number 0 alone.
    Zero,
    /// An option that is built for NO alone.
    No,
    /// An option that has no effect.
    Unused,
}

// The options by their names.
const OPTIONS: [(&str, OptionKind); 41] = [
    ("FLOW_UNITS", OptionKind::FlowUnits),
    ("INFILTRATION", OptionKind::Infiltration),
    ("FLOW_ROUTING", OptionKind::FlowRouting),
    ("START_DATE", OptionKind::StartDate),
    ("START_TIME", OptionKind::StartTime),
    ("END_DATE", OptionKind::EndDate),
    ("END_TIME", OptionKind::EndTime),
    ("REPORT_STEP", OptionKind::ReportStep),
    ("WET_STEP", OptionKind::WetStep),
    ("ROUTING_STEP", OptionKind::RoutingStep),
    ("ALLOW_PONDING", OptionKind::AllowPonding),
    ("INERTIAL_DAMPING", OptionKind::InertialDamping),
    ("NORMAL_FLOW_LIMITED", OptionKind::NormalFlowLimited),
    ("MIN_SURFAREA", OptionKind::MinSurfArea),
    ("HEAD_TOLERANCE", OptionKind::HeadTolerance),
    ("MAX_TRIALS", OptionKind::MaxTrials),
    ("THREADS", OptionKind::Threads),
    ("VARIABLE_STEP", OptionKind::VariableStep),
    ("LENGTHENING_STEP", OptionKind::Zero),
    ("MIN_SLOPE", OptionKind::Zero),
    ("SKIP_STEADY_STATE", OptionKind::No),
    ("IGNORE_RAINFALL", OptionKind::No),
    ("IGNORE_ROUTING", OptionKind::No),
    ("LINK_OFFSETS", OptionKind::LinkOffsets),
    ("RULE_STEP", OptionKind::RuleStep),
    ("SURCHARGE_METHOD", OptionKind::SurchargeMethod),
    ("REPORT_START_DATE", OptionKind::Unused),
    ("REPORT_START_TIME", OptionKind::Unused),
    ("SWEEP_START", OptionKind::Unused),
    ("SWEEP_END", OptionKind::Unused),
    ("DRY_DAYS", OptionKind::Unused),
    ("DRY_STEP", OptionKind::Unused),
    ("FORCE_MAIN_EQUATION", OptionKind::Unused),
    ("SYS_FLOW_TOL", OptionKind::Unused),
    ("LAT_FLOW_TOL", OptionKind::Unused),
    ("MINIMUM_STEP", OptionKind::Unused),
    ("TEMPDIR", OptionKind::Unused),
    ("IGNORE_SNOWMELT", OptionKind::Unused),
    ("IGNORE_GROUNDWATER", OptionKind::Unused),
    ("IGNORE_RDII", OptionKind::Unused),
    ("IGNORE_QUALITY", OptionKind::Unused),
];

/// The option of a name, ASCII case ignored.
#[tactic(auto, unfolding(crate::specs::OptionNames::option_named))]
pub(crate) fn option_named(name: &[u8]) -> Option<OptionKind>
    ensures { result ≡ option_named name.now }
{
    find_option(&OPTIONS, name)
}

// The option of the first name in the table that is the same word.
fn find_option(table: &[(&str, OptionKind)], name: &[u8]) -> Option<OptionKind>
    ensures { result ≡ choice_of (map (λ entry. (entry.0.now, entry.1)) table.now) name.now }
{
    for (word, option) in table {
        if is_word(name, word.as_bytes()) {
            return Some(*option);
        }
    }
    None
}
