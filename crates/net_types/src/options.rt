// The options of a project.
ghost use Rattle.std.specs.Prelude.{◌≡◌};
ghost use Rattle.net_types.specs.Empty.{default_options};

/// The flow units of an input. CFS, GPM and MGD bring US units for all quantities, the others metric ones.
#[derive(Clone, Copy, Debug, PartialEq, Eq)]
pub enum FlowUnits {
    Cfs,
    Gpm,
    Mgd,
    Cms,
    Lps,
    Mld,
}

/// The infiltration method of all subcatchments.
#[derive(Clone, Copy, Debug, PartialEq, Eq)]
pub enum InfilKind {
    ModifiedHorton,
    CurveNumber,
}

/// How far the inertial terms of the momentum equation are damped: not at all, as the flow nears the critical one,
/// or wholly.
#[derive(Clone, Copy, Debug, PartialEq, Eq)]
pub enum Damping {
    Zero,
    Partial,
    Full,
}

/// By which sign of supercritical flow a conduit is held to its normal flow: the slope of the water surface, the
/// Froude number, or either.
#[derive(Clone, Copy, Debug, PartialEq, Eq)]
pub enum Limiter {
    Slope,
    Froude,
    Both,
}

/// The options of a run (User's Manual, section [OPTIONS]).
#[derive(Clone, Copy, Debug, PartialEq, Eq)]
pub struct Options {
    pub units: FlowUnits,
    pub infil: InfilKind,
    /// Start and end of the run, in ms from 1970-01-01 00:00:00 of the civil calendar: even numbers, of the years 1900
    /// to 2200.
    pub start: i64,
    pub finish: i64,
    /// Reporting step, 1 s to 24 h, and runoff step, 1 s to 1 h, in ms.
    pub report_ms: i64,
    pub wet_ms: i64,
    /// Routing step, an even number of ms, 10 ms to 1 h.
    pub step_ms: i64,
    /// The part of the least travel time of a wave that a routing step may take, 0 to 2 in millionths; 0 for steps of
    /// constant length.
    pub variable6: i64,
    pub ponding: bool,
    pub damping: Damping,
    pub limiter: Limiter,
    /// Least surface area of a node, in mm², 10^4 to 10^13.
    pub min_area: i64,
    /// Head tolerance of the trials, in µm, 1 to 10^9.
    pub tolerance: i64,
    /// The most trials of a routing step, 1 to 20.
    pub max_trials: u32,
    /// How many workers the input asks for, uncut.
    pub threads: u32,
}

impl Options {
    /// The options of an input that sets none.
    pub fn unset() -> Options
        ensures { result ≡ default_options }
    {
        Options {
            units: FlowUnits::Cfs,
            infil: InfilKind::ModifiedHorton,
            start: 1_009_843_200_000,
            finish: 1_009_843_200_000,
            report_ms: 900_000,
            wet_ms: 300_000,
            step_ms: 20_000,
            variable6: 0,
            ponding: false,
            damping: Damping::Partial,
            limiter: Limiter::Both,
            min_area: 1_167_420,
            tolerance: 1_524,
            max_trials: 8,
            threads: 1,
        }
    }
}
