ghost use Rattle.std.specs.Prelude.{◌≡◌, ◌^◌, pos, neg_ℤ};
ghost use Rattle.fixed_num.specs.Units.{IsUnit};
ghost use Rattle.inp_values.specs.Units.{by_system, flow_den, flow_num, scale, unit_for};

use fixed_num::Unit;
use net_types::FlowUnits;

/// What a number of an input measures, which settles its unit and its range (this project's profile). Lengths are
/// stored in µm (small depths in nm), rates in nm/h, areas in mm², volumes in mm³, flows in cm³/s, days in ms, and the
/// others in millionths.
#[derive(Clone, Copy, Debug, PartialEq, Eq)]
pub enum Quantity {
    ConduitLength,
    Elevation,
    Depth,
    Width,
    SmallDepth,
    Rate,
    LandArea,
    NodeArea,
    Volume,
    Flow,
    Roughness,
    Percent,
    Coefficient,
    Raw,
    Days,
}

/// The unit of a quantity under the flow units of an input, with the range of its stored values (this project's
/// profile). A volume has the range of this project's own choice, 10^18 mm³ to either side.
pub fn unit_of(units: FlowUnits, quantity: Quantity) -> Unit
    ensures value { result ≡ unit_for units quantity }
    ensures unit { IsUnit result }
{
    table(units, quantity)
}

#[tactic(auto, unfolding(crate::specs::Units::unit_for))]
fn table(units: FlowUnits, quantity: Quantity) -> Unit
    ensures { result ≡ unit_for units quantity }
{
    match quantity {
        Quantity::ConduitLength => scale(length(units), 1, 10_000, 100_000_000_000),
        Quantity::Elevation => scale(length(units), 1, -10_000_000_000, 10_000_000_000),
        Quantity::Depth => scale(length(units), 1, 0, 1_000_000_000),
        Quantity::Width => scale(length(units), 1, 0, 10_000_000_000),
        Quantity::SmallDepth => scale(small_depth(units), 1, 0, 10_000_000_000),
        Quantity::Rate => scale(small_depth(units), 1, 0, 10_000_000_000),
        Quantity::LandArea => scale(
            by_system(units, 40_468_564_224, 10_000_000_000),
            by_system(units, 10, 1),
            1_000_000,
            10_000_000_000_000_000,
        ),
        Quantity::NodeArea => scale(
            by_system(units, 9_290_304, 1_000_000),
            by_system(units, 100, 1),
            0,
            10_000_000_000_000,
        ),
        Quantity::Volume => scale(
            by_system(units, 28_316_846_592, 1_000_000_000),
            by_system(units, 1_000, 1),
            -1_000_000_000_000_000_000,
            1_000_000_000_000_000_000,
        ),
        Quantity::Flow => flow(units),
        Quantity::Roughness => scale(1_000_000, 1, 1_000, 1_000_000),
        Quantity::Percent => scale(10_000, 1, 0, 1_000_000),
        Quantity::Coefficient => scale(1_000_000, 1, 0, 100_000_000),
        Quantity::Raw => scale(1_000_000, 1, -1_000_000_000_000_000, 1_000_000_000_000_000),
        Quantity::Days => scale(86_400_000, 1, 0, 100_000_000_000),
    }
}

fn scale(num: u64, den: u64, least: i64, most: i64) -> Unit
    ensures { result ≡ scale num den least most }
{
    Unit {
        num,
        den,
        least,
        most,
    }
}

/// One number for US units and one for metric ones.
fn by_system(units: FlowUnits, us: u64, metric: u64) -> u64
    ensures { result ≡ by_system units us metric }
{
    match units {
        FlowUnits::Cfs | FlowUnits::Gpm | FlowUnits::Mgd => us,
        FlowUnits::Cms | FlowUnits::Lps | FlowUnits::Mld => metric,
    }
}

/// A foot or a metre in µm.
fn length(units: FlowUnits) -> u64
    ensures { result ≡ by_system units 304_800 1_000_000 }
{
    by_system(units, 304_800, 1_000_000)
}

/// An inch or a millimetre in nm.
fn small_depth(units: FlowUnits) -> u64
    ensures { result ≡ by_system units 25_400_000 1_000_000 }
{
    by_system(units, 25_400_000, 1_000_000)
}

/// The flow units themselves, in cm³/s.
fn flow(units: FlowUnits) -> Unit
    ensures { result ≡ scale (flow_num units) (flow_den units) (neg_ℤ (pos (10 ^ 12))) (pos (10 ^ 12)) }
{
    let (num, den) = match units {
        FlowUnits::Cfs => (28_316_846_592, 1_000_000),
        FlowUnits::Gpm => (3_785_411_784, 60_000_000),
        FlowUnits::Mgd => (3_785_411_784, 86_400),
        FlowUnits::Cms => (1_000_000, 1),
        FlowUnits::Lps => (1_000, 1),
        FlowUnits::Mld => (1_000_000_000, 86_400),
    };
    scale(num, den, -1_000_000_000_000, 1_000_000_000_000)
}
