// The method of an infiltration.
ghost use Rattle.std.specs.Prelude.{◌≡◌};
ghost use Rattle.infiltration.specs.Infiltration.{method_of};

use crate::curve_number::CurveNumber;
use crate::horton::HortonCurve;
use net_types::Infil;

// A method and its numbers.
#[derive(Clone, Copy, Debug)]
pub(crate) enum Method {
    Horton(HortonCurve),
    Number(CurveNumber),
}

// The method of an infiltration, with its numbers gathered.
pub(crate) fn method_in(infil: &Infil) -> Method
    ensures { result ≡ method_of infil.now }
{
    match infil {
        Infil::Horton {
            max,
            min,
            decay6,
            dry,
            volume,
        } => Method::Horton(HortonCurve {
            max: *max,
            min: *min,
            decay6: *decay6,
            dry: *dry,
            volume: *volume,
        }),
        Infil::Number { cn6, dry } => Method::Number(CurveNumber {
            cn6: *cn6,
            dry: *dry,
        }),
    }
}
