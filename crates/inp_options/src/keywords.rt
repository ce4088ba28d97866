// The keywords that options take.
ghost use Rattle.std.specs.Prelude.{◌≡◌};
ghost use Rattle.inp_options.specs.Keywords.{damping_named, infiltration_named, is_dynamic_wave};
ghost use Rattle.inp_options.specs.Keywords.{limiter_named, method_named, offsets_named, units_named};

use inp_values::is_word;
use net_types::{Damping, FlowUnits, InfilKind, Limiter};

/// The flow units of a keyword.
pub(crate) fn units_named(text: &[u8]) -> Option<FlowUnits>
    ensures { result ≡ units_named text.now }
{
    if is_word(text, b"CFS") {
        return Some(FlowUnits::Cfs);
    }
    if is_word(text, b"GPM") {
        return Some(FlowUnits::Gpm);
    }
    if is_word(text, b"MGD") {
        return Some(FlowUnits::Mgd);
    }
    if is_word(text, b"CMS") {
        return Some(FlowUnits::Cms);
    }
    if is_word(text, b"LPS") {
        return Some(FlowUnits::Lps);
    }
    if is_word(text, b"MLD") {
        return Some(FlowUnits::Mld);
    }
    None
}

/// The infiltration method of a keyword, of those that are built.
pub(crate) fn infiltration_named(text: &[u8]) -> Option<InfilKind>
    ensures { result ≡ infiltration_named text.now }
{
    if is_word(text, b"MODIFIED_HORTON") {
        return Some(InfilKind::ModifiedHorton);
    }
    if is_word(text, b"CURVE_NUMBER") {
        return Some(InfilKind::CurveNumber);
    }
    None
}

/// The damping of a keyword.
pub(crate) fn damping_named(text: &[u8]) -> Option<Damping>
    ensures { result ≡ damping_named text.now }
{
    if is_word(text, b"NONE") {
        return Some(Damping::Zero);
    }
    if is_word(text, b"PARTIAL") {
        return Some(Damping::Partial);
    }
    if is_word(text, b"FULL") {
        return Some(Damping::Full);
    }
    None
}

/// The limit of a keyword on normal flow.
pub(crate) fn limiter_named(text: &[u8]) -> Option<Limiter>
    ensures { result ≡ limiter_named text.now }
{
    if is_word(text, b"SLOPE") {
        return Some(Limiter::Slope);
    }
    if is_word(text, b"FROUDE") {
        return Some(Limiter::Froude);
    }
    if is_word(text, b"BOTH") {
        return Some(Limiter::Both);
    }
    None
}

/// Whether the surcharge method of a keyword is EXTRAN.
pub(crate) fn method_named(text: &[u8]) -> Option<bool>
    ensures { result ≡ method_named text.now }
{
    if is_word(text, b"SLOT") {
        return Some(false);
    }
    if is_word(text, b"EXTRAN") {
        return Some(true);
    }
    None
}

/// Whether the link offsets of a keyword are elevations.
pub(crate) fn offsets_named(text: &[u8]) -> Option<bool>
    ensures { result ≡ offsets_named text.now }
{
    if is_word(text, b"DEPTH") {
        return Some(false);
    }
    if is_word(text, b"ELEVATION") {
        return Some(true);
    }
    None
}

/// Whether the routing of a keyword is built: the dynamic wave alone.
pub(crate) fn is_dynamic_wave(text: &[u8]) -> bool
    ensures { result ≡ is_dynamic_wave text.now }
{
    is_word(text, b"DYNWAVE")
}
