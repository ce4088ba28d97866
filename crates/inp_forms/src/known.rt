// What the readers of lines know of the whole input.
ghost use Rattle.std.specs.Prelude.{◌≡◌};
ghost use Rattle.inp_forms.specs.Context.{context_of, curve_kind_at, curve_number, is_link_of, kept_if, link_number};
ghost use Rattle.inp_forms.specs.Context.{object_number, defines, serves};

use crate::item::Objects;
use inp_lines::{Names, SectionName, number_of};
use net_types::{CurveKind, FlowUnits, List};

/// What the readers of lines know of the whole input: its flow units, the numbers of all names, the sections of the
/// lines that define links, and the types of curves. It is made once and lent to all readers.
#[derive(Drop)]
pub struct Known<'a> {
    pub units: FlowUnits,
    pub nodes: Names<'a>,
    pub links: Names<'a>,
    /// The section of the line of each link.
    pub link_sections: List<SectionName>,
    pub subs: Names<'a>,
    pub gages: Names<'a>,
    pub series: Names<'a>,
    pub patterns: Names<'a>,
    pub curves: Names<'a>,
    /// The type of each curve, none where it is at fault.
    pub curve_kinds: List<Option<CurveKind>>,
}

/// The number of an object of this kind by its name.
#[tactic(auto, unfolding(crate::specs::Context::object_number))]
pub fn object_number<'a>(known: &Known<'a>, objects: Objects, name: &'a [u8]) -> Option<u32>
    ensures { result ≡ object_number (context_of known.now) objects name.now }
{
    match objects {
        Objects::Nodes => number_of(&known.nodes, name),
        Objects::Links => number_of(&known.links, name),
        Objects::Conduits => link_number(known, objects, name),
        Objects::Pumps => link_number(known, objects, name),
        Objects::Orifices => link_number(known, objects, name),
        Objects::Weirs => link_number(known, objects, name),
        Objects::Subcatchments => number_of(&known.subs, name),
        Objects::Gages => number_of(&known.gages, name),
        Objects::StorageCurves => curve_number(known, objects, name),
        Objects::PumpCurves => curve_number(known, objects, name),
        Objects::TidalCurves => curve_number(known, objects, name),
        Objects::Series => number_of(&known.series, name),
        Objects::Patterns => number_of(&known.patterns, name),
    }
}

/// The number of a link of this kind.
fn link_number<'a>(known: &Known<'a>, objects: Objects, name: &'a [u8]) -> Option<u32>
    ensures { result ≡ link_number (context_of known.now) objects name.now }
{
    match number_of(&known.links, name) {
        Some(number) => kept_if(is_link_of(known, objects, number), number),
        None => None,
    }
}

/// The number of a curve of a type that serves this use.
fn curve_number<'a>(known: &Known<'a>, objects: Objects, name: &'a [u8]) -> Option<u32>
    ensures { result ≡ curve_number (context_of known.now) objects name.now }
{
    match number_of(&known.curves, name) {
        Some(number) => kept_if(serves(objects, curve_kind(known, number)), number),
        None => None,
    }
}

/// A number, if it is to be kept.
fn kept_if(kept: bool, number: u32) -> Option<u32>
    ensures { result ≡ kept_if kept number }
{
    if kept { Some(number) } else { None }
}

/// Whether a link is of this kind.
fn is_link_of(known: &Known<'_>, objects: Objects, number: u32) -> bool
    ensures { result ≡ is_link_of (context_of known.now) objects number }
{
    match known.link_sections.as_slice().get(number as usize) {
        Some(section) => defines(objects, *section),
        None => defines(objects, SectionName::Before),
    }
}

/// Whether lines of a section define links of this kind.
fn defines(objects: Objects, section: SectionName) -> bool
    ensures { result ≡ defines objects section }
{
    match objects {
        Objects::Conduits => matches!(section, SectionName::Conduits),
        Objects::Pumps => matches!(section, SectionName::Pumps),
        Objects::Orifices => matches!(section, SectionName::Orifices),
        Objects::Weirs => matches!(section, SectionName::Weirs),
        _ => false,
    }
}

/// The type of a curve, none where it is at fault or there is no such curve.
fn curve_kind(known: &Known<'_>, number: u32) -> Option<CurveKind>
    ensures { result ≡ curve_kind_at (context_of known.now) number }
{
    match known.curve_kinds.as_slice().get(number as usize) {
        Some(kind) => *kind,
        None => None,
    }
}

/// Whether curves of a type serve this use.
fn serves(objects: Objects, kind: Option<CurveKind>) -> bool
    ensures { result ≡ serves objects kind }
{
    match kind {
        None => false,
        Some(CurveKind::Storage) => matches!(objects, Objects::StorageCurves),
        Some(CurveKind::Tidal) => matches!(objects, Objects::TidalCurves),
        Some(_) => matches!(objects, Objects::PumpCurves),
    }
}
