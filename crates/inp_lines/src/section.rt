// The section lines.
ghost use Rattle.std.specs.Prelude.{◌≡◌, ◌↔◌, IsSome, List, Option, map, slice_index, take};
ghost use Rattle.std.specs.Option.{option_map};
ghost use Rattle.inp_lines.specs.Sections.{behind_bracket, first_section, is_key_of};
ghost use Rattle.inp_lines.specs.Sections.{key_of, named_section, section_of_key};
ghost use Rattle.inp_lines.specs.Tokens.{without_blanks};

use crate::line::SectionName;
use crate::scan::{before, without_blanks};
use crate::tokens::before_comment;

// The sections by their names, in the order in which a key is looked up.
const SECTIONS: [(&str, SectionName); 53] = [
    ("TITLE", SectionName::Title),
    ("OPTIONS", SectionName::Options),
    ("EVAPORATION", SectionName::Evaporation),
    ("RAINGAGES", SectionName::RainGages),
    ("SUBCATCHMENTS", SectionName::Subcatchments),
    ("SUBAREAS", SectionName::SubAreas),
    ("INFILTRATION", SectionName::Infiltration),
    ("JUNCTIONS", SectionName::Junctions),
    ("OUTFALLS", SectionName::Outfalls),
    ("STORAGE", SectionName::Storage),
    ("CONDUITS", SectionName::Conduits),
    ("PUMPS", SectionName::Pumps),
    ("ORIFICES", SectionName::Orifices),
    ("WEIRS", SectionName::Weirs),
    ("XSECTIONS", SectionName::XSections),
    ("LOSSES", SectionName::Losses),
    ("CONTROLS", SectionName::Controls),
    ("INFLOWS", SectionName::Inflows),
    ("DWF", SectionName::Dwf),
    ("PATTERNS", SectionName::Patterns),
    ("CURVES", SectionName::Curves),
    ("TIMESERIES", SectionName::TimeSeries),
    ("REPORT", SectionName::Report),
    ("TAGS", SectionName::Tags),
    ("MAP", SectionName::Map),
    ("COORDINATES", SectionName::Coordinates),
    ("VERTICES", SectionName::Vertices),
    ("POLYGONS", SectionName::Polygons),
    ("SYMBOLS", SectionName::Symbols),
    ("LABELS", SectionName::Labels),
    ("BACKDROP", SectionName::Backdrop),
    ("PROFILES", SectionName::Profiles),
    ("DIVIDERS", SectionName::Dividers),
    ("OUTLETS", SectionName::Outlets),
    ("FILES", SectionName::Files),
    ("TEMPERATURE", SectionName::Temperature),
    ("ADJUSTMENTS", SectionName::Adjustments),
    ("AQUIFERS", SectionName::Aquifers),
    ("GROUNDWATER", SectionName::Groundwater),
    ("GWF", SectionName::Gwf),
    ("SNOWPACKS", SectionName::Snowpacks),
    ("LID_CONTROLS", SectionName::LidControls),
    ("LID_USAGE", SectionName::LidUsage),
    ("POLLUTANTS", SectionName::Pollutants),
    ("LANDUSES", SectionName::LandUses),
    ("COVERAGES", SectionName::Coverages),
    ("LOADINGS", SectionName::Loadings),
    ("BUILDUP", SectionName::Buildup),
    ("WASHOFF", SectionName::Washoff),
    ("TREATMENT", SectionName::Treatment),
    ("RDII", SectionName::Rdii),
    ("HYDROGRAPHS", SectionName::Hydrographs),
    ("TRANSECTS", SectionName::Transects),
];

/// The section that a line names: `Unknown` where its key is that of no section, and none exactly where its first
/// byte past blanks isn't `[`. The key is the up to four bytes behind the `[`, ending before a `]` or the comment,
/// ASCII case ignored (this project's profile).
pub fn section_of(line: &[u8]) -> Option<SectionName>
    ensures section { result ≡ named_section line.now }
    ensures bracket { IsSome result ↔ (slice_index (without_blanks line.now) 0 ≡ 91) }
{
    match behind_bracket(without_blanks(before_comment(line))) {
        Some(behind) => Some(section_of_key(key_of(behind))),
        None => None,
    }
}

// What stands behind the bracket at a text's front, if one does.
fn behind_bracket(text: &[u8]) -> Option<&[u8]>
    ensures { option_map (λ behind. behind.now) result ≡ behind_bracket text.now }
{
    match text {
        [b'[', behind @ ..] => Some(behind),
        _ => None,
    }
}

// The key at the front of what stands behind the bracket.
fn key_of(bytes: &[u8]) -> &[u8]
    ensures { result.now ≡ key_of bytes.now }
{
    first_four(before(b']', bytes))
}

// The section of a key.
fn section_of_key(key: &[u8]) -> SectionName
    ensures { result ≡ section_of_key key.now }
{
    find_section(&SECTIONS, key)
}

// The section of the first name in the table whose key it is.
fn find_section(table: &[(&str, SectionName)], key: &[u8]) -> SectionName
    ensures { result ≡ first_section (map (λ entry. (entry.0.now, entry.1)) table.now) key.now }
{
    for (name, section) in table {
        if is_key_of(key, name.as_bytes()) {
            return *section;
        }
    }
    SectionName::Unknown
}

// Whether the key equals the first four letters of the name, ASCII case ignored.
fn is_key_of(key: &[u8], name: &[u8]) -> bool
    ensures { result ≡ is_key_of key.now name.now }
{
    key.eq_ignore_ascii_case(first_four(name))
}

// The first four bytes, or all of fewer.
fn first_four(name: &[u8]) -> &[u8]
    ensures { result.now ≡ take 4 name.now }
{
    &name[..name.len().min(4)]
}
