// A line of an input file.
use net_types::{List, Text};

/// The sections of an input file (User's Manual, appendix D). `Unknown` is the section of a section line that names
/// none of them, and `Before` the part before any section line.
#[derive(Clone, Copy, Debug, PartialEq, Eq)]
pub enum SectionName {
    Title,
    Options,
    Evaporation,
    RainGages,
    Subcatchments,
    SubAreas,
    Infiltration,
    Junctions,
    Outfalls,
    Storage,
    Conduits,
    Pumps,
    Orifices,
    Weirs,
    XSections,
    Losses,
    Controls,
    Inflows,
    Dwf,
    Patterns,
    Curves,
    TimeSeries,
    Report,
    Tags,
    Map,
    Coordinates,
    Vertices,
    Polygons,
    Symbols,
    Labels,
    Backdrop,
    Profiles,
    Dividers,
    Outlets,
    Files,
    Temperature,
    Adjustments,
    Aquifers,
    Groundwater,
    Gwf,
    Snowpacks,
    LidControls,
    LidUsage,
    Pollutants,
    LandUses,
    Coverages,
    Loadings,
    Buildup,
    Washoff,
    Treatment,
    Rdii,
    Hydrographs,
    Transects,
    Unknown,
    Before,
}

/// A line that has a token and isn't a known section's own line.
#[derive(Debug, Drop)]
pub struct Line {
    /// The place of the line in the file, from 1.
    pub number: u32,
    /// The section in which it stands.
    pub section: SectionName,
    /// Its tokens, without comment and quotes.
    pub tokens: List<Text>,
    /// The whole line without its line end.
    pub bytes: Text,
}
