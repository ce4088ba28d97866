// The keywords of items.
ghost use Rattle.std.specs.Prelude.{◌≡◌};
ghost use Rattle.inp_forms.specs.Keywords.{keyword_among, keyword_of, outside_fault, word_fault, text_of};

use inp_values::is_word;
use net_types::FaultKind;

/// The keywords of all items (User's Manual, appendix D).
#[derive(Clone, Copy, Debug, PartialEq, Eq)]
pub enum Keyword {
    Free,
    Normal,
    Fixed,
    Tidal,
    TimeSeries,
    Tabular,
    Functional,
    On,
    Off,
    Side,
    Bottom,
    Transverse,
    VNotch,
    RectOpen,
    RectClosed,
    Trapezoidal,
    Triangular,
    Circular,
    Flow,
    Intensity,
    Volume,
    Cumulative,
    File,
    Outlet,
    Impervious,
    Pervious,
    Constant,
    DryOnly,
    Storage,
    Pump1,
    Pump2,
    Pump3,
    Pump4,
    Monthly,
    Daily,
    Hourly,
    Weekend,
}

impl Keyword {
    /// The text of the keyword.
    pub fn text(self) -> &'static [u8]
        ensures { result.now ≡ text_of self }
    {
        match self {
            Keyword::Free => b"FREE",
            Keyword::Normal => b"NORMAL",
            Keyword::Fixed => b"FIXED",
            Keyword::Tidal => b"TIDAL",
            Keyword::TimeSeries => b"TIMESERIES",
            Keyword::Tabular => b"TABULAR",
            Keyword::Functional => b"FUNCTIONAL",
            Keyword::On => b"ON",
            Keyword::Off => b"OFF",
            Keyword::Side => b"SIDE",
            Keyword::Bottom => b"BOTTOM",
            Keyword::Transverse => b"TRANSVERSE",
            Keyword::VNotch => b"V-NOTCH",
            Keyword::RectOpen => b"RECT_OPEN",
            Keyword::RectClosed => b"RECT_CLOSED",
            Keyword::Trapezoidal => b"TRAPEZOIDAL",
            Keyword::Triangular => b"TRIANGULAR",
            Keyword::Circular => b"CIRCULAR",
            Keyword::Flow => b"FLOW",
            Keyword::Intensity => b"INTENSITY",
            Keyword::Volume => b"VOLUME",
            Keyword::Cumulative => b"CUMULATIVE",
            Keyword::File => b"FILE",
            Keyword::Outlet => b"OUTLET",
            Keyword::Impervious => b"IMPERVIOUS",
            Keyword::Pervious => b"PERVIOUS",
            Keyword::Constant => b"CONSTANT",
            Keyword::DryOnly => b"DRY_ONLY",
            Keyword::Storage => b"STORAGE",
            Keyword::Pump1 => b"PUMP1",
            Keyword::Pump2 => b"PUMP2",
            Keyword::Pump3 => b"PUMP3",
            Keyword::Pump4 => b"PUMP4",
            Keyword::Monthly => b"MONTHLY",
            Keyword::Daily => b"DAILY",
            Keyword::Hourly => b"HOURLY",
            Keyword::Weekend => b"WEEKEND",
        }
    }
}

/// The tables of keywords, one for each item that is a keyword.
#[derive(Clone, Copy, Debug, PartialEq, Eq)]
pub enum Words {
    /// The types of outfalls.
    Stage,
    /// The types of outfalls whose stage needs no item of its own.
    SteadyStage,
    /// How the area of a storage is given.
    StoreShape,
    /// The status of a pump.
    Status,
    /// Where an orifice is.
    Opening,
    /// The types of weirs.
    WeirType,
    /// The shapes of cross-sections.
    Shape,
    /// What flows into a node.
    Constituent,
    /// The type of an inflow.
    InflowType,
    /// What the values of a rain gage are.
    RainForm,
    /// Where the values of a rain gage stand.
    RainSource,
    /// Where the runoff of subareas goes.
    Route,
    /// The forms of evaporation.
    Evaporation,
    /// The types of curves.
    CurveType,
    /// The types of patterns.
    PatternType,
}

pub const STAGE: [Keyword; 5] = [
    Keyword::Free,
    Keyword::Normal,
    Keyword::Fixed,
    Keyword::Tidal,
    Keyword::TimeSeries,
];

pub const STEADY_STAGE: [Keyword; 2] = [Keyword::Free, Keyword::Normal];

pub const STORE_SHAPE: [Keyword; 2] = [Keyword::Tabular, Keyword::Functional];

pub const STATUS: [Keyword; 2] = [Keyword::On, Keyword::Off];

pub const OPENING: [Keyword; 2] = [Keyword::Side, Keyword::Bottom];

pub const WEIR_TYPE: [Keyword; 2] = [Keyword::Transverse, Keyword::VNotch];

pub const SHAPE: [Keyword; 5] = [
    Keyword::RectOpen,
    Keyword::RectClosed,
    Keyword::Trapezoidal,
    Keyword::Triangular,
    Keyword::Circular,
];

pub const FLOW: [Keyword; 1] = [Keyword::Flow];

pub const RAIN_FORM: [Keyword; 2] = [Keyword::Intensity, Keyword::Volume];

pub const RAIN_SOURCE: [Keyword; 1] = [Keyword::TimeSeries];

pub const ROUTE: [Keyword; 1] = [Keyword::Outlet];

pub const EVAPORATION: [Keyword; 2] = [Keyword::Constant, Keyword::DryOnly];

pub const CURVE_TYPE: [Keyword; 6] = [
    Keyword::Storage,
    Keyword::Pump1,
    Keyword::Pump2,
    Keyword::Pump3,
    Keyword::Pump4,
    Keyword::Tidal,
];

pub const PATTERN_TYPE: [Keyword; 4] = [
    Keyword::Monthly,
    Keyword::Daily,
    Keyword::Hourly,
    Keyword::Weekend,
];
/// The words of the manual that aren't in this profile, of tables where other words are no keywords at all.
pub const OTHER_RAIN_FORM: [Keyword; 1] = [Keyword::Cumulative];

pub const OTHER_RAIN_SOURCE: [Keyword; 1] = [Keyword::File];

pub const OTHER_ROUTE: [Keyword; 2] = [Keyword::Impervious, Keyword::Pervious];

/// The keyword of a table that a text is, ASCII case ignored.
#[tactic(auto, unfolding(crate::specs::Keywords::keyword_of))]
pub(crate) fn word_of(words: Words, text: &[u8]) -> Option<Keyword>
    ensures { result ≡ keyword_of words text.now }
{
    match words {
        Words::Stage => find_keyword(&STAGE, text),
        Words::SteadyStage => find_keyword(&STEADY_STAGE, text),
        Words::StoreShape => find_keyword(&STORE_SHAPE, text),
        Words::Status => find_keyword(&STATUS, text),
        Words::Opening => find_keyword(&OPENING, text),
        Words::WeirType => find_keyword(&WEIR_TYPE, text),
        Words::Shape => find_keyword(&SHAPE, text),
        Words::Constituent => find_keyword(&FLOW, text),
        Words::InflowType => find_keyword(&FLOW, text),
        Words::RainForm => find_keyword(&RAIN_FORM, text),
        Words::RainSource => find_keyword(&RAIN_SOURCE, text),
        Words::Route => find_keyword(&ROUTE, text),
        Words::Evaporation => find_keyword(&EVAPORATION, text),
        Words::CurveType => find_keyword(&CURVE_TYPE, text),
        Words::PatternType => find_keyword(&PATTERN_TYPE, text),
    }
}

/// The fault of a text that is no keyword of a table.
#[tactic(auto, unfolding(crate::specs::Keywords::word_fault))]
pub(crate) fn word_fault(words: Words, text: &[u8]) -> FaultKind
    ensures { result ≡ word_fault words text.now }
{
    match words {
        Words::WeirType | Words::Shape | Words::Constituent => FaultKind::NotInProfile,
        Words::Evaporation | Words::CurveType => FaultKind::NotInProfile,
        Words::RainForm => outside(find_keyword(&OTHER_RAIN_FORM, text)),
        Words::RainSource => outside(find_keyword(&OTHER_RAIN_SOURCE, text)),
        Words::Route => outside(find_keyword(&OTHER_ROUTE, text)),
        _ => FaultKind::InvalidKeyword,
    }
}

/// The fault of a text that may be a word outside of this profile.
fn outside(found: Option<Keyword>) -> FaultKind
    ensures { result ≡ outside_fault found }
{
    match found {
        Some(_) => FaultKind::NotInProfile,
        None => FaultKind::InvalidKeyword,
    }
}

/// The first keyword of a list whose text a text is.
fn find_keyword(keywords: &[Keyword], text: &[u8]) -> Option<Keyword>
    ensures { result ≡ keyword_among keywords.now text.now }
{
    for keyword in keywords {
        if is_word(text, keyword.text()) {
            return Some(*keyword);
        }
    }
    None
}
