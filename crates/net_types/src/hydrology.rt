// Rain gages and subcatchments.
use crate::text::Text;

/// A rain gage: its values are intensities, or volumes of an interval.
#[derive(Debug, Drop)]
pub struct Gage {
    pub name: Text,
    pub volume: bool,
    /// The time for which a value holds, in ms: a minute to a day.
    pub interval: i64,
    /// The series of its values, by its number.
    pub series: u32,
}

/// A subcatchment. Gage and outlet node are given by their numbers.
#[derive(Debug, Drop)]
pub struct Sub {
    pub name: Text,
    pub gage: u32,
    pub outlet: u32,
    /// In mm², 10^6 to 10^16.
    pub area: i64,
    /// The impervious part, 0 to 10^6 millionths.
    pub imperv6: i64,
    /// In µm, 0 to 10^10.
    pub width: i64,
    /// 0 to 10^6 millionths.
    pub slope6: i64,
    /// None where the input has no SUBAREAS line for it.
    pub sub_areas: Option<SubAreas>,
    /// None where the input has no INFILTRATION line for it; else of the options' method.
    pub infil: Option<Infil>,
}

/// Roughness (1,000 to 10^6 millionths) and depression storage of the impervious and the pervious part, and the part of
/// the impervious area that has no storage (0 to 10^6 millionths).
#[derive(Clone, Copy, Debug, PartialEq, Eq)]
pub struct SubAreas {
    pub n_imperv6: i64,
    pub n_perv6: i64,
    /// In nm, 0 to 10^10.
    pub s_imperv: i64,
    pub s_perv: i64,
    pub zero6: i64,
}

/// The infiltration numbers of a subcatchment: rates in nm/h and volume in nm (0 to 10^10, a volume of 0 is none),
/// decay 0 to 10^8 millionths per hour, drying time in ms (86,400 to 10^11), curve number 10^6 to 10^8 millionths.
#[derive(Clone, Copy, Debug, PartialEq, Eq)]
pub enum Infil {
    Horton {
        max: i64,
        min: i64,
        decay6: i64,
        dry: i64,
        volume: i64,
    },
    Number {
        cn6: i64,
        dry: i64,
    },
}
