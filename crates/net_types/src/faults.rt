// Faults of an input.
ghost use Rattle.std.specs.Prelude.{◌≡◌};
ghost use Rattle.net_types.specs.Faults.{kind_of, number_of, words_of};

use crate::text::Text;

/// A fault of a line: the line's number from 1, the fault's number, and the token at fault.
#[derive(Debug, Drop)]
pub struct LineFault {
    pub line: u32,
    pub number: u32,
    pub token: Text,
}

/// A fault of a whole project: its number, and the name of the object at fault, which is empty where there is none.
#[derive(Debug, Drop)]
pub struct ProjectFault {
    pub number: u32,
    pub name: Text,
}

/// What can be wrong with a line or with a whole project, in the order of the numbers of faults.
///
/// Source: User's Manual, appendix E, error messages; the kinds from `NotInProfile` on are this project's profile.
#[derive(Clone, Copy, Debug, PartialEq, Eq)]
pub enum FaultKind {
    InitialDepth,
    OutfallLinks,
    NoOutfall,
    CurveOrder,
    SeriesOrder,
    EndBeforeStart,
    TooFewItems,
    InvalidKeyword,
    DuplicateName,
    UndefinedName,
    InvalidNumber,
    InvalidTime,
    RuleSequence,
    NotInProfile,
    OverLimit,
    BadObject,
}

impl FaultKind {
    /// The number of the kind, as a report prints it.
    pub fn number(self) -> u32
        ensures { result ≡ number_of self }
    {
        match self {
            FaultKind::InitialDepth => 138,
            FaultKind::OutfallLinks => 141,
            FaultKind::NoOutfall => 145,
            FaultKind::CurveOrder => 171,
            FaultKind::SeriesOrder => 173,
            FaultKind::EndBeforeStart => 191,
            FaultKind::TooFewItems => 203,
            FaultKind::InvalidKeyword => 205,
            FaultKind::DuplicateName => 207,
            FaultKind::UndefinedName => 209,
            FaultKind::InvalidNumber => 211,
            FaultKind::InvalidTime => 213,
            FaultKind::RuleSequence => 217,
            FaultKind::NotInProfile => 401,
            FaultKind::OverLimit => 402,
            FaultKind::BadObject => 403,
        }
    }

    /// What a report says of the kind.
    pub fn words(self) -> &'static [u8]
        ensures { result.now ≡ words_of self }
    {
        match self {
            FaultKind::InitialDepth => b"initial depth above full depth",
            FaultKind::OutfallLinks => b"outfall has more than one link or an outlet link",
            FaultKind::NoOutfall => b"no outfall",
            FaultKind::CurveOrder => b"curve out of order",
            FaultKind::SeriesOrder => b"series out of order",
            FaultKind::EndBeforeStart => b"end before start",
            FaultKind::TooFewItems => b"too few items",
            FaultKind::InvalidKeyword => b"invalid keyword",
            FaultKind::DuplicateName => b"duplicate name",
            FaultKind::UndefinedName => b"undefined name",
            FaultKind::InvalidNumber => b"invalid number",
            FaultKind::InvalidTime => b"invalid date or time",
            FaultKind::RuleSequence => b"rule clause out of sequence",
            FaultKind::NotInProfile => b"not in this profile",
            FaultKind::OverLimit => b"over a limit",
            FaultKind::BadObject => b"bad object",
        }
    }

    /// The kind that has a number; `BadObject` where none has it.
    pub fn of_number(number: u32) -> FaultKind
        ensures { result ≡ kind_of number }
    {
        match number {
            138 => FaultKind::InitialDepth,
            141 => FaultKind::OutfallLinks,
            145 => FaultKind::NoOutfall,
            171 => FaultKind::CurveOrder,
            173 => FaultKind::SeriesOrder,
            191 => FaultKind::EndBeforeStart,
            203 => FaultKind::TooFewItems,
            205 => FaultKind::InvalidKeyword,
            207 => FaultKind::DuplicateName,
            209 => FaultKind::UndefinedName,
            211 => FaultKind::InvalidNumber,
            213 => FaultKind::InvalidTime,
            217 => FaultKind::RuleSequence,
            401 => FaultKind::NotInProfile,
            402 => FaultKind::OverLimit,
            _ => FaultKind::BadObject,
        }
    }
}

/// Each kind has a number of its own: the kind of its number is the kind itself.
pub fn numbers_have_one_kind()
    ensures { (kind : FaultKind) → kind_of (number_of kind) ≡ kind }
{}
