// The items of a form.
use crate::words::{Keyword, Words};
use inp_values::Quantity;

/// An item of a line. The items of a form that are needed stand before those that may be missing.
#[derive(Clone, Copy, Debug, PartialEq, Eq)]
pub enum Item {
    /// An item that has to be there.
    Needed(What),
    /// An item that has this value where it is missing.
    Or(Value, What),
}

/// What an item has to be. Another text is a fault, whose kind stands with each (this project's profile).
#[derive(Clone, Copy, Debug, PartialEq, Eq)]
pub enum What {
    /// The name that the line defines: a repeated name is 207, and one too many 402.
    Name,
    /// The name of the object that the line is about, which has one such line alone: 209, and 207 for a second line.
    Own(Objects),
    /// The name of an object: 209.
    Object(Objects),
    /// The same, or the empty text for none.
    Maybe(Objects),
    /// The name of the curve of a pump: 209. `*`, an ideal pump, isn't in this profile: 401.
    PumpCurve,
    /// The outlet of a subcatchment, which is a node: 209, and 401 for another subcatchment.
    Outlet,
    /// A number of a quantity: 211.
    Number(Quantity),
    /// A number of a quantity whose stored value is this one at least: 211.
    AtLeast(i64, Quantity),
    /// A number of a quantity with this stored value, as no other is in this profile: 401.
    Only(i64, Quantity),
    /// A whole number from the first of these to the second: 211.
    Whole(u32, u32),
    /// The discharge coefficient of a weir, which is stored as the metric one: 211.
    WeirCoefficient,
    /// A power of 0, 0.5, 1 and so on up to 3, whose value is the number of halves: 401.
    Halves,
    /// Hours, from the first of these to the second in ms: 213.
    Hours(i64, i64),
    /// A keyword: 205 or 401, by the table of words.
    Word(Words),
    /// YES or NO: 205.
    YesNo,
    /// Any text.
    Unused,
    /// No item may stand here, as it isn't in this profile: 401.
    End,
}

/// The kinds of objects that items name.
#[derive(Clone, Copy, Debug, PartialEq, Eq)]
pub enum Objects {
    Nodes,
    Links,
    Conduits,
    Pumps,
    Orifices,
    Weirs,
    Subcatchments,
    Gages,
    StorageCurves,
    PumpCurves,
    TidalCurves,
    Series,
    Patterns,
}

/// The value of an item.
#[derive(Clone, Copy, Debug, PartialEq, Eq)]
pub enum Value {
    /// Of a name that is defined, of an empty name, and of a text that isn't used.
    Nothing,
    /// A number as it is stored.
    Amount(i64),
    /// The number of an object, or of halves.
    Index(u32),
    /// A keyword.
    Choice(Keyword),
    /// YES or NO.
    Switch(bool),
}
