// Control rules.
use crate::list::List;
use crate::text::Text;

/// A control rule. Its groups all have to hold; a group holds where one of its tests does.
#[derive(Debug, Drop)]
pub struct Rule {
    pub name: Text,
    pub groups: List<List<Test>>,
    pub then_acts: List<Action>,
    pub else_acts: List<Action>,
    /// In millionths, within 10^15; none ranks below all.
    pub priority6: Option<i64>,
}

/// A test of a rule: the subject's stored value stands in this relation to the value.
#[derive(Clone, Copy, Debug, PartialEq, Eq)]
pub struct Test {
    pub subject: Subject,
    pub relation: Relation,
    pub value: i64,
}

/// What a test looks at: depths and heads in µm, flows in cm³/s, settings in millionths, times in ms, the month from 1
/// and the weekday from 1 for Sunday. Nodes and links go by their numbers.
#[derive(Clone, Copy, Debug, PartialEq, Eq)]
pub enum Subject {
    NodeDepth(u32),
    NodeHead(u32),
    NodeInflow(u32),
    LinkFlow(u32),
    LinkSetting(u32),
    Elapsed,
    ClockTime,
    Month,
    Weekday,
}

/// How a test compares.
#[derive(Clone, Copy, Debug, PartialEq, Eq)]
pub enum Relation {
    Eq,
    Ne,
    Lt,
    Le,
    Gt,
    Ge,
}

/// An action of a rule: the link, by its number, gets this setting, 0 to 10^6 millionths.
#[derive(Clone, Copy, Debug, PartialEq, Eq)]
pub struct Action {
    pub link: u32,
    pub setting6: i64,
}
