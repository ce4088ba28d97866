// The lines of a reach in each section.
ghost use Rattle.std.specs.Prelude.{◌≡◌, ◌++◌, OnOk, Some, string_bytes};
ghost use Rattle.sample_maker.specs.SampleText.{conduit_line, inflow_line, junction_line, metres, name_below};
ghost use Rattle.sample_maker.specs.SampleText.{xsection_line};

use crate::reaches::Reach;
use std::alloc::AllocError;
use std::fmt;

/// Centimetres that are written as metres with two places.
#[derive(Drop)]
struct Metres {
    cm: u32,
}

impl fmt::Display for Metres {
    ghost output = { λ m. Some (metres m.cm) };

    fn fmt<W: fmt::Write>(&self, f: &mut fmt::Formatter<W>) -> fmt::Result {
        let whole = self.cm / 100;
        let tenths = self.cm / 10 % 10;
        let hundredths = self.cm % 10;
        write!(f, "{whole}.{tenths}{hundredths}")
    }
}

/// The junction below, or the outfall.
#[derive(Drop)]
struct Below {
    number: Option<u32>,
}

impl fmt::Display for Below {
    ghost output = { λ b. Some (name_below b.number) };

    fn fmt<W: fmt::Write>(&self, f: &mut fmt::Formatter<W>) -> fmt::Result {
        match self.number {
            Some(number) => write!(f, "J{number}"),
            None => write!(f, "O"),
        }
    }
}

/// Adds the line of a reach's junction.
#[tactic(auto, unfolding(crate::specs::SampleText::junction_line))]
pub(crate) fn put_junction(text: &mut String, reach: &Reach) -> Result<(), AllocError>
    ensures { OnOk result (string_bytes text.new ≡ string_bytes text.old ++ junction_line reach.now) }
{
    let number = reach.number;
    let elevation = Metres {
        cm: reach.elevation,
    };
    write!(text, "J{number} {elevation} 0 0 0 0\n")
}

/// Adds the line of a reach's conduit.
#[tactic(auto, unfolding(crate::specs::SampleText::conduit_line))]
pub(crate) fn put_conduit(text: &mut String, reach: &Reach) -> Result<(), AllocError>
    ensures { OnOk result (string_bytes text.new ≡ string_bytes text.old ++ conduit_line reach.now) }
{
    let number = reach.number;
    let below = Below {
        number: reach.below,
    };
    let length = reach.length;
    write!(text, "C{number} J{number} {below} {length} 0.013 0 0 0 0\n")
}

/// Adds the line of a reach's cross-section.
#[tactic(auto, unfolding(crate::specs::SampleText::xsection_line))]
pub(crate) fn put_xsection(text: &mut String, reach: &Reach) -> Result<(), AllocError>
    ensures { OnOk result (string_bytes text.new ≡ string_bytes text.old ++ xsection_line reach.now) }
{
    let number = reach.number;
    let diameter = Metres { cm: reach.diameter };
    write!(text, "C{number} CIRCULAR {diameter} 0 0 0 1\n")
}

/// Adds the line of a reach's inflow.
#[tactic(auto, unfolding(crate::specs::SampleText::inflow_line))]
pub(crate) fn put_inflow(text: &mut String, reach: &Reach) -> Result<(), AllocError>
    ensures { OnOk result (string_bytes text.new ≡ string_bytes text.old ++ inflow_line reach.now) }
{
    let number = reach.number;
    let inflow = reach.inflow;
    write!(text, "J{number} FLOW \"\" FLOW 1.0 1.0 0.00{inflow}\n")
}
