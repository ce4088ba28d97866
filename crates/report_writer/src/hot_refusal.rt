// The report of an input whose hotstart is refused.
ghost use Rattle.std.specs.Prelude.{◌≡◌};
ghost use Rattle.fault_ports.specs.Causes.{HasCause};
ghost use Rattle.fault_ports.specs.Output.{Puts};
ghost use Rattle.report_port.specs.Adding.{Adds};
ghost use Rattle.report_writer.specs.HotRefusal.{at_byte, count_words, hot_refusal_report, number_for};

use crate::numbers::add_number;
use fault_ports::{Failed, Sink};
use hotstart::HotRead;
use report_port::Report;

const HEADING: &[u8] = b"SWMM5-FX REPORT\n\nInput Faults\nERROR 404 hotstart: ";

/// Puts the report of an input whose hotstart is read so: it names the first place of the file that doesn't fit, or the
/// first number that isn't the project's. A good hotstart isn't refused, and nothing is put of it.
///
/// Source: this project's profile.
pub fn put_hot_refusal<W: Sink>(to: &mut W, read: &HotRead) -> Result<(), Failed>
    ensures bytes { Puts (W.held to.old) (W.held to.new) (hot_refusal_report read.now) result }
    ensures cause { HasCause (W.faults to.old) (W.faults to.new) result }
{
    let mut report = Report::new(to);
    add_hot_refusal(&mut report, read);
    report.end()
}

#[tactic(auto, unfolding(crate::specs::HotRefusal::hot_refusal_report))]
fn add_hot_refusal<W: Sink>(report: &mut Report<'_, W>, read: &HotRead)
    ensures { Adds report.old report.new (hot_refusal_report read.now) }
{
    match read {
        HotRead::Good(_) => {}
        HotRead::BadMagic { place } => add_place(report, b"not a hotstart", *place),
        HotRead::Ends { place } => add_place(report, b"ends", *place),
        HotRead::Count {
            what,
            file,
            project,
        } => add_numbers(report, words_of_count(*what), *file, *project),
        HotRead::Kind { file, project } => {
            add_numbers(report, b"kind of infiltration", *file, *project)
        }
        HotRead::BadValue { place } => add_place(report, b"value out of range", *place),
        HotRead::GoesOn { place } => add_place(report, b"goes on", *place),
    }
}

// What a count is of, by its number.
fn words_of_count(what: u32) -> &'static [u8]
    ensures { result.now ≡ count_words what }
{
    match what {
        0 => b"count of nodes",
        1 => b"count of links",
        _ => b"count of subcatchments",
    }
}

// Adds what is said of the byte of a place.
fn add_place<W: Sink>(report: &mut Report<'_, W>, words: &[u8], place: u64)
    ensures { Adds report.old report.new (at_byte words.now place) }
{
    report.add(HEADING);
    report.add(words);
    report.add(b" at byte ");
    add_number(report, &place);
    report.add(b"\n");
}

// Adds what is said of a number of the file that isn't that of the project.
fn add_numbers<W: Sink>(report: &mut Report<'_, W>, words: &[u8], file: u32, own: u32)
    ensures { Adds report.old report.new (number_for words.now file own) }
{
    report.add(HEADING);
    report.add(words);
    report.add(b" ");
    add_number(report, &file);
    report.add(b" for ");
    add_number(report, &own);
    report.add(b"\n");
}
