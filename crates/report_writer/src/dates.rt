// Date and time of day as a report writes them.
ghost use Rattle.std.specs.Prelude.{◌≡◌, ℕ, ◌+◌, ◌/◌, ◌%◌, ◌<◌};
ghost use Rattle.calendar_steps.specs.Moment.{IsCalendarMoment};
ghost use Rattle.report_port.specs.Adding.{Adds};
ghost use Rattle.report_writer.specs.DateTexts.{civil_text, clock_text, date_text, time_text};

use calendar_steps::{Civil, civil_of};
use fault_ports::Sink;
use report_port::Report;

const DAY: i64 = 86_400_000;

// Adds the day of a moment, which is in ms from 1970-01-01 00:00:00.
pub(crate) fn add_date<W: Sink>(report: &mut Report<'_, W>, moment: &i64)
    requires { IsCalendarMoment moment.now }
    ensures { Adds report.old report.new (date_text moment.now) }
{
    report.add(&date_bytes(*moment));
}

// Adds the time of day of a moment.
pub(crate) fn add_time<W: Sink>(report: &mut Report<'_, W>, moment: &i64)
    ensures { Adds report.old report.new (time_text moment.now) }
{
    report.add(&time_bytes(*moment));
}

// The day of a moment, which is in ms from 1970-01-01 00:00:00, as `yyyy-mm-dd`.
#[tactic(auto, unfolding(crate::specs::DateTexts::date_text))]
fn date_bytes(moment: i64) -> [u8; 10]
    requires { IsCalendarMoment moment }
    ensures { result ≡ date_text moment }
{
    civil_bytes(&civil_of(moment.div_euclid(DAY)))
}

// The time of day of a moment as `hh:mm:ss`.
#[tactic(auto, unfolding(crate::specs::DateTexts::time_text))]
fn time_bytes(moment: i64) -> [u8; 8]
    ensures { result ≡ time_text moment }
{
    clock_bytes(moment.rem_euclid(DAY) as u32)
}

fn civil_bytes(civil: &Civil) -> [u8; 10]
    ensures { result ≡ civil_text civil.now }
{
    [
        digit(civil.year, 1000),
        digit(civil.year, 100),
        digit(civil.year, 10),
        digit(civil.year, 1),
        b'-',
        digit(civil.month, 10),
        digit(civil.month, 1),
        b'-',
        digit(civil.day, 10),
        digit(civil.day, 1),
    ]
}

fn clock_bytes(ms: u32) -> [u8; 8]
    ensures { result ≡ clock_text ms }
{
    let hours = ms / 3_600_000;
    let minutes = ms / 60_000 % 60;
    let seconds = ms / 1000 % 60;
    [
        digit(hours, 10),
        digit(hours, 1),
        b':',
        digit(minutes, 10),
        digit(minutes, 1),
        b':',
        digit(seconds, 10),
        digit(seconds, 1),
    ]
}

// The decimal digit of a number at a power of ten.
fn digit(number: u32, power: u32) -> u8
    requires { 0 < power }
    ensures { result ≡ 48 + number / power % 10 }
{
    b'0' + (number / power % 10) as u8
}
