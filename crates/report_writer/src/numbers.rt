// Numbers in the text of a report.
ghost use Rattle.fixed_num.specs.Decimal.{decimal_text};
ghost use Rattle.fixed_num.specs.Units.{IsUnit};
ghost use Rattle.report_port.specs.Adding.{Adds};

use fault_ports::Sink;
use fixed_num::{Unit, put_decimal};
use itoa::{Buffer, Integer};
use report_port::Report;

// Adds a whole number.
pub(crate) fn add_number<W: Sink, I: Integer>(report: &mut Report<'_, W>, number: &I)
    ensures { Adds report.old report.new (I.text number.now) }
{
    let mut text = Buffer::new();
    report.add(text.format(*number).as_bytes());
}

// Adds a stored value in the unit, with six places.
pub(crate) fn add_value<W: Sink>(report: &mut Report<'_, W>, value: &i64, unit: &Unit)
    requires { IsUnit unit.now }
    ensures { Adds report.old report.new (decimal_text value.now unit.now 6) }
{
    let mut text = [0; 64];
    let end = put_decimal(i128::from(*value), unit, 6, &mut text);
    report.add(&text[..end]);
}
