// The form of a record's lines, and the reading of a line by its form.
ghost use Rattle.std.specs.Prelude.{◌≡◌, ◌≤◌, option_map, IfOk};
ghost use Rattle.inp_forms.specs.Context.{context_of};
ghost use Rattle.inp_forms.specs.Forms.{RowForm, row_name, row_reading};

use crate::item::{Item, Value};
use crate::items::{least_of, read_values};
use crate::known::Known;
use inp_lines::{Line, Naming, Reading, is_too_long, name_with};
use net_types::OutOfMemory;
use std::alloc::Global;

/// The form of the lines that give a record: its items, and how the record is made of their values.
pub trait Form<const N: usize> {
    type Record: Drop;

    ghost form: { RowForm Self.Record };

    /// The items of a line, in order.
    fn items() -> [Item; N]
        ensures { result ≡ form.items };

    /// The record by the values of the items.
    fn make(alloc: Global, line: &Line, values: &[Value]) -> Result<Self::Record, OutOfMemory>
        ensures { IfOk result (λ made. made ≡ form.make line.now.tokens values.now) };
}

/// Reads a line by its form. A line that is too long is passed over, since that is its fault.
#[tactic(auto, unfolding(crate::specs::Forms::row_reading))]
pub fn read_row<'a, const N: usize, F: Form<N>>(
    alloc: Global,
    known: &Known<'a>,
    naming: Naming,
    line: &'a Line,
) -> Result<Reading<F::Record>, OutOfMemory>
    requires { N ≤ 64 }
    ensures { IfOk result (λ reading. reading ≡ row_reading (context_of known.now) naming F.form line.now) }
{
    if is_too_long(line) {
        return Ok(Reading::Other);
    }
    match read_values::<N>(known, naming, &F::items(), line.tokens.as_slice()) {
        Err(fault) => Ok(Reading::Faulty(fault)),
        Ok(values) => Ok(Reading::Record(F::make(alloc, line, &values)?)),
    }
}

/// The name that a line defines by its form: its first item, unless the line is too long or has too few items.
pub fn name_row<const N: usize, F: Form<N>>(line: &Line) -> Option<&[u8]>
    requires { N ≤ 64 }
    ensures { option_map (λ name. name.now) result ≡ row_name F.form line.now }
{
    name_with(line, least_of(&F::items()))
}
