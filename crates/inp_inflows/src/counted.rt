// Lines that define no name, each of which gives one record.
ghost use Rattle.std.specs.Prelude.{◌≡◌, ◌≤◌, ◌++◌, Bool, [], length, IfOk, OnOk};
ghost use Rattle.inp_lines.specs.declared.line.SectionName.{SectionName as DataSection};
ghost use Rattle.inp_lines.specs.Faults.{cut};
ghost use Rattle.inp_lines.specs.Gather.{faults_in, gather, records_in};
ghost use Rattle.inp_forms.specs.Context.{context_of};
ghost use Rattle.inp_inflows.specs.Counted.{CountedForm, count_after, counted_fault, counted_of, is_counted};
ghost use Rattle.inp_inflows.specs.Counted.{is_line_of};
ghost use Rattle.inp_inflows.specs.Counted.{is_short, reading_with};

use fixed_num::RECORD_LIMIT;
use inp_forms::{Form, Known, least_of, read_row};
use inp_lines::{
    Line, Naming, Reading, SectionName, add_fault, fault_of_kind, is_too_long, too_few,
};
use net_types::{FaultKind, LineFault, List, OutOfMemory};
use std::alloc::Global;

/// A kind of record whose lines define no name.
pub trait Counted<const N: usize>: Form<N> {
    ghost is_of: { DataSection → Bool };

    /// Whether lines of a section are of the kind.
    fn is_of(section: SectionName) -> bool
        ensures { result ≡ is_of section };
}

/// Reads the records of a kind, appends them, and gives the first hundred faults of their lines.
#[tactic(auto, unfolding(crate::specs::Counted::counted_of))]
pub fn read_counted<'a, const N: usize, F: Counted<N>>(
    alloc: Global,
    known: &Known<'a>,
    lines: &'a List<Line>,
    records: &mut List<F::Record>,
) -> Result<List<LineFault>, OutOfMemory>
    requires { N ≤ 64 }
    ensures records { OnOk result (records.new ≡ records.old
        ++ counted_of (context_of known.now) (record { is_of = F.is_of; row = F.form }) lines.now) }
    ensures faults { IfOk result (λ faults. faults ≡ cut (gather
        (counted_fault (context_of known.now) (record { is_of = F.is_of; row = F.form })) [] lines.now)) }
{
    let mut found = List::new(alloc);
    let mut count = 0u32;
    for line in lines.as_slice() {
        let reading = read_line::<N, F>(alloc, known, count >= RECORD_LIMIT, line)?;
        keep(alloc, line, reading, records, &mut found)?;
        count = count_line::<N, F>(line, count);
    }
    Ok(found)
}

/// What a line is read as.
fn read_line<'a, const N: usize, F: Counted<N>>(
    alloc: Global,
    known: &Known<'a>,
    full: bool,
    line: &'a Line,
) -> Result<Reading<F::Record>, OutOfMemory>
    requires { N ≤ 64 }
    ensures { IfOk result (λ reading. reading
        ≡ reading_with (context_of known.now) (record { is_of = F.is_of; row = F.form }) full line.now) }
{
    if !is_line_of::<N, F>(line) {
        return Ok(Reading::Other);
    }
    if is_short::<N, F>(line) {
        return Ok(Reading::Faulty(too_few(line.tokens.as_slice())));
    }
    if full {
        return Ok(Reading::Faulty(fault_of_kind(FaultKind::OverLimit, 0)));
    }
    read_row::<N, F>(alloc, known, Naming::First, line)
}

/// Whether a line is of the kind.
fn is_line_of<const N: usize, F: Counted<N>>(line: &Line) -> bool
    ensures { result ≡ is_line_of (record { is_of = F.is_of; row = F.form }) line.now }
{
    F::is_of(line.section) && !is_too_long(line)
}

/// Whether a line has too few items.
fn is_short<const N: usize, F: Counted<N>>(line: &Line) -> bool
    requires { N ≤ 64 }
    ensures { result ≡ is_short (record { is_of = F.is_of; row = F.form }) line.now }
{
    line.tokens.as_slice().len() < least_of(&F::items())
}

/// Whether a line counts as a record of the kind.
fn is_counted<const N: usize, F: Counted<N>>(line: &Line) -> bool
    requires { N ≤ 64 }
    ensures { result ≡ is_counted (record { is_of = F.is_of; row = F.form }) line.now }
{
    is_line_of::<N, F>(line) && !is_short::<N, F>(line)
}

/// The count of records after a line, which ends at the greatest count.
fn count_line<const N: usize, F: Counted<N>>(line: &Line, count: u32) -> u32
    requires small { N ≤ 64 }
    requires within { count ≤ RECORD_LIMIT }
    ensures { result ≡ count_after (record { is_of = F.is_of; row = F.form }) line.now count }
{
    if is_counted::<N, F>(line) {
        (count + 1).min(RECORD_LIMIT)
    } else {
        count
    }
}

/// Keeps the record or the fault of a line.
fn keep<R: Drop>(
    alloc: Global,
    line: &Line,
    reading: Reading<R>,
    records: &mut List<R>,
    faults: &mut List<LineFault>,
) -> Result<(), OutOfMemory>
    requires short { length faults.old ≤ 100 }
    ensures records { OnOk result (records.new ≡ records.old ++ records_in reading) }
    ensures faults { OnOk result (faults.new ≡ cut (faults.old ++ faults_in line.now reading)) }
    ensures short { OnOk result (length faults.new ≤ 100) }
{
    match reading {
        Reading::Other => Ok(()),
        Reading::Record(made) => {
            records.push(made)?;
            Ok(())
        }
        Reading::Faulty(fault) => add_fault(alloc, faults, line, fault),
    }
}
