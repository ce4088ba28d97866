// Kinds of records: which name a line defines, and what a line is read as.
ghost use Rattle.std.specs.Prelude.{◌≡◌, ◌≤◌, ◌++◌, ℕ, List as Sequence, Option as Maybe};
ghost use Rattle.std.specs.Prelude.{length, IfOk, OnOk, option_map, [], true};
ghost use Rattle.inp_lines.specs.declared.line.Line.{Line as DataLine};
ghost use Rattle.inp_lines.specs.declared.names.Naming.{Naming as NameStanding};
ghost use Rattle.inp_lines.specs.declared.reading.Reading.{Reading as ReadingOf};
ghost use Rattle.inp_lines.specs.Faults.{cut};
ghost use Rattle.inp_lines.specs.Gather.{gather, record_at, fault_at, records_in, faults_in};
ghost use Rattle.inp_lines.specs.Names.{Defines, StandsTo, number_in, defined, with_name, naming_of};
ghost use Rattle.inp_lines.specs.Names.{count_with, count_after};
ghost use Rattle.inp_lines.specs.Numbers.{numbers_of};

use crate::fault::{Fault, add_fault};
use crate::line::Line;
use crate::names::{Names, Naming, add_first, naming_at, no_names};
use crate::reading::Reading;
use fixed_num::RECORD_LIMIT;
use net_types::{LineFault, List, OutOfMemory};
use std::alloc::Global;

/// A kind of record, by the names that lines define.
pub trait Kind<'a> {
    ghost name_of: { Self → DataLine → Maybe (Sequence ℕ) };

    /// The name that a line defines; `None` for a line of another kind, and for one that defines no name.
    fn name(&self, line: &'a Line) -> Option<&'a [u8]>
        ensures { option_map (λ name. name.now) result ≡ name_of self.now line.now };
}

/// A kind of record where each line of the kind gives one record.
pub trait RecordKind<'a>: Kind<'a> {
    type Record: Drop;

    ghost reading_of: { Self → NameStanding → DataLine → ReadingOf Self.Record };

    /// Reads a line, by how its name stands to the names that the lines before it define.
    fn read(
        &self,
        alloc: Global,
        line: &'a Line,
        naming: Naming,
    ) -> Result<Reading<Self::Record>, OutOfMemory>
        ensures { IfOk result (λ reading. reading ≡ reading_of self.now naming line.now) };
}

/// Numbers the names that lines define, from 0 in the order of their first lines.
pub fn number_names<'a, K: Kind<'a>>(
    alloc: Global,
    kind: &K,
    lines: &'a List<Line>,
) -> Result<Names<'a>, OutOfMemory>
    ensures { IfOk result (λ names. numbers_of names ≡ number_in (defined (K.name_of kind.now) lines.now)) }
{
    let mut names = no_names(alloc);
    let mut count = 0u32;
    for line in lines.as_slice() {
        count = add_name_of(kind, line, &mut names, count)?;
    }
    Ok(names)
}

/// Defines the name of a line, if it has one.
fn add_name_of<'a, K: Kind<'a>>(
    kind: &K,
    line: &'a Line,
    names: &mut Names<'a>,
    count: u32,
) -> Result<u32, OutOfMemory>
    ensures { IfOk result (λ more. Defines (numbers_of names.old) (numbers_of names.new) count more
        (λ held. with_name held (K.name_of kind.now line.now))) }
{
    match kind.name(line) {
        Some(name) => add_first(names, name, count),
        None => Ok(count),
    }
}

/// Reads the lines of a kind: each gives a record or a fault, or is passed over.
pub fn read_records<'a, K: RecordKind<'a>>(
    alloc: Global,
    kind: &K,
    names: &Names<'a>,
    lines: &'a List<Line>,
    records: &mut List<K::Record>,
    faults: &mut List<LineFault>,
) -> Result<(), OutOfMemory>
    requires names { numbers_of names.now ≡ number_in (defined (K.name_of kind.now) lines.now) }
    requires short { length faults.old ≤ 100 }
    ensures records { OnOk result (records.new
        ≡ records.old ++ gather (record_at (K.name_of kind.now) (K.reading_of kind.now)) [] lines.now) }
    ensures faults { OnOk result (faults.new
        ≡ cut (faults.old ++ gather (fault_at (K.name_of kind.now) (K.reading_of kind.now)) [] lines.now)) }
    ensures short { OnOk result (length faults.new ≤ 100) }
{
    let mut count = 0u32;
    for line in lines.as_slice() {
        let naming = naming_of_line(kind, names, line, count);
        read_line(alloc, kind, line, naming, records, faults)?;
        count = count_line(kind, line, naming, count);
    }
    Ok(())
}

/// Reads a kind from all lines: appends its records, and gives its faults.
pub fn read_kind<'a, K: RecordKind<'a>>(
    alloc: Global,
    kind: &K,
    lines: &'a List<Line>,
    records: &mut List<K::Record>,
) -> Result<List<LineFault>, OutOfMemory>
    ensures records { OnOk result (records.new
        ≡ records.old ++ gather (record_at (K.name_of kind.now) (K.reading_of kind.now)) [] lines.now) }
    ensures faults { IfOk result (λ faults.
        faults ≡ cut (gather (fault_at (K.name_of kind.now) (K.reading_of kind.now)) [] lines.now)) }
{
    let names = number_names(alloc, kind, lines)?;
    let mut found = List::new(alloc);
    read_records(alloc, kind, &names, lines, records, &mut found)?;
    Ok(found)
}

/// How the name of a line stands to the first `count` names.
pub fn naming_of_line<'a, K: Kind<'a>>(
    kind: &K,
    names: &Names<'a>,
    line: &'a Line,
    count: u32,
) -> Naming
    ensures { StandsTo (numbers_of names.now) count result (λ held. naming_of held (K.name_of kind.now line.now)) }
{
    match kind.name(line) {
        Some(name) => naming_at(names, name, count),
        None => Naming::First,
    }
}

/// The count of names after a name that stands so.
fn count_one(naming: Naming, count: u32) -> u32
    ensures { result ≡ count_with naming count }
{
    match naming {
        Naming::First if count < RECORD_LIMIT => count + 1,
        _ => count,
    }
}

/// The count of names after a line.
pub fn count_line<'a, K: Kind<'a>>(kind: &K, line: &'a Line, naming: Naming, count: u32) -> u32
    ensures { result ≡ count_after (K.name_of kind.now line.now) naming count }
{
    match kind.name(line) {
        Some(_) => count_one(naming, count),
        None => count,
    }
}

/// Reads one line of a kind.
fn read_line<'a, K: RecordKind<'a>>(
    alloc: Global,
    kind: &K,
    line: &'a Line,
    naming: Naming,
    records: &mut List<K::Record>,
    faults: &mut List<LineFault>,
) -> Result<(), OutOfMemory>
    requires short { length faults.old ≤ 100 }
    ensures records { OnOk result (records.new ≡ records.old ++ records_in (K.reading_of kind.now naming line.now)) }
    ensures faults { OnOk result (faults.new
        ≡ cut (faults.old ++ faults_in line.now (K.reading_of kind.now naming line.now))) }
    ensures short { OnOk result (length faults.new ≤ 100) }
{
    match kind.read(alloc, line, naming)? {
        Reading::Other => Ok(()),
        Reading::Record(record) => {
            records.push(record)?;
            Ok(())
        }
        Reading::Faulty(fault) => add_fault(alloc, faults, line, fault),
    }
}
