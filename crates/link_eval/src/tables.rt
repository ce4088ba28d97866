// The tables of sections, one for all links of equal sections.
ghost use Rattle.std.specs.Prelude.{◌≡◌, IfOk, IsTrue};
ghost use Rattle.conduit_flow.specs.Conduits.{IsConduitTable};
ghost use Rattle.link_eval.specs.SharedTables.{Keeps, table_at};
ghost use Rattle.link_eval.specs.Stock.{IsStock, section_at};
ghost use Rattle.net_types.specs.Ranges.{SectionInRange};
ghost use Rattle.xsect_tables.specs.SectionTable.{table_of};

use net_types::{List, OutOfMemory, Section, Shape};
use std::alloc::Global;
use std::collections::BTreeMap;
use xsect_tables::Table;

// Sections that all differ and the table of each, with its number by what tells sections apart.
#[derive(Debug, Drop)]
pub(crate) struct TableStock {
    pub(crate) sections: List<Section>,
    pub(crate) tables: List<Table>,
    numbers: BTreeMap<SectionKey, usize>,
}

// What tells sections apart, in an order of its own: the name of the shape, its sizes, the full height and the
// number of barrels.
#[derive(Clone, Copy, Debug, PartialEq, Eq, PartialOrd, Ord)]
struct SectionKey {
    shape: ShapeName,
    sizes: (i64, i64, i64),
    full: i64,
    barrels: i64,
}

#[derive(Clone, Copy, Debug, PartialEq, Eq, PartialOrd, Ord)]
enum ShapeName {
    RectOpen,
    RectClosed,
    Trapezoidal,
    Triangular,
    Circular,
}

impl TableStock {
    // No tables.
    pub(crate) fn new(alloc: Global) -> TableStock
        ensures stock { IsStock result }
    {
        TableStock {
            sections: List::new(alloc),
            tables: List::new(alloc),
            numbers: BTreeMap::new(alloc),
        }
    }

    // The number of the table of a section, which is made unless there is one of an equal section. What is found by the
    // key is compared, so that the answer rests on no order of keys. The only error is want of memory.
    pub(crate) fn number_of(&mut self, section: &Section) -> Result<usize, OutOfMemory>
        requires section { SectionInRange section.now }
        requires stock { IsStock self.old }
        ensures value { IfOk result (λ number. table_at self.new.tables number ≡ table_of section.now) }
        ensures tables { IfOk result (λ number. Keeps self.old.tables self.new.tables) }
        ensures stock { IfOk result (λ number. IsStock self.new) }
    {
        let key = section_key(section);
        if let Some(number) = known_number(&self.numbers, &key) {
            if is_at(self.sections.as_slice(), number, section) {
                return Ok(number);
            }
        }
        self.add(section, key)
    }

    // Adds the table of a section, and gives its number.
    fn add(&mut self, section: &Section, key: SectionKey) -> Result<usize, OutOfMemory>
        requires section { SectionInRange section.now }
        requires stock { IsStock self.old }
        ensures value { IfOk result (λ number. table_at self.new.tables number ≡ table_of section.now) }
        ensures tables { IfOk result (λ number. Keeps self.old.tables self.new.tables) }
        ensures stock { IfOk result (λ number. IsStock self.new) }
    {
        let number = self.tables.as_slice().len();
        self.sections.push(*section)?;
        self.tables.push(Table::build(section))?;
        self.numbers.insert(key, number)?;
        Ok(number)
    }
}

// The number that a key has.
fn known_number(numbers: &BTreeMap<SectionKey, usize>, key: &SectionKey) -> Option<usize> {
    numbers.get(key).copied()
}

// What tells a section from others.
fn section_key(section: &Section) -> SectionKey {
    let (shape, sizes) = match section.shape {
        Shape::RectOpen { width } => (ShapeName::RectOpen, (width, 0, 0)),
        Shape::RectClosed { width } => (ShapeName::RectClosed, (width, 0, 0)),
        Shape::Trapezoidal {
            bottom,
            left6,
            right6,
        } => (ShapeName::Trapezoidal, (bottom, left6, right6)),
        Shape::Triangular { top } => (ShapeName::Triangular, (top, 0, 0)),
        Shape::Circular => (ShapeName::Circular, (0, 0, 0)),
    };
    SectionKey {
        shape,
        sizes,
        full: section.full,
        barrels: section.barrels,
    }
}

// Whether a section is the one of this number.
fn is_at(sections: &[Section], number: usize, section: &Section) -> bool
    ensures { IsTrue result → section_at sections.now number ≡ section.now }
{
    if number >= sections.len() {
        return false;
    }
    is_same(&sections[number], section)
}

// Whether two sections are the same.
fn is_same(one: &Section, other: &Section) -> bool
    ensures { IsTrue result → one.now ≡ other.now }
{
    is_same_shape(&one.shape, &other.shape)
        && one.full == other.full
        && one.barrels == other.barrels
}

// Whether two shapes are the same.
fn is_same_shape(one: &Shape, other: &Shape) -> bool
    ensures { IsTrue result → one.now ≡ other.now }
{
    *one == *other
}

// The table of a number.
pub(crate) fn shared_table(tables: &[Table], number: usize) -> &Table
    requires { IsConduitTable (table_at tables.now number) }
    ensures { result.now ≡ table_at tables.now number }
{
    &tables[number]
}
