// Cross-sections: the section XSECTIONS.
ghost use Rattle.std.specs.Prelude.{◌≡◌, ◌++◌, [], option_map, IfOk, OnOk};
ghost use Rattle.inp_lines.specs.Faults.{cut};
ghost use Rattle.inp_lines.specs.Gather.{gather};
ghost use Rattle.inp_forms.specs.Context.{context_of};
ghost use Rattle.inp_forms.specs.Forms.{form_name, form_reading, row_name, row_reading};
ghost use Rattle.inp_sections.specs.CrossSections.{circular_form, is_shape, own_section, plain_form, plain_shape};
ghost use Rattle.inp_sections.specs.CrossSections.{section_fault, section_form, section_forms, section_name};
ghost use Rattle.inp_sections.specs.CrossSections.{link_of_section, sections_of, trapezoidal_form};
ghost use Rattle.inp_sections.specs.CrossSections.{with_section, with_sections};

use inp_forms::{
    Form, Item, Keyword, Known, Objects, Value, What, Words, amount, choice, index, name_row,
    read_row,
};
use inp_lines::{Kind, Line, Naming, Reading, RecordKind, SectionName, read_kind};
use inp_owners::{Owned, owner_name, place_owned};
use inp_values::{Quantity, is_word};
use net_types::{LineFault, Link, List, OutOfMemory, Section, Shape, Text};
use std::alloc::Global;

/// The items of a rectangular or triangular cross-section: link, shape, full height, width, two numbers that aren't
/// used, barrels.
pub(crate) const PLAIN_SECTION: [Item; 7] = [
    Item::Needed(What::Own(Objects::Links)),
    Item::Needed(What::Word(Words::Shape)),
    Item::Needed(What::AtLeast(1_000, Quantity::Depth)),
    Item::Needed(What::Number(Quantity::Width)),
    Item::Or(Value::Amount(0), What::Number(Quantity::Raw)),
    Item::Or(Value::Amount(0), What::Number(Quantity::Raw)),
    Item::Or(Value::Amount(1), What::Whole(1, 100)),
];

/// The items of a trapezoidal cross-section: link, shape, full height, bottom width, side slopes, barrels.
pub(crate) const TRAPEZOIDAL_SECTION: [Item; 7] = [
    Item::Needed(What::Own(Objects::Links)),
    Item::Needed(What::Word(Words::Shape)),
    Item::Needed(What::AtLeast(1_000, Quantity::Depth)),
    Item::Needed(What::Number(Quantity::Width)),
    Item::Or(Value::Amount(0), What::Number(Quantity::Coefficient)),
    Item::Or(Value::Amount(0), What::Number(Quantity::Coefficient)),
    Item::Or(Value::Amount(1), What::Whole(1, 100)),
];

/// The items of a circular cross-section: link, shape, diameter, three numbers that aren't used, barrels.
pub(crate) const CIRCULAR_SECTION: [Item; 7] = [
    Item::Needed(What::Own(Objects::Links)),
    Item::Needed(What::Word(Words::Shape)),
    Item::Needed(What::AtLeast(1_000, Quantity::Depth)),
    Item::Needed(What::Number(Quantity::Raw)),
    Item::Or(Value::Amount(0), What::Number(Quantity::Raw)),
    Item::Or(Value::Amount(0), What::Number(Quantity::Raw)),
    Item::Or(Value::Amount(1), What::Whole(1, 100)),
];

/// A cross-section, with the number of the link that has it.
#[derive(Clone, Copy, Debug, PartialEq, Eq)]
pub struct OwnSection {
    pub link: u32,
    pub section: Section,
}

/// The lines of XSECTIONS of a rectangle or a triangle.
struct PlainRows;

impl Form<7> for PlainRows {
    type Record = OwnSection;

    ghost form = { plain_form };

    fn items() -> [Item; 7] {
        PLAIN_SECTION
    }

    fn make(_alloc: Global, _line: &Line, values: &[Value]) -> Result<OwnSection, OutOfMemory> {
        Ok(own_section(values, plain_shape(choice(values, 1), amount(values, 3))))
    }
}

/// The lines of XSECTIONS of a trapezoid.
struct TrapezoidalRows;

impl Form<7> for TrapezoidalRows {
    type Record = OwnSection;

    ghost form = { trapezoidal_form };

    fn items() -> [Item; 7] {
        TRAPEZOIDAL_SECTION
    }

    fn make(_alloc: Global, _line: &Line, values: &[Value]) -> Result<OwnSection, OutOfMemory> {
        let shape = Shape::Trapezoidal {
            bottom: amount(values, 3),
            left6: amount(values, 4),
            right6: amount(values, 5),
        };
        Ok(own_section(values, shape))
    }
}

/// The lines of XSECTIONS of a circle.
struct CircularRows;

impl Form<7> for CircularRows {
    type Record = OwnSection;

    ghost form = { circular_form };

    fn items() -> [Item; 7] {
        CIRCULAR_SECTION
    }

    fn make(_alloc: Global, _line: &Line, values: &[Value]) -> Result<OwnSection, OutOfMemory> {
        Ok(own_section(values, Shape::Circular))
    }
}

/// A cross-section of a shape.
fn own_section(values: &[Value], shape: Shape) -> OwnSection
    ensures { result ≡ own_section values.now shape }
{
    OwnSection {
        link: index(values, 0),
        section: Section {
            shape,
            full: amount(values, 2),
            barrels: amount(values, 6),
        },
    }
}

/// The shape of a keyword with one width.
fn plain_shape(keyword: Option<Keyword>, width: i64) -> Shape
    ensures { result ≡ plain_shape keyword width }
{
    match keyword {
        Some(Keyword::RectClosed) => Shape::RectClosed { width },
        Some(Keyword::Triangular) => Shape::Triangular { top: width },
        _ => Shape::RectOpen { width },
    }
}

/// Reads a line of XSECTIONS by the form of its shape.
#[tactic(auto, unfolding(crate::specs::CrossSections::section_form))]
fn read_section<'a>(
    alloc: Global,
    known: &Known<'a>,
    naming: Naming,
    line: &'a Line,
) -> Result<Reading<OwnSection>, OutOfMemory>
    ensures { IfOk result (λ reading.
        reading ≡ row_reading (context_of known.now) naming (section_form line.now.tokens) line.now) }
{
    if is_shape(line.tokens.as_slice(), b"TRAPEZOIDAL") {
        return read_row::<7, TrapezoidalRows>(alloc, known, naming, line);
    }
    if is_shape(line.tokens.as_slice(), b"CIRCULAR") {
        return read_row::<7, CircularRows>(alloc, known, naming, line);
    }
    read_row::<7, PlainRows>(alloc, known, naming, line)
}

/// The name that a line of XSECTIONS begins with.
#[tactic(auto, unfolding(crate::specs::CrossSections::section_form))]
fn name_section(line: &Line) -> Option<&[u8]>
    ensures { option_map (λ name. name.now) result ≡ row_name (section_form line.now.tokens) line.now }
{
    if is_shape(line.tokens.as_slice(), b"TRAPEZOIDAL") {
        return name_row::<7, TrapezoidalRows>(line);
    }
    if is_shape(line.tokens.as_slice(), b"CIRCULAR") {
        return name_row::<7, CircularRows>(line);
    }
    name_row::<7, PlainRows>(line)
}

/// Whether the second item of a line is this shape.
fn is_shape(tokens: &[Text], shape: &[u8]) -> bool
    ensures { result ≡ is_shape tokens.now shape.now }
{
    match tokens.get(1) {
        Some(token) => is_word(token.as_slice(), shape),
        None => is_word(&[], shape),
    }
}

/// Cross-sections, read by what is known of the whole input.
#[derive(Clone, Copy)]
struct Sections<'a, 'n> {
    known: &'n Known<'a>,
}

impl<'a, 'n> Kind<'a> for Sections<'a, 'n> {
    ghost name_of = { λ sections. section_name (context_of sections.known.now) };

    fn name(&self, line: &'a Line) -> Option<&'a [u8]> {
        owner_name(self.known, Objects::Links, name_of_section(line))
    }
}

impl<'a, 'n> RecordKind<'a> for Sections<'a, 'n> {
    type Record = OwnSection;

    ghost reading_of = { λ sections. form_reading (context_of sections.known.now) section_forms };

    fn read(
        &self,
        alloc: Global,
        line: &'a Line,
        naming: Naming,
    ) -> Result<Reading<OwnSection>, OutOfMemory> {
        match line.section {
            SectionName::XSections => read_section(alloc, self.known, naming, line),
            _ => Ok(Reading::Other),
        }
    }
}

/// The name that a line of cross-sections begins with.
fn name_of_section(line: &Line) -> Option<&[u8]>
    ensures { option_map (λ name. name.now) result ≡ form_name section_forms line.now }
{
    match line.section {
        SectionName::XSections => name_section(line),
        _ => None,
    }
}

/// Reads the cross-sections that lines give, appends them, and gives the first hundred faults of their lines (User's
/// Manual, section [XSECTIONS]).
#[tactic(auto, unfolding(inp_owners::specs::Owners::owned_of))]
pub fn read_cross_sections<'a>(
    alloc: Global,
    known: &Known<'a>,
    lines: &'a List<Line>,
    sections: &mut List<OwnSection>,
) -> Result<List<LineFault>, OutOfMemory>
    ensures sections { OnOk result (sections.new ≡ sections.old ++ sections_of (context_of known.now) lines.now) }
    ensures faults { IfOk result (λ faults. faults ≡ cut (gather (section_fault (context_of known.now)) [] lines.now)) }
{
    read_kind(alloc, &Sections { known }, lines, sections)
}

impl Owned for OwnSection {
    type Object = Link;

    ghost number_of = { link_of_section };

    ghost changed = { with_section };

    fn number(&self) -> u32 {
        self.link
    }

    fn change(&self, link: &mut Link) {
        link.section = Some(self.section);
    }
}

/// Gives links their cross-sections.
#[tactic(auto, unfolding(crate::specs::CrossSections::with_sections))]
pub fn place_sections(links: &mut List<Link>, sections: &List<OwnSection>)
    ensures { links.new ≡ with_sections sections.now links.old }
{
    place_owned(links, sections);
}
