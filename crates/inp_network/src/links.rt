// Links: conduits, pumps, orifices and weirs share one numbering.
ghost use Rattle.std.specs.Prelude.{◌≡◌, ◌++◌, [], option_map, IfOk, OnOk};
ghost use Rattle.inp_lines.specs.Faults.{cut};
ghost use Rattle.inp_lines.specs.Gather.{gather};
ghost use Rattle.inp_lines.specs.Names.{number_in};
ghost use Rattle.inp_lines.specs.Numbers.{numbers_of};
ghost use Rattle.inp_forms.specs.Context.{context_of};
ghost use Rattle.inp_forms.specs.Forms.{form_reading};
ghost use Rattle.inp_network.specs.Links.{link_fault, link_forms, link_name, link_names, links_of};

use crate::conduits::Conduits;
use crate::orifices::Orifices;
use crate::pumps::Pumps;
use crate::weirs::Weirs;
use inp_forms::{Known, name_row, read_row};
use inp_lines::{
    Kind, Line, Names, Naming, Reading, RecordKind, SectionName, number_names, read_kind,
};
use net_types::{LineFault, Link, List, OutOfMemory};
use std::alloc::Global;

/// The names of links.
#[derive(Clone, Copy, Debug)]
struct LinkNames;

impl<'a> Kind<'a> for LinkNames {
    ghost name_of = { λ _. link_name };

    fn name(&self, line: &'a Line) -> Option<&'a [u8]> {
        name_of_link(line)
    }
}

/// Links, read by what is known of the whole input.
#[derive(Clone, Copy)]
struct Links<'a, 'n> {
    known: &'n Known<'a>,
}

impl<'a, 'n> Kind<'a> for Links<'a, 'n> {
    ghost name_of = { λ _. link_name };

    fn name(&self, line: &'a Line) -> Option<&'a [u8]> {
        name_of_link(line)
    }
}

impl<'a, 'n> RecordKind<'a> for Links<'a, 'n> {
    type Record = Link;

    ghost reading_of = { λ links. form_reading (context_of links.known.now) link_forms };

    fn read(
        &self,
        alloc: Global,
        line: &'a Line,
        naming: Naming,
    ) -> Result<Reading<Link>, OutOfMemory> {
        match line.section {
            SectionName::Conduits => read_row::<9, Conduits>(alloc, self.known, naming, line),
            SectionName::Pumps => read_row::<7, Pumps>(alloc, self.known, naming, line),
            SectionName::Orifices => read_row::<8, Orifices>(alloc, self.known, naming, line),
            SectionName::Weirs => read_row::<8, Weirs>(alloc, self.known, naming, line),
            _ => Ok(Reading::Other),
        }
    }
}

/// Numbers the links that lines define by their names, from 0 in the order of their lines.
pub fn number_links<'a>(alloc: Global, lines: &'a List<Line>) -> Result<Names<'a>, OutOfMemory>
    ensures { IfOk result (λ names. numbers_of names ≡ number_in (link_names lines.now)) }
{
    number_names(alloc, &LinkNames, lines)
}

/// Reads the links that lines give, appends them without their cross-sections, and gives the first hundred faults of
/// their lines (User's Manual, sections [CONDUITS], [PUMPS], [ORIFICES] and [WEIRS]). Where none of them is at fault,
/// these are the links that the lines mean.
#[tactic(auto, unfolding(crate::specs::Links::links_of))]
pub fn read_links<'a>(
    alloc: Global,
    known: &Known<'a>,
    lines: &'a List<Line>,
    links: &mut List<Link>,
) -> Result<List<LineFault>, OutOfMemory>
    ensures links { OnOk result (links.new ≡ links.old ++ links_of (context_of known.now) lines.now) }
    ensures faults { IfOk result (λ faults. faults ≡ cut (gather (link_fault (context_of known.now)) [] lines.now)) }
{
    read_kind(alloc, &Links { known }, lines, links)
}

/// The name that a line defines for a link.
pub(crate) fn name_of_link(line: &Line) -> Option<&[u8]>
    ensures { option_map (λ name. name.now) result ≡ link_name line.now }
{
    match line.section {
        SectionName::Conduits => name_row::<9, Conduits>(line),
        SectionName::Pumps => name_row::<7, Pumps>(line),
        SectionName::Orifices => name_row::<8, Orifices>(line),
        SectionName::Weirs => name_row::<8, Weirs>(line),
        _ => None,
    }
}
