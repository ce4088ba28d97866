// The faults of the links of a project.
ghost use Rattle.std.specs.Prelude.{◌≡◌, ◌++◌, ◌≤◌, length, take, flat_map, IfSome, OnOk};
ghost use Rattle.std.specs.List.{All};
ghost use Rattle.net_types.specs.Ranges.{LinkInRange, SectionInRange};
ghost use Rattle.project_check.specs.Objects.{fits_kind, has_good_area, has_good_section};
ghost use Rattle.project_check.specs.Objects.{is_good_link, is_orifice_shape, is_rect_open};
ghost use Rattle.project_check.specs.Objects.{is_triangular, needs_none, section_area as area_of_section};
ghost use Rattle.project_check.specs.ProjectFaults.{link_faults};

use crate::faults::add_fault;
use net_types::{FaultKind, Link, LinkKind, List, OutOfMemory, ProjectFault, Section, Shape};
use std::alloc::Global;
use xsect_tables::Table;

// In mm².
const MOST_AREA: i64 = 100_000_000_000;

// Adds the faults of all links.
pub(crate) fn check_links(
    alloc: Global,
    links: &[Link],
    faults: &mut List<ProjectFault>,
) -> Result<(), OutOfMemory>
    requires room { length faults.old ≤ 100 }
    requires ranges { All LinkInRange links.now }
    ensures { OnOk result (faults.new ≡ take 100 (faults.old ++ flat_map link_faults links.now)) }
{
    for link in links {
        check_link(alloc, link, faults)?;
    }
    Ok(())
}

// Adds the fault of a link, if it has one.
fn check_link(
    alloc: Global,
    link: &Link,
    faults: &mut List<ProjectFault>,
) -> Result<(), OutOfMemory>
    requires room { length faults.old ≤ 100 }
    requires range { LinkInRange link.now }
    ensures { OnOk result (faults.new ≡ take 100 (faults.old ++ link_faults link.now)) }
{
    if is_good_link(link) {
        return Ok(());
    }
    add_fault(alloc, faults, FaultKind::BadObject, &link.name)
}

#[tactic(auto, unfolding(crate::specs::Objects::is_good_link))]
fn is_good_link(link: &Link) -> bool
    requires { LinkInRange link.now }
    ensures { result ≡ is_good_link link.now }
{
    link.first != link.second && has_good_section(&link.kind, &link.section)
}

// Whether a link has the section that it needs, of a good shape and area.
fn has_good_section(kind: &LinkKind, section: &Option<Section>) -> bool
    requires { IfSome section.now SectionInRange }
    ensures { result ≡ has_good_section kind.now section.now }
{
    match section {
        Some(section) => fits_kind(kind, &section.shape) && has_good_area(section),
        None => needs_none(kind),
    }
}

fn needs_none(kind: &LinkKind) -> bool
    ensures { result ≡ needs_none kind.now }
{
    matches!(kind, LinkKind::Pump { .. })
}

fn fits_kind(kind: &LinkKind, shape: &Shape) -> bool
    ensures { result ≡ fits_kind kind.now shape.now }
{
    match kind {
        LinkKind::Conduit { .. } | LinkKind::Pump { .. } => true,
        LinkKind::Orifice { .. } => is_orifice_shape(shape),
        LinkKind::Weir { notch: true, .. } => is_triangular(shape),
        LinkKind::Weir { notch: false, .. } => is_rect_open(shape),
    }
}

fn is_orifice_shape(shape: &Shape) -> bool
    ensures { result ≡ is_orifice_shape shape.now }
{
    matches!(shape, Shape::RectClosed { .. } | Shape::Circular)
}

fn is_triangular(shape: &Shape) -> bool
    ensures { result ≡ is_triangular shape.now }
{
    matches!(shape, Shape::Triangular { .. })
}

fn is_rect_open(shape: &Shape) -> bool
    ensures { result ≡ is_rect_open shape.now }
{
    matches!(shape, Shape::RectOpen { .. })
}

fn has_good_area(section: &Section) -> bool
    requires { SectionInRange section.now }
    ensures { result ≡ has_good_area section.now }
{
    if Table::has_plain_area(section) {
        return true;
    }
    let area = section_area(section);
    area != 0 && area <= MOST_AREA
}

// The area of a full section, in mm².
#[tactic(auto, unfolding(crate::specs::Objects::section_area))]
fn section_area(section: &Section) -> i64
    requires { SectionInRange section.now }
    ensures { result ≡ area_of_section section.now }
{
    Table::section_area(section)
}
