// The law of a link.
ghost use Rattle.std.specs.Prelude.{◌≡◌, ◌*◌, ◌^◌, length, IfOk, pos};
ghost use Rattle.fixed_num.specs.Ranges.{IsBetween, IsHead};
ghost use Rattle.link_eval.specs.Ends.{AreLinkEnds};
ghost use Rattle.link_eval.specs.Good.{IsGoodLink};
ghost use Rattle.link_eval.specs.Hydraulics.{rule_mid_area, rule_volume};
ghost use Rattle.link_eval.specs.LinkLaws.{IsLinkRule, NamesOneOf, given_section, link_law_of, routed_rule_of};
ghost use Rattle.link_eval.specs.SharedTables.{Keeps, law_with, rule_with};
ghost use Rattle.link_eval.specs.Stock.{IsStock};
ghost use Rattle.link_eval.specs.Routed.{IsRouted};
ghost use Rattle.project_check.specs.Faultless.{IsFaultless};

use crate::conduit::{ConduitLaw, conduit_law};
use crate::ends::LinkEnds;
use crate::orifice::{OrificeLaw, orifice_law};
use crate::pump::{PumpLaw, pump_law};
use crate::tables::{TableStock, shared_table};
use crate::weir::{WeirLaw, weir_law};
use conduit_flow::{conduit_volume, mid_area};
use net_types::{Link, LinkKind, OutOfMemory, Project, Section, Shape};
use xsect_tables::Table;

/// What the share of a link depends on, by its kind; with the table of its section, or the number of that.
#[derive(Debug, Drop)]
pub enum LinkRule<T> {
    Conduit(ConduitLaw<T>),
    Pump(PumpLaw),
    Orifice(OrificeLaw<T>),
    Weir(WeirLaw),
}

/// The law of a link: its first and its second node, and its rule.
#[derive(Debug, Drop)]
pub struct LinkLaw<T> {
    pub first: u32,
    pub second: u32,
    pub rule: LinkRule<T>,
}

impl LinkRule<usize> {
    // The volume of water in the link, in mm³, from the heads at its ends in µm. `tables` are all tables.
    pub(crate) fn volume(&self, tables: &[Table], near: i64, far: i64) -> i128
        requires rule { IsLinkRule (rule_with tables.now self.now) }
        requires near { IsHead near }
        requires far { IsHead far }
        ensures value { result ≡ rule_volume (rule_with tables.now self.now) near far }
        ensures range { IsBetween (pos 0) result (pos (10 ^ 22)) }
    {
        match self {
            LinkRule::Conduit(law) => {
                let table = shared_table(tables, law.table);
                conduit_volume(&law.conduit, table, near, far)
            }
            LinkRule::Pump(_) | LinkRule::Orifice(_) | LinkRule::Weir(_) => 0,
        }
    }

    // The area of flow in its middle, in mm².
    pub(crate) fn mid_area(&self, tables: &[Table], near: i64, far: i64) -> i64
        requires rule { IsLinkRule (rule_with tables.now self.now) }
        requires near { IsHead near }
        requires far { IsHead far }
        ensures value { result ≡ rule_mid_area (rule_with tables.now self.now) near far }
        ensures range { IsBetween (pos 0) result (pos (5 * 10 ^ 11)) }
    {
        match self {
            LinkRule::Conduit(law) => {
                let table = shared_table(tables, law.table);
                mid_area(&law.conduit, table, near, far)
            }
            LinkRule::Pump(_) | LinkRule::Orifice(_) | LinkRule::Weir(_) => 0,
        }
    }
}

// The law of a link of a faultless project, whose table is put among those of the links before it unless one of them
// has the same section. The only error is want of memory.
pub(crate) fn link_law(
    project: &Project,
    link: &Link,
    stock: &mut TableStock,
) -> Result<LinkLaw<usize>, OutOfMemory>
    requires faultless { IsFaultless project.now }
    requires link { IsRouted project.now link.now }
    requires stock { IsStock stock.old }
    ensures value { IfOk result (λ law. law_with stock.new.tables law
        ≡ link_law_of project.now.nodes project.now.options link.now) }
    ensures good { IfOk result (λ law. IsGoodLink
        (length project.now.nodes) (length project.now.curves) (law_with stock.new.tables law)) }
    ensures tables { IfOk result (λ law. Keeps stock.old.tables stock.new.tables) }
    ensures stock { IfOk result (λ law. IsStock stock.new) }
{
    let nodes = project.nodes.as_slice();
    let near = &nodes[link.first as usize];
    let far = &nodes[link.second as usize];
    let ends = LinkEnds::between(near, far);
    let rule = link_rule(project, link, &ends, stock)?;
    Ok(LinkLaw {
        first: link.first,
        second: link.second,
        rule,
    })
}

// The rule of a link between these ends.
fn link_rule(
    project: &Project,
    link: &Link,
    ends: &LinkEnds,
    stock: &mut TableStock,
) -> Result<LinkRule<usize>, OutOfMemory>
    requires link { IsRouted project.now link.now }
    requires ends { AreLinkEnds ends.now }
    requires stock { IsStock stock.old }
    ensures value { IfOk result (λ rule. rule_with stock.new.tables rule
        ≡ routed_rule_of project.now.options ends.now link.now) }
    ensures good { IfOk result (λ rule. IsLinkRule (rule_with stock.new.tables rule)) }
    ensures curve { IfOk result (λ rule. NamesOneOf
        (length project.now.curves) (rule_with stock.new.tables rule)) }
    ensures tables { IfOk result (λ rule. Keeps stock.old.tables stock.new.tables) }
    ensures stock { IfOk result (λ rule. IsStock stock.new) }
{
    let section = given_section(&link.section);
    match &link.kind {
        LinkKind::Conduit { .. } => {
            let table = stock.number_of(&section)?;
            let law = conduit_law(&link.kind, table, ends, &project.options);
            Ok(LinkRule::Conduit(law))
        }
        LinkKind::Pump { curve, .. } => {
            let law = pump_law(*curve, ends, project.options.units);
            Ok(LinkRule::Pump(law))
        }
        LinkKind::Orifice {
            bottom,
            offset,
            cd6,
            flap,
        } => {
            let table = stock.number_of(&section)?;
            let law = orifice_law(*bottom, *offset, *cd6, *flap, &section, table, ends);
            Ok(LinkRule::Orifice(law))
        }
        LinkKind::Weir {
            notch,
            crest,
            cd6,
            flap,
            contractions,
        } => {
            let law = weir_law(*notch, *crest, *cd6, *flap, *contractions, &section, ends);
            Ok(LinkRule::Weir(law))
        }
    }
}

// The section of a link, and one of which all is 0 where it has none.
fn given_section(section: &Option<Section>) -> Section
    ensures { result ≡ given_section section.now }
{
    match section {
        Some(section) => *section,
        None => Section {
            shape: Shape::Circular,
            full: 0,
            barrels: 0,
        },
    }
}
