// The laws of all nodes and links.
use crate::link_law::LinkLaw;
use net_types::{Curve, List};
use node_update::NodeLaw;
use std::marker::Model;
use xsect_tables::Table;

/// The laws of all nodes and of all links of a network, each by its number, and the curves by which its pumps go.
#[derive(Debug, Drop)]
pub struct Hydraulics {
    pub nodes: List<NodeLaw>,
    pub links: Links,
    pub curves: List<Curve>,
}

/// The laws of all links. Links of equal sections share one table, and a law holds the number of its table; a contract
/// sees each law with its table.
#[derive(Debug, Drop)]
pub struct Links {
    pub(crate) tables: List<Table>,
    pub(crate) laws: List<LinkLaw<usize>>,
}

impl Model for Links {
    ghost use Rattle.std.specs.Prelude.{List as Sequence};
    ghost use Rattle.xsect_tables.specs.SectionTable.{SectionTable};
    ghost use Rattle.link_eval.specs.SharedTables.{laws_with};
    ghost use Rattle.link_eval.specs.declared.link_law.LinkLaw.{LinkLaw};

    ghost Value = { Sequence (LinkLaw SectionTable) };

    ghost view = { λ s. laws_with s.tables s.laws };
}
