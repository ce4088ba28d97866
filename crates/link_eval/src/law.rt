// The hydraulics of a network, as the trials ask for them.
ghost use Rattle.std.specs.Prelude.{◌≡◌, ◌<◌, length};
ghost use Rattle.fixed_num.specs.Ranges.{IsFlow, IsHead};
ghost use Rattle.link_eval.specs.Hydraulics.{law_of, rule_share};
ghost use Rattle.link_eval.specs.LawGood.{law_good};
ghost use Rattle.link_eval.specs.LinkLaws.{IsLinkRule, NamesOneOf};
ghost use Rattle.link_eval.specs.SharedTables.{rule_with};
ghost use Rattle.phase_law.specs.Ranges.{LinkFixedInRange};

use crate::hydraulic_law::HydraulicLaw;
use crate::link_law::LinkRule;
use crate::orifice::orifice_share;
use crate::pump::pump_share;
use crate::tables::shared_table;
use crate::weir::weir_share;
use conduit_flow::conduit_share;
use phase_law::{LinkFixed, NodeFixed, NodeNext, PhaseLaw, Share};
use xsect_tables::Table;

impl PhaseLaw for HydraulicLaw {
    ghost law = { λ s. law_of s.hydraulics };

    ghost good = { λ s. law_good s.hydraulics s.good };

    fn nodes(&self) -> u32 {
        self.hydraulics.nodes.as_slice().len() as u32
    }

    fn links(&self) -> u32 {
        let links = &self.hydraulics.links;
        links.laws.as_slice().len() as u32
    }

    fn head_limit(&self) -> i64 {
        20_000_000_000
    }

    fn ends(&self, link: u32) -> (u32, u32) {
        let links = &self.hydraulics.links;
        let law = &links.laws.as_slice()[link as usize];
        (law.first, law.second)
    }

    fn link_share(
        &self,
        link: u32,
        fixed: &LinkFixed,
        first: bool,
        near: i64,
        far: i64,
        last: i64,
    ) -> Share {
        let links = &self.hydraulics.links;
        let law = &links.laws.as_slice()[link as usize];
        let tables = links.tables.as_slice();
        self.rule_share(tables, &law.rule, law.first, fixed, first, near, far, last)
    }

    fn node_next(
        &self,
        node: u32,
        fixed: &NodeFixed,
        first: bool,
        inflow: i64,
        outflow: i64,
        area: i64,
        last: i64,
    ) -> NodeNext {
        self.node(node)
            .next(fixed, first, inflow, outflow, area, last)
    }
}

impl HydraulicLaw {
    // The share of a link of this rule that begins at this node, in a trial. `tables` are all tables.
    fn rule_share(
        &self,
        tables: &[Table],
        rule: &LinkRule<usize>,
        node: u32,
        fixed: &LinkFixed,
        first: bool,
        near: i64,
        far: i64,
        last: i64,
    ) -> Share
        requires rule { IsLinkRule (rule_with tables.now rule.now) }
        requires curve { NamesOneOf (length self.now.hydraulics.curves) (rule_with tables.now rule.now) }
        requires node { node < length self.now.hydraulics.nodes }
        requires fixed { LinkFixedInRange fixed.now }
        requires near { IsHead near }
        requires far { IsHead far }
        requires last { IsFlow last }
        ensures { result ≡ rule_share self.now.hydraulics (rule_with tables.now rule.now)
            node fixed.now first near far last }
    {
        match rule {
            LinkRule::Conduit(law) => {
                let table = shared_table(tables, law.table);
                conduit_share(&law.conduit, table, fixed, first, near, far, last)
            }
            LinkRule::Pump(law) => {
                let curve = &self.hydraulics.curves.as_slice()[law.curve as usize];
                let volume = self.node(node).volume(near);
                pump_share(law, curve, volume, fixed, first, near, far, last)
            }
            LinkRule::Orifice(law) => {
                let table = shared_table(tables, law.table);
                orifice_share(law, table, fixed, first, near, far, last)
            }
            LinkRule::Weir(law) => weir_share(law, fixed, first, near, far, last),
        }
    }
}
