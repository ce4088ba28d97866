// The law of a network, with what always holds of it.
ghost use Rattle.std.specs.Prelude.{◌≡◌, ◌*◌, ◌^◌, ◌<◌, length, pos, IfOk};
ghost use Rattle.fixed_num.specs.Ranges.{IsBetween, IsHead};
ghost use Rattle.project_check.specs.Faultless.{IsFaultless};
ghost use Rattle.link_eval.specs.Good.{IsGood};
ghost use Rattle.node_update.specs.NodeLaws.{IsNodeLaw};
ghost use Rattle.link_eval.specs.RuleProps.{rule_props};
ghost use Rattle.link_eval.specs.Hydraulics.{hydraulics_of, node_law_at, volume_at, mid_area_at};

use crate::build::link_laws;
use crate::curves::copy_curves;
use crate::hydraulics::Hydraulics;
use net_types::{OutOfMemory, Project};
use node_update::{NodeLaw, node_laws};
use std::alloc::Global;

/// The hydraulics of a network, whose nodes and links all lie in their ranges.
#[derive(Debug, Drop)]
pub struct HydraulicLaw {
    pub hydraulics: Hydraulics,
    pub ghost good: { IsGood hydraulics } by { Prim.hlevel rule_props },
}

impl HydraulicLaw {
    /// The hydraulics of a faultless project. The only error is want of memory.
    ///
    /// Source: Reference Manual volume II, chapters 3 and 6.
    pub fn build(alloc: Global, project: &Project) -> Result<HydraulicLaw, OutOfMemory>
        requires faultless { IsFaultless project.now }
        ensures { IfOk result (λ law. law.hydraulics ≡ hydraulics_of project.now) }
    {
        let nodes = node_laws(alloc, project)?;
        let links = link_laws(alloc, project)?;
        let curves = copy_curves(alloc, project.curves.as_slice())?;
        Ok(HydraulicLaw {
            hydraulics: Hydraulics {
                nodes,
                links,
                curves,
            },
        })
    }

    /// The law of a node, by its number.
    pub fn node(&self, node: u32) -> &NodeLaw
        requires { node < length self.now.hydraulics.nodes }
        ensures value { result.now ≡ node_law_at self.now.hydraulics node }
        ensures range { IsNodeLaw result.now }
    {
        &self.hydraulics.nodes.as_slice()[node as usize]
    }

    /// The volume of water in a link, in mm³, from the heads at its ends in µm. Only a conduit has one.
    pub fn link_volume(&self, link: u32, near: i64, far: i64) -> i128
        requires link { link < length self.now.hydraulics.links }
        requires near { IsHead near }
        requires far { IsHead far }
        ensures value { result ≡ volume_at self.now.hydraulics link near far }
        ensures range { IsBetween (pos 0) result (pos (10 ^ 22)) }
    {
        let links = &self.hydraulics.links;
        let law = &links.laws.as_slice()[link as usize];
        law.rule.volume(links.tables.as_slice(), near, far)
    }

    /// The area of flow in the middle of a link, in mm², from the heads at its ends in µm. Only a conduit has one.
    pub fn mid_area(&self, link: u32, near: i64, far: i64) -> i64
        requires link { link < length self.now.hydraulics.links }
        requires near { IsHead near }
        requires far { IsHead far }
        ensures value { result ≡ mid_area_at self.now.hydraulics link near far }
        ensures range { IsBetween (pos 0) result (pos (5 * 10 ^ 11)) }
    {
        let links = &self.hydraulics.links;
        let law = &links.laws.as_slice()[link as usize];
        law.rule.mid_area(links.tables.as_slice(), near, far)
    }
}
