// The laws of the links of a project.
ghost use Rattle.std.specs.Prelude.{◌≡◌, length, map, IfOk};
ghost use Rattle.std.specs.List.{All};
ghost use Rattle.project_check.specs.Faultless.{IsFaultless};
ghost use Rattle.link_eval.specs.Good.{IsGoodLink};
ghost use Rattle.link_eval.specs.LinkLaws.{link_law_of};

use crate::hydraulics::Links;
use crate::link_law::link_law;
use crate::tables::TableStock;
use net_types::{List, OutOfMemory, Project};
use std::alloc::Global;

// The laws of all links.
pub(crate) fn link_laws(alloc: Global, project: &Project) -> Result<Links, OutOfMemory>
    requires faultless { IsFaultless project.now }
    ensures value { IfOk result (λ laws. laws
        ≡ map (link_law_of project.now.nodes project.now.options) project.now.links) }
    ensures good { IfOk result (All (IsGoodLink (length project.now.nodes) (length project.now.curves))) }
{
    let mut stock = TableStock::new(alloc);
    let mut laws = List::new(alloc);
    let links = project.links.as_slice();
    for link in links {
        laws.push(link_law(project, link, &mut stock)?)?;
    }
    Ok(Links {
        tables: stock.tables,
        laws,
    })
}
