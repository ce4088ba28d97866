// What the file of a project is compared with.
ghost use Rattle.std.specs.Prelude.{◌≡◌};
ghost use Rattle.net_types.specs.Sound.{IsSound};
ghost use Rattle.hotstart.specs.Checks.{IsShape};
ghost use Rattle.hotstart.specs.Reading.{shape_of as shape_of_project, kind_of as kind_of_subs};

use net_types::{InfilKind, Project, Sub};

// The counts of nodes, links and subcatchments, and the kind of infiltration.
#[derive(Clone, Copy)]
pub(crate) struct Shape {
    pub(crate) nodes: usize,
    pub(crate) links: usize,
    pub(crate) subs: usize,
    pub(crate) kind: InfilKind,
}

// The shape of a project's files.
pub(crate) fn shape_of(project: &Project) -> Shape
    requires { IsSound project.now }
    ensures value { result ≡ shape_of_project project.now }
    ensures shape { IsShape result }
{
    Shape {
        nodes: project.nodes.as_slice().len(),
        links: project.links.as_slice().len(),
        subs: project.subs.as_slice().len(),
        kind: kind_of(project.subs.as_slice(), project.options.infil),
    }
}

// The kind of infiltration of a project: modified Horton where it has no subcatchment.
fn kind_of(subs: &[Sub], kind: InfilKind) -> InfilKind
    ensures { result ≡ kind_of_subs subs.now kind }
{
    match subs {
        [] => InfilKind::ModifiedHorton,
        [_, ..] => kind,
    }
}
