// A whole project.
ghost use Rattle.std.specs.Prelude.{◌≡◌};
ghost use Rattle.net_types.specs.Empty.{empty_project};

use crate::hydrology::{Gage, Sub};
use crate::inflows::{DryFlow, Inflow};
use crate::list::List;
use crate::network::{Link, Node};
use crate::options::Options;
use crate::rules::Rule;
use crate::tables::{Curve, Pattern, Series};
use crate::text::Text;
use std::alloc::Global;

/// All that an input file says. Objects are numbered from 0 in the order of their lines in the file.
#[derive(Debug, Drop)]
pub struct Project {
    pub title: List<Text>,
    pub warnings: List<Text>,
    pub options: Options,
    pub gages: List<Gage>,
    pub subs: List<Sub>,
    pub nodes: List<Node>,
    pub links: List<Link>,
    pub curves: List<Curve>,
    pub series: List<Series>,
    pub patterns: List<Pattern>,
    pub inflows: List<Inflow>,
    pub dry: List<DryFlow>,
    pub rules: List<Rule>,
}

impl Project {
    /// A project of the options of an input that sets none, and of no records. It takes no memory.
    pub fn empty(alloc: Global) -> Project
        ensures { result ≡ empty_project }
    {
        Project {
            title: List::new(alloc),
            warnings: List::new(alloc),
            options: Options::unset(),
            gages: List::new(alloc),
            subs: List::new(alloc),
            nodes: List::new(alloc),
            links: List::new(alloc),
            curves: List::new(alloc),
            series: List::new(alloc),
            patterns: List::new(alloc),
            inflows: List::new(alloc),
            dry: List::new(alloc),
            rules: List::new(alloc),
        }
    }
}
