// The lines of an input as a project.
ghost use Rattle.std.specs.Prelude.{◌≡◌, [], IfOk, OnOk};
ghost use Rattle.inp_lines.specs.Faults.{cut};
ghost use Rattle.inp_lines.specs.Order.{Rise};
ghost use Rattle.net_types.specs.Sound.{IsSound};
ghost use Rattle.inp_reader.specs.LineFaults.{line_faults};
ghost use Rattle.inp_reader.specs.Meaning.{Means};

use crate::flows::read_flows;
use crate::known::known_of;
use crate::network::read_network;
use crate::others::read_others;
use crate::surface::read_surface;
use crate::title::read_title;
use inp_lines::{Line, merge_faults};
use inp_options::read_options;
use inp_rules::read_rules;
use net_types::{LineFault, List, OutOfMemory, Project};
use std::alloc::Global;

/// Reads all lines into a project, and gives the first hundred of their faults.
pub(crate) fn read_lines(
    alloc: Global,
    lines: &List<Line>,
    faults: &mut List<LineFault>,
) -> Result<Project, OutOfMemory>
    requires rise { Rise 0 lines.now }
    requires none { faults.old ≡ [] }
    ensures faults { OnOk result (faults.new ≡ cut (line_faults lines.now)) }
    ensures project { IfOk result (λ project. line_faults lines.now ≡ [] → Means lines.now project) }
    ensures sound { IfOk result (λ project. line_faults lines.now ≡ [] → IsSound project) }
{
    let (options, warnings) = read_options(alloc, lines, faults)?;
    let title = read_title(alloc, lines)?;
    let (known, tables) = known_of(alloc, options.units, options.start, lines)?;
    let network = read_network(alloc, &known, lines)?;
    merge_faults(alloc, faults, &network.faults)?;
    let surface = read_surface(alloc, options.infil, &known, lines)?;
    merge_faults(alloc, faults, &surface.faults)?;
    merge_faults(alloc, faults, &tables.faults)?;
    let flows = read_flows(alloc, &known, lines)?;
    merge_faults(alloc, faults, &flows.faults)?;
    let mut rules = List::new(alloc);
    let of_rules = read_rules(alloc, &known, lines, &mut rules)?;
    merge_faults(alloc, faults, &of_rules)?;
    read_others(alloc, lines, faults)?;
    Ok(Project {
        title,
        warnings,
        options,
        gages: surface.gages,
        subs: surface.subs,
        nodes: network.nodes,
        links: network.links,
        curves: tables.curves,
        series: tables.series,
        patterns: tables.patterns,
        inflows: flows.inflows,
        dry: flows.dry,
        rules,
    })
}
