// The rain gages and subcatchments of an input.
ghost use Rattle.std.specs.Prelude.{◌≡◌, [], IfOk, OnOk};
ghost use Rattle.inp_lines.specs.Faults.{cut};
ghost use Rattle.inp_lines.specs.Gather.{gather};
ghost use Rattle.inp_lines.specs.Merge.{merged};
ghost use Rattle.inp_lines.specs.Order.{Rise};
ghost use Rattle.inp_forms.specs.Context.{context_of};
ghost use Rattle.inp_hydrology.specs.Areas.{areas_fault, areas_of};
ghost use Rattle.inp_hydrology.specs.Evaporation.{evaporation_fault};
ghost use Rattle.inp_hydrology.specs.Gages.{gages_of};
ghost use Rattle.inp_hydrology.specs.Soil.{soil_fault, soil_of};
ghost use Rattle.inp_hydrology.specs.Subcatchments.{sub_fault, subs_of};
ghost use Rattle.inp_reader.specs.Surface.{full_subs, surface_fault};

use inp_forms::Known;
use inp_hydrology::{
    OwnAreas, OwnInfil, place_areas, place_infil, read_areas, read_evaporation, read_gages,
    read_soil, read_subs,
};
use inp_lines::{Line, merge_faults};
use net_types::{Gage, InfilKind, LineFault, List, OutOfMemory, Sub};
use std::alloc::Global;

/// The rain gages and subcatchments of an input, and the first hundred faults of their lines.
#[derive(Debug, Drop)]
pub(crate) struct Surface {
    pub(crate) gages: List<Gage>,
    pub(crate) subs: List<Sub>,
    pub(crate) faults: List<LineFault>,
}

/// Reads the rain gages and subcatchments of an input, with the subareas and infiltration numbers of subcatchments by
/// the method of the options (User's Manual, sections [RAINGAGES], [SUBCATCHMENTS], [SUBAREAS], [INFILTRATION] and
/// [EVAPORATION]).
pub(crate) fn read_surface<'a>(
    alloc: Global,
    method: InfilKind,
    known: &Known<'a>,
    lines: &'a List<Line>,
) -> Result<Surface, OutOfMemory>
    requires rise { Rise 0 lines.now }
    ensures gages { IfOk result (λ surface. surface.gages ≡ gages_of (context_of known.now) lines.now) }
    ensures subs { IfOk result (λ surface. surface.subs ≡ full_subs method (context_of known.now) lines.now) }
    ensures faults { IfOk result (λ surface.
        surface.faults ≡ cut (gather (surface_fault method (context_of known.now)) [] lines.now)) }
{
    let mut gages = List::new(alloc);
    let mut faults = read_gages(alloc, known, lines, &mut gages)?;
    let mut subs = subs_in(alloc, known, lines, &mut faults)?;
    let areas = areas_in(alloc, known, lines, &mut faults)?;
    place_areas(&mut subs, &areas);
    let soil = soil_in(alloc, method, known, lines, &mut faults)?;
    place_infil(&mut subs, &soil);
    evaporation_in(alloc, known, lines, &mut faults)?;
    Ok(Surface {
        gages,
        subs,
        faults,
    })
}

/// The subcatchments of an input by their own lines, whose faults are merged into the others.
fn subs_in<'a>(
    alloc: Global,
    known: &Known<'a>,
    lines: &'a List<Line>,
    faults: &mut List<LineFault>,
) -> Result<List<Sub>, OutOfMemory>
    ensures subs { IfOk result (λ subs. subs ≡ subs_of (context_of known.now) lines.now) }
    ensures faults { OnOk result (faults.new
        ≡ cut (merged faults.old (cut (gather (sub_fault (context_of known.now)) [] lines.now)))) }
{
    let mut subs = List::new(alloc);
    let found = read_subs(alloc, known, lines, &mut subs)?;
    merge_faults(alloc, faults, &found)?;
    Ok(subs)
}

/// The subareas of an input; the faults of their lines are merged into the others.
fn areas_in<'a>(
    alloc: Global,
    known: &Known<'a>,
    lines: &'a List<Line>,
    faults: &mut List<LineFault>,
) -> Result<List<OwnAreas>, OutOfMemory>
    ensures areas { IfOk result (λ areas. areas ≡ areas_of (context_of known.now) lines.now) }
    ensures faults { OnOk result (faults.new
        ≡ cut (merged faults.old (cut (gather (areas_fault (context_of known.now)) [] lines.now)))) }
{
    let mut areas = List::new(alloc);
    let found = read_areas(alloc, known, lines, &mut areas)?;
    merge_faults(alloc, faults, &found)?;
    Ok(areas)
}

/// The infiltration numbers of an input; the faults of their lines are merged into the others.
fn soil_in<'a>(
    alloc: Global,
    method: InfilKind,
    known: &Known<'a>,
    lines: &'a List<Line>,
    faults: &mut List<LineFault>,
) -> Result<List<OwnInfil>, OutOfMemory>
    ensures soil { IfOk result (λ soil. soil ≡ soil_of method (context_of known.now) lines.now) }
    ensures faults { OnOk result (faults.new
        ≡ cut (merged faults.old (cut (gather (soil_fault method (context_of known.now)) [] lines.now)))) }
{
    let mut soil = List::new(alloc);
    let found = read_soil(alloc, method, known, lines, &mut soil)?;
    merge_faults(alloc, faults, &found)?;
    Ok(soil)
}

/// Merges the faults of lines of EVAPORATION into the others.
fn evaporation_in<'a>(
    alloc: Global,
    known: &Known<'a>,
    lines: &'a List<Line>,
    faults: &mut List<LineFault>,
) -> Result<(), OutOfMemory>
    ensures { OnOk result (faults.new
        ≡ cut (merged faults.old (cut (gather (evaporation_fault (context_of known.now)) [] lines.now)))) }
{
    let found = read_evaporation(alloc, known, lines)?;
    merge_faults(alloc, faults, &found)?;
    Ok(())
}
