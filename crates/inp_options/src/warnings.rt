// The warnings that options call for.
ghost use Rattle.std.specs.Prelude.{◌≡◌, ◌++◌, ◌&&◌, IfOk, OnOk, is_none};
ghost use Rattle.inp_options.specs.Warnings.{has_subcatchments, is_subcatchments, warning_if, warnings_by};

use crate::chosen::Latest;
use inp_lines::{Line, SectionName};
use net_types::{List, OutOfMemory, Text};
use std::alloc::Global;

/// The warnings, in the order in which the report has them.
#[tactic(auto, unfolding(crate::specs::Warnings::warnings_by))]
pub(crate) fn warnings(
    alloc: Global,
    latest: &Latest,
    lines: &[Line],
) -> Result<List<Text>, OutOfMemory>
    ensures { IfOk result (λ warnings. warnings ≡ warnings_by latest.now lines.now) }
{
    let mut warnings = List::new(alloc);
    let is_extran = latest.extran.unwrap_or(false);
    add_warning(alloc, &mut warnings, is_extran, b"WARNING slot method used")?;
    let is_taken = is_taken_as_horton(latest, lines);
    add_warning(
        alloc,
        &mut warnings,
        is_taken,
        b"WARNING infiltration taken as MODIFIED_HORTON",
    )?;
    Ok(warnings)
}

// Whether there are subcatchments and no infiltration method.
fn is_taken_as_horton(latest: &Latest, lines: &[Line]) -> bool
    ensures { result ≡ is_none latest.now.infil && has_subcatchments lines.now }
{
    latest.infil.is_none() && has_subcatchments(lines)
}

// Appends a warning where it is due.
fn add_warning(
    alloc: Global,
    warnings: &mut List<Text>,
    is_due: bool,
    text: &[u8],
) -> Result<(), OutOfMemory>
    ensures { OnOk result (warnings.new ≡ warnings.old ++ warning_if is_due text.now) }
{
    if is_due {
        warnings.push(Text::from_slice(alloc, text)?)?;
        return Ok(());
    }
    Ok(())
}

// Whether a line is one of SUBCATCHMENTS.
fn has_subcatchments(lines: &[Line]) -> bool
    ensures { result ≡ has_subcatchments lines.now }
{
    for line in lines {
        if is_subcatchments(line.section) {
            return true;
        }
    }
    false
}

// Whether a section is SUBCATCHMENTS.
fn is_subcatchments(section: SectionName) -> bool
    ensures { result ≡ is_subcatchments section }
{
    match section {
        SectionName::Subcatchments => true,
        _ => false,
    }
}
