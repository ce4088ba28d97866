// Reading a hotstart file.
ghost use Rattle.std.specs.Prelude.{◌≡◌, ◌+◌, ◌*◌, length, IfOk, if◌then◌else◌};
ghost use Rattle.net_types.specs.Sound.{IsSound};
ghost use Rattle.hotstart.specs.Checks.{IsGoodFile};
ghost use Rattle.hotstart.specs.Layout.{is_old as is_old_file, layout_of};
ghost use Rattle.hotstart.specs.Reading.{reading_of, answer_for, old_state as state_in_old};
ghost use Rattle.hotstart.specs.Reading.{new_state as state_in_new, shape_of as shape_of_project};
ghost use Rattle.hotstart.specs.Reading.{sub_width};

use crate::checks::{check_file, is_old};
use crate::columns::{column, start_subs, sub_column, value_at};
use crate::refusal::Refusal;
use crate::shape::{Shape, shape_of};
use crate::state::HotState;
use net_types::{OutOfMemory, Project};
use std::alloc::Global;

/// What a file is as a hotstart for a project: the state in it, or its first fault, in the order of its bytes.
/// A place is the number of a byte, from 0.
#[derive(Debug, Drop)]
pub enum HotRead {
    Good(HotState),
    /// The file doesn't begin as a hotstart does; this byte is the first that differs.
    BadMagic { place: u64 },
    /// The file ends, at this place, before it is whole.
    Ends { place: u64 },
    /// A count, of nodes (0), links (1) or subcatchments (2), isn't that of the project.
    Count { what: u32, file: u32, project: u32 },
    /// The kind of infiltration (0 for modified Horton, 1 for curve numbers) isn't that of the project.
    Kind { file: u32, project: u32 },
    /// The value that begins at this place is out of its range.
    BadValue { place: u64 },
    /// The file goes on at this place, where it should end.
    GoesOn { place: u64 },
}

/// Reads a hotstart file for a project.
///
/// Versions 1 and 2 are read. Version 1 keeps heads, flows and settings alone: its least travel time is 0, and its
/// subcatchments are as at a start without a hotstart. Source: this project's profile.
pub fn read_hot(alloc: Global, bytes: &[u8], project: &Project) -> Result<HotRead, OutOfMemory>
    requires sound { IsSound project.now }
    ensures { IfOk result (λ read. read ≡ reading_of project.now bytes.now) }
{
    let shape = shape_of(project);
    match check_file(bytes, &shape) {
        Err(refusal) => Ok(refused(&refusal)),
        Ok(()) => {
            let state = state_in(alloc, bytes, project, &shape)?;
            Ok(HotRead::Good(state))
        }
    }
}

// The answer for a refusal.
fn refused(refusal: &Refusal) -> HotRead
    ensures { result ≡ answer_for refusal.now }
{
    match refusal {
        Refusal::BadMagic { place } => HotRead::BadMagic { place: *place },
        Refusal::Ends { place } => HotRead::Ends { place: *place },
        Refusal::Count {
            what,
            file,
            project,
        } => HotRead::Count {
            what: *what,
            file: *file,
            project: *project,
        },
        Refusal::Kind { file, project } => HotRead::Kind {
            file: *file,
            project: *project,
        },
        Refusal::BadValue { place } => HotRead::BadValue { place: *place },
        Refusal::GoesOn { place } => HotRead::GoesOn { place: *place },
    }
}

// The state in a good file.
fn state_in(
    alloc: Global,
    file: &[u8],
    project: &Project,
    shape: &Shape,
) -> Result<HotState, OutOfMemory>
    requires sound { IsSound project.now }
    requires shape { shape.now ≡ shape_of_project project.now }
    requires good { IsGoodFile file.now (layout_of shape.now file.now) }
    ensures { IfOk result (λ state. state
        ≡ (if is_old_file file.now then state_in_old project.now file.now else state_in_new project.now file.now)) }
{
    if is_old(file) {
        old_state(alloc, file, project, shape)
    } else {
        new_state(alloc, file, project, shape)
    }
}

// The state in a good file of version 1.
fn old_state(
    alloc: Global,
    file: &[u8],
    project: &Project,
    shape: &Shape,
) -> Result<HotState, OutOfMemory>
    requires sound { IsSound project.now }
    requires shape { shape.now ≡ shape_of_project project.now }
    requires whole { 20 + 8 * shape.now.nodes + 16 * shape.now.links ≡ length file.now }
    ensures { IfOk result (λ state. state ≡ state_in_old project.now file.now) }
{
    let nodes = 8 * shape.nodes;
    Ok(HotState {
        kind: shape.kind,
        heads: column(alloc, file, 20, 8, shape.nodes)?,
        flows: column(alloc, file, 20 + nodes, 16, shape.links)?,
        settings: column(alloc, file, 28 + nodes, 16, shape.links)?,
        least: 0,
        subs: start_subs(alloc, project)?,
    })
}

// The state in a good file of version 2.
fn new_state(
    alloc: Global,
    file: &[u8],
    project: &Project,
    shape: &Shape,
) -> Result<HotState, OutOfMemory>
    requires sound { IsSound project.now }
    requires shape { shape.now ≡ shape_of_project project.now }
    requires whole { 32 + 8 * shape.now.nodes + 16 * shape.now.links + sub_width shape.now.kind * shape.now.subs
        ≡ length file.now }
    ensures { IfOk result (λ state. state ≡ state_in_new project.now file.now) }
{
    let nodes = 8 * shape.nodes;
    let links_end = 24 + nodes + 16 * shape.links;
    Ok(HotState {
        kind: shape.kind,
        heads: column(alloc, file, 24, 8, shape.nodes)?,
        flows: column(alloc, file, 24 + nodes, 16, shape.links)?,
        settings: column(alloc, file, 32 + nodes, 16, shape.links)?,
        least: value_at(file, links_end),
        subs: sub_column(alloc, file, links_end + 8, &shape.kind, shape.subs)?,
    })
}
