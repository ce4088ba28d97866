// The values of a file that was found good.
ghost use Rattle.std.specs.Prelude.{◌≡◌, ℕ, ◌+◌, ◌*◌, ◌≤◌, ◌<◌, length, map, IfOk};
ghost use Rattle.fixed_num.specs.Lists.{list_of};
ghost use Rattle.net_types.specs.Ranges.{SubInRange};
ghost use Rattle.net_types.specs.Sound.{IsSound};
ghost use Rattle.hotstart.specs.Layout.{value_at as value_at_place};
ghost use Rattle.hotstart.specs.Reading.{column as column_of, infil_at as infil_at_place, sub_at as sub_at_place};
ghost use Rattle.hotstart.specs.Reading.{sub_width as width_of_sub, start_sub as start_of_sub};

use crate::state::HotSub;
use byteorder::{ByteOrder, LittleEndian};
use infiltration::{CurveState, HortonState, InfilState, start_state};
use net_types::{InfilKind, List, OutOfMemory, Project, Sub};
use std::alloc::Global;

// The value in the 8 bytes from a place.
pub(crate) fn value_at(file: &[u8], place: usize) -> i64
    requires { place + 8 ≤ length file.now }
    ensures { result ≡ value_at_place file.now place }
{
    LittleEndian::read_u64(&file[place..]).cast_signed()
}

// So many values, the first at a place, and each so many bytes after the one before.
pub(crate) fn column(
    alloc: Global,
    file: &[u8],
    place: usize,
    apart: usize,
    count: usize,
) -> Result<List<i64>, OutOfMemory>
    requires { (k : ℕ) → k < count → place + apart * k + 8 ≤ length file.now }
    ensures { IfOk result (λ list. list ≡ column_of file.now place apart count) }
{
    let mut values = List::new(alloc);
    for k in 0..count {
        values.push(value_at(file, place + apart * k))?;
    }
    Ok(values)
}

// The bytes of a subcatchment.
pub(crate) fn sub_width(kind: &InfilKind) -> usize
    ensures value { result ≡ width_of_sub kind.now }
    ensures most { result ≤ 72 }
    ensures least { 40 ≤ result }
{
    match kind {
        InfilKind::ModifiedHorton => 40,
        InfilKind::CurveNumber => 72,
    }
}

// The states of so many subcatchments, the first at a place.
pub(crate) fn sub_column(
    alloc: Global,
    file: &[u8],
    place: usize,
    kind: &InfilKind,
    count: usize,
) -> Result<List<HotSub>, OutOfMemory>
    requires { (k : ℕ) → k < count → place + width_of_sub kind.now * k + width_of_sub kind.now ≤ length file.now }
    ensures { IfOk result (λ list. list
        ≡ list_of (λ k. sub_at_place kind.now file.now (place + width_of_sub kind.now * k)) count) }
{
    let mut subs = List::new(alloc);
    let width = sub_width(kind);
    for k in 0..count {
        subs.push(sub_at(file, place + width * k, kind))?;
    }
    Ok(subs)
}

// The state of a subcatchment whose values begin at a place.
fn sub_at(file: &[u8], place: usize, kind: &InfilKind) -> HotSub
    requires { place + width_of_sub kind.now ≤ length file.now }
    ensures { result ≡ sub_at_place kind.now file.now place }
{
    HotSub {
        depths: [
            value_at(file, place),
            value_at(file, place + 8),
            value_at(file, place + 16),
        ],
        flow: value_at(file, place + 24),
        infil: infil_at(file, place + 32, kind),
    }
}

// The state of an infiltration whose values begin at a place.
fn infil_at(file: &[u8], place: usize, kind: &InfilKind) -> InfilState
    requires { place + width_of_sub kind.now ≤ length file.now + 32 }
    ensures { result ≡ infil_at_place kind.now file.now place }
{
    match kind {
        InfilKind::ModifiedHorton => InfilState::Horton(HortonState {
            above: value_at(file, place),
        }),
        InfilKind::CurveNumber => InfilState::Number(CurveState {
            room: value_at(file, place),
            event_room: value_at(file, place + 8),
            rain: value_at(file, place + 16),
            taken: value_at(file, place + 24),
            dry: value_at(file, place + 32),
        }),
    }
}

// The states of the subcatchments at the start of a run without a hotstart.
pub(crate) fn start_subs(alloc: Global, project: &Project) -> Result<List<HotSub>, OutOfMemory>
    requires { IsSound project.now }
    ensures { IfOk result (λ list. list ≡ map start_of_sub project.now.subs) }
{
    let mut subs = List::new(alloc);
    for sub in project.subs.as_slice() {
        subs.push(start_sub(sub))?;
    }
    Ok(subs)
}

// The state of a subcatchment at such a start.
fn start_sub(sub: &Sub) -> HotSub
    requires { SubInRange sub.now }
    ensures { result ≡ start_of_sub sub.now }
{
    let infil = match &sub.infil {
        Some(infil) => start_state(infil),
        None => InfilState::Horton(HortonState { above: 0 }),
    };
    HotSub {
        depths: [0, 0, 0],
        flow: 0,
        infil,
    }
}
