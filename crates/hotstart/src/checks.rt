// The checks of the fields of a file, in the order of its bytes. Each gives the place after its fields.
ghost use Rattle.std.specs.Prelude.{◌≡◌, ℕ, ◌+◌, ◌*◌, ◌≤◌, ◌<◌, [], ◌∷◌, ◌++◌, ◌&&◌, length, map, int_le, IfOk};
ghost use Rattle.hotstart.specs.HotBytes.{kind_number as number_of_kind};
ghost use Rattle.hotstart.specs.Layout.{letter, version, count, kind, value, magic, counts, times};
ghost use Rattle.hotstart.specs.Layout.{head_fields, link_fields, least_fields, sub_fields, new_values};
ghost use Rattle.hotstart.specs.Layout.{new_fields, rest_of, is_old as is_old_file, layout_of};
ghost use Rattle.hotstart.specs.Checks.{AreGood, Passes, PassesFile, IsShape, range_field};

use crate::columns::value_at;
use crate::refusal::Refusal;
use crate::shape::Shape;
use byteorder::{ByteOrder, LittleEndian};
use net_types::InfilKind;

// The least and the greatest number that a value may be.
#[derive(Clone, Copy)]
struct Range {
    least: i64,
    most: i64,
}

const HEAD: Range = Range {
    least: -20_000_000_000,
    most: 20_000_000_000,
};

const FLOW: Range = Range {
    least: -1_000_000_000_000,
    most: 1_000_000_000_000,
};

const SETTING: Range = Range {
    least: 0,
    most: 1_000_000,
};

const LEAST: Range = Range {
    least: 0,
    most: 3_600_000,
};

const DEPTH: Range = Range {
    least: 0,
    most: 1_000_000_000_000_000,
};

const RUNOFF: Range = Range {
    least: 0,
    most: 1_000_000_000_000,
};

// The number of a kind of infiltration in a file.
pub(crate) fn kind_number(kind: &InfilKind) -> u32
    ensures { result ≡ number_of_kind kind.now }
{
    match kind {
        InfilKind::ModifiedHorton => 0,
        InfilKind::CurveNumber => 1,
    }
}

// A byte of the magic word.
fn check_letter(file: &[u8], place: usize, byte: u8) -> Result<usize, Refusal>
    requires { place ≤ length file.now }
    ensures { Passes file.now place (letter byte ∷ []) result }
{
    if place == file.len() {
        return Err(Refusal::Ends {
            place: file.len() as u64,
        });
    }
    if file[place] != byte {
        return Err(Refusal::BadMagic {
            place: place as u64,
        });
    }
    Ok(place + 1)
}

// The version, which is the last byte of the magic word.
fn check_version(file: &[u8], place: usize) -> Result<usize, Refusal>
    requires { place ≤ length file.now }
    ensures { Passes file.now place (version ∷ []) result }
{
    if place == file.len() {
        return Err(Refusal::Ends {
            place: file.len() as u64,
        });
    }
    if file[place] != b'1' && file[place] != b'2' {
        return Err(Refusal::BadMagic {
            place: place as u64,
        });
    }
    Ok(place + 1)
}

// A count, by its number.
fn check_count(file: &[u8], place: usize, what: u32, own: u32) -> Result<usize, Refusal>
    requires { place ≤ length file.now }
    ensures { Passes file.now place (count what own ∷ []) result }
{
    if file.len() - place < 4 {
        return Err(Refusal::Ends {
            place: file.len() as u64,
        });
    }
    let found = LittleEndian::read_u32(&file[place..]);
    if found != own {
        return Err(Refusal::Count {
            what,
            file: found,
            project: own,
        });
    }
    Ok(place + 4)
}

// The kind of infiltration.
fn check_kind(file: &[u8], place: usize, own: u32) -> Result<usize, Refusal>
    requires { place ≤ length file.now }
    ensures { Passes file.now place (kind own ∷ []) result }
{
    if file.len() - place < 4 {
        return Err(Refusal::Ends {
            place: file.len() as u64,
        });
    }
    let found = LittleEndian::read_u32(&file[place..]);
    if found != own {
        return Err(Refusal::Kind {
            file: found,
            project: own,
        });
    }
    Ok(place + 4)
}

// A value.
fn check_value(file: &[u8], place: usize, range: &Range) -> Result<usize, Refusal>
    requires { place ≤ length file.now }
    ensures { Passes file.now place (range_field range.now ∷ []) result }
{
    if file.len() - place < 8 {
        return Err(Refusal::Ends {
            place: file.len() as u64,
        });
    }
    let first_byte = place as u64;
    if !is_within(value_at(file, place), range) {
        return Err(Refusal::BadValue { place: first_byte });
    }
    Ok(place + 8)
}

// Whether a value lies in a range.
fn is_within(value: i64, range: &Range) -> bool
    ensures { result ≡ (int_le range.now.least value && int_le value range.now.most) }
{
    range.least <= value && value <= range.most
}

// The values of a row.
fn check_row(file: &[u8], from: usize, row: &[Range]) -> Result<usize, Refusal>
    requires { from ≤ length file.now }
    ensures { Passes file.now from (map range_field row.now) result }
{
    let mut place = from;
    for range in row {
        match check_value(file, place, range) {
            Ok(next) => place = next,
            Err(refusal) => return Err(refusal),
        }
    }
    Ok(place)
}

// So many rows of values.
fn check_rows(file: &[u8], from: usize, row: &[Range], rows: usize) -> Result<usize, Refusal>
    requires { from ≤ length file.now }
    ensures { Passes file.now from (times rows (map range_field row.now)) result }
{
    let mut place = from;
    for done in 0..rows {
        match check_row(file, place, row) {
            Ok(next) => place = next,
            Err(refusal) => return Err(refusal),
        }
    }
    Ok(place)
}

// The letters of the magic word before the version.
fn check_letters(file: &[u8], letters: &[u8]) -> Result<usize, Refusal>
    ensures { Passes file.now 0 (map letter letters.now) result }
{
    let mut place = 0;
    for byte in letters {
        match check_letter(file, place, *byte) {
            Ok(next) => place = next,
            Err(refusal) => return Err(refusal),
        }
    }
    Ok(place)
}

// The magic word.
fn check_magic(file: &[u8]) -> Result<usize, Refusal>
    ensures { Passes file.now 0 magic result }
{
    match check_letters(file, b"SWMMFXH") {
        Ok(place) => check_version(file, place),
        Err(refusal) => Err(refusal),
    }
}

// The counts.
fn check_counts(file: &[u8], from: usize, shape: &Shape) -> Result<usize, Refusal>
    requires from { from ≤ length file.now }
    requires shape { IsShape shape.now }
    ensures { Passes file.now from (counts shape.now) result }
{
    match check_count(file, from, 0, shape.nodes as u32) {
        Ok(place) => check_other_counts(file, place, shape),
        Err(refusal) => Err(refusal),
    }
}

// The counts of links and subcatchments.
fn check_other_counts(file: &[u8], from: usize, shape: &Shape) -> Result<usize, Refusal>
    requires from { from ≤ length file.now }
    requires shape { IsShape shape.now }
    ensures { Passes file.now from (count 1 shape.now.links ∷ count 2 shape.now.subs ∷ []) result }
{
    match check_count(file, from, 1, shape.links as u32) {
        Ok(place) => check_count(file, place, 2, shape.subs as u32),
        Err(refusal) => Err(refusal),
    }
}

// The magic word and the counts.
fn check_head(file: &[u8], shape: &Shape) -> Result<usize, Refusal>
    requires { IsShape shape.now }
    ensures { Passes file.now 0 (magic ++ counts shape.now) result }
{
    match check_magic(file) {
        Ok(place) => check_counts(file, place, shape),
        Err(refusal) => Err(refusal),
    }
}

// The heads, and the flows and settings.
fn check_nets(file: &[u8], from: usize, shape: &Shape) -> Result<usize, Refusal>
    requires { from ≤ length file.now }
    ensures { Passes file.now from (times shape.now.nodes head_fields ++ times shape.now.links link_fields) result }
{
    match check_rows(file, from, &[HEAD], shape.nodes) {
        Ok(place) => check_rows(file, place, &[FLOW, SETTING], shape.links),
        Err(refusal) => Err(refusal),
    }
}

// The least travel time, and the subcatchments.
fn check_runoff(file: &[u8], from: usize, shape: &Shape) -> Result<usize, Refusal>
    requires { from ≤ length file.now }
    ensures { Passes file.now from (least_fields ++ times shape.now.subs (sub_fields shape.now.kind)) result }
{
    match check_row(file, from, &[LEAST]) {
        Ok(place) => check_subs(file, place, shape),
        Err(refusal) => Err(refusal),
    }
}

// The subcatchments.
fn check_subs(file: &[u8], from: usize, shape: &Shape) -> Result<usize, Refusal>
    requires { from ≤ length file.now }
    ensures { Passes file.now from (times shape.now.subs (sub_fields shape.now.kind)) result }
{
    match shape.kind {
        InfilKind::ModifiedHorton => {
            let row = [DEPTH, DEPTH, DEPTH, RUNOFF, DEPTH];
            check_rows(file, from, &row, shape.subs)
        }
        InfilKind::CurveNumber => {
            let row = [
                DEPTH, DEPTH, DEPTH, RUNOFF, DEPTH, DEPTH, DEPTH, DEPTH, DEPTH,
            ];
            check_rows(file, from, &row, shape.subs)
        }
    }
}

// What follows the counts in a file of version 2.
fn check_new(file: &[u8], from: usize, shape: &Shape) -> Result<usize, Refusal>
    requires { from ≤ length file.now }
    ensures { Passes file.now from (new_fields shape.now) result }
{
    match check_kind(file, from, kind_number(&shape.kind)) {
        Ok(place) => check_values(file, place, shape),
        Err(refusal) => Err(refusal),
    }
}

// The values of a file of version 2.
fn check_values(file: &[u8], from: usize, shape: &Shape) -> Result<usize, Refusal>
    requires { from ≤ length file.now }
    ensures { Passes file.now from (new_values shape.now) result }
{
    match check_nets(file, from, shape) {
        Ok(place) => check_runoff(file, place, shape),
        Err(refusal) => Err(refusal),
    }
}

// All fields of a file.
fn check_fields(file: &[u8], shape: &Shape) -> Result<usize, Refusal>
    requires { IsShape shape.now }
    ensures { Passes file.now 0 (layout_of shape.now file.now) result }
{
    match check_head(file, shape) {
        Ok(place) => check_rest(file, place, shape),
        Err(refusal) => Err(refusal),
    }
}

// What follows the counts, by the version.
fn check_rest(file: &[u8], from: usize, shape: &Shape) -> Result<usize, Refusal>
    requires { AreGood file.now 0 (magic ++ counts shape.now) from }
    ensures { Passes file.now from (rest_of shape.now file.now) result }
{
    if is_old(file) {
        check_nets(file, from, shape)
    } else {
        check_new(file, from, shape)
    }
}

// Whether a file is of version 1.
pub(crate) fn is_old(file: &[u8]) -> bool
    requires { 8 ≤ length file.now }
    ensures { result ≡ is_old_file file.now }
{
    file[7] == b'1'
}

// A whole file, which has nothing after its fields.
pub(crate) fn check_file(file: &[u8], shape: &Shape) -> Result<(), Refusal>
    requires { IsShape shape.now }
    ensures { PassesFile file.now (layout_of shape.now file.now) result }
{
    match check_fields(file, shape) {
        Ok(end) => {
            if end < file.len() {
                Err(Refusal::GoesOn { place: end as u64 })
            } else {
                Ok(())
            }
        }
        Err(refusal) => Err(refusal),
    }
}
