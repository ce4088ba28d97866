// Look-ups of a row at a depth.
ghost use Rattle.std.specs.Prelude.{◌≡◌, ℕ, ◌+◌, ◌*◌, ◌/◌, ◌<◌, ◌≤◌, ◌^◌, IsTrue, ℤ, pos, ◌≤ℤ◌};
ghost use Rattle.std.specs.Int.RustNames.{unsigned_abs};
ghost use Rattle.fixed_num.specs.Ranges.{IsBetween, IsFullHeight, cut_of};
ghost use Rattle.xsect_tables.specs.SectionTable.{entry, IsGrid};
ghost use Rattle.xsect_tables.specs.LookUps.{IsAround, IsPlace, IsStrip, value_at as value_of, strip_at as strip_of};

use quick_quotients::{inverse, line_at};

// Where a depth lies: the depth itself, brought into 0 to the full height, and the strip around it; with how far above
// the strip's lower end it lies, the strip's height and the inverse of that, for the look-ups.
#[derive(Clone, Copy, Debug)]
pub(crate) struct Place {
    pub(crate) depth: i64,
    pub(crate) strip: usize,
    pub(crate) part: u64,
    pub(crate) run: u64,
    pub(crate) inverse: u64,
}

// What saves divisions in look-ups: the inverse of the full height, the height of the lower strips, and the inverses of
// that height and of the next one. Other numbers would cost time alone.
#[derive(Clone, Copy, Debug)]
pub(crate) struct Inverses {
    full: u64,
    strip: i64,
    lower: u64,
    higher: u64,
}

// What saves divisions in the look-ups of a section of a full height.
pub(crate) fn inverses_of(full: i64) -> Inverses
    requires { IsFullHeight full }
{
    let strip = full / 200;
    Inverses {
        full: inverse(full.unsigned_abs()),
        strip,
        lower: inverse(strip.unsigned_abs()),
        higher: inverse(strip.unsigned_abs() + 1),
    }
}

// The place of a depth.
pub(crate) fn place_of(heights: &[i64; 201], inverses: &Inverses, y: i64) -> Place
    requires { IsGrid heights.now }
    ensures { IsPlace heights.now y result }
{
    let depth = held(y, heights[200]);
    let strip = strip_near(heights, depth, guess_strip(inverses.full, depth));
    in_strip(heights, inverses, depth, strip)
}

// The place of a depth in the strip around it.
fn in_strip(heights: &[i64; 201], inverses: &Inverses, depth: i64, strip: usize) -> Place
    requires grid { IsGrid heights.now }
    requires around { IsStrip heights.now depth strip }
    ensures depth { result.depth ≡ depth }
    ensures strip { result.strip ≡ strip }
    ensures around { IsAround heights.now result }
{
    let low = heights[strip];
    let run = heights[strip + 1] - low;
    Place {
        depth,
        strip,
        part: (depth - low) as u64,
        run: run as u64,
        inverse: strip_inverse(inverses, run),
    }
}

// A depth brought into 0 to the full height.
#[tactic(auto, using(fixed_num::proofs::Bounds::casts), unfolding(fixed_num::specs::Ranges::cut_of))]
fn held(y: i64, full: i64) -> i64
    requires { pos 0 ≤ℤ full }
    ensures { result ≡ cut_of y (pos 0) full }
{
    if y < 0 {
        return 0;
    }
    if y > full {
        return full;
    }
    y
}

// The inverse of the height of a strip.
fn strip_inverse(inverses: &Inverses, run: i64) -> u64 {
    if run == inverses.strip {
        return inverses.lower;
    }
    inverses.higher
}

// A row at the depth of a place.
pub(crate) fn value_at(heights: &[i64; 201], row: &[i64; 201], place: &Place) -> i64
    requires grid { IsGrid heights.now }
    requires around { IsAround heights.now place.now }
    ensures { result ≡ value_of heights.now row.now place.now.depth place.now.strip }
{
    let i = place.strip;
    line_at(row[i], row[i + 1], place.part, place.run, place.inverse)
}

// A strip near a depth.
fn guess_strip(inverse: u64, depth: i64) -> usize
    requires { IsBetween (pos 0) depth (pos (10 ^ 9)) }
{
    let (_, part) = (200 * depth.unsigned_abs()).carrying_mul(inverse, 0);
    part as usize
}

// The strip in which a depth lies: mostly the guessed one or the next one.
fn strip_near(heights: &[i64; 201], y: i64, guess: usize) -> usize
    requires grid { IsGrid heights.now }
    requires depth { IsBetween (pos 0) y (entry heights.now 200) }
    ensures value { result ≡ strip_of heights.now y }
    ensures within { result < 200 }
{
    if guess < 199 {
        if is_strip(heights, y, guess) {
            return guess;
        }
        if is_strip(heights, y, guess + 1) {
            return guess + 1;
        }
    }
    strip_at(heights, y)
}

// Whether a depth lies between the grid heights of a strip; the last one has no upper end.
fn is_strip(heights: &[i64; 201], y: i64, i: usize) -> bool
    requires grid { IsGrid heights.now }
    requires depth { IsBetween (pos 0) y (entry heights.now 200) }
    requires strip { i ≤ 199 }
    ensures { IsTrue result → i ≡ strip_of heights.now y }
{
    if y < heights[i] {
        return false;
    }
    if i == 199 {
        return true;
    }
    y < heights[i + 1]
}

// The strip in which a depth lies: the one in whose part of the full height it lies, or the next one where the grid
// height between them is rounded down to the depth.
fn strip_at(heights: &[i64; 201], y: i64) -> usize
    requires grid { IsGrid heights.now }
    requires depth { IsBetween (pos 0) y (entry heights.now 200) }
    ensures value { result ≡ strip_of heights.now y }
    ensures within { result < 200 }
{
    let i = part_of(y, heights[200]);
    if i >= 199 {
        return 199;
    }
    if heights[i + 1] <= y { i + 1 } else { i }
}

// How many 200th parts of the full height a depth holds.
fn part_of(y: i64, full: i64) -> usize
    requires depth { IsBetween (pos 0) y (pos (10 ^ 9)) }
    requires full { IsFullHeight full }
    ensures { result ≡ 200 * unsigned_abs y / unsigned_abs full }
{
    (200 * y.unsigned_abs() / full.unsigned_abs()) as usize
}
