// The rows of a table, each from the section.
ghost use Rattle.std.specs.Prelude.{◌≡◌, ℕ, ◌+◌, ◌*◌, ◌^◌, ◌<◌, ◌≤◌, ℤ, pos, IsTrue};
ghost use Rattle.fixed_num.specs.Ranges.{IsWithin, IsBetween, IsFullHeight, IsWidth, IsCoefficient};
ghost use Rattle.net_types.specs.Ranges.{SectionInRange};
ghost use Rattle.xsect_tables.specs.Sections.{shape_width, top_width as width_of_top, width_at as section_width, is_narrow};
ghost use Rattle.xsect_tables.specs.SectionTable.{row_of, grid_height as height_of_grid, grid_width as width_of_grid};
ghost use Rattle.xsect_tables.specs.SectionTable.{grid_area};
ghost use Rattle.xsect_tables.specs.SectionTable.{grid_perimeter, wetted_perimeter, strip_area as area_of_strip};
ghost use Rattle.xsect_tables.specs.SectionTable.{strip_sides as sides_of_strip, sides_of};

use fixed_num::quo;
use net_types::{Section, Shape};
use quick_quotients::quick_root2;

// Grid height `i` of a full height, in µm.
fn grid_height(full: i64, i: usize) -> i64
    requires full { IsFullHeight full }
    requires place { i ≤ 200 }
    ensures value { result ≡ height_of_grid full i }
    ensures range { IsBetween (pos 0) result (pos (10 ^ 9)) }
    ensures within { IsBetween (pos 0) result full }
{
    quo(i as i128 * full as i128, 200) as i64
}

// The width of a section at a depth, in µm.
fn width_at(section: &Section, y: i64) -> i64
    requires range { SectionInRange section.now }
    requires depth { IsBetween (pos 0) y section.now.full }
    ensures value { result ≡ section_width section.now y }
    ensures range { IsBetween (pos 0) result (pos (3 * 10 ^ 11)) }
{
    match section.shape {
        Shape::RectOpen { width } => width,
        Shape::RectClosed { width } => width,
        Shape::Trapezoidal {
            bottom,
            left6,
            right6,
        } => trapezoid_width(bottom, left6, right6, y),
        Shape::Triangular { top } => triangle_width(top, section.full, y),
        Shape::Circular => circle_width(section.full, y),
    }
}

// The width of a trapezoid at a depth: of its bottom, and of its two side slopes up to there.
fn trapezoid_width(bottom: i64, left6: i64, right6: i64, y: i64) -> i64
    requires bottom { IsWidth bottom }
    requires left { IsCoefficient left6 }
    requires right { IsCoefficient right6 }
    requires depth { IsBetween (pos 0) y (pos (10 ^ 9)) }
    ensures value { result ≡ shape_width (Shape.Trapezoidal bottom left6 right6) y y }
    ensures range { IsBetween (pos 0) result (pos (3 * 10 ^ 11)) }
{
    let spread = quo((left6 as i128 + right6 as i128) * y as i128, 1_000_000);
    (bottom as i128 + spread) as i64
}

// The width of a triangle at a depth: the part of its top that the depth is of the full height.
fn triangle_width(top: i64, full: i64, y: i64) -> i64
    requires top { IsWidth top }
    requires full { IsFullHeight full }
    requires depth { IsBetween (pos 0) y full }
    ensures value { result ≡ shape_width (Shape.Triangular top) full y }
    ensures range { IsBetween (pos 0) result (pos (10 ^ 10)) }
{
    quo(top as i128 * y as i128, full as i128) as i64
}

// The width of a circle at a depth: twice the mean proportional of the heights below and above it.
fn circle_width(full: i64, y: i64) -> i64
    requires full { IsFullHeight full }
    requires depth { IsBetween (pos 0) y full }
    ensures value { result ≡ shape_width Shape.Circular full y }
    ensures range { IsBetween (pos 0) result (pos (2 * 10 ^ 9)) }
{
    (2 * quick_root2(y as i128 * (full - y) as i128)) as i64
}

// The area of the strip between grid heights `i` and `i + 1`, in µm².
fn strip_area(section: &Section, i: usize) -> i128
    requires range { SectionInRange section.now }
    requires place { i < 200 }
    ensures value { result ≡ area_of_strip section.now i }
    ensures range { IsBetween (pos 0) result (pos (3 * 10 ^ 20)) }
{
    let low = grid_height(section.full, i);
    let high = grid_height(section.full, i + 1);
    let middle = quo(low as i128 + high as i128, 2) as i64;
    width_at(section, middle) as i128 * (high as i128 - low as i128)
}

// The length of the two sides of that strip, in µm.
fn strip_sides(section: &Section, i: usize) -> i64
    requires range { SectionInRange section.now }
    requires place { i < 200 }
    ensures value { result ≡ sides_of_strip section.now i }
    ensures range { IsBetween (pos 0) result (pos (10 ^ 12)) }
{
    let low = grid_height(section.full, i);
    let high = grid_height(section.full, i + 1);
    let narrow = width_at(section, low);
    let wide = width_at(section, high);
    sides(high - low, wide - narrow)
}

// The length of two sides that rise and spread so far together, in µm.
fn sides(rise: i64, spread: i64) -> i64
    requires rise { IsWithin (2 * 10 ^ 9) rise }
    requires spread { IsWithin (6 * 10 ^ 11) spread }
    ensures value { result ≡ sides_of rise spread }
    ensures range { IsBetween (pos 0) result (pos (10 ^ 12)) }
{
    quick_root2(4 * (rise as i128 * rise as i128) + spread as i128 * spread as i128) as i64
}

// The grid heights.
pub(crate) fn heights(full: i64) -> [i64; 201]
    requires { IsFullHeight full }
    ensures { result ≡ row_of (height_of_grid full) }
{
    let mut row = [0; 201];
    for i in 0..201 {
        row[i] = grid_height(full, i);
    }
    row
}

// The widths at the grid heights.
pub(crate) fn widths(section: &Section) -> [i64; 201]
    requires { SectionInRange section.now }
    ensures { result ≡ row_of (width_of_grid section.now) }
{
    let mut row = [0; 201];
    for i in 0..201 {
        row[i] = width_at(section, grid_height(section.full, i));
    }
    row
}

// The areas below the grid heights, strip after strip.
pub(crate) fn areas(section: &Section) -> [i64; 201]
    requires { SectionInRange section.now }
    ensures { result ≡ row_of (grid_area section.now) }
{
    let mut row = [0; 201];
    let mut below: i128 = 0;
    for i in 0..200 {
        below += strip_area(section, i);
        row[i + 1] = quo(below, 1_000_000) as i64;
    }
    row
}

// The wetted perimeters at the grid heights; a flat top is wetted at the full height.
pub(crate) fn perimeters(section: &Section) -> [i64; 201]
    requires { SectionInRange section.now }
    ensures { result ≡ row_of (wetted_perimeter section.now) }
{
    let mut row = side_perimeters(section);
    row[200] += top_width(&section.shape);
    row
}

// The width of the flat top of a closed shape, in µm.
fn top_width(shape: &Shape) -> i64
    ensures { result ≡ width_of_top shape.now }
{
    match shape {
        Shape::RectClosed { width } => *width,
        _ => 0,
    }
}

// The lengths of bottom and sides below the grid heights, strip after strip.
fn side_perimeters(section: &Section) -> [i64; 201]
    requires { SectionInRange section.now }
    ensures { result ≡ row_of (grid_perimeter section.now) }
{
    let mut row = [0; 201];
    let mut wet = width_at(section, grid_height(section.full, 0));
    row[0] = wet;
    for i in 0..200 {
        wet += strip_sides(section, i);
        row[i + 1] = wet;
    }
    row
}

// A strip of at least this area, in µm², makes the full area at least 1 mm².
const LEAST_STRIP: i128 = 1_000_000;

// Up to this full height, in µm, a narrow section has at most 10^11 mm².
const LOW: i64 = 10_000_000;

// Whether the full area of a section is plainly 1 to 10^11 mm²: by its shape, its height and one strip. No sum is made.
pub(crate) fn has_plain_area(section: &Section) -> bool
    requires { SectionInRange section.now }
    ensures { IsTrue result → IsBetween (pos 1) (grid_area section.now 200) (pos (10 ^ 11)) }
{
    if !is_narrow(&section.shape) {
        return false;
    }
    if section.full > LOW {
        return false;
    }
    strip_area(section, 100) >= LEAST_STRIP
}

// Whether no width of a shape is above 10^10 µm.
fn is_narrow(shape: &Shape) -> bool
    ensures { result ≡ is_narrow shape.now }
{
    !matches!(shape, Shape::Trapezoidal { .. })
}
