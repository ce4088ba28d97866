// The table of a section.
ghost use Rattle.std.specs.Prelude.{◌≡◌, ◌≤◌, ◌*◌, ◌^◌, ℤ, pos, ◌≤ℤ◌, IsTrue};
ghost use Rattle.fixed_num.specs.Ranges.{IsBetween, IsFullHeight, AreBarrels, IsFall};
ghost use Rattle.fixed_num.specs.Rounding.{quo_of};
ghost use Rattle.net_types.specs.Ranges.{SectionInRange};
ghost use Rattle.xsect_tables.specs.Sections.{is_closed as shape_is_closed};
ghost use Rattle.xsect_tables.specs.SectionTable.{entry, table_of, IsTable, RowBetween, full_height as height_of_table};
ghost use Rattle.xsect_tables.specs.SectionTable.{full_area as area_of_table};
ghost use Rattle.xsect_tables.specs.LookUps.{IsPlace, area_of, width_of, perimeter_of, radius_of};
ghost use Rattle.xsect_tables.specs.LookUps.{is_in_slot as reaches_into_slot, slot_area as area_of_slot};

use crate::flow::ratio;
use crate::look_up::{Inverses, Place, inverses_of, place_of, value_at};
use crate::rows::{areas, has_plain_area, heights, perimeters, widths};
use fixed_num::quo;
use net_types::{Section, Shape};
use std::marker::Model;

/// A section's grid heights (µm), areas below them (mm²), widths at them and wetted perimeters below them (µm),
/// with the number of barrels, and whether the section is closed at the top.
#[derive(Debug, Drop)]
pub struct Table {
    heights: [i64; 201],
    areas: [i64; 201],
    widths: [i64; 201],
    perimeters: [i64; 201],
    barrels: i64,
    closed: bool,
    slot: i64,
    inverses: Inverses,
}

impl Model for Table {
    ghost use Rattle.xsect_tables.specs.SectionTable.{SectionTable};
    ghost use Rattle.xsect_tables.specs.LookUps.{IsStored};

    ghost Value = { SectionTable };

    ghost view = { λ t. record {
      heights = t.heights;
      areas = t.areas;
      widths = t.widths;
      perimeters = t.perimeters;
      barrels = t.barrels;
      closed = t.closed;
    } };

    ghost invariant = { λ t. IsStored (record {
      heights = t.heights;
      areas = t.areas;
      widths = t.widths;
      perimeters = t.perimeters;
      barrels = t.barrels;
      closed = t.closed;
    }) t.slot };
}

impl Table {
    /// The table of a section, whose numbers lie in the ranges in which an input gives them.
    ///
    /// Source: this project's profile.
    pub fn build(section: &Section) -> Table
        requires { SectionInRange section.now }
        ensures value { result ≡ table_of section.now }
        ensures table { IsTable result }
        // No area below a grid height is greater than the full area.
        ensures areas { RowBetween (pos 0) result.areas (area_of_table result) }
    {
        Table {
            heights: heights(section.full),
            areas: areas(section),
            widths: widths(section),
            perimeters: perimeters(section),
            barrels: section.barrels,
            closed: has_top(&section.shape),
            slot: slot(section.full),
            inverses: inverses_of(section.full),
        }
    }

    /// The full height, in µm.
    pub fn full_height(&self) -> i64
        ensures value { result ≡ height_of_table self.now }
        ensures range { IsFullHeight result }
    {
        self.heights[200]
    }

    /// The area below the full height of a section, in mm²: that of its table, which is not made.
    ///
    /// Source: this project's profile.
    pub fn section_area(section: &Section) -> i64
        requires { SectionInRange section.now }
        ensures { result ≡ area_of_table (table_of section.now) }
    {
        areas(section)[200]
    }

    /// Whether the area below the full height of a section is plainly 1 to 10^11 mm², which a few numbers tell; where
    /// they don't, [`Table::section_area`] does.
    ///
    /// Source: this project's profile.
    pub fn has_plain_area(section: &Section) -> bool
        requires { SectionInRange section.now }
        ensures { IsTrue result → IsBetween (pos 1) (area_of_table (table_of section.now)) (pos (10 ^ 11)) }
    {
        has_plain_area(section)
    }

    /// The number of barrels.
    pub fn barrels(&self) -> i64
        ensures value { result ≡ self.now.barrels }
        ensures range { AreBarrels result }
    {
        self.barrels
    }

    /// Whether the section is closed at the top.
    pub fn is_closed(&self) -> bool
        ensures { result ≡ self.now.closed }
    {
        self.closed
    }

    /// The area below the full height, in mm².
    pub fn full_area(&self) -> i64
        ensures value { result ≡ area_of_table self.now }
        ensures range { IsBetween (pos 0) result (pos (10 ^ 18)) }
    {
        self.areas[200]
    }

    /// The area below a depth in µm, in mm². A depth below 0 counts as 0. Above the full height an open section keeps
    /// its area, and the area of a closed one grows by that of its slot, which is a hundredth of the full height
    /// wide.
    ///
    /// Source: Reference Manual volume II, chapter 3 (Preissmann slot), in whole numbers by this project's profile.
    pub fn area(&self, y: i64) -> i64
        requires { IsFall y }
        ensures value { result ≡ area_of self.now y }
        ensures range { IsBetween (pos 0) result (pos (2 * 10 ^ 18)) }
    {
        self.area_at(y, &self.place(y))
    }

    /// The width at a depth, both in µm. A depth below 0 counts as 0. Above the full height an open section keeps its
    /// width; the width of a closed one is that of its slot there, and nowhere less.
    ///
    /// Source: Reference Manual volume II, chapter 3 (Preissmann slot), in whole numbers by this project's profile.
    pub fn width(&self, y: i64) -> i64
        ensures value { result ≡ width_of self.now y }
        ensures range { IsBetween (pos 0) result (pos (10 ^ 18)) }
    {
        self.width_at(y, &self.place(y))
    }

    /// The wetted perimeter below a depth, both in µm. A depth below 0 counts as 0, and one above the full height as
    /// that.
    ///
    /// Source: this project's profile.
    pub fn perimeter(&self, y: i64) -> i64
        ensures value { result ≡ perimeter_of self.now y }
        ensures range { IsBetween (pos 0) result (pos (10 ^ 18)) }
    {
        self.perimeter_at(y, &self.place(y))
    }

    // Where a depth lies.
    pub(crate) fn place(&self, y: i64) -> Place
        ensures { IsPlace self.now.heights y result }
    {
        place_of(&self.heights, &self.inverses, y)
    }

    // The area below a depth whose place is known.
    pub(crate) fn area_at(&self, y: i64, place: &Place) -> i64
        requires depth { IsFall y }
        requires place { IsPlace self.now.heights y place.now }
        ensures value { result ≡ area_of self.now y }
        ensures range { IsBetween (pos 0) result (pos (2 * 10 ^ 18)) }
    {
        if self.is_in_slot(y) {
            return self.full_area() + self.slot_area(y);
        }
        value_at(&self.heights, &self.areas, place)
    }

    // The width at a depth whose place is known.
    pub(crate) fn width_at(&self, y: i64, place: &Place) -> i64
        requires place { IsPlace self.now.heights y place.now }
        ensures value { result ≡ width_of self.now y }
        ensures range { IsBetween (pos 0) result (pos (10 ^ 18)) }
    {
        if self.is_in_slot(y) {
            return self.slot;
        }
        let width = value_at(&self.heights, &self.widths, place);
        if self.closed {
            return self.slot.max(width);
        }
        width
    }

    // The wetted perimeter below a depth whose place is known.
    pub(crate) fn perimeter_at(&self, y: i64, place: &Place) -> i64
        requires place { IsPlace self.now.heights y place.now }
        ensures value { result ≡ perimeter_of self.now y }
        ensures range { IsBetween (pos 0) result (pos (10 ^ 18)) }
    {
        value_at(&self.heights, &self.perimeters, place)
    }

    // The hydraulic radius at a depth whose place and area are known.
    pub(crate) fn radius_at(&self, y: i64, place: &Place, area: i64) -> i64
        requires place { IsPlace self.now.heights y place.now }
        requires area { area ≡ area_of self.now y }
        requires range { IsBetween (pos 0) area (pos (2 * 10 ^ 18)) }
        ensures value { result ≡ radius_of self.now y }
        ensures range { IsBetween (pos 0) result (pos (3 * 10 ^ 13)) }
    {
        let least = area.min(self.areas[200]);
        ratio(least, self.perimeter_at(y, place))
    }

    // Whether a depth reaches into the slot of a closed section.
    fn is_in_slot(&self, y: i64) -> bool
        ensures { result ≡ reaches_into_slot self.now y }
    {
        self.closed && self.heights[200] < y
    }

    // The area of the slot below a depth that reaches into it.
    fn slot_area(&self, y: i64) -> i64
        requires depth { IsFall y }
        requires above { height_of_table self.now ≤ℤ y }
        ensures value { result ≡ area_of_slot self.now y }
        ensures range { IsBetween (pos 0) result (pos (4 * 10 ^ 11)) }
    {
        quo(
            self.slot as i128 * (y as i128 - self.heights[200] as i128),
            1_000_000,
        ) as i64
    }

    // Grid height `i`.
    pub(crate) fn grid_height(&self, i: usize) -> i64
        requires { i ≤ 200 }
        ensures value { result ≡ entry self.now.heights i }
        ensures range { IsBetween (pos 0) result (height_of_table self.now) }
        ensures small { IsBetween (pos 0) result (pos (10 ^ 9)) }
    {
        self.heights[i]
    }

    // The area below grid height `i`.
    pub(crate) fn grid_area(&self, i: usize) -> i64
        requires { i ≤ 200 }
        ensures value { result ≡ entry self.now.areas i }
        ensures range { IsBetween (pos 0) result (pos (10 ^ 18)) }
    {
        self.areas[i]
    }
}

// Whether a shape is closed at the top.
fn has_top(shape: &Shape) -> bool
    ensures { result ≡ shape_is_closed shape.now }
{
    matches!(shape, Shape::RectClosed { .. } | Shape::Circular)
}

// The width of the slot of a closed section of a full height.
fn slot(full: i64) -> i64
    requires { IsFullHeight full }
    ensures { result ≡ quo_of full (pos 100) }
{
    quo(full as i128, 100) as i64
}
