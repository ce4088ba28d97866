// Celerity, uniform flow, and the depths at which a flow is critical or normal.
ghost use Rattle.std.specs.Prelude.{◌≡◌, ℕ, ◌*◌, ◌^◌, ◌≤◌, ℤ, pos, ◌*ℤ◌, ◌≤ℤ◌, int_le};
ghost use Rattle.std.specs.Int.{int_max};
ghost use Rattle.fixed_num.specs.declared.constants.TheConstants.{GRAVITY};
ghost use Rattle.fixed_num.specs.Ranges.{IsBetween, IsConduitLength, IsRoughness, IsFall};
ghost use Rattle.fixed_num.specs.Rounding.{quo_of};
ghost use Rattle.xsect_tables.specs.LookUps.{ratio_of, radius_of, end_section_of, flow_section_of};
ghost use Rattle.xsect_tables.specs.SectionTable.{full_height};
ghost use Rattle.xsect_tables.specs.NormalFlow.{celerity_of, slope_of, speed_of, discharge_of, uniform_of};
ghost use Rattle.xsect_tables.specs.NormalFlow.{normal_flow_of, is_carried as carried_at};
ghost use Rattle.xsect_tables.specs.NormalFlow.{is_subcritical as subcritical_at, critical_of, normal_of};

use crate::table::Table;
use fixed_num::{GRAVITY, quo};
use quick_quotients::{quick_root2, quick_root3, reaches_root};

/// The area below a depth, in mm², and the width there, in µm.
#[derive(Clone, Copy, Debug)]
pub struct EndSection {
    pub area: i64,
    pub width: i64,
}

/// The area below a depth, in mm², and the width and the hydraulic radius there, in µm.
#[derive(Clone, Copy, Debug)]
pub struct FlowSection {
    pub area: i64,
    pub width: i64,
    pub radius: i64,
}

/// The celerity of a shallow wave over an area in mm² of a width in µm, in µm/s.
///
/// Source: Reference Manual volume II, chapter 3, in whole numbers by this project's profile.
pub fn celerity(area: i64, width: i64) -> i64
    requires area { IsBetween (pos 0) area (pos (2 * 10 ^ 18)) }
    requires width { IsBetween (pos 0) width (pos (10 ^ 18)) }
    ensures value { result ≡ celerity_of area width }
    ensures range { IsBetween (pos 0) result (pos (10 ^ 16)) }
{
    quick_root2(energy(area, width)) as i64
}

/// Whether a speed in µm/s is at least the [`celerity`] over an area in mm² of a width in µm. It computes no root.
///
/// Source: Reference Manual volume II, chapter 3, in whole numbers by this project's profile.
pub fn reaches_celerity(speed: i128, area: i64, width: i64) -> bool
    requires area { IsBetween (pos 0) area (pos (2 * 10 ^ 18)) }
    requires width { IsBetween (pos 0) width (pos (10 ^ 18)) }
    ensures { result ≡ int_le (celerity_of area width) speed }
{
    reaches_root(speed, energy(area, width))
}

// The square of the celerity, in µm²/s².
fn energy(area: i64, width: i64) -> i128
    requires area { IsBetween (pos 0) area (pos (2 * 10 ^ 18)) }
    requires width { IsBetween (pos 0) width (pos (10 ^ 18)) }
    ensures value { result ≡ GRAVITY *ℤ quo_of (area *ℤ pos 1_000_000) (int_max width (pos 1)) }
    ensures range { IsBetween (pos 0) result (pos (10 ^ 32)) }
{
    GRAVITY * quo(area as i128 * 1_000_000, width.max(1) as i128)
}

// An area in mm² over a wetted perimeter in µm.
pub(crate) fn ratio(area: i64, perimeter: i64) -> i64
    requires area { IsBetween (pos 0) area (pos (2 * 10 ^ 18)) }
    requires perimeter { IsBetween (pos 0) perimeter (pos (10 ^ 18)) }
    requires wet { area ≤ℤ (pos 30_000_000 *ℤ int_max perimeter (pos 1)) }
    ensures value { result ≡ ratio_of area perimeter }
    ensures range { IsBetween (pos 0) result (pos (3 * 10 ^ 13)) }
{
    quo(area as i128 * 1_000_000, perimeter.max(1) as i128) as i64
}

// The root of the slope of a drop over a length, in millionths.
fn slope(drop: i64, length: i64) -> i64
    requires drop { IsFall drop }
    requires length { IsConduitLength length }
    ensures value { result ≡ slope_of drop length }
    ensures range { IsBetween (pos 0) result (pos (2 * 10 ^ 9)) }
{
    quick_root2(quo(drop.max(305) as i128 * 1_000_000_000_000, length as i128)) as i64
}

// The speed of uniform flow, in µm/s.
fn speed(radius: i64, slope6: i64, n6: i64) -> i64
    requires radius { IsBetween (pos 0) radius (pos (3 * 10 ^ 13)) }
    requires slope { IsBetween (pos 0) slope6 (pos (2 * 10 ^ 9)) }
    requires roughness { IsRoughness n6 }
    ensures value { result ≡ speed_of radius slope6 n6 }
    ensures range { IsBetween (pos 0) result (pos (10 ^ 18)) }
{
    let power = quick_root3(radius as i128 * radius as i128 * 1_000_000_000);
    quo(power * slope6 as i128, 10 * n6 as i128) as i64
}

// A speed over an area, in cm³/s.
fn discharge(speed: i64, area: i64) -> i128
    requires speed { IsBetween (pos 0) speed (pos (10 ^ 18)) }
    requires area { IsBetween (pos 0) area (pos (2 * 10 ^ 18)) }
    ensures value { result ≡ discharge_of speed area }
    ensures range { IsBetween (pos 0) result (pos (10 ^ 31)) }
{
    quo(speed as i128 * area as i128, 1_000_000)
}

impl Table {
    /// The hydraulic radius at a depth, both in µm.
    ///
    /// Source: this project's profile.
    pub fn radius(&self, y: i64) -> i64
        requires { IsFall y }
        ensures value { result ≡ radius_of self.now y }
        ensures range { IsBetween (pos 0) result (pos (3 * 10 ^ 13)) }
    {
        let place = self.place(y);
        self.radius_at(y, &place, self.area_at(y, &place))
    }

    /// The area and the width at a depth in µm.
    ///
    /// Source: this project's profile.
    pub fn end_section(&self, y: i64) -> EndSection
        requires { IsFall y }
        ensures { result ≡ end_section_of self.now y }
    {
        let place = self.place(y);
        EndSection {
            area: self.area_at(y, &place),
            width: self.width_at(y, &place),
        }
    }

    /// The area, the width and the hydraulic radius at a depth in µm.
    ///
    /// Source: this project's profile.
    pub fn flow_section(&self, y: i64) -> FlowSection
        requires { IsFall y }
        ensures { result ≡ flow_section_of self.now y }
    {
        let place = self.place(y);
        let area = self.area_at(y, &place);
        FlowSection {
            area,
            width: self.width_at(y, &place),
            radius: self.radius_at(y, &place, area),
        }
    }

    /// The flow in cm³/s of uniform flow at a depth `y` in µm, in a conduit of roughness `n6` in millionths that
    /// falls by `drop` over `length`, both in µm. A drop below 305 µm counts as 305 µm.
    ///
    /// Source: Manning's formula, in whole numbers by this project's profile.
    pub fn normal_flow(&self, y: i64, n6: i64, drop: i64, length: i64) -> i128
        requires depth { IsFall y }
        requires roughness { IsRoughness n6 }
        requires drop { IsFall drop }
        requires length { IsConduitLength length }
        ensures value { result ≡ normal_flow_of self.now y n6 drop length }
        ensures range { IsBetween (pos 0) result (pos (10 ^ 31)) }
    {
        self.uniform(y, n6, slope(drop, length))
    }

    // The uniform flow at a depth, in cm³/s.
    fn uniform(&self, y: i64, n6: i64, slope6: i64) -> i128
        requires depth { IsFall y }
        requires roughness { IsRoughness n6 }
        requires slope { IsBetween (pos 0) slope6 (pos (2 * 10 ^ 9)) }
        ensures value { result ≡ uniform_of self.now y n6 slope6 }
        ensures range { IsBetween (pos 0) result (pos (10 ^ 31)) }
    {
        let place = self.place(y);
        let area = self.area_at(y, &place);
        let speed = speed(self.radius_at(y, &place, area), slope6, n6);
        discharge(speed, area)
    }

    /// The critical depth of a flow of `q` cm³/s, in µm: 0 for no flow, else the least grid height at which the flow
    /// is no faster than a wave, and the full height where it is faster at all lower ones.
    ///
    /// Source: Reference Manual volume II, chapter 3, on the grid of this project's profile.
    pub fn critical(&self, q: i64) -> i64
        ensures value { result ≡ critical_of self.now q }
        ensures range { IsBetween (pos 0) result (full_height self.now) }
    {
        let full = self.full_height();
        if q <= 0 {
            return 0;
        }
        for i in 0..200 {
            if self.is_subcritical(q, i) {
                return self.grid_height(i);
            }
        }
        full
    }

    // Whether a flow through the area below grid height `i` is no faster than a wave there; not at the bottom.
    fn is_subcritical(&self, q: i64, i: usize) -> bool
        requires { i ≤ 200 }
        ensures { result ≡ subcritical_at self.now q i }
    {
        if i == 0 {
            return false;
        }
        let area = self.grid_area(i);
        if area <= 0 {
            return false;
        }
        let width = self.width(self.grid_height(i));
        quo(q as i128 * 1_000_000, area as i128) <= celerity(area, width) as i128
    }

    /// The normal depth of a flow of `q` cm³/s, in µm, in a conduit of roughness `n6` in millionths that falls by
    /// `drop` over `length`, both in µm: 0 for no flow, else the least grid height at which uniform flow is at least
    /// `q`, and the full height where it is less at all lower ones. A drop below 305 µm counts as 305 µm.
    ///
    /// Source: Manning's formula, on the grid of this project's profile.
    pub fn normal(&self, q: i64, n6: i64, drop: i64, length: i64) -> i64
        requires roughness { IsRoughness n6 }
        requires drop { IsFall drop }
        requires length { IsConduitLength length }
        ensures value { result ≡ normal_of self.now q n6 drop length }
        ensures range { IsBetween (pos 0) result (full_height self.now) }
    {
        let full = self.full_height();
        if q <= 0 {
            return 0;
        }
        let slope6 = slope(drop, length);
        for i in 0..200 {
            if self.is_carried(q, n6, slope6, i) {
                return self.grid_height(i);
            }
        }
        full
    }

    // Whether uniform flow at grid height `i` is at least `q`.
    fn is_carried(&self, q: i64, n6: i64, slope6: i64, i: usize) -> bool
        requires roughness { IsRoughness n6 }
        requires slope { IsBetween (pos 0) slope6 (pos (2 * 10 ^ 9)) }
        requires place { i ≤ 200 }
        ensures { result ≡ carried_at self.now q n6 slope6 i }
    {
        q as i128 <= self.uniform(self.grid_height(i), n6, slope6)
    }
}
