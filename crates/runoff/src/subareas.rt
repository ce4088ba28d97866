// The three subareas of a subcatchment.
ghost use Rattle.std.specs.Prelude.{◌≡◌, ◌*◌, ◌^◌, pos, ◌-ℤ◌};
ghost use Rattle.fixed_num.specs.Ranges.{IsBetween, IsPart, IsWithin};
ghost use Rattle.net_types.specs.Ranges.{InfilInRange, SubAreasInRange, SubInRange};
ghost use Rattle.runoff.specs.Overland.{IsCover, IsPlane};
ghost use Rattle.runoff.specs.Subareas.{IsSubcatchment, bare_of, infil_or, part_of, paved_of, pervious_of, plane_of};
ghost use Rattle.runoff.specs.Subareas.{subareas_or};

use crate::overland::{Cover, Plane, breadth, slope_root};
use fixed_num::quo;
use net_types::{Infil, Sub, SubAreas};

// A subarea: its area in mm², and what covers it.
#[derive(Clone, Copy, Debug)]
pub(crate) struct Subarea {
    pub area: i64,
    pub cover: Cover,
}

// The numbers of the subareas of a subcatchment.
fn subareas_in(sub: &Sub) -> SubAreas
    requires { SubInRange sub.now }
    ensures value { result ≡ subareas_or sub.now.sub_areas }
    ensures range { SubAreasInRange result }
{
    match &sub.sub_areas {
        Some(areas) => *areas,
        None => SubAreas {
            n_imperv6: 1_000,
            n_perv6: 1_000,
            s_imperv: 0,
            s_perv: 0,
            zero6: 0,
        },
    }
}

// The infiltration of a subcatchment.
pub(crate) fn infil_in(sub: &Sub) -> Infil
    requires { SubInRange sub.now }
    ensures value { result ≡ infil_or sub.now.infil }
    ensures range { InfilInRange result }
{
    match &sub.infil {
        Some(infil) => *infil,
        None => Infil::Horton {
            max: 0,
            min: 0,
            decay6: 0,
            dry: 86_400,
            volume: 0,
        },
    }
}

// A part of an area.
#[tactic(auto, using(fixed_num::proofs::Bounds::casts), unfolding(crate::specs::Subareas::part_of))]
fn part(area: i64, part6: i64) -> i64
    requires area { IsBetween (pos 0) area (pos (10 ^ 16)) }
    requires part6 { IsPart part6 }
    ensures value { result ≡ part_of area part6 }
    ensures range { IsBetween (pos 0) result (pos (10 ^ 16)) }
{
    quo(area as i128 * part6 as i128, 1_000_000) as i64
}

// The pervious subarea.
#[tactic(auto, using(fixed_num::proofs::Bounds::casts), unfolding(crate::specs::Subareas::pervious_of))]
pub(crate) fn pervious(sub: &Sub) -> Subarea
    requires { SubInRange sub.now }
    ensures value { result ≡ pervious_of sub.now }
    ensures area { IsBetween (pos 0) result.area (pos (10 ^ 16)) }
    ensures cover { IsCover result.cover }
{
    let areas = subareas_in(sub);
    Subarea {
        area: part(sub.area, 1_000_000 - sub.imperv6),
        cover: Cover {
            storage: areas.s_perv,
            n6: areas.n_perv6,
        },
    }
}

// The impervious subarea without depression storage.
#[tactic(auto, using(fixed_num::proofs::Bounds::casts), unfolding(crate::specs::Subareas::bare_of))]
pub(crate) fn bare(sub: &Sub) -> Subarea
    requires { SubInRange sub.now }
    ensures value { result ≡ bare_of sub.now }
    ensures area { IsBetween (pos 0) result.area (pos (10 ^ 16)) }
    ensures cover { IsCover result.cover }
{
    let areas = subareas_in(sub);
    Subarea {
        area: part(part(sub.area, sub.imperv6), areas.zero6),
        cover: Cover {
            storage: 0,
            n6: areas.n_imperv6,
        },
    }
}

// The impervious subarea with depression storage. Where both other areas were rounded up, 1 mm² too much is in them.
#[tactic(auto, using(fixed_num::proofs::Bounds::casts), unfolding(crate::specs::Subareas::paved_of))]
pub(crate) fn paved(sub: &Sub) -> Subarea
    requires { SubInRange sub.now }
    ensures value { result ≡ paved_of sub.now }
    ensures area { IsWithin (3 * 10 ^ 16) result.area }
    ensures cover { IsCover result.cover }
{
    let areas = subareas_in(sub);
    Subarea {
        area: sub.area - pervious(sub).area - bare(sub).area,
        cover: Cover {
            storage: areas.s_imperv,
            n6: areas.n_imperv6,
        },
    }
}

// The plane over which the water of all three runs.
#[tactic(auto, using(fixed_num::proofs::Bounds::casts), unfolding(crate::specs::Subareas::plane_of))]
pub(crate) fn plane(sub: &Sub) -> Plane
    requires { SubInRange sub.now }
    ensures value { result ≡ plane_of sub.now }
    ensures range { IsPlane result }
{
    Plane {
        slope_root: slope_root(sub.slope6),
        breadth: breadth(sub.width, sub.area),
    }
}
