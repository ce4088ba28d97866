// The flow over a plane by Manning's formula.
ghost use Rattle.std.specs.Prelude.{◌≡◌, pos, ◌+ℤ◌, ◌-ℤ◌};
ghost use Rattle.fixed_num.specs.Ranges.{IsBetween, IsLandArea, IsPart, IsRoughness, IsSmallDepth, IsWidth};
ghost use Rattle.infiltration.specs.Depths.{IsRunoffStep};
ghost use Rattle.runoff.specs.Overland.{IsCover, IsFilledDepth, IsPlane, breadth_of, drain_rate_of, drained_of};
ghost use Rattle.runoff.specs.Overland.{excess_of, left_of, outflow_of, runoff_of, sheet_of, slope_root_of, speed_of};
ghost use Rattle.runoff.specs.Overland.{substep_of, two_thirds_of};

use fixed_num::{quo, root2, root3};

// A plane: the root of its slope in millionths, and its width over its area in 10^-9 of µm over mm².
#[derive(Clone, Copy, Debug)]
pub(crate) struct Plane {
    pub slope_root: i64,
    pub breadth: i64,
}

// What covers a subarea: depression storage in nm and roughness in millionths.
#[derive(Clone, Copy, Debug)]
pub(crate) struct Cover {
    pub storage: i64,
    pub n6: i64,
}

// The depth that a step leaves of the water on a subarea, and the depth that ran off, in nm.
#[derive(Clone, Copy, Debug)]
pub(crate) struct Water {
    pub left: i64,
    pub runoff: i64,
}

// The root of a slope.
#[tactic(auto, using(fixed_num::proofs::Bounds::casts), unfolding(crate::specs::Overland::slope_root_of))]
pub(crate) fn slope_root(slope6: i64) -> i64
    requires { IsPart slope6 }
    ensures value { result ≡ slope_root_of slope6 }
    ensures range { IsBetween (pos 0) result (pos 1_000_000) }
{
    root2(slope6 as i128 * 1_000_000) as i64
}

// The width of a plane over its area.
#[tactic(auto, using(fixed_num::proofs::Bounds::casts), unfolding(crate::specs::Overland::breadth_of))]
pub(crate) fn breadth(width: i64, area: i64) -> i64
    requires width { IsWidth width }
    requires area { IsLandArea area }
    ensures value { result ≡ breadth_of width area }
    ensures range { IsBetween (pos 0) result (pos 10_000_000_000_000) }
{
    quo(width as i128 * 1_000_000_000, area as i128) as i64
}

// The water above the depression storage.
#[tactic(auto, using(fixed_num::proofs::Bounds::casts), unfolding(crate::specs::Overland::excess_of))]
fn excess(depth: i64, storage: i64) -> i64
    requires depth { IsFilledDepth depth }
    requires storage { IsSmallDepth storage }
    ensures value { result ≡ excess_of depth storage }
    ensures range { IsBetween (pos 0) result depth }
{
    (depth - storage).max(0)
}

// The sheet of water that flows.
#[tactic(auto, using(fixed_num::proofs::Bounds::casts), unfolding(crate::specs::Overland::sheet_of))]
fn sheet(excess: i64) -> i64
    requires { IsFilledDepth excess }
    ensures value { result ≡ sheet_of excess }
    ensures range { IsSmallDepth result }
{
    excess.min(10_000_000_000)
}

// The two thirds power of the depth of a sheet.
#[tactic(auto, using(fixed_num::proofs::Bounds::casts), unfolding(crate::specs::Overland::two_thirds_of))]
fn two_thirds(sheet: i64) -> i128
    requires { IsSmallDepth sheet }
    ensures value { result ≡ two_thirds_of sheet }
    ensures range { IsBetween (pos 0) result (pos 4_700_000_000) }
{
    root3(sheet as i128 * sheet as i128 * 1_000_000_000)
}

// The speed of a sheet.
#[tactic(auto, using(fixed_num::proofs::Bounds::casts), unfolding(crate::specs::Overland::speed_of))]
fn speed(slope_root: i64, n6: i64, sheet: i64) -> i64
    requires slope { IsBetween (pos 0) slope_root (pos 1_000_000) }
    requires roughness { IsRoughness n6 }
    requires sheet { IsSmallDepth sheet }
    ensures value { result ≡ speed_of slope_root n6 sheet }
    ensures range { IsBetween (pos 0) result (pos 1_000_000_000_000) }
{
    quo(slope_root as i128 * two_thirds(sheet), n6 as i128).min(1_000_000_000_000) as i64
}

// How fast a sheet of this speed drains a plane.
#[tactic(auto, using(fixed_num::proofs::Bounds::casts), unfolding(crate::specs::Overland::drain_rate_of))]
fn drain_rate(breadth: i64, speed: i64) -> i64
    requires breadth { IsBetween (pos 0) breadth (pos 10_000_000_000_000) }
    requires speed { IsBetween (pos 0) speed (pos 1_000_000_000_000) }
    ensures value { result ≡ drain_rate_of breadth speed }
    ensures range { IsBetween (pos 0) result (pos 100_000_000_000_000_000) }
{
    quo(breadth as i128 * speed as i128, 1_000_000_000).min(100_000_000_000_000_000) as i64
}

// The depth that a sheet drains in a time.
#[tactic(auto, using(fixed_num::proofs::Bounds::casts), unfolding(crate::specs::Overland::drained_of))]
fn drained(rate: i64, ms: i64, sheet: i64) -> i128
    requires rate { IsBetween (pos 0) rate (pos 100_000_000_000_000_000) }
    requires time { IsBetween (pos 0) ms (pos 450_000) }
    requires sheet { IsSmallDepth sheet }
    ensures value { result ≡ drained_of rate ms sheet }
    ensures range { IsBetween (pos 0) result (pos 1_000_000_000_000_000_000_000) }
{
    quo(rate as i128 * ms as i128 * sheet as i128, 1_000_000_000_000)
}

// The depth that runs off in a substep.
#[tactic(auto, using(fixed_num::proofs::Bounds::casts), unfolding(crate::specs::Overland::outflow_of))]
fn outflow(plane: &Plane, cover: &Cover, ms: i64, depth: i64) -> i64
    requires plane { IsPlane plane.now }
    requires cover { IsCover cover.now }
    requires time { IsBetween (pos 0) ms (pos 450_000) }
    requires depth { IsFilledDepth depth }
    ensures value { result ≡ outflow_of plane.now cover.now ms depth }
    ensures range { IsBetween (pos 0) result depth }
{
    let excess = excess(depth, cover.storage);
    if excess == 0 {
        return 0;
    }
    let sheet = sheet(excess);
    let rate = drain_rate(plane.breadth, speed(plane.slope_root, cover.n6, sheet));
    (excess as i128).min(drained(rate, ms, sheet)) as i64
}

// The length of a substep.
#[tactic(auto, using(fixed_num::proofs::Bounds::casts), unfolding(crate::specs::Overland::substep_of))]
fn substep(ms: i64) -> i64
    requires { IsRunoffStep ms }
    ensures value { result ≡ substep_of ms }
    ensures range { IsBetween (pos 0) result (pos 450_000) }
{
    (ms.unsigned_abs() / 8) as i64
}

// The water after a substep more.
#[tactic(auto, using(fixed_num::proofs::Bounds::casts))]
fn after_substep(plane: &Plane, cover: &Cover, part: i64, water: &Water) -> Water
    requires plane { IsPlane plane.now }
    requires cover { IsCover cover.now }
    requires time { IsBetween (pos 0) part (pos 450_000) }
    requires left { IsFilledDepth water.now.left }
    requires runoff { IsFilledDepth water.now.runoff }
    ensures left { result.left ≡ water.now.left -ℤ outflow_of plane.now cover.now part water.now.left }
    ensures runoff { result.runoff ≡ water.now.runoff +ℤ outflow_of plane.now cover.now part water.now.left }
    ensures range { IsBetween (pos 0) result.left water.now.left }
{
    let outflow = outflow(plane, cover, part, water.left);
    Water {
        left: water.left - outflow,
        runoff: water.runoff + outflow,
    }
}

// The water on a subarea over the substeps of a step.
pub(crate) fn drain(plane: &Plane, cover: &Cover, ms: i64, depth: i64) -> Water
    requires plane { IsPlane plane.now }
    requires cover { IsCover cover.now }
    requires time { IsRunoffStep ms }
    requires depth { IsFilledDepth depth }
    ensures left { result.left ≡ left_of plane.now cover.now ms depth }
    ensures runoff { result.runoff ≡ runoff_of plane.now cover.now ms depth }
    ensures left_range { IsBetween (pos 0) result.left depth }
    ensures runoff_range { IsBetween (pos 0) result.runoff depth }
{
    let part = substep(ms);
    let mut water = Water {
        left: depth,
        runoff: 0,
    };
    for turn in 0..8u32 {
        water = after_substep(plane, cover, part, &water);
    }
    water
}

#[test]
fn a_paved_hectare_in_heavy_rain(rt: HostRuntime) {
    let plane = Plane {
        slope_root: slope_root(10_000),
        breadth: breadth(100_000_000, 10_000_000_000),
    };
    let cover = Cover {
        storage: 0,
        n6: 10_000,
    };
    assert_eq!(rt; outflow(&plane, &cover, 37_500, 3_000_000), 234_009);
    assert_eq!(rt; drain(&plane, &cover, 300_000, 3_000_000).runoff, 1_264_588);
}
