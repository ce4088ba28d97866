// The time that a wave takes along a conduit.
ghost use Rattle.std.specs.Prelude.{◌≡◌, ◌*◌, ◌^◌, pos};
ghost use Rattle.fixed_num.specs.Ranges.{IsBetween, IsConduitLength, IsFlow, IsTravelTime};
ghost use Rattle.conduit_flow.specs.Geometry.{IsWet};
ghost use Rattle.conduit_flow.specs.TravelTime.{wave_speed_of, travel_time_of};

use crate::geometry::Middle;
use crate::momentum::flow_speed;
use fixed_num::quo;

// The speed of a wave that runs with the flow of a barrel, in µm/s.
#[tactic(auto, using(fixed_num::proofs::Bounds::casts), unfolding(crate::specs::TravelTime::wave_speed_of))]
fn wave_speed(flow: i64, middle: &Middle) -> i64
    requires flow { IsFlow flow }
    requires middle { IsWet middle.now }
    ensures value { result ≡ wave_speed_of flow middle.now }
    ensures range { IsBetween (pos 1) result (pos (2 * 10 ^ 16)) }
{
    let speed = flow_speed(flow, middle.area);
    1_i64.max(speed + middle.wave)
}

// The time of such a wave along a length, in ms.
#[tactic(auto, using(fixed_num::proofs::Bounds::casts), unfolding(crate::specs::TravelTime::travel_time_of))]
pub(crate) fn travel_time(flow: i64, middle: &Middle, length: i64) -> i64
    requires flow { IsFlow flow }
    requires middle { IsWet middle.now }
    requires length { IsConduitLength length }
    ensures value { result ≡ travel_time_of flow middle.now length }
    ensures range { IsTravelTime result }
{
    let wave = wave_speed(flow, middle);
    3_600_000_i128.min(quo(length as i128 * 1_000, wave as i128)) as i64
}
